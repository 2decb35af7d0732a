// A planner below both layers, and the card that it writes: the same period bounds and waits.
use super::entering::{MASH, add, after, enter_all, period, span};
use bound::period_bound;
use card::Card;
use kinds::{Counted, Hours};
use planner::Planner;
use sheet::{LeftOut, OtherPeriod, Source};
use std::process::Abort;
use std::test::Fail;
use waits::wait_chart;

// Steps of 6, 20 and 4 hours in a row; the next brew's step 1 waits for step 3, so that a period takes 30 hours.
fn row_of_three(rt: &impl Abort) -> Planner {
    let mut planner = Planner::empty();
    enter_all(
        rt,
        &mut planner,
        &[
            period(30),
            span(60),
            add(1, 6, 0, MASH),
            add(2, 20, 0, MASH),
            add(3, 4, 0, MASH),
            after(1, 1, 2, 0, 0),
            after(2, 2, 3, 0, 0),
            after(3, 3, 2, 2, 2),
            after(4, 3, 1, 0, 1),
        ],
    );
    planner
}

// The period bound, and the waits from hour zero to step 3 and from step 3 to step 2; or 0 and the number of the refusal
// for the waits, where there is no lawful timetable.
fn told<S: Source>(source: &S) -> (u16, i16, i16) {
    let mut hours = [Hours { hours: 0 }; 1024];
    let mut counted = [Counted { hours: 0, links: 0 }; 1024];
    let mut chart = [0i16; 1024];
    let mut codes = [0u16; 32];
    let bound = period_bound(source, &mut hours, &mut counted, &mut codes).unwrap_or(0);
    match wait_chart(source, &mut hours, &mut counted, &mut chart, &mut codes) {
        Ok(()) => (bound, chart[3], chart[98]),
        Err(refusal) => (bound, 0, refusal.number() as i16),
    }
}

fn tells_as_worked_out<S: Source>(rt: &impl Abort, source: &S) {
    // step 3 ends at most 30 hours before the next step 1 starts: 4 - 30 + 6
    assert_eq!(rt; told(source), (30, 26, -20));
    assert_eq!(rt;
        told(&OtherPeriod {
            below: source,
            period: 31,
        }),
        (30, 26, -21)
    );
    assert_eq!(rt;
        told(&OtherPeriod {
            below: source,
            period: 29,
        }),
        (30, 0, 14)
    );
    // step 3 starts by hour 56, and step 2 not before hour 6; step 2 takes 20 hours of each period
    assert_eq!(rt;
        told(&LeftOut {
            below: source,
            number: 4,
        }),
        (20, 26, -50)
    );
}

#[test]
fn planner(rt: HostRuntime) {
    tells_as_worked_out(&rt, &row_of_three(&rt));
}

#[test]
fn card(rt: HostRuntime) -> Result<(), Fail> {
    let mut bytes = [0; 1081];
    let length = row_of_three(&rt).write_card(&mut bytes)?;
    assert!(rt; length <= 1081);
    tells_as_worked_out(&rt, &Card::new(&bytes[..length]));
    Ok(())
}
