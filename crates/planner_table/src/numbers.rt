// Each number from each command that can cause it: alone, and beside the next lower one that can go with it.
use super::entering::{
    MASH, add, after, at, duration, enter_all, free, outcome, period, remove, span, vessels, within,
};
use book::Command;
use kinds::{Counted, Hours};
use planner::{Planner, Refusal};
use std::process::Abort;
use std::test::Fail;

// Period 24 and span 2,000. Steps 1 and 2 are named by an After, 3 and 4 by a Within, 5 by an At, 6 by no rule.
fn six_steps(rt: &impl Abort) -> Planner {
    let mut planner = Planner::empty();
    enter_all(
        rt,
        &mut planner,
        &[
            span(2000),
            add(1, 6, 0, MASH),
            add(2, 6, 0, MASH),
            add(3, 6, 0, MASH),
            add(4, 6, 0, MASH),
            add(5, 6, 0, MASH),
            add(6, 7, 0, MASH),
            after(1, 1, 2, 0, 0),
            within(2, 3, 4, 10),
            at(3, 5, 7),
        ],
    );
    planner
}

// The planner's card, with zeros behind it.
fn card_of(planner: &Planner) -> Result<[u8; 1081], Fail> {
    let mut bytes = [0; 1081];
    planner.write_card(&mut bytes)?;
    Ok(bytes)
}

// A command, and the number that refuses it.
#[derive(Clone, Copy)]
struct Row<'a>(Command<'a>, u8);

// Each command is refused by its number, with no code written, and none changes the planner's card or stock.
fn all(rt: &impl Abort, rows: &[Row]) -> Result<(), Fail> {
    let mut planner = six_steps(rt);
    let before = card_of(&planner)?;
    for row in rows {
        assert_eq!(rt;
            outcome(&mut planner, &row.0),
            (row.1, 0),
            "a row of the table"
        );
    }
    assert_eq!(rt; planner.count(0)?, 0);
    assert!(rt; card_of(&planner)? == before);
    Ok(())
}

// No step outside 1 to 31 is present, and no step that a rule names is absent.
#[test]
fn steps(rt: HostRuntime) -> Result<(), Fail> {
    all(
        &rt,
        &[
            Row(add(0, 6, 0, MASH), 1),
            Row(add(32, 6, 0, MASH), 1),
            Row(add(1, 6, 0, MASH), 2),
            Row(add(7, 0, 0, MASH), 4),
            Row(add(7, 1000, 0, MASH), 4),
            Row(add(1, 0, 0, MASH), 2),
            Row(add(32, 0, 0, MASH), 1),
            Row(add(7, 6, 8, MASH), 5),
            Row(add(7, 0, 8, MASH), 4),
            Row(add(7, 6, 0, b"MASH   \x1F"), 6),
            Row(add(7, 6, 0, b"\x7FASH    "), 6),
            Row(add(7, 6, 0, b"MASH   "), 6),
            Row(add(7, 6, 0, b"MASH     "), 6),
            Row(add(7, 6, 8, b"MASH"), 5),
            // longer than the period, too
            Row(add(7, 25, 0, b"MASH"), 6),
            Row(duration(7, 6), 3),
            Row(duration(0, 6), 1),
            Row(duration(32, 6), 1),
            Row(duration(6, 0), 4),
            Row(duration(6, 1000), 4),
            Row(duration(7, 0), 3),
            Row(remove(7), 3),
            Row(remove(0), 1),
            Row(remove(32), 1),
            Row(remove(1), 13),
            Row(remove(2), 13),
            Row(remove(3), 13),
            Row(remove(4), 13),
            Row(remove(5), 13),
        ],
    )
}

// No rule outside 1 to 96 is taken.
#[test]
fn rules(rt: HostRuntime) -> Result<(), Fail> {
    all(
        &rt,
        &[
            Row(after(4, 0, 6, 0, 0), 1),
            Row(after(4, 6, 32, 0, 0), 1),
            Row(after(4, 7, 6, 0, 0), 3),
            Row(after(4, 6, 7, 0, 0), 3),
            Row(after(4, 7, 32, 0, 0), 1),
            Row(after(0, 6, 6, 0, 1), 7),
            Row(after(97, 6, 6, 0, 1), 7),
            Row(after(97, 6, 7, 0, 1), 3),
            Row(after(3, 6, 6, 0, 1), 8),
            Row(after(3, 6, 7, 0, 1), 3),
            Row(after(4, 1, 2, 1000, 0), 10),
            Row(after(2, 1, 2, 1000, 0), 8),
            Row(after(97, 1, 2, 1000, 0), 7),
            Row(after(4, 1, 2, 0, 8), 11),
            Row(after(4, 1, 2, 1000, 8), 10),
            // a step behind itself by more than the carry gives, too
            Row(after(4, 6, 6, 999, 8), 11),
            Row(after(4, 6, 6, 1000, 0), 10),
            Row(within(4, 0, 6, 0), 1),
            Row(within(4, 6, 32, 0), 1),
            Row(within(4, 7, 6, 0), 3),
            Row(within(4, 6, 7, 0), 3),
            Row(within(4, 32, 7, 0), 1),
            Row(within(0, 6, 6, 0), 7),
            Row(within(97, 6, 6, 0), 7),
            Row(within(97, 7, 6, 0), 3),
            Row(within(1, 6, 6, 0), 8),
            Row(within(1, 7, 6, 0), 3),
            Row(within(4, 6, 6, 1000), 10),
            Row(within(3, 6, 6, 1000), 8),
            Row(within(97, 6, 6, 1000), 7),
            // 6 hours of waiting against 5, too
            Row(within(3, 1, 2, 5), 8),
            Row(at(4, 0, 0), 1),
            Row(at(4, 32, 0), 1),
            Row(at(4, 7, 0), 3),
            Row(at(0, 6, 0), 7),
            Row(at(97, 6, 0), 7),
            Row(at(97, 7, 0), 3),
            Row(at(2, 6, 0), 8),
            Row(at(2, 7, 0), 3),
            // behind the span, too
            Row(at(4, 6, 2000), 10),
            Row(at(1, 6, 2000), 8),
            Row(at(97, 6, 2000), 7),
        ],
    )
}

// Removing a rule of a number outside 1 to 96 would be removing an absent one; a period or a span of 0 hours would leave
// no lawful timetable.
#[test]
fn others(rt: HostRuntime) -> Result<(), Fail> {
    all(
        &rt,
        &[
            Row(free(0), 7),
            Row(free(97), 7),
            Row(free(4), 9),
            Row(period(0), 12),
            Row(period(1000), 12),
            Row(span(0), 12),
            Row(span(2001), 12),
            Row(vessels(8, 0), 5),
            Row(vessels(0, 17), 12),
            Row(vessels(8, 17), 5),
        ],
    )
}

// Beside each command, the sum of the codes of the only loop that weighs more than 0.
#[test]
fn no_timetable(rt: HostRuntime) {
    let mut planner = six_steps(&rt);
    let rows = [
        // longer than the period
        (add(7, 25, 0, MASH), 407),
        (duration(6, 25), 406),
        (period(6), 406),
        // 2 after 1 and 1 after 2
        (after(4, 2, 1, 0, 0), 1 + 4),
        // 6 hours of waiting against 5
        (within(4, 1, 2, 5), 1 + 4),
        // to end by hour 2,000, by hour 12
        (at(4, 6, 1994), 4 + 306),
        (span(12), 3 + 305),
    ];
    for row in rows {
        assert_eq!(rt;
            outcome(&mut planner, &row.0),
            (14, row.1),
            "a row of the table"
        );
    }
}

// The outermost values are accepted.
#[test]
fn accepted(rt: HostRuntime) -> Result<(), Fail> {
    let mut planner = six_steps(&rt);
    enter_all(
        &rt,
        &mut planner,
        &[
            period(999),
            add(31, 1, 7, b" ~ ~ ~ ~"),
            at(93, 31, 1999),
            duration(6, 999),
            after(96, 6, 6, 999, 7),
            within(95, 6, 6, 999),
            within(94, 6, 6, 0),
            free(96),
            free(95),
            free(94),
            remove(6),
            vessels(7, 16),
            vessels(0, 0),
        ],
    );
    assert_eq!(rt; planner.count(7)?, 16);
    enter_all(&rt, &mut Planner::empty(), &[period(1), span(1)]);
    Ok(())
}

// The number for working charts and codes of these lengths, where the command has another fault; nothing is written.
fn is_short(rt: &impl Abort, hours: usize, counted: usize, codes: usize) -> Result<(), Fail> {
    let mut planner = six_steps(rt);
    let before = card_of(&planner)?;
    let mut hour_cells = [Hours { hours: 5 }; 1024];
    let mut counted_cells = [Counted { hours: 5, links: 5 }; 1024];
    let mut code_cells = [5u16; 32];
    assert!(rt; hours <= 1024 && counted <= 1024 && codes <= 32);
    let answer = planner.enter(
        &add(0, 0, 8, b""),
        &mut hour_cells[..hours],
        &mut counted_cells[..counted],
        &mut code_cells[..codes],
    );
    assert_eq!(rt; answer, Err(Refusal::TooShort));
    assert!(rt; card_of(&planner)? == before);
    assert!(rt; hour_cells[0].hours == 5 && counted_cells[0].hours == 5 && code_cells[0] == 5);
    Ok(())
}

#[test]
fn short(rt: HostRuntime) -> Result<(), Fail> {
    is_short(&rt, 1023, 1024, 32)?;
    is_short(&rt, 1024, 1023, 32)?;
    is_short(&rt, 1024, 1024, 31)
}
