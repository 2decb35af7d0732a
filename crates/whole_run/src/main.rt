// Two runs of calls with everything that is promised of them: notes, wait charts, their comparison, and a plan.
#![tactic(auto)]

use book::Command;
use choose::{Chooser, Earliest, Latest};
use kinds::{Counted, Hours};
use planner::Planner;
use promise::{Kept, keep};
use runs::{Call, Note};
use sheet::{LeftOut, OtherPeriod, Source};
use std::io;

// The start hour that is written for an absent step.
const ABSENT: u16 = 65_535;

const OFFICE: &[u8] =
    b"\x09\x00\x3C\x01\x01\x00\x06\x00MASH    \x01\x02\x00\x14\x01FERMENT \x01\x03\x00\x04\x02CROP    \x04\x01\x01\x02\x00\x00\x00\x04\x02\x02\x03\x00\x00\x00\x04\x03\x03\x02\x00\x02\x02";

const TABLET: &[u8] = b"\x05\x03\x01\x03\x00\x19\x05\x04\x01\x03\x00\x19\x05\x04\x01\x03\x00\x1E";

fn print_note(rt: &HostRuntime, note: &Note) -> io::Result<()> {
    match *note {
        Note::Refused { call, number } => println!(rt; "call {call} refused {number}"),
        Note::Reported { call, report } => {
            let book = report.book.number();
            let offset = report.offset;
            let number = report.number;
            println!(rt; "call {call} book {book} offset {offset} refused {number}")
        }
    }
}

fn print_comparison(rt: &HostRuntime, same: Option<bool>) -> io::Result<()> {
    match same {
        Some(same) => println!(rt; "equal charts: {same}"),
        None => println!(rt; "no two charts"),
    }
}

fn print_plan(rt: &HostRuntime, kept: &Kept) -> io::Result<()> {
    match kept.plan {
        Ok(plan) => {
            for (place, (&start, &vessel)) in plan.starts.iter().zip(&plan.vessels).enumerate() {
                if start != ABSENT {
                    let step = place + 1;
                    println!(rt; "step {step} starts at {start} in vessel {vessel}")?;
                }
            }
            Ok(())
        }
        Err(refusal) => {
            let number = refusal.number();
            println!(rt; "plan refused {number}")
        }
    }
}

// Carries out the calls, compares and plans the sources, and prints what has come of it.
fn show<A: Source, B: Source, C: Chooser>(
    rt: &HostRuntime,
    calls: &[Call],
    source: &A,
    other: &B,
    chooser: &C,
) -> anyhow::Result<Planner> {
    let mut hours = [Hours { hours: 0 }; 1024];
    let mut counted = [Counted { hours: 0, links: 0 }; 1024];
    let mut codes = [0; 32];
    let stock = [1, 1, 1, 0, 0, 0, 0, 0];
    let kept = keep(
        rt.alloc(),
        calls,
        source,
        other,
        &stock,
        chooser,
        &mut hours,
        &mut counted,
        &mut codes,
    )?;
    for note in kept.notes.as_slice() {
        print_note(rt, note)?;
    }
    print_comparison(rt, kept.same)?;
    print_plan(rt, &kept)?;
    Ok(kept.planner)
}

fn run(rt: &HostRuntime) -> anyhow::Result<()> {
    let calls = [
        Call::Merge {
            office: OFFICE,
            tablet: TABLET,
        },
        Call::Enter {
            command: Command::SetPeriod { period: 20 },
        },
        Call::Enter {
            command: Command::SetPeriod { period: 19 },
        },
        Call::Enter {
            command: Command::SetVessels { kind: 1, count: 17 },
        },
    ];
    let empty = Planner::empty();
    let planner = show(rt, &calls, &empty, &empty, &Earliest)?;
    // With the tablet's last rule no step waits for a carry: a longer period changes nothing.
    let longer = OtherPeriod {
        below: &planner,
        period: 24,
    };
    show(rt, &calls[0..0], &planner, &longer, &Earliest)?;
    let freer = LeftOut {
        below: &planner,
        number: 4,
    };
    show(rt, &calls[2..4], &freer, &planner, &Latest)?;
    Ok(())
}

fn main(rt: HostRuntime) -> anyhow::Result<()> {
    run(&rt)
}
