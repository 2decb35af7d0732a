// Small sheets beside all their timetables and all their loops, by plain enumeration: what the library tells of each sheet
// is compared with what was found by trying everything.
#![tactic(auto)]

mod bound_trial;
mod cellar;
mod chart_trial;
mod grid;
mod partial;
mod plan_trial;
mod round;
mod tally;
mod tie;
mod timetable;
mod trial;

use grid::sheets_of;
use std::io;
use tally::Tally;

fn print_count(rt: &HostRuntime, count: u32, of: &str) -> io::Result<()> {
    println!(rt; "{count} {of}")
}

fn print_tally(rt: &HostRuntime, tally: &Tally) -> io::Result<()> {
    let counts = [
        (tally.sheets, "sheets"),
        (tally.lawful, "with a lawful timetable"),
        (tally.timetables, "lawful timetables"),
        (tally.waits, "waits"),
        (tally.loops, "loops"),
        (tally.bounds, "bounds"),
        (tally.plans, "plans"),
        (tally.lacking, "plans without enough vessels"),
        (tally.differences, "differences"),
    ];
    for (count, of) in counts {
        print_count(rt, count, of)?;
    }
    Ok(())
}

fn main(rt: HostRuntime) -> io::Result<()> {
    let mut tally = Tally::none();
    sheets_of(1, 60, &mut tally);
    sheets_of(2, 60, &mut tally);
    sheets_of(3, 10, &mut tally);
    print_tally(&rt, &tally)
}
