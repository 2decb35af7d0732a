ghost use Rattle.std.specs.Prelude.{◌≡◌, ◌<◌, [], ◌∷◌, ◌++◌, map, length, IfOk, OnOk};
ghost use Rattle.book.specs.Commands.{said};
ghost use Rattle.planner.specs.Entering.{sheet_of};
ghost use Rattle.runs.specs.Runs.{asked_by, enters, merges, reported_of};
ghost use Rattle.runs.specs.Turns.{asked_at, CallTaken, Running, RunTaken};

use super::calls::{Call, Note};
use book::Command;
use kinds::{Counted, Hours};
use merge::{Report, merge};
use planner::Planner;
use std::alloc::{AllocError, Global};

fn add_note(notes: &mut Vec<Note>, note: Note) -> Result<(), AllocError>
    ensures { OnOk result (notes.new.items ≡ notes.old.items ++ (note ∷ [])) }
{
    notes.push(note)?;
    Ok(())
}

// Notes each report of a merge.
fn note_reports(notes: &mut Vec<Note>, call: usize, reports: &[Report]) -> Result<(), AllocError>
    ensures { OnOk result (notes.new.items ≡ notes.old.items ++ reported_of call reports.now) }
{
    for report in reports {
        let report = *report;
        add_note(notes, Note::Reported { call, report })?;
    }
    Ok(())
}

fn take_command(
    planner: &mut Planner,
    command: &Command,
    call: usize,
    notes: &mut Vec<Note>,
) -> Result<(), AllocError>
    ensures { OnOk result (CallTaken (sheet_of planner.old) (enters (said command.now)) call
        notes.old.items notes.new.items (sheet_of planner.new)) }
{
    let mut hours = [Hours { hours: 0 }; 1024];
    let mut counted = [Counted { hours: 0, links: 0 }; 1024];
    let mut codes = [0; 32];
    match planner.enter(command, &mut hours, &mut counted, &mut codes) {
        Ok(()) => Ok(()),
        Err(refusal) => {
            let number = refusal.number();
            add_note(notes, Note::Refused { call, number })
        }
    }
}

fn take_merge(
    planner: &mut Planner,
    office: &[u8],
    tablet: &[u8],
    call: usize,
    notes: &mut Vec<Note>,
) -> Result<(), AllocError>
    ensures { OnOk result (CallTaken (sheet_of planner.old) (merges office.now tablet.now) call
        notes.old.items notes.new.items (sheet_of planner.new)) }
{
    let mut hours = [Hours { hours: 0 }; 1024];
    let mut reports = [Report::BLANK; 4096];
    match merge(planner, office, tablet, &mut hours, &mut reports) {
        Ok(count) => note_reports(notes, call, &reports[..count]),
        Err(refusal) => {
            let number = refusal.number();
            add_note(notes, Note::Refused { call, number })
        }
    }
}

// Carries out one call, and notes what is refused.
fn take_call(
    planner: &mut Planner,
    asked: &Call,
    call: usize,
    notes: &mut Vec<Note>,
) -> Result<(), AllocError>
    ensures { OnOk result (CallTaken (sheet_of planner.old) (asked_by asked.now) call
        notes.old.items notes.new.items (sheet_of planner.new)) }
{
    match *asked {
        Call::Enter { command } => take_command(planner, &command, call, notes),
        Call::Merge { office, tablet } => take_merge(planner, office, tablet, call, notes),
    }
}

// Carries out all calls, one by one; a refusal does not end the run.
#[tactic(auto, using(crate::proofs::Courses::turned))]
fn take_calls(
    planner: &mut Planner,
    calls: &[Call],
    notes: &mut Vec<Note>,
) -> Result<(), AllocError>
    ensures { OnOk result (Running (sheet_of planner.old) calls.now notes.old.items
        (length calls.now) (sheet_of planner.new) notes.new.items) }
{
    for (call, asked) in calls.iter().enumerate() {
        take_call(planner, asked, call, notes)?;
    }
    Ok(())
}

// What a run has come to: the planner as the last call has left it, and a note on each refusal.
#[derive(Drop)]
pub struct Ran {
    pub planner: Planner,
    pub notes: Vec<Note>,
}

// Carries out the calls on an empty planner.
pub fn run(heap: Global, calls: &[Call]) -> Result<Ran, AllocError>
    ensures { IfOk result (λ ran.
        RunTaken (map asked_by calls.now) (sheet_of ran.planner) ran.notes.items) }
{
    let mut planner = Planner::empty();
    let mut notes = Vec::new(heap);
    take_calls(&mut planner, calls, &mut notes)?;
    Ok(Ran { planner, notes })
}
