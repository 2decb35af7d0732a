ghost use Rattle.std.specs.Prelude.{map, IfOk};
ghost use Rattle.promise.specs.Promise.{Promise};
ghost use Rattle.runs.specs.Runs.{asked_by};

use super::charts::{chart_of, compare};
use super::plans::{Plan, plan_of};
use choose::Chooser;
use kinds::{Counted, Hours};
use plan::PlanRefusal;
use planner::Planner;
use runs::{Call, Note, run};
use sheet::Source;
use std::alloc::{AllocError, Global};
use waits::LoopRefusal;

// What has come of a run of calls, of two wait charts and of a plan.
#[derive(Drop)]
pub struct Kept {
    // The planner as the last call has left it, and a note on each refusal.
    pub planner: Planner,
    pub notes: Vec<Note>,
    // The wait charts of the two sources, and whether they are equal, if both were given.
    pub first: Result<[i16; 1024], LoopRefusal>,
    pub second: Result<[i16; 1024], LoopRefusal>,
    pub same: Option<bool>,
    // The plan of the first source.
    pub plan: Result<Plan, PlanRefusal>,
}

// Carries out the calls on an empty planner, works out the wait charts of two rule sources, compares them, and plans the
// first source with a stock and a chooser. `hours` and `counted` are working charts, whose contents are then free, and so
// are the codes: those of the last loop stand there.
pub fn keep<A: Source, B: Source, C: Chooser>(
    heap: Global,
    calls: &[Call],
    source: &A,
    other: &B,
    stock: &[u8; 8],
    chooser: &C,
    hours: &mut [Hours],
    counted: &mut [Counted],
    codes: &mut [u16],
) -> Result<Kept, AllocError>
    ensures { IfOk result (Promise (map asked_by calls.now)
        (A.Source.sheet source.now).told (B.Source.sheet other.now).told
        (C.Chooser.rule chooser.now) stock.now hours.old counted.old codes.old) }
{
    let ran = run(heap, calls)?;
    let first = chart_of(source, hours, counted, codes);
    let second = chart_of(other, hours, counted, codes);
    let same = compare(&first, &second);
    let plan = plan_of(source, stock, chooser, hours, counted, codes);
    Ok(Kept {
        planner: ran.planner,
        notes: ran.notes,
        first,
        second,
        same,
        plan,
    })
}
