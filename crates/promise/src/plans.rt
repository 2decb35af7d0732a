ghost use Rattle.promise.specs.Plans.{PlanTold};

use choose::Chooser;
use kinds::{Counted, Hours};
use plan::{PlanRefusal, plan};
use sheet::Source;

// A start hour and a vessel number for each of the 31 steps.
#[derive(Clone, Copy)]
pub struct Plan {
    pub starts: [u16; 31],
    pub vessels: [u8; 31],
}

// The plan of a source.
pub(crate) fn plan_of<S: Source, C: Chooser>(
    source: &S,
    stock: &[u8; 8],
    chooser: &C,
    hours: &mut [Hours],
    counted: &mut [Counted],
    codes: &mut [u16],
) -> Result<Plan, PlanRefusal>
    ensures { PlanTold (S.Source.sheet source.now).told (C.Chooser.rule chooser.now) stock.now
        hours.old counted.old codes.old result }
{
    let mut starts = [0; 31];
    let mut vessels = [0; 31];
    plan(
        source,
        stock,
        chooser,
        hours,
        counted,
        codes,
        &mut starts,
        &mut vessels,
    )?;
    Ok(Plan { starts, vessels })
}
