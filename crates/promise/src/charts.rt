ghost use Rattle.promise.specs.Charts.{ChartTold, SameTold};

use kinds::{Counted, Hours};
use sheet::Source;
use waits::{LoopRefusal, wait_chart};

// The wait chart of a source.
pub(crate) fn chart_of<S: Source>(
    source: &S,
    hours: &mut [Hours],
    counted: &mut [Counted],
    codes: &mut [u16],
) -> Result<[i16; 1024], LoopRefusal>
    ensures { ChartTold (S.Source.sheet source.now).told hours.old counted.old codes.old result }
{
    let mut chart = [0; 1024];
    wait_chart(source, hours, counted, &mut chart, codes)?;
    Ok(chart)
}

// Whether two charts that were given are equal; nothing, if one was not given.
#[tactic(auto, using(crate::proofs::Comparing::same_told))]
pub(crate) fn compare(
    first: &Result<[i16; 1024], LoopRefusal>,
    second: &Result<[i16; 1024], LoopRefusal>,
) -> Option<bool>
    ensures { SameTold first.now second.now result }
{
    match (first, second) {
        (Ok(a), Ok(b)) => Some(a == b),
        _ => None,
    }
}
