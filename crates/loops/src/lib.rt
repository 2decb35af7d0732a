// The loop behind a refusal: closes a working chart of hours with links, and from the place at which that stops walks
// along links that account for the entry exactly. The count of links falls with each, so no place is met twice.
#![tactic(auto)]

ghost use Rattle.std.specs.Prelude.{◌≡◌, ◌≤◌, length, take};
ghost use Rattle.loops.specs.Loops.{LoopWritten, Searched};
ghost use Rattle.loops.specs.Steps.{Stopped};

mod refusals;
mod walk;

use chart::{Places, Stop, work_out};
use kinds::Counted;
pub use refusals::{LoopRefusal, TooShort};
use sheet::Source;
use walk::Walk;

// Writes the codes of a loop of the chart that stands in the first 1,024 entries of a buffer.
fn write_from_front<S: Source>(
    source: &S,
    places: &Places,
    cells: &[Counted],
    stop: usize,
    codes: &mut [u16],
) -> usize
    requires cells { 1024 ≤ length cells.now }
    requires codes { 32 ≤ length codes.old }
    requires stopped { let sheet = (S.Source.sheet source.now).told in
        Stopped sheet places.now stop (take 1024 cells.now) }
    ensures { LoopWritten (S.Source.sheet source.now).told codes.old codes.new result }
{
    let Some(cells) = cells.first_chunk::<1024>() else {
        unreachable!()
    };
    let walk = Walk {
        source,
        places,
        cells,
        stop,
    };
    walk.write_loop(codes)
}

// Seeks a loop of the source's sheet that weighs at least 1, and tells how many codes were written. There is one exactly
// if the sheet has no lawful timetable.
pub fn find_loop<S: Source>(
    source: &S,
    cells: &mut [Counted],
    codes: &mut [u16],
) -> Result<Option<usize>, TooShort>
    ensures { let sheet = (S.Source.sheet source.now).told in
        Searched sheet cells.old cells.new codes.old codes.new result }
{
    if codes.len() < 32 {
        return Err(TooShort);
    }
    match work_out(source, cells) {
        Ok(_) => Ok(None),
        Err(Stop::Short) => Err(TooShort),
        Err(Stop::Beaten { places, position }) => {
            let count = write_from_front(source, &places, cells, position, codes);
            Ok(Some(count))
        }
    }
}
