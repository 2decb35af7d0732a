// The working chart over a caller's buffer.
ghost use Rattle.std.specs.Prelude.{◌≡◌, ◌≤◌, length};
ghost use Rattle.chart.specs.Runs.{Answered, WorkedOut};

use super::cells::close;
use super::entry::Entry;
use super::fill::Filler;
use super::places::{Places, Stop};
use sheet::Source;

fn fill_and_close<S: Source, E: Entry>(source: &S, cells: &mut [E]) -> Result<Places, Stop>
    requires { 1024 ≤ length cells.old }
    ensures { let sheet = (S.Source.sheet source.now).told in
        Answered E.neutral E.sum E.value E.under E.within sheet cells.new result }
{
    let places = Places::of(source);
    let filler = Filler {
        source,
        places: &places,
    };
    filler.fill(cells);
    match close(cells, places.count) {
        None => Ok(places),
        Some(position) => Err(Stop::Beaten { places, position }),
    }
}

// Works in the first 1,024 entries of a buffer.
fn use_front<S: Source, E: Entry>(source: &S, cells: &mut [E]) -> Result<Places, Stop>
    requires { 1024 ≤ length cells.old }
    ensures { let sheet = (S.Source.sheet source.now).told in
        WorkedOut E.neutral E.sum E.value E.under E.within sheet cells.old cells.new result }
{
    fill_and_close(source, &mut cells[..1024])
}

// Entries between the places of a sheet, the one from position a to position b at 32 * a + b.
#[derive(Drop)]
pub struct Chart<'a, E> {
    pub cells: &'a mut [E],
}

impl<'a, E: Entry> Chart<'a, E> {
    // Fills the chart from the source and closes it. A buffer of fewer than 1,024 entries is refused and left as it was.
    pub fn work_out<S: Source>(&mut self, source: &S) -> Result<Places, Stop>
        ensures answer { let sheet = (S.Source.sheet source.now).told in
            WorkedOut E.neutral E.sum E.value E.under E.within sheet self.old.cells.now
            self.new.cells.now result }
        ensures len { length self.new.cells.now ≡ length self.old.cells.now }
        ensures same { self.new.cells.ghost_name ≡ self.old.cells.ghost_name }
    {
        if self.cells.len() < 1024 {
            return Err(Stop::Short);
        }
        use_front(source, self.cells)
    }
}

// The working chart of any source, of any kind of entry, in the buffer `cells`.
pub fn work_out<S: Source, E: Entry>(source: &S, cells: &mut [E]) -> Result<Places, Stop>
    ensures { let sheet = (S.Source.sheet source.now).told in
        WorkedOut E.neutral E.sum E.value E.under E.within sheet cells.old cells.new result }
{
    let mut chart = Chart { cells };
    chart.work_out(source)
}
