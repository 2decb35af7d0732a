// The wait chart: the least waits between all places of a source's sheet, or the loop that leaves it without a lawful
// timetable.
#![tactic(auto)]

ghost use Rattle.std.specs.Prelude.{◌≡◌, ◌<◌, ◌≤◌, length, take, pos, neg_ℤ, ◌≤ℤ◌};
ghost use Rattle.chart.specs.Cells.{at};
ghost use Rattle.kinds.specs.Alone.{no_hours};
ghost use Rattle.sheet.specs.Sheets.{present};
ghost use Rattle.sheet.specs.Waits.{IsEntry, IsChart};
ghost use Rattle.waits.specs.Charts.{Finished, Charted, PlainlyCharted};

use chart::{Places, Stop, work_out};
use kinds::{Counted, Hours};
pub use loops::LoopRefusal;
use loops::find_loop;
use sheet::Source;

// Whether a place of the sheet is there. Place 0, hour zero, always is.
fn is_present<S: Source>(source: &S, place: u8) -> bool
    ensures { result ≡ present (S.Source.sheet source.now).told place }
{
    place == 0 || source.step(place).is_some()
}

fn hours_at(cells: &[Hours; 1024], row: usize, column: usize) -> i64
    requires row { row < 32 }
    requires column { column < 32 }
    ensures { result ≡ (at no_hours cells.now row column).hours }
{
    cells[32 * row + column].hours
}

// A wait in 16 bits.
fn narrow(wait: i64) -> i16
    requires low { neg_ℤ (pos 2000) ≤ℤ wait }
    requires high { wait ≤ℤ pos 2000 }
    ensures { result ≡ wait }
{
    wait as i16
}

// The entry from place i to place j.
fn entry<S: Source>(source: &S, places: &Places, cells: &[Hours; 1024], i: u8, j: u8) -> i16
    requires finished { Finished (S.Source.sheet source.now).told places.now cells.now }
    requires from { i < 32 }
    requires to { j < 32 }
    ensures { IsEntry (S.Source.sheet source.now).told i j result }
{
    if is_present(source, i) && is_present(source, j) {
        let row = places.positions[i as usize] as usize;
        let column = places.positions[j as usize] as usize;
        narrow(hours_at(cells, row, column))
    } else {
        i16::MIN
    }
}

// Writes the chart, entry (i, j) at 32 * i + j.
fn write_chart<S: Source>(
    source: &S,
    places: &Places,
    cells: &[Hours; 1024],
    chart: &mut [i16; 1024],
)
    requires { Finished (S.Source.sheet source.now).told places.now cells.now }
    ensures { IsChart (S.Source.sheet source.now).told chart.new }
{
    for (k, wait) in chart.iter_mut().enumerate() {
        *wait = entry(source, places, cells, (k / 32) as u8, (k % 32) as u8);
    }
}

// The working chart that stands in the first 1,024 entries of a buffer.
fn front(cells: &[Hours]) -> &[Hours; 1024]
    requires { 1024 ≤ length cells.now }
    ensures { result.now ≡ take 1024 cells.now }
{
    let Some(front) = cells.first_chunk::<1024>() else {
        unreachable!()
    };
    front
}

// Writes the wait chart as `wait_chart` does, but looks for no loop where the sheet has no lawful timetable.
pub fn plain_chart<S: Source>(
    source: &S,
    hours: &mut [Hours],
    chart: &mut [i16],
) -> Result<(), LoopRefusal>
    ensures { let sheet = (S.Source.sheet source.now).told in
        PlainlyCharted sheet hours.old hours.new chart.old chart.new result }
{
    let Some(chart) = chart.first_chunk_mut::<1024>() else {
        return Err(LoopRefusal::TooShort);
    };
    match work_out(source, hours) {
        Ok(places) => {
            write_chart(source, &places, front(hours), chart);
            Ok(())
        }
        Err(Stop::Short) => Err(LoopRefusal::TooShort),
        Err(Stop::Beaten { .. }) => Err(LoopRefusal::NoTimetable { count: 0 }),
    }
}

// Writes the wait chart of the source's sheet. Where the sheet has no lawful timetable, the codes of a loop are written
// instead. `hours` and `counted` are working charts, whose contents are then free.
pub fn wait_chart<S: Source>(
    source: &S,
    hours: &mut [Hours],
    counted: &mut [Counted],
    chart: &mut [i16],
    codes: &mut [u16],
) -> Result<(), LoopRefusal>
    ensures { let sheet = (S.Source.sheet source.now).told in
        Charted sheet
        (record { hours = hours.old; counted = counted.old; chart = chart.old; codes = codes.old })
        (record { hours = hours.new; counted = counted.new; chart = chart.new; codes = codes.new })
        result }
{
    if hours.len() < 1024 || counted.len() < 1024 || chart.len() < 1024 || codes.len() < 32 {
        return Err(LoopRefusal::TooShort);
    }
    if plain_chart(source, hours, chart).is_ok() {
        return Ok(());
    }
    match find_loop(source, counted, codes)? {
        Some(count) => Err(LoopRefusal::NoTimetable { count }),
        None => unreachable!(),
    }
}
