// The period bound: the shortest period that the rules of a source allow, by bisection over the periods.
#![tactic(auto)]

ghost use Rattle.std.specs.Prelude.{◌≡◌, ◌≤◌, true, false, length};
ghost use Rattle.chart.specs.Runs.{WorkedOut};
ghost use Rattle.kinds.specs.Alone.{no_hours, hours_sum, HoursUnder, AloneWithin, link_hours};
ghost use Rattle.loops.specs.Loops.{RestKept};
ghost use Rattle.sheet.specs.Layers.{other_period};
ghost use Rattle.sheet.specs.Waits.{IsBound};
ghost use Rattle.bound.specs.Bounds.{Works, Blocked, Least, Bounded};

use chart::{Places, Stop, work_out};
use kinds::{Counted, Hours};
pub use loops::LoopRefusal;
use loops::find_loop;
use sheet::{OtherPeriod, Source};

// The longest period that a sheet may have.
const LONGEST: u16 = 999;

// The working chart at another period.
fn work_at<S: Source>(source: &S, period: u16, hours: &mut [Hours]) -> Result<Places, Stop>
    ensures { let other = other_period (S.Source.sheet source.now) period in
        WorkedOut no_hours hours_sum link_hours HoursUnder AloneWithin other.told hours.old
        hours.new result }
{
    let other = OtherPeriod {
        below: source,
        period,
    };
    work_out(&other, hours)
}

// Whether there is a lawful timetable at a period.
fn works_at<S: Source>(source: &S, period: u16, hours: &mut [Hours]) -> bool
    requires room { 1024 ≤ length hours.old }
    requires low { 1 ≤ period }
    requires high { period ≤ 999 }
    ensures kept { RestKept hours.old hours.new }
    ensures yes { result ≡ true → Works (S.Source.sheet source.now).told period }
    ensures no { result ≡ false → Blocked (S.Source.sheet source.now).told period }
{
    work_at(source, period, hours).is_ok()
}

// The least period with a lawful timetable, where there is one at the longest.
fn least_period<S: Source>(source: &S, hours: &mut [Hours]) -> u16
    requires room { 1024 ≤ length hours.old }
    requires works { Works (S.Source.sheet source.now).told 999 }
    ensures kept { RestKept hours.old hours.new }
    ensures bound { IsBound (S.Source.sheet source.now).told result }
    ensures least { Least (S.Source.sheet source.now).told result }
{
    let mut low = 0;
    let mut high = LONGEST;
    while high - low > 1 {
        let middle = low + (high - low) / 2;
        if works_at(source, middle, hours) {
            high = middle;
        } else {
            low = middle;
        }
    }
    high
}

// The period bound of the source's sheet. Where there is no lawful timetable even at period 999, the codes of a loop of
// the sheet at that period are written instead. `hours` and `counted` are working charts, whose contents are then free.
pub fn period_bound<S: Source>(
    source: &S,
    hours: &mut [Hours],
    counted: &mut [Counted],
    codes: &mut [u16],
) -> Result<u16, LoopRefusal>
    ensures { let sheet = (S.Source.sheet source.now).told in
        Bounded sheet
        (record { hours = hours.old; counted = counted.old; codes = codes.old })
        (record { hours = hours.new; counted = counted.new; codes = codes.new })
        result }
{
    if hours.len() < 1024 || counted.len() < 1024 || codes.len() < 32 {
        return Err(LoopRefusal::TooShort);
    }
    if works_at(source, LONGEST, hours) {
        return Ok(least_period(source, hours));
    }
    let longest = OtherPeriod {
        below: source,
        period: LONGEST,
    };
    match find_loop(&longest, counted, codes)? {
        Some(count) => Err(LoopRefusal::NoTimetable { count }),
        None => unreachable!(),
    }
}
