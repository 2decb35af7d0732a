ghost use Rattle.std.specs.Prelude.{◌≡◌, ◌+◌, ◌-◌, ◌^◌, ◌<◌, ◌≤◌, min, max, length};
ghost use Rattle.choose.specs.Calmest.{Calmest, IsLeastCrowded, Exactly};
ghost use Rattle.choose.specs.Choosing.{least_crowded};
ghost use Rattle.choose.specs.Classes.{peak};
ghost use Rattle.choose.specs.Views.{seen};

use super::chooser::Chooser;
use super::crowd::{peak_from, reaching};
use super::shown::Shown;

// The calmest hour from `first` up to and without `end`. An hour that covers a class at least as crowded as the best
// peak so far is passed over, and with it all later hours that cover the same class.
fn calmest(crowd: &[u8], duration: usize, first: usize, end: usize) -> usize
    requires classes { 0 < length crowd.now }
    requires duration { duration ≤ length crowd.now }
    requires short { duration < 2 ^ 16 }
    requires hours { first < end }
    requires end { end < 2 ^ 17 }
    ensures { Calmest (peak crowd.now duration) first end result }
{
    let period = crowd.len();
    let mut best = first;
    let mut least = peak_from(crowd, first % period, duration);
    let mut hour = first + 1;
    while least > 0 && hour < end {
        match reaching(crowd, hour % period, duration, least) {
            Some(k) => {
                hour += k + 1;
            }
            None => {
                best = hour;
                least = peak_from(crowd, hour % period, duration);
                hour += 1;
            }
        }
    }
    best
}

// How many hours of the window are looked at: hours that lie a period apart cover the same classes, so one round of
// classes tells the whole window.
fn hours_of(shown: Shown<'_>) -> usize
    ensures { result ≡ min
        (max shown.entry.first shown.entry.last - shown.entry.first + 1)
        (length shown.entry.crowd.now) }
{
    let last = shown.last.max(shown.first);
    ((last - shown.first) as usize + 1).min(shown.crowd.len())
}

fn calmest_shown(shown: Shown<'_>) -> u16
    ensures { IsLeastCrowded (seen shown.entry) result }
{
    let period = shown.crowd.len();
    if period == 0 {
        return shown.first;
    }
    let first = shown.first as usize;
    let duration = period.min(shown.duration as usize);
    calmest(shown.crowd, duration, first, first + hours_of(shown)) as u16
}

// Takes the hour of the window whose covered classes have the smallest peak, the earliest at a tie.
#[derive(Clone, Copy)]
pub struct LeastCrowded;

impl Chooser for LeastCrowded {
    ghost rule = { λ _. least_crowded };

    fn choose(&self, shown: Shown<'_>) -> u16
        ensures value { result ≡ least_crowded.hour (seen shown.entry) }
        ensures calmest { Exactly (IsLeastCrowded (seen shown.entry)) result }
    {
        calmest_shown(shown)
    }
}
