// Whether two steps share a class, told without going through their hours.
ghost use Rattle.std.specs.Prelude.{◌≡◌, ℕ, ◌+◌, ◌<◌, ◌≤◌, ◌⊎◌, ◌↔◌, IsTrue};
ghost use Rattle.choose.specs.Classes.{class};
ghost use Rattle.vessels.specs.Sharing.{Shares};

use super::placed::Placed;

// The class of an hour.
fn class_of(hour: u16, period: u16) -> u16
    requires { 0 < period }
    ensures value { result ≡ class period hour }
    ensures below { result < period }
{
    hour % period
}

// Hours from one class on until another comes, where the first class follows the last.
fn hours_between(from: u16, to: u16, period: u16) -> u16
    requires from { from < period }
    requires to { to < period }
    ensures below { result < period }
    ensures comes { (from + result ≡ to) ⊎ (from + result ≡ to + period) }
{
    if from <= to {
        to - from
    } else {
        period - from + to
    }
}

// The fewest hours after an hour at which the class of another comes up. A period of 0 has no classes, and the answer is
// then 0.
pub fn hours_until(from: u16, to: u16, period: u16) -> u16
    ensures comes { 0 < period → class period (from + result) ≡ class period to }
    ensures fewest { (hours : ℕ)
        → class period (from + hours) ≡ class period to
        → result ≤ hours }
    ensures below { 0 < period → result < period }
    ensures none { period ≡ 0 → result ≡ 0 }
{
    if period == 0 {
        return 0;
    }
    hours_between(class_of(from, period), class_of(to, period), period)
}

// Two steps share a class exactly if the class in which one of them starts comes up while the other still runs.
pub(crate) fn share(a: Placed, b: Placed, period: u16) -> bool
    ensures { IsTrue result ↔ Shares period a b }
{
    if period == 0 || a.duration == 0 || b.duration == 0 {
        return false;
    }
    hours_until(a.start, b.start, period) < a.duration
        || hours_until(b.start, a.start, period) < b.duration
}
