// How many placed steps of a kind cover each class.
ghost use Rattle.std.specs.Prelude.{◌≡◌, ◌<◌, ◌≤◌, ◌↔◌, take, drop, IsTrue};
ghost use Rattle.choose.specs.Classes.{Covers};
ghost use Rattle.windows.specs.Crowds.{covers, counts, crowd, crowds};

use vessels::{Placed, hours_until};

// Whether a step covers a class: the class comes up while the step runs.
fn covers_class(step: Placed, class: u16, period: u16) -> bool
    requires { class < period }
    ensures value { result ≡ covers period step.start step.duration class }
    ensures covered { IsTrue result ↔ (Covers period step.start step.duration class) }
{
    hours_until(step.start, class, period) < step.duration
}

// Whether a step is placed, is of a kind and covers a class.
fn is_counted(step: Option<Placed>, period: u16, kind: u8, class: u16) -> bool
    requires { class < period }
    ensures { result ≡ counts period kind class step }
{
    step.is_some_and(|step| step.kind == kind && covers_class(step, class, period))
}

// How many placed steps of a kind cover a class.
fn count(placed: &[Option<Placed>; 31], period: u16, kind: u8, class: u16) -> u8
    requires { class < period }
    ensures { result ≡ crowd period kind placed.now class }
{
    placed
        .iter()
        .filter(|step| is_counted(**step, period, kind, class))
        .count() as u8
}

// Counts for each class of a period how many placed steps of a kind cover it. What lies behind the counts stays.
pub(crate) fn count_crowd(
    placed: &[Option<Placed>; 31],
    period: u16,
    kind: u8,
    counts: &mut [u8; 999],
)
    requires { period ≤ 999 }
    ensures front { take period counts.new ≡ crowds period kind placed.now }
    ensures rest { drop period counts.new ≡ drop period counts.old }
{
    for class in 0..period {
        counts[class as usize] = count(placed, period, kind, class);
    }
}
