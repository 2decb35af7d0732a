// What a chooser is shown of a step, and the hour that it names.
ghost use Rattle.std.specs.Prelude.{◌≡◌, ◌<◌, ◌≤◌, take, pos, ◌≤ℤ◌};
ghost use Rattle.plan.specs.Stages.{Chosen};
ghost use Rattle.plan.specs.Told.{Told};
ghost use Rattle.windows.specs.Placing.{starts, view_of};
ghost use Rattle.windows.specs.Windows.{Waiting};

use super::crowd::count_crowd;
use super::window::Window;
use choose::{Chooser, Shown};
use sheet::Source;
use vessels::Placed;

// An hour of a window in 16 bits.
fn in_16_bits(hour: i32) -> u16
    requires from_zero { pos 0 ≤ℤ hour }
    requires small { hour ≤ℤ pos 2000 }
    ensures { pos result ≡ hour }
{
    hour as u16
}

// The hour that the chooser names where the classes of the period have these counts.
fn ask<C: Chooser>(
    chooser: &C,
    step: u8,
    duration: u16,
    window: (u16, u16),
    counts: &[u8; 999],
    period: u16,
) -> u16
    requires { period ≤ 999 }
    ensures { result ≡ (C.Chooser.rule chooser.now).hour
        (record {
          step = step;
          duration = duration;
          first = window.0;
          last = window.1;
          crowd = take period counts.now;
        }) }
{
    chooser.choose(Shown {
        step,
        duration,
        first: window.0,
        last: window.1,
        crowd: &counts[..period as usize],
    })
}

// The hour that the chooser names for a step of a kind beside the steps placed.
fn choose_hour<S: Source, C: Chooser>(
    source: &S,
    chooser: &C,
    placed: &[Option<Placed>; 31],
    step: u8,
    told: (u16, u8),
    window: (u16, u16),
) -> u16
    ensures { result ≡ (C.Chooser.rule chooser.now).hour
        (view_of (S.Source.sheet source.now).told placed.now step told.0 told.1
        window.0 window.1) }
{
    let period = source.period();
    let mut counts = [0; 999];
    count_crowd(placed, period, told.1, &mut counts);
    ask(chooser, step, told.0, window, &counts, period)
}

// A waiting step at the hour that the chooser names for it.
pub(crate) fn choose_start<S: Source, C: Chooser>(
    source: &S,
    chooser: &C,
    windows: &[Option<Window>; 31],
    placed: &[Option<Placed>; 31],
    step: u8,
) -> Placed
    requires told { Told (S.Source.sheet source.now).told (starts placed.now) windows.now }
    requires waiting { Waiting (S.Source.sheet source.now).told (starts placed.now) step }
    requires from_one { 0 < step }
    requires to_31 { step ≤ 31 }
    ensures { Chosen (S.Source.sheet source.now).told (C.Chooser.rule chooser.now)
        placed.now step result }
{
    let Some(told) = source.step(step) else {
        unreachable!()
    };
    let Some(window) = windows[step as usize - 1] else {
        unreachable!()
    };
    let hours = (in_16_bits(window.first), in_16_bits(window.last));
    Placed {
        start: choose_hour(source, chooser, placed, step, told, hours),
        duration: told.0,
        kind: told.1,
    }
}
