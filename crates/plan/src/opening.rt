// The windows of all steps before any is placed.
ghost use Rattle.std.specs.Prelude.{◌≡◌, ◌<◌, neg_ℤ};
ghost use Rattle.plan.specs.Told.{Tells, Told};
ghost use Rattle.sheet.specs.Waits.{IsChart};
ghost use Rattle.windows.specs.Windows.{entry, nothing_placed};

use super::window::Window;
use sheet::Source;

// The wait from one place to another: the least hours by which the start of the second lies after that of the first.
pub(crate) fn wait(chart: &[i16; 1024], from: usize, to: usize) -> i16
    requires from { from < 32 }
    requires to { to < 32 }
    ensures { result ≡ entry chart.now from to }
{
    chart[32 * from + to]
}

// How long before hour zero a place lies that waits so long for it.
fn before_zero(wait: i16) -> i32
    ensures { result ≡ neg_ℤ wait }
{
    -(wait as i32)
}

// With nothing placed, a step starts no sooner than its wait from hour zero, and hour zero is no sooner than its wait
// from the step.
fn open_window(chart: &[i16; 1024], step: usize) -> Window
    requires { step < 32 }
    ensures first { result.first ≡ entry chart.now 0 step }
    ensures last { result.last ≡ neg_ℤ (entry chart.now step 0) }
{
    Window {
        first: wait(chart, 0, step) as i32,
        last: before_zero(wait(chart, step, 0)),
    }
}

// The window of a step with nothing placed, or none for an absent step.
fn open_at<S: Source>(source: &S, chart: &[i16; 1024], step: u8) -> Option<Window>
    requires number { step < 32 }
    requires chart { IsChart (S.Source.sheet source.now).told chart.now }
    ensures { Tells (S.Source.sheet source.now).told nothing_placed step result }
{
    source.step(step).map(|_| open_window(chart, step as usize))
}

// The windows of all steps with nothing placed: that of step n stands at place n - 1.
pub(crate) fn open_windows<S: Source>(source: &S, chart: &[i16; 1024]) -> [Option<Window>; 31]
    requires { IsChart (S.Source.sheet source.now).told chart.now }
    ensures { Told (S.Source.sheet source.now).told nothing_placed result }
{
    let mut windows = [None; 31];
    for (i, window) in windows.iter_mut().enumerate() {
        *window = open_at(source, chart, i as u8 + 1);
    }
    windows
}
