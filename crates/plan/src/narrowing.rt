// How the windows narrow when a step is placed.
ghost use Rattle.std.specs.Prelude.{◌≡◌, ℕ, ◌+◌, ◌<◌, length, pos, ◌+ℤ◌, ◌-ℤ◌, None, slice_index_or};
ghost use Rattle.std.specs.Int.{int_max, int_min};
ghost use Rattle.std.specs.Option.{option_map};
ghost use Rattle.plan.specs.Told.{narrowed, Narrows};

use super::opening::wait;
use super::window::Window;

// The first hour of a step after another was placed at an hour, from the wait to the step.
fn later(first: i32, hour: u16, wait: i16) -> i32
    ensures { result ≡ int_max first (pos hour +ℤ wait) }
{
    first.max(hour as i32 + wait as i32)
}

// The last hour of a step after another was placed at an hour, from the wait to that other step.
fn sooner(last: i32, hour: u16, wait: i16) -> i32
    ensures { result ≡ int_min last (pos hour -ℤ wait) }
{
    last.min(hour as i32 - wait as i32)
}

// The window of a step after another was placed at an hour.
fn narrow_window(
    chart: &[i16; 1024],
    window: Window,
    placed: usize,
    hour: u16,
    step: usize,
) -> Window
    requires placed { placed < 32 }
    requires step { step < 32 }
    ensures first { result.first ≡ (narrowed chart.now placed hour step window).first }
    ensures last { result.last ≡ (narrowed chart.now placed hour step window).last }
{
    Window {
        first: later(window.first, hour, wait(chart, placed, step)),
        last: sooner(window.last, hour, wait(chart, step, placed)),
    }
}

// The same where the step may be absent.
fn narrow_at(
    chart: &[i16; 1024],
    window: Option<Window>,
    placed: usize,
    hour: u16,
    step: usize,
) -> Option<Window>
    requires placed { placed < 32 }
    requires step { step < 32 }
    ensures { result ≡ option_map (narrowed chart.now placed hour step) window }
{
    window.map(|window| narrow_window(chart, window, placed, hour, step))
}

// The same for all steps, those placed already among them.
fn narrow_each(chart: &[i16; 1024], windows: &mut [Option<Window>; 31], placed: usize, hour: u16)
    requires { placed < 32 }
    ensures long { length windows.new ≡ 31 }
    ensures each { (i : ℕ) → i < 31
        → slice_index_or windows.new i None
        ≡ option_map (narrowed chart.now placed hour (i + 1))
        (slice_index_or windows.old i None) }
{
    for (i, window) in windows.iter_mut().enumerate() {
        *window = narrow_at(chart, *window, placed, hour, i + 1);
    }
}

// Narrows the windows of all steps after one of them was placed at an hour of its window. That step is left the hour
// alone.
pub(crate) fn narrow(chart: &[i16; 1024], windows: &mut [Option<Window>; 31], placed: u8, hour: u16)
    requires { placed < 32 }
    ensures { Narrows chart.now placed hour windows.old windows.new }
{
    narrow_each(chart, windows, placed as usize, hour);
}
