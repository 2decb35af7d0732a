// Placing all steps, one by one.
ghost use Rattle.std.specs.Prelude.{◌<◌, ◌≤◌};
ghost use Rattle.plan.specs.Stages.{Stage, left_over};
ghost use Rattle.sheet.specs.Waits.{IsChart};
ghost use Rattle.windows.specs.Placing.{starts, Filled};
ghost use Rattle.windows.specs.Windows.{IsNext};

use super::choosing::choose_start;
use super::narrowing::narrow;
use super::next::next_step;
use super::opening::open_windows;
use super::window::Window;
use choose::Chooser;
use sheet::Source;
use vessels::Placed;

// Places the next step.
fn place<S: Source, C: Chooser>(
    source: &S,
    chart: &[i16; 1024],
    chooser: &C,
    windows: &mut [Option<Window>; 31],
    placed: &mut [Option<Placed>; 31],
    step: u8,
)
    requires chart { IsChart (S.Source.sheet source.now).told chart.now }
    requires stage { Stage (S.Source.sheet source.now).told (C.Chooser.rule chooser.now)
        windows.old placed.old }
    requires next { IsNext (S.Source.sheet source.now).told (starts placed.old) step }
    requires from_one { 0 < step }
    requires to_31 { step ≤ 31 }
    ensures stage { Stage (S.Source.sheet source.now).told (C.Chooser.rule chooser.now)
        windows.new placed.new }
    ensures fewer { left_over placed.new < left_over placed.old }
{
    let chosen = choose_start(source, chooser, windows, placed, step);
    placed[step as usize - 1] = Some(chosen);
    narrow(chart, windows, step, chosen.start);
}

// Places all steps of the sheet by the chooser's rule. An absent step is not placed.
pub(crate) fn fill<S: Source, C: Chooser>(
    source: &S,
    chart: &[i16; 1024],
    chooser: &C,
) -> [Option<Placed>; 31]
    requires { IsChart (S.Source.sheet source.now).told chart.now }
    ensures { Filled (S.Source.sheet source.now).told (C.Chooser.rule chooser.now) result }
{
    let mut windows = open_windows(source, chart);
    let mut placed = [None; 31];
    while let Some(step) = next_step(&windows, &placed) {
        place(source, chart, chooser, &mut windows, &mut placed, step);
    }
    placed
}
