// A planner: a full sheet that keeps every limit and has a lawful timetable, with its wait chart.
ghost use Rattle.planner.specs.Invariant.{Plannable};

use checked::CheckedSheet;

#[derive(Clone, Copy)]
pub struct Planner {
    checked: CheckedSheet,
    chart: [i16; 1024],
    ghost kept: { ∥ Plannable checked.sheet chart ∥₁ },
}

pub mod admitting;
pub mod entering;
pub mod questions;
