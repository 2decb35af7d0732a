// Two sheets have equal wait charts exactly if the same timetables are lawful for both. The theorem is named by the
// contract of a function that does nothing.
#![tactic(auto)]

ghost use Rattle.alike.specs.Theorems.{EqualCharts};

pub fn equal_charts()
    ensures { EqualCharts }
{}
