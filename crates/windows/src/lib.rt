// The windows of steps while a timetable is filled. The definitions are in specs/, and the lemmas that show how a window
// narrows with each start placed are in proofs/. The theorem below is named by the contract of a function that does
// nothing.
#![tactic(auto)]

ghost use Rattle.windows.specs.Theorems.{UniqueWindows};

pub fn unique_windows()
    ensures { UniqueWindows }
{}
