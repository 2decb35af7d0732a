// Over all brews no vessel is held twice. The definitions are in specs/. The theorem is named by the contract of a
// function that does nothing.
#![tactic(auto)]

ghost use Rattle.brews.specs.Theorems.{VesselsHeldOnce};

pub fn vessels_held_once()
    ensures { VesselsHeldOnce }
{}
