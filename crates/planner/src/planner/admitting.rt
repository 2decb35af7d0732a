// Entering commands where only the numbers of refusals are wanted.
ghost use Rattle.std.specs.Prelude.{◌≤◌, length};
ghost use Rattle.book.specs.Commands.{said};
ghost use Rattle.planner.specs.Admitting.{PlannerPlainly, Admitted};
ghost use Rattle.planner.specs.Entering.{sheet_of};

use super::super::refusals::Refusal;
use super::Planner;
use super::entering::asked_for;
use book::Command;
use checked::CheckedSheet;
use kinds::Hours;
use waits::plain_chart;

// A planner for a sheet, if that has a lawful timetable; if not, no loop is looked for.
fn planner_plainly(checked: CheckedSheet, hours: &mut [Hours]) -> Result<Planner, Refusal>
    requires { 1024 ≤ length hours.old }
    ensures { PlannerPlainly checked.sheet hours.old hours.new result }
{
    let mut chart = [0; 1024];
    plain_chart(&checked, hours, &mut chart)?;
    Ok(Planner { checked, chart })
}

impl Planner {
    // Enters a command as `enter` does, but looks for no loop behind a 14.
    pub fn admit(&mut self, command: &Command, hours: &mut [Hours]) -> Result<(), Refusal>
        ensures { Admitted (sheet_of self.old) (said command.now) hours.old hours.new
            (sheet_of self.new) result }
    {
        if hours.len() < 1024 {
            return Err(Refusal::TooShort);
        }
        let asked = asked_for(&self.checked, command)?;
        *self = planner_plainly(asked, hours)?;
        Ok(())
    }
}
