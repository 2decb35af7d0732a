// How a planner begins, and how commands change it.
ghost use Rattle.std.specs.Prelude.{◌≡◌, ◌↔◌, IsTrue};
ghost use Rattle.book.specs.Commands.{said};
ghost use Rattle.planner.specs.Asking.{AskedFor, PlannerFor};
ghost use Rattle.planner.specs.Invariant.{empty_chart};
ghost use Rattle.planner.specs.Entering.{sheet_of, Room, Entered};
ghost use Rattle.sheet.specs.Edits.{empty_sheet};

use super::super::refusals::Refusal;
use super::Planner;
use book::Command;
use changes::CommandFault;
use checked::CheckedSheet;
use commands::change;
use kinds::{Counted, Hours};
use sheet::Sheet;
use waits::wait_chart;

fn empty_sheet() -> CheckedSheet
    ensures { result.sheet ≡ empty_sheet }
{
    CheckedSheet {
        sheet: Sheet::empty(),
    }
}

// Hour zero alone has a wait, to itself.
fn empty_chart() -> [i16; 1024]
    ensures { result ≡ empty_chart }
{
    let mut chart = [i16::MIN; 1024];
    chart[0] = 0;
    chart
}

fn has_room(hours: &[Hours], counted: &[Counted], codes: &[u16]) -> bool
    ensures { IsTrue result
        ↔ Room (record { hours = hours.now; counted = counted.now; codes = codes.now }) }
{
    hours.len() >= 1024 && counted.len() >= 1024 && codes.len() >= 32
}

// The sheet that a command asks for.
pub(crate) fn asked_for(
    checked: &CheckedSheet,
    command: &Command,
) -> Result<CheckedSheet, CommandFault>
    ensures { AskedFor checked.now.sheet (said command.now) result }
{
    let mut sheet = checked.sheet;
    change(&mut sheet, command)?;
    Ok(CheckedSheet { sheet })
}

// A planner for a sheet, if that has a lawful timetable.
fn planner_for(
    checked: CheckedSheet,
    hours: &mut [Hours],
    counted: &mut [Counted],
    codes: &mut [u16],
) -> Result<Planner, Refusal>
    requires { Room (record { hours = hours.old; counted = counted.old; codes = codes.old }) }
    ensures { PlannerFor checked.sheet
        (record { hours = hours.old; counted = counted.old; codes = codes.old })
        (record { hours = hours.new; counted = counted.new; codes = codes.new }) result }
{
    let mut chart = [0; 1024];
    wait_chart(&checked, hours, counted, &mut chart, codes)?;
    Ok(Planner { checked, chart })
}

// The planner that was found takes the place of the one that stands.
fn replace(standing: &mut Planner, planner: Planner)
    ensures { standing.new ≡ planner }
{
    *standing = planner;
}

impl Planner {
    // Period 24, span 336, no steps, no rules and no vessels.
    pub fn empty() -> Planner
        ensures { sheet_of result ≡ empty_sheet }
    {
        Planner {
            checked: empty_sheet(),
            chart: empty_chart(),
        }
    }

    // Enters one command. The sheet becomes the one asked for exactly if the command has no fault on the sheet that stands
    // and the sheet asked for has a lawful timetable. `hours` and `counted` are working charts, whose contents are then
    // free; where there is no lawful timetable, the codes of a loop of the sheet asked for are written.
    pub fn enter(
        &mut self,
        command: &Command,
        hours: &mut [Hours],
        counted: &mut [Counted],
        codes: &mut [u16],
    ) -> Result<(), Refusal>
        ensures { Entered (sheet_of self.old) (said command.now)
            (record { hours = hours.old; counted = counted.old; codes = codes.old })
            (sheet_of self.new)
            (record { hours = hours.new; counted = counted.new; codes = codes.new }) result }
    {
        if !has_room(hours, counted, codes) {
            return Err(Refusal::TooShort);
        }
        let asked = asked_for(&self.checked, command)?;
        replace(self, planner_for(asked, hours, counted, codes)?);
        Ok(())
    }
}
