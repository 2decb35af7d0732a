// The sheet that a command asks for.
ghost use Rattle.std.specs.Prelude.{◌≡◌, length, None, slice_set};
ghost use Rattle.book.specs.Commands.{said};
ghost use Rattle.changes.specs.Changes.{asked};
ghost use Rattle.changes.specs.Faults.{first_fault};
ghost use Rattle.commands.specs.Answers.{Changed};

use super::judging::judge;
use book::Command;
use changes::CommandFault;
use sheet::{Rule, Sheet, Step};

// The bytes of a name as a record holds them.
fn name_bytes(name: &[u8]) -> [u8; 8]
    requires { length name.now ≡ 8 }
    ensures { result ≡ name.now }
{
    let mut bytes = [0; 8];
    bytes.copy_from_slice(name);
    bytes
}

// Kinds are counted from 0; a kind without a count changes nothing.
fn set_count(stock: &mut [u8; 8], kind: u8, count: u8)
    ensures { stock.new ≡ slice_set stock.old kind count }
{
    if kind < 8 {
        stock[kind as usize] = count;
    }
}

fn apply(sheet: &mut Sheet, command: &Command)
    requires { first_fault sheet.old (said command.now) ≡ None }
    ensures { sheet.new ≡ asked sheet.old (said command.now) }
{
    match *command {
        Command::AddStep {
            step,
            duration,
            kind,
            name,
        } => {
            let name = name_bytes(name);
            sheet.set_step(
                step,
                Some(Step {
                    duration,
                    kind,
                    name,
                }),
            );
        }
        Command::RemoveStep { step } => sheet.set_step(step, None),
        Command::SetDuration { step, duration } => {
            sheet.set_duration(step, duration);
        }
        Command::After {
            rule,
            u,
            v,
            gap,
            carry,
        } => {
            sheet.set_rule(rule, Rule::After { u, v, gap, carry });
        }
        Command::Within { rule, u, v, hours } => {
            sheet.set_rule(rule, Rule::Within { u, v, hours });
        }
        Command::At { rule, v, hour } => sheet.set_rule(rule, Rule::At { v, hour }),
        Command::RemoveRule { rule } => sheet.set_rule(rule, Rule::Free),
        Command::SetPeriod { period } => sheet.period = period,
        Command::SetSpan { span } => sheet.span = span,
        Command::SetVessels { kind, count } => set_count(&mut sheet.stock, kind, count),
    }
}

// Makes the sheet the one that the command asks for, whether that has a lawful timetable or not; or tells the command's
// first fault and leaves the sheet.
pub fn change(sheet: &mut Sheet, command: &Command) -> Result<(), CommandFault>
    ensures { Changed sheet.old (said command.now) sheet.new result }
{
    judge(sheet, command)?;
    apply(sheet, command);
    Ok(())
}
