ghost use Rattle.std.specs.Prelude.{◌≡◌};
ghost use Rattle.book.specs.Commands.{said};
ghost use Rattle.changes.specs.Tests.{in_limits};
ghost use Rattle.card.specs.Marks.{marked, marks_after};

use book::Command;
use changes::{is_from, name_fits};

// Which steps a card has brought so far, by their numbers.
pub(crate) fn is_marked(marks: &[bool; 32], step: u8) -> bool
    ensures { result ≡ marked marks.now step }
{
    step < 32 && marks[step as usize]
}

// Whether the command puts something on a sheet with these steps, and keeps every limit.
pub(crate) fn fits(marks: &[bool; 32], command: &Command) -> bool
    ensures { result ≡ in_limits (marked marks.now) (said command.now) }
{
    match *command {
        Command::AddStep {
            step,
            duration,
            kind,
            name,
        } => {
            is_from(1, 31, step as u16) && is_from(1, 999, duration) && kind <= 7 && name_fits(name)
        }
        Command::After {
            rule,
            u,
            v,
            gap,
            carry,
        } => {
            is_from(1, 96, rule as u16)
                && is_marked(marks, u)
                && is_marked(marks, v)
                && gap <= 999
                && carry <= 7
        }
        Command::Within { rule, u, v, hours } => {
            is_from(1, 96, rule as u16)
                && is_marked(marks, u)
                && is_marked(marks, v)
                && hours <= 999
        }
        Command::At { rule, v, hour } => is_from(1, 96, rule as u16)
            && is_marked(marks, v)
            && hour <= 1999,
        Command::SetPeriod { period } => is_from(1, 999, period),
        Command::SetSpan { span } => is_from(1, 2000, span),
        Command::RemoveStep { .. }
        | Command::SetDuration { .. }
        | Command::RemoveRule { .. }
        | Command::SetVessels { .. } => false,
    }
}

// Marks the step that the command adds, if it adds one.
pub(crate) fn mark(marks: &mut [bool; 32], command: &Command)
    ensures { marks.new ≡ marks_after marks.old (said command.now) }
{
    if let Command::AddStep { step, .. } = *command {
        if step < 32 {
            marks[step as usize] = true;
        }
    }
}
