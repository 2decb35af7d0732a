// The commands that put what a sheet has on a card.
ghost use Rattle.std.specs.Prelude.{◌≡◌, ◌≤◌, true, length, IfSome};
ghost use Rattle.book.specs.Commands.{said, width, add_step, set_period, set_span};
ghost use Rattle.book.specs.Writing.{eight_bytes};
ghost use Rattle.card_writing.specs.Contents.{said_by, rule_command};

use book::Command;
use sheet::{Rule, Sheet, Step};

pub(crate) fn period_command(sheet: &Sheet) -> Command
    ensures { said result ≡ set_period sheet.now.period }
{
    Command::SetPeriod {
        period: sheet.period,
    }
}

pub(crate) fn span_command(sheet: &Sheet) -> Command
    ensures { said result ≡ set_span sheet.now.span }
{
    Command::SetSpan { span: sheet.span }
}

// The name is a part of the step's record.
pub(crate) fn step_command(number: u8, step: &Step) -> Command
    ensures says { said result ≡ add_step number step.now.duration step.now.kind step.now.name }
    ensures eight { length step.now.name ≡ 8 }
{
    Command::AddStep {
        step: number,
        duration: step.duration,
        kind: step.kind,
        name: &step.name,
    }
}

// Nothing for a free number.
pub(crate) fn rule_command(number: u8, rule: &Rule) -> Option<Command>
    ensures says { said_by result ≡ rule_command number rule.now }
    ensures short { IfSome result (λ command. width (said command) ≤ 7) }
    ensures eight { IfSome result (λ command. eight_bytes (said command) ≡ true) }
{
    match *rule {
        Rule::Free => None,
        Rule::After { u, v, gap, carry } => Some(Command::After {
            rule: number,
            u,
            v,
            gap,
            carry,
        }),
        Rule::Within { u, v, hours } => Some(Command::Within {
            rule: number,
            u,
            v,
            hours,
        }),
        Rule::At { v, hour } => Some(Command::At {
            rule: number,
            v,
            hour,
        }),
    }
}
