ghost use Rattle.std.specs.Prelude.{◌≡◌};
ghost use Rattle.book.specs.Commands.{said};
ghost use Rattle.card.specs.Order.{rising, subject, place_after};

use book::Command;

// How far a card has come: what is due, or the last step or rule that was read.
#[derive(Clone, Copy, Debug, PartialEq, Eq)]
pub enum Stage {
    Period,
    Span,
    Steps { last: Option<u8> },
    Rules { last: u8 },
}

fn rises(last: Option<u8>, number: u8) -> bool
    ensures { result ≡ rising last number }
{
    match last {
        Some(last) => last < number,
        None => true,
    }
}

// The stage after a command, or nothing where the command is out of place.
pub(crate) fn stage_after(stage: Stage, command: &Command) -> Option<Stage>
    ensures { result ≡ place_after stage (subject (said command.now)) }
{
    match (stage, *command) {
        (Stage::Period, Command::SetPeriod { .. }) => Some(Stage::Span),
        (Stage::Span, Command::SetSpan { .. }) => Some(Stage::Steps { last: None }),
        (Stage::Steps { last }, Command::AddStep { step, .. }) if rises(last, step) => {
            Some(Stage::Steps { last: Some(step) })
        }
        (
            Stage::Steps { .. },
            Command::After { rule, .. } | Command::Within { rule, .. } | Command::At { rule, .. },
        ) => Some(Stage::Rules { last: rule }),
        (
            Stage::Rules { last },
            Command::After { rule, .. } | Command::Within { rule, .. } | Command::At { rule, .. },
        ) if last < rule => Some(Stage::Rules { last: rule }),
        _ => None,
    }
}
