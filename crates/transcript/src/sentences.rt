// Commands and faults as they are printed.
ghost use Rattle.std.specs.Prelude.{◌≡◌, ◌<◌, map, Some};
ghost use Rattle.book.specs.Commands.{said};
ghost use Rattle.book.specs.Numbers.{number};
ghost use Rattle.transcript.specs.Sentences.{shown, sentence, reason, fault_told};

use book::{Cause, Command};
use std::fmt;

// A byte of a name as it can be shown.
fn shown_byte(b: u8) -> char
    ensures value { result ≡ shown b }
    ensures ascii { result < 128 }
{
    if 32 <= b && b <= 126 {
        char::from(b)
    } else {
        '?'
    }
}

// A step's name, byte by byte.
#[derive(Clone, Copy)]
struct Name<'a>(&'a [u8]);

impl fmt::Display for Name<'_> {
    ghost output = { λ x. Some (map shown x.0.now) };

    fn fmt<W: fmt::Write>(&self, f: &mut fmt::Formatter<W>) -> fmt::Result {
        for b in self.0 {
            f.write_char(shown_byte(*b))?;
        }
        Ok(())
    }
}

// A command in plain words.
#[derive(Clone, Copy)]
pub struct Sentence<'a>(pub Command<'a>);

impl fmt::Display for Sentence<'_> {
    ghost output = { λ x. Some (sentence (said x.0)) };

    fn fmt<W: fmt::Write>(&self, f: &mut fmt::Formatter<W>) -> fmt::Result {
        match self.0 {
            Command::AddStep {
                step,
                duration,
                kind,
                name,
            } => {
                let name = Name(name);
                write!(
                    f,
                    "add step {step} \"{name}\", {duration} hours, kind {kind}"
                )
            }
            Command::RemoveStep { step } => write!(f, "remove step {step}"),
            Command::SetDuration { step, duration } => {
                write!(f, "step {step} takes {duration} hours")
            }
            Command::After {
                rule,
                u,
                v,
                gap,
                carry,
            } => write!(
                f,
                "rule {rule}: step {v}, {carry} brews on, starts at least {gap} hours after step {u} ends"
            ),
            Command::Within { rule, u, v, hours } => write!(
                f,
                "rule {rule}: step {v} starts at most {hours} hours after step {u} starts"
            ),
            Command::At { rule, v, hour } => write!(
                f,
                "rule {rule}: step {v} starts at hour {hour}"
            ),
            Command::RemoveRule { rule } => write!(f, "remove rule {rule}"),
            Command::SetPeriod { period } => write!(f, "a brew starts every {period} hours"),
            Command::SetSpan { span } => write!(f, "a brew ends within {span} hours"),
            Command::SetVessels { kind, count } => write!(f, "{count} vessels of kind {kind}"),
        }
    }
}

fn reason_of(cause: Cause) -> &'static str
    ensures { result.now ≡ reason cause }
{
    match cause {
        Cause::UnknownByte => "unknown command byte",
        Cause::CutOff => "command cut off",
        Cause::TooLong => "more than 4096 bytes",
    }
}

// What ended the reading of a book.
#[derive(Clone, Copy)]
pub struct Ended(pub Cause);

impl fmt::Display for Ended {
    ghost output = { λ x. Some (fault_told (number x.0) (reason x.0)) };

    fn fmt<W: fmt::Write>(&self, f: &mut fmt::Formatter<W>) -> fmt::Result {
        let number = self.0.number();
        let reason = reason_of(self.0);
        write!(
            f,
            "fault {number}, {reason}; the rest of the book is dropped"
        )
    }
}
