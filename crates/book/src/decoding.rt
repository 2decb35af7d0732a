ghost use Rattle.std.specs.Prelude.{◌≡◌};
ghost use Rattle.book.specs.Commands.{answered, decoded};

use crate::commands::Command;
use crate::faults::Cause;

// The command at the front of the rest of a book.
pub fn decode<'a>(rest: &'a [u8]) -> Result<Command<'a>, Cause>
    ensures { answered result ≡ decoded rest.now }
{
    match rest {
        [0x01, step, dh, dl, kind, name @ ..] if name.len() >= 8 => Ok(Command::AddStep {
            step: *step,
            duration: u16::from_be_bytes([*dh, *dl]),
            kind: *kind,
            name: &name[0..8],
        }),
        [0x02, step, ..] => Ok(Command::RemoveStep { step: *step }),
        [0x03, step, dh, dl, ..] => Ok(Command::SetDuration {
            step: *step,
            duration: u16::from_be_bytes([*dh, *dl]),
        }),
        [0x04, rule, u, v, gh, gl, carry, ..] => Ok(Command::After {
            rule: *rule,
            u: *u,
            v: *v,
            gap: u16::from_be_bytes([*gh, *gl]),
            carry: *carry,
        }),
        [0x05, rule, u, v, hh, hl, ..] => Ok(Command::Within {
            rule: *rule,
            u: *u,
            v: *v,
            hours: u16::from_be_bytes([*hh, *hl]),
        }),
        [0x06, rule, v, hh, hl, ..] => Ok(Command::At {
            rule: *rule,
            v: *v,
            hour: u16::from_be_bytes([*hh, *hl]),
        }),
        [0x07, rule, ..] => Ok(Command::RemoveRule { rule: *rule }),
        [0x08, th, tl, ..] => Ok(Command::SetPeriod {
            period: u16::from_be_bytes([*th, *tl]),
        }),
        [0x09, hh, hl, ..] => Ok(Command::SetSpan {
            span: u16::from_be_bytes([*hh, *hl]),
        }),
        [0x0A, kind, count, ..] => Ok(Command::SetVessels {
            kind: *kind,
            count: *count,
        }),
        [] => Err(Cause::CutOff),
        [0x01..=0x0A, ..] => Err(Cause::CutOff),
        _ => Err(Cause::UnknownByte),
    }
}
