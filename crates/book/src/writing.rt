ghost use Rattle.std.specs.Prelude.{◌≡◌};
ghost use Rattle.book.specs.Commands.{said, add_step};
ghost use Rattle.book.specs.Writing.{Overwrote, Wrote, ReadsBack, unwritten_number};

use crate::commands::Command;

// Why a command was not written.
#[derive(Clone, Copy, Debug, PartialEq, Eq)]
pub enum Unwritten {
    // The name of a command made by hand is not eight bytes long, so that the format has no place for it.
    NameLength = 6,
    // The buffer ends before the command would.
    TooShort = 30,
}

impl Unwritten {
    pub fn number(self) -> u8
        ensures { result ≡ unwritten_number self }
    {
        self as u8
    }
}

// Writes the bytes over those from `at` on and tells the place behind them, or leaves the buffer where they do not fit.
fn put(buffer: &mut [u8], at: usize, bytes: &[u8]) -> Result<usize, Unwritten>
    ensures { Overwrote buffer.old at bytes.now result buffer.new }
{
    if at > buffer.len() || buffer.len() - at < bytes.len() {
        return Err(Unwritten::TooShort);
    }
    let end = at + bytes.len();
    buffer[at..end].copy_from_slice(bytes);
    Ok(end)
}

// Writes the command over the bytes from `at` on and tells the place behind it.
pub fn encode(command: &Command, buffer: &mut [u8], at: usize) -> Result<usize, Unwritten>
    ensures wrote { Wrote buffer.old at (said command.now) result buffer.new }
    ensures back { ReadsBack at (said command.now) result buffer.new }
{
    put_command(command, buffer, at)
}

fn put_command(command: &Command, buffer: &mut [u8], at: usize) -> Result<usize, Unwritten>
    ensures { Wrote buffer.old at (said command.now) result buffer.new }
{
    match *command {
        Command::AddStep {
            step,
            duration,
            kind,
            name,
        } => put_step(buffer, at, step, duration, kind, name),
        Command::RemoveStep { step } => put(buffer, at, &[0x02, step]),
        Command::SetDuration { step, duration } => {
            let [dh, dl] = duration.to_be_bytes();
            put(buffer, at, &[0x03, step, dh, dl])
        }
        Command::After {
            rule,
            u,
            v,
            gap,
            carry,
        } => {
            let [gh, gl] = gap.to_be_bytes();
            put(buffer, at, &[0x04, rule, u, v, gh, gl, carry])
        }
        Command::Within { rule, u, v, hours } => {
            let [hh, hl] = hours.to_be_bytes();
            put(buffer, at, &[0x05, rule, u, v, hh, hl])
        }
        Command::At { rule, v, hour } => {
            let [hh, hl] = hour.to_be_bytes();
            put(buffer, at, &[0x06, rule, v, hh, hl])
        }
        Command::RemoveRule { rule } => put(buffer, at, &[0x07, rule]),
        Command::SetPeriod { period } => {
            let [th, tl] = period.to_be_bytes();
            put(buffer, at, &[0x08, th, tl])
        }
        Command::SetSpan { span } => {
            let [hh, hl] = span.to_be_bytes();
            put(buffer, at, &[0x09, hh, hl])
        }
        Command::SetVessels { kind, count } => put(buffer, at, &[0x0A, kind, count]),
    }
}

// A step's name is written by a second call, right behind the operands before it.
fn put_step(
    buffer: &mut [u8],
    at: usize,
    step: u8,
    duration: u16,
    kind: u8,
    name: &[u8],
) -> Result<usize, Unwritten>
    ensures { Wrote buffer.old at (add_step step duration kind name.now) result buffer.new }
{
    if at > buffer.len() || buffer.len() - at < 13 {
        return Err(Unwritten::TooShort);
    }
    if name.len() != 8 {
        return Err(Unwritten::NameLength);
    }
    let [dh, dl] = duration.to_be_bytes();
    let end = put(buffer, at, &[0x01, step, dh, dl, kind])?;
    put(buffer, end, name)
}
