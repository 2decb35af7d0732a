ghost use Rattle.std.specs.Prelude.{◌≡◌, ◌≤◌, length};
ghost use Rattle.card_writing.specs.Outcomes.{Put};
ghost use Rattle.lines.specs.Texts.{text_of, line_number, LineWritten};

use super::placing::{put_period, put_refused, put_report, put_step};
use merge::Report;

// One line of the printed sheet.
#[derive(Clone, Copy, Debug, PartialEq, Eq)]
pub enum Line {
    // The merge was refused whole, by this number.
    Refused {
        number: u8,
    },
    Reported {
        report: Report,
    },
    Period {
        period: u16,
        bound: u16,
    },
    Step {
        number: u8,
        name: [u8; 8],
        earliest: u16,
        latest: u16,
    },
}

// Why a line was not written.
#[derive(Clone, Copy, Debug, PartialEq, Eq)]
pub enum LineRefusal {
    // The buffer has fewer than 32 bytes.
    TooShort = 30,
}

impl LineRefusal {
    pub fn number(self) -> u8
        ensures { result ≡ line_number self }
    {
        self as u8
    }
}

fn put_line(line: Line, buffer: &mut [u8]) -> usize
    requires { 32 ≤ length buffer.old }
    ensures { Put buffer.old 0 (text_of line) result buffer.new }
{
    match line {
        Line::Refused { number } => put_refused(buffer, number),
        Line::Reported { report } => put_report(buffer, report),
        Line::Period { period, bound } => put_period(buffer, period, bound),
        Line::Step {
            number,
            name,
            earliest,
            latest,
        } => put_step(buffer, number, &name, earliest, latest),
    }
}

impl Line {
    // Writes the line to the buffer's front and tells its length.
    pub fn write(self, buffer: &mut [u8]) -> Result<usize, LineRefusal>
        ensures { LineWritten (text_of self) buffer.old result buffer.new }
    {
        if buffer.len() < 32 {
            return Err(LineRefusal::TooShort);
        }
        Ok(put_line(self, buffer))
    }
}
