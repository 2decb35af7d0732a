// What a planner tells of its sheet.
ghost use Rattle.std.specs.Prelude.{◌≡◌, ◌*◌, ◌<◌, pos, neg_ℤ, ◌≤ℤ◌, slice_index_or};
ghost use Rattle.checked.specs.Props.{told_by};
ghost use Rattle.card_writing.specs.Contents.{card_of};
ghost use Rattle.card_writing.specs.Outcomes.{CardWritten, StandsFor};
ghost use Rattle.planner.specs.Entering.{sheet_of};
ghost use Rattle.planner.specs.Questions.{count_told, record_told, name_told, WindowTold};

use super::Planner;
use book::Unwritten;
use card_writing::write_card;
use changes::{CommandFault, is_from};
use sheet::{Rule, Sheet, Source, Step};

fn record_of(sheet: &Sheet, step: u8) -> Result<Step, CommandFault>
    ensures { result ≡ record_told sheet.now step }
{
    if !is_from(1, 31, step as u16) {
        return Err(CommandFault::StepNumber);
    }
    sheet.step(step).ok_or(CommandFault::StepAbsent)
}

// The wait from hour zero to a step, which is its earliest start.
fn earliest(chart: &[i16; 1024], step: u8) -> u16
    requires step { step < 32 }
    requires low { pos 0 ≤ℤ slice_index_or chart.now step (pos 0) }
    ensures { pos result ≡ slice_index_or chart.now step (pos 0) }
{
    chart[step as usize] as u16
}

// The wait from a step back to hour zero, which is minus its latest start.
fn latest(chart: &[i16; 1024], step: u8) -> u16
    requires step { step < 32 }
    requires low { neg_ℤ (pos 2000) ≤ℤ slice_index_or chart.now (32 * step) (pos 0) }
    requires high { slice_index_or chart.now (32 * step) (pos 0) ≤ℤ pos 0 }
    ensures { neg_ℤ (pos result) ≡ slice_index_or chart.now (32 * step) (pos 0) }
{
    -chart[32 * step as usize] as u16
}

fn window_at(chart: &[i16; 1024], step: u8) -> (u16, u16)
    requires step { step < 32 }
    requires first { pos 0 ≤ℤ slice_index_or chart.now step (pos 0) }
    requires last_low { neg_ℤ (pos 2000) ≤ℤ slice_index_or chart.now (32 * step) (pos 0) }
    requires last_high { slice_index_or chart.now (32 * step) (pos 0) ≤ℤ pos 0 }
    ensures first { pos result.0 ≡ slice_index_or chart.now step (pos 0) }
    ensures last { neg_ℤ (pos result.1) ≡ slice_index_or chart.now (32 * step) (pos 0) }
{
    (earliest(chart, step), latest(chart, step))
}

impl Planner {
    // How many vessels of a kind there are.
    pub fn count(&self, kind: u8) -> Result<u8, CommandFault>
        ensures { result ≡ count_told (sheet_of self.now) kind }
    {
        if kind > 7 {
            return Err(CommandFault::Kind);
        }
        Ok(self.checked.sheet.stock[kind as usize])
    }

    pub fn name(&self, step: u8) -> Result<[u8; 8], CommandFault>
        ensures { result ≡ name_told (sheet_of self.now) step }
    {
        let record = record_of(&self.checked.sheet, step)?;
        Ok(record.name)
    }

    // The earliest and the latest start of a step over all lawful timetables.
    pub fn window(&self, step: u8) -> Result<(u16, u16), CommandFault>
        ensures { WindowTold (sheet_of self.now) step result }
    {
        record_of(&self.checked.sheet, step)?;
        Ok(window_at(&self.chart, step))
    }

    // Writes the sheet, without its stock, as a card at the front of the buffer and tells the card's length.
    pub fn write_card(&self, buffer: &mut [u8]) -> Result<usize, Unwritten>
        ensures written { CardWritten (card_of (sheet_of self.now)) buffer.old result buffer.new }
        ensures stands { StandsFor (sheet_of self.now) result buffer.new }
    {
        write_card(&self.checked, buffer)
    }
}

impl Source for Planner {
    ghost sheet = { λ x. told_by x.checked.sheet x.checked.sound };

    fn period(&self) -> u16 {
        self.checked.period()
    }

    fn span(&self) -> u16 {
        self.checked.span()
    }

    fn step(&self, number: u8) -> Option<(u16, u8)> {
        self.checked.step(number)
    }

    fn rule(&self, number: u8) -> Rule {
        self.checked.rule(number)
    }
}
