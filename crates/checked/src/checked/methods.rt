// How a sheet is checked, and what it then tells.
ghost use Rattle.std.specs.Prelude.{◌≡◌, MatchOption};
ghost use Rattle.std.specs.Option.{option_map};
ghost use Rattle.sheet.specs.Limits.{FullSound};
ghost use Rattle.sheet.specs.Sheets.{rule_sheet, step_at, without_name};
ghost use Rattle.checked.specs.Props.{told_by};

use super::super::limits::is_sound;
use super::CheckedSheet;
use sheet::{Rule, Sheet, Source, Step};

impl CheckedSheet {
    // Nothing, if the sheet breaks a limit.
    pub fn new(sheet: Sheet) -> Option<CheckedSheet>
        ensures { MatchOption result (FullSound sheet → ⊥) (λ checked. checked.sheet ≡ sheet) }
    {
        if is_sound(&sheet) {
            Some(CheckedSheet { sheet })
        } else {
            None
        }
    }
}

impl Source for CheckedSheet {
    ghost sheet = { λ x. told_by x.sheet x.sound };

    fn period(&self) -> u16 {
        self.sheet.period
    }

    fn span(&self) -> u16 {
        self.sheet.span
    }

    fn step(&self, number: u8) -> Option<(u16, u8)> {
        let step = self.sheet.step(number)?;
        Some((step.duration, step.kind))
    }

    fn rule(&self, number: u8) -> Rule {
        self.sheet.rule(number)
    }
}
