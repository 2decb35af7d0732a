// Rule sources.
ghost use Rattle.std.specs.Prelude.{◌≡◌};
ghost use Rattle.sheet.specs.Limits.{SoundSheet};
ghost use Rattle.sheet.specs.Sheets.{step_at, rule_at};

use super::forms::Rule;

// A rule source stands for a sound sheet without names and stock, and answers every question from it. Nothing is
// refused: numbers outside 1 to 31 and 1 to 96 are told as absent.
pub trait Source {
    ghost sheet: { Self → SoundSheet };

    fn period(&self) -> u16
        ensures { result ≡ (sheet self.now).told.period };

    fn span(&self) -> u16
        ensures { result ≡ (sheet self.now).told.span };

    // Absent, or duration and vessel kind.
    fn step(&self, number: u8) -> Option<(u16, u8)>
        ensures { result ≡ step_at (sheet self.now).told number };

    // Free, or the rule's form.
    fn rule(&self, number: u8) -> Rule
        ensures { result ≡ rule_at (sheet self.now).told number };
}
