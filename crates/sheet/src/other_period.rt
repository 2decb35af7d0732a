// A layer: a source that tells the sheet of the source below it with one thing changed. Layers stack.
ghost use Rattle.sheet.specs.Layers.{other_period};

use super::forms::Rule;
use super::source::Source;

// Tells another period; 0 counts as 1, and what is above 999 as 999.
#[derive_where(Clone, Copy)]
pub struct OtherPeriod<'a, S> {
    pub below: &'a S,
    pub period: u16,
}

impl<'a, S: Source> Source for OtherPeriod<'a, S> {
    ghost sheet = { λ x. other_period (S.Source.sheet x.below.now) x.period };

    fn period(&self) -> u16 {
        self.period.clamp(1, 999)
    }

    fn span(&self) -> u16 {
        self.below.span()
    }

    fn step(&self, number: u8) -> Option<(u16, u8)> {
        self.below.step(number)
    }

    fn rule(&self, number: u8) -> Rule {
        self.below.rule(number)
    }
}
