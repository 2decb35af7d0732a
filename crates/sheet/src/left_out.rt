// A layer: a source that tells the sheet of the source below it with one thing changed. Layers stack.
ghost use Rattle.sheet.specs.Layers.{left_out};

use super::forms::Rule;
use super::source::Source;

// Tells one rule number as free; a number outside 1 to 96 leaves out nothing.
#[derive_where(Clone, Copy)]
pub struct LeftOut<'a, S> {
    pub below: &'a S,
    pub number: u8,
}

impl<'a, S: Source> Source for LeftOut<'a, S> {
    ghost sheet = { λ x. left_out (S.Source.sheet x.below.now) x.number };

    fn period(&self) -> u16 {
        self.below.period()
    }

    fn span(&self) -> u16 {
        self.below.span()
    }

    fn step(&self, number: u8) -> Option<(u16, u8)> {
        self.below.step(number)
    }

    fn rule(&self, number: u8) -> Rule {
        if number == self.number {
            Rule::Free
        } else {
            self.below.rule(number)
        }
    }
}
