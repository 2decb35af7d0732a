ghost use Rattle.std.specs.Prelude.{◌≡◌};
ghost use Rattle.std.specs.Option.{option_map};
ghost use Rattle.card.specs.Cards.{verdict, outcome, sheet_of};
ghost use Rattle.card.specs.Finds.{answers_of, answers_from};
ghost use Rattle.card.specs.Source.{bytes_of, name_on};
ghost use Rattle.card.specs.Told.{card_told};

use super::Card;
use crate::checking::check;
use crate::faults::CardFault;
use crate::lookups::{Found, NOTHING_FOUND, find};
use sheet::{Rule, Source};

impl<'a> Card<'a> {
    pub fn new(bytes: &'a [u8]) -> Card<'a>
        ensures { bytes_of result ≡ bytes.now }
    {
        let checked = check(bytes);
        Card { bytes, checked }
    }

    // That the card is sound, or its first fault.
    pub fn condition(&self) -> Result<(), CardFault>
        ensures { result ≡ outcome (verdict (bytes_of self.now)) }
    {
        self.checked
    }

    // What the card tells of a step and a rule; a faulty one tells an empty planner's sheet.
    fn look_up(&self, step: u8, rule: u8) -> Found<'a>
        ensures { let sheet = sheet_of (verdict (bytes_of self.now)) in
            answers_of result ≡ answers_from sheet step rule }
    {
        if self.condition().is_err() {
            return NOTHING_FOUND;
        }
        find(self.bytes, step, rule)
    }

    // The name of a step, as the eight bytes of the card itself.
    pub fn name(&self, step: u8) -> Option<&'a [u8]>
        ensures { option_map (λ x. x.now) result ≡ name_on (bytes_of self.now) step }
    {
        let found = self.look_up(step, 0).step?;
        Some(found.name)
    }
}

// The name of a step on a card, as the eight bytes of the card itself.
pub fn step_name<'a>(card: &'a [u8], step: u8) -> Option<&'a [u8]>
    ensures { option_map (λ x. x.now) result ≡ name_on card.now step }
{
    Card::new(card).name(step)
}

impl<'a> Source for Card<'a> {
    ghost sheet = { λ x. card_told x.bytes.now };

    fn period(&self) -> u16 {
        self.look_up(0, 0).period
    }

    fn span(&self) -> u16 {
        self.look_up(0, 0).span
    }

    fn step(&self, number: u8) -> Option<(u16, u8)> {
        let step = self.look_up(number, 0).step?;
        Some((step.duration, step.kind))
    }

    fn rule(&self, number: u8) -> Rule {
        self.look_up(0, number).rule
    }
}
