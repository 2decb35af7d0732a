ghost use Rattle.std.specs.Prelude.{◌≡◌};
ghost use Rattle.card.specs.Cards.{verdict, outcome};

use crate::faults::CardFault;

// A card over the caller's bytes, with the outcome of its check.
#[derive(Clone, Copy)]
pub struct Card<'a> {
    bytes: &'a [u8],
    checked: Result<(), CardFault>,
    ghost known: { checked ≡ outcome (verdict bytes.now) },
}

pub mod methods;
