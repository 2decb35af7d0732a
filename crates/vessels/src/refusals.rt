ghost use Rattle.std.specs.Prelude.{◌≡◌};
ghost use Rattle.vessels.specs.Refusals.{refusal_number};

// Why no vessels were written.
#[derive(Clone, Copy, Debug, PartialEq, Eq)]
pub enum Refusal {
    // The buffer has fewer than 31 places.
    TooShort,
    // The first step that finds no vessel.
    NoVessel(u8),
}

impl Refusal {
    pub fn number(self) -> u8
        ensures { result ≡ refusal_number self }
    {
        match self {
            Refusal::TooShort => 30,
            Refusal::NoVessel(_) => 40,
        }
    }
}
