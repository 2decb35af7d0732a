// Refusals by a loop.
ghost use Rattle.std.specs.Prelude.{◌≡◌};
ghost use Rattle.loops.specs.Loops.{refusal_number};
ghost use Rattle.loops.specs.declared.refusals.LoopRefusal.TheVariants.{TooShort};

// A buffer is too short.
#[derive(Clone, Copy, Debug, PartialEq, Eq)]
pub struct TooShort;

// Why there is no answer about a sheet.
#[derive(Clone, Copy, Debug, PartialEq, Eq)]
pub enum LoopRefusal {
    // A buffer is too short.
    TooShort,
    // The sheet has no lawful timetable; the codes of so many links of a loop were written.
    NoTimetable { count: usize },
}

impl From<TooShort> for LoopRefusal {
    ghost from_gives = { λ _ refusal. refusal ≡ TooShort };

    fn from(_short: TooShort) -> LoopRefusal {
        LoopRefusal::TooShort
    }
}

impl LoopRefusal {
    pub fn number(self) -> u8
        ensures { result ≡ refusal_number self }
    {
        match self {
            LoopRefusal::TooShort => 30,
            LoopRefusal::NoTimetable { .. } => 14,
        }
    }
}
