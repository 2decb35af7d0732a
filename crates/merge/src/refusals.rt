ghost use Rattle.std.specs.Prelude.{◌≡◌};
ghost use Rattle.merge.specs.Refusals.{merge_number};

// Why a merge was refused whole.
#[derive(Clone, Copy, Debug, PartialEq, Eq)]
pub enum MergeRefusal {
    // A book has more than 4,096 bytes.
    TooLong = 24,
    // A buffer is too short.
    TooShort = 30,
}

impl MergeRefusal {
    pub fn number(self) -> u8
        ensures { result ≡ merge_number self }
    {
        self as u8
    }
}
