// A full sheet that keeps every limit.
ghost use Rattle.sheet.specs.Limits.{FullSound};

use sheet::Sheet;

#[derive(Clone, Copy)]
pub struct CheckedSheet {
    pub sheet: Sheet,
    ghost sound: { ∥ FullSound sheet ∥₁ },
}

pub mod methods;
