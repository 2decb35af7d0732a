ghost use Rattle.choose.specs.Choosing.{latest};

use super::chooser::Chooser;
use super::shown::Shown;

// Takes the last hour of the window, or the first where the last lies before it.
#[derive(Clone, Copy)]
pub struct Latest;

impl Chooser for Latest {
    ghost rule = { λ _. latest };

    fn choose(&self, shown: Shown<'_>) -> u16 {
        shown.last.max(shown.first)
    }
}
