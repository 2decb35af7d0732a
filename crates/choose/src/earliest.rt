ghost use Rattle.choose.specs.Choosing.{earliest};

use super::chooser::Chooser;
use super::shown::Shown;

// Takes the first hour of the window.
#[derive(Clone, Copy)]
pub struct Earliest;

impl Chooser for Earliest {
    ghost rule = { λ _. earliest };

    fn choose(&self, shown: Shown<'_>) -> u16 {
        shown.first
    }
}
