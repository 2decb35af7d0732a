// Choosers.
ghost use Rattle.std.specs.Prelude.{◌≡◌};
ghost use Rattle.choose.specs.Choosing.{HourRule};
ghost use Rattle.choose.specs.Views.{seen};

use super::shown::Shown;

// A chooser stands for a rule from what is shown to an hour, and answers by that rule each time. It alters nothing and
// refuses nothing, whatever is shown.
pub trait Chooser {
    ghost rule: { Self → HourRule };

    fn choose(&self, shown: Shown<'_>) -> u16
        ensures { result ≡ (rule self.now).hour (seen shown.entry) };
}
