// Kinds of entry.
ghost use Rattle.std.specs.Prelude.{◌≡◌, ℕ, false};
ghost use Rattle.sheet.specs.declared.forms.Link.{Link};
ghost use Rattle.chart.specs.Laws.{Laws, limit};

use sheet::Link;

// An entry of a working chart: what a run of links comes to. Each kind says what a link counts for at a period, and
// which of two entries ranks higher.
pub trait Entry: Copy {
    ghost neutral: { Self };

    ghost sum: { Self → Self → Self };

    ghost under: { Self → Self → Type 0 };

    ghost within: { ℕ → Self → Type 0 };

    ghost value: { ℕ → Link → Self };

    ghost laws: { Laws neutral sum under within value };

    fn zero() -> Self
        ensures { result ≡ neutral };

    fn of_link(link: &Link, period: u16) -> Self
        ensures { result ≡ value period link.now };

    fn plus(self, other: Self) -> Self
        requires self_within { within limit self }
        requires other_within { within limit other }
        ensures { result ≡ sum self other };

    // Whether it ranks higher than the other.
    fn beats(self, other: Self) -> bool
        ensures low { result ≡ false → under self other }
        ensures high { under self other → result ≡ false };
}
