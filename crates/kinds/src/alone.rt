// Hours alone: a link counts for its weight.
ghost use Rattle.kinds.specs.Alone.{
  no_hours,
  hours_sum,
  HoursUnder,
  AloneWithin,
  link_hours,
  hours_laws,
};

use chart::Entry;
use sheet::Link;

#[derive(Clone, Copy, Debug, PartialEq, Eq, PartialOrd, Ord)]
pub struct Hours {
    pub hours: i64,
}

impl Entry for Hours {
    ghost neutral = { no_hours };

    ghost sum = { hours_sum };

    ghost under = { HoursUnder };

    ghost within = { AloneWithin };

    ghost value = { link_hours };

    ghost laws = { hours_laws };

    fn zero() -> Hours {
        Hours { hours: 0 }
    }

    fn of_link(link: &Link, period: u16) -> Hours {
        Hours {
            hours: link.weight(period),
        }
    }

    fn plus(self, other: Hours) -> Hours {
        Hours {
            hours: self.hours + other.hours,
        }
    }

    fn beats(self, other: Hours) -> bool {
        self > other
    }
}
