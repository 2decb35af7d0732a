// Hours with a count of links: a link counts for its weight and for one link.
ghost use Rattle.kinds.specs.Together.{
  no_link,
  counted_sum,
  RanksUnder,
  CountedWithin,
  one_link,
  counted_laws,
};

use chart::Entry;
use sheet::Link;
use std::cmp::Ordering;

// More hours rank higher, and at equal hours fewer links do.
#[derive(Clone, Copy, Debug, PartialEq, Eq)]
pub struct Counted {
    pub hours: i64,
    pub links: u64,
}

impl Entry for Counted {
    ghost neutral = { no_link };

    ghost sum = { counted_sum };

    ghost under = { RanksUnder };

    ghost within = { CountedWithin };

    ghost value = { one_link };

    ghost laws = { counted_laws };

    fn zero() -> Counted {
        Counted { hours: 0, links: 0 }
    }

    fn of_link(link: &Link, period: u16) -> Counted {
        Counted {
            hours: link.weight(period),
            links: 1,
        }
    }

    fn plus(self, other: Counted) -> Counted {
        Counted {
            hours: self.hours + other.hours,
            links: self.links + other.links,
        }
    }

    fn beats(self, other: Counted) -> bool {
        match self.hours.cmp(&other.hours) {
            Ordering::Less => false,
            Ordering::Equal => self.links < other.links,
            Ordering::Greater => true,
        }
    }
}
