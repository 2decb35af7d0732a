// The weight of a link, which is worked out here and nowhere else.
ghost use Rattle.std.specs.Prelude.{◌≡◌, ◌*◌};
ghost use Rattle.sheet.specs.Links.{weight};

use super::forms::Link;

// The hours that so many carries take away at a period.
fn carried(carries: u8, period: u16) -> u32
    ensures { result ≡ carries * period }
{
    carries as u32 * period as u32
}

impl Link {
    pub fn weight(&self, period: u16) -> i64
        ensures { result ≡ weight period self.now }
    {
        self.hours as i64 - carried(self.carries, period) as i64
    }
}
