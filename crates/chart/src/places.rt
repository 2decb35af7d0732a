// The places that a working chart is about, and its refusals.
ghost use Rattle.std.specs.Prelude.{◌≡◌};
ghost use Rattle.chart.specs.Positions.{IsPlaces};
ghost use Rattle.chart.specs.Runs.{stop_number};

use sheet::Source;

// The present places of a sheet: `list[a]` is the place at position a, for a below `count`, and `positions[v]` is the
// position of place v. Place 0 comes first, then the steps by rising number.
#[derive(Clone, Copy, Debug, PartialEq, Eq)]
pub struct Places {
    pub count: usize,
    pub list: [u8; 32],
    pub positions: [u8; 32],
}

// Why a working chart is not closed.
#[derive(Clone, Copy, Debug, PartialEq, Eq)]
pub enum Stop {
    // The buffer has too few entries.
    Short,
    // The entry of this position to itself beats the neutral one, so that some closed run of links does.
    Beaten { places: Places, position: usize },
}

impl Stop {
    pub fn number(&self) -> u16
        ensures { result ≡ stop_number self.now }
    {
        match self {
            Stop::Short => 30,
            Stop::Beaten { .. } => 14,
        }
    }
}

impl Places {
    pub fn of<S: Source>(source: &S) -> Places
        ensures { IsPlaces (S.Source.sheet source.now).told result }
    {
        let mut places = Places {
            count: 1,
            list: [0; 32],
            positions: [0; 32],
        };
        for v in 1..32u8 {
            if source.step(v).is_some() {
                places.list[places.count] = v;
                places.positions[v as usize] = places.count as u8;
                places.count += 1;
            }
        }
        places
    }
}
