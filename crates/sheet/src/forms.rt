// A rule number of a sheet is free or holds one of three forms. `u` and `v` are step numbers, possibly the same.
#[derive(Clone, Copy, Debug, PartialEq, Eq)]
pub enum Rule {
    Free,
    // `v`, `carry` periods later, starts no sooner than `gap` hours after `u` has ended. A carry thus lets `v` belong to
    // a later brew than `u`.
    After { u: u8, v: u8, gap: u16, carry: u8 },
    // `v` starts at most `hours` after `u`.
    Within { u: u8, v: u8, hours: u16 },
    // `v` starts at `hour`.
    At { v: u8, hour: u16 },
}

// One record of the step table: hours in the vessel, the kind of vessel, and what the crew calls the step.
#[derive(Clone, Copy, Debug, PartialEq, Eq)]
pub struct Step {
    pub duration: u16,
    pub kind: u8,
    pub name: [u8; 8],
}

// A full sheet: steps 1 to 31, rules 1 to 96, the period (hours from one brew's start to the next), the span (hours that
// one brew may take), and how many vessels of each kind there are. It has no invariant: the limits that sheets keep are
// shown where a sheet is told to others.
#[derive(Clone, Copy, Debug, PartialEq, Eq)]
pub struct Sheet {
    pub steps: [Option<Step>; 31],
    pub rules: [Rule; 96],
    pub period: u16,
    pub span: u16,
    pub stock: [u8; 8],
}

// A link says that the start at place `to` minus the start at place `from` is at least its weight: `hours` less one
// period for each carry. Place 0 is hour zero of the brew, place n is step n. The code tells where the link comes from.
#[derive(Clone, Copy, Debug, PartialEq, Eq)]
pub struct Link {
    pub from: u8,
    pub to: u8,
    pub hours: i32,
    pub carries: u8,
    pub code: u16,
}
