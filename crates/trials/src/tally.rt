// What was counted.
#[derive(Drop)]
pub struct Tally {
    pub sheets: u32,
    // sheets with a lawful timetable
    pub lawful: u32,
    pub timetables: u32,
    pub waits: u32,
    pub loops: u32,
    pub bounds: u32,
    pub plans: u32,
    // plans for which there is a vessel too few
    pub lacking: u32,
    // sheets of which the library tells something else
    pub differences: u32,
}

impl Tally {
    pub fn none() -> Tally {
        Tally {
            sheets: 0,
            lawful: 0,
            timetables: 0,
            waits: 0,
            loops: 0,
            bounds: 0,
            plans: 0,
            lacking: 0,
            differences: 0,
        }
    }
}

// A count with some more, or the largest one.
pub fn more(count: u32, by: u32) -> u32 {
    count.saturating_add(by)
}
