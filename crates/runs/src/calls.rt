use book::Command;
use merge::Report;

// One call on a planner.
#[derive(Clone, Copy, Debug)]
pub enum Call<'a> {
    Enter { command: Command<'a> },
    Merge { office: &'a [u8], tablet: &'a [u8] },
}

// What a run tells of a refusal: which call, counted from 0, and its number or the report of a merge.
#[derive(Clone, Copy, Debug)]
pub enum Note {
    Refused { call: usize, number: u8 },
    Reported { call: usize, report: Report },
}
