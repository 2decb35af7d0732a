// All timetables of a trial, and the lawful ones among them.
use super::tally::more;
use super::trial::{Trial, duration};
use sheet::Rule;

// The start at place n; 0 at place 0 and for a step that is not there.
pub fn start(starts: &[i8; 4], place: u8) -> i8 {
    starts[place as usize % 4]
}

// The hours that so many brews take.
pub fn brews(count: u8, period: u8) -> u32 {
    count as u32 * period as u32
}

// Whether the starts keep a rule.
fn obeys(trial: &Trial, starts: &[i8; 4], rule: Rule) -> bool {
    match rule {
        Rule::Free => true,
        Rule::After { u, v, gap, carry } => {
            let end = start(starts, u) as i64 + duration(trial, u) as i64;
            end + gap as i64 <= start(starts, v) as i64 + brews(carry, trial.period) as i64
        }
        Rule::Within { u, v, hours } => {
            start(starts, v) as i64 <= start(starts, u) as i64 + hours as i64
        }
        Rule::At { v, hour } => start(starts, v) as i64 == hour as i64,
    }
}

// Whether a step starts at hour zero or later, ends within the span and takes no longer than the period.
fn fits(trial: &Trial, starts: &[i8; 4], step: u8) -> bool {
    let first = start(starts, step);
    let hours = duration(trial, step);
    first >= 0 && first as i16 + hours as i16 <= trial.span as i16 && hours <= trial.period
}

pub fn is_lawful(trial: &Trial, starts: &[i8; 4]) -> bool {
    (1..=trial.steps).all(|step| fits(trial, starts, step))
        && trial.rules.iter().all(|&rule| obeys(trial, starts, rule))
}

// How many timetables with starts from -1 to 5 there are.
pub fn timetable_count(steps: u8) -> u16 {
    match steps {
        1 => 7,
        2 => 49,
        _ => 343,
    }
}

// The start that a digit stands for.
fn start_by(trial: &Trial, step: u8, digit: u16) -> i8 {
    if step <= trial.steps {
        (digit % 7) as i8 - 1
    } else {
        0
    }
}

// The timetable of a number.
pub fn timetable(trial: &Trial, number: u16) -> [i8; 4] {
    [
        0,
        start_by(trial, 1, number),
        start_by(trial, 2, number / 7),
        start_by(trial, 3, number / 49),
    ]
}

// How many lawful timetables there are, and at 4 * i + j the least start at place j, counted from the start at place i.
#[derive(Drop)]
pub struct Found {
    pub lawful: u32,
    pub least: [i16; 16],
}

fn delay(starts: &[i8; 4], i: usize, j: usize) -> i16 {
    starts[j % 4] as i16 - starts[i % 4] as i16
}

// Takes a lawful timetable into account.
fn note(least: &mut [i16; 16], starts: &[i8; 4]) {
    for (k, hours) in least.iter_mut().enumerate() {
        *hours = delay(starts, k / 4, k % 4).min(*hours);
    }
}

pub fn find_timetables(trial: &Trial) -> Found {
    let mut lawful = 0;
    let mut least = [i16::MAX; 16];
    for number in 0..timetable_count(trial.steps) {
        let starts = timetable(trial, number);
        if is_lawful(trial, &starts) {
            lawful = more(lawful, 1);
            note(&mut least, &starts);
        }
    }
    Found { lawful, least }
}
