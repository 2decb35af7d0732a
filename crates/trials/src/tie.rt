// What the definition of a lawful timetable asks, as ties between two places each, and the loops that ties make. A tie
// says that the start at its end, counted from the start at its beginning, is at least its hours, less a period for each
// carry.
use super::trial::{Trial, duration, rule};
use sheet::Rule;

#[derive(Clone, Copy)]
pub struct Tie {
    pub from: u8,
    pub to: u8,
    pub hours: i32,
    pub carries: u8,
}

fn tie_between(from: u8, to: u8, hours: i32, carries: u8) -> Option<Tie> {
    Some(Tie {
        from,
        to,
        hours,
        carries,
    })
}

// What a rule asks; of an At, that its step starts no sooner.
fn tie_of_rule(trial: &Trial, rule: Rule) -> Option<Tie> {
    match rule {
        Rule::Free => None,
        Rule::After { u, v, gap, carry } => {
            tie_between(u, v, duration(trial, u) as i32 + gap as i32, carry)
        }
        Rule::Within { u, v, hours } => tie_between(v, u, -(hours as i32), 0),
        Rule::At { v, hour } => tie_between(0, v, hour as i32, 0),
    }
}

// What an At asks besides: its step starts no later.
fn tie_back(rule: Rule) -> Option<Tie> {
    match rule {
        Rule::At { v, hour } => tie_between(v, 0, -(hour as i32), 0),
        _ => None,
    }
}

// What is asked of every step: a start not before hour zero, an end within the span, no more hours than the period.
fn tie_of_step(trial: &Trial, row: u16, step: u8) -> Option<Tie> {
    let hours = duration(trial, step) as i32;
    match row {
        2 => tie_between(0, step, 0, 0),
        3 => tie_between(step, 0, hours - trial.span as i32, 0),
        4 => tie_between(step, step, hours, 1),
        _ => None,
    }
}

// The tie with a code: rule numbers, 100 more for the way back, and 200, 300 and 400 more than a step's number.
pub fn tie_with_code(trial: &Trial, code: u16) -> Option<Tie> {
    let row = code / 100;
    let number = code % 100;
    if row == 0 {
        tie_of_rule(trial, rule(trial, number))
    } else if row == 1 {
        tie_back(rule(trial, number))
    } else if number == 0 || number > trial.steps as u16 {
        None
    } else {
        tie_of_step(trial, row, number as u8)
    }
}

// A way along ties from a place, which meets no place twice.
#[derive(Clone, Copy)]
pub struct Way {
    pub base: u8,
    pub end: u8,
    // bit n is set if the way has left place n
    pub left: u8,
    pub hours: i32,
    pub carries: u16,
}

pub fn way_from(base: u8) -> Way {
    Way {
        base,
        end: base,
        left: 0,
        hours: 0,
        carries: 0,
    }
}

fn bit(place: u8) -> u8 {
    match place {
        0 => 1,
        1 => 2,
        2 => 4,
        3 => 8,
        _ => 255,
    }
}

// The way along one tie more, if that begins where the way ends and the way has not left that place before.
pub fn along(way: &Way, tie: Tie) -> Option<Way> {
    if tie.from != way.end || way.left & bit(way.end) != 0 {
        return None;
    }
    Some(Way {
        base: way.base,
        end: tie.to,
        left: way.left | bit(way.end),
        hours: way.hours.saturating_add(tie.hours),
        carries: way.carries.saturating_add(tie.carries as u16),
    })
}

// The hours that a way has beyond its carries at a period.
pub fn weight(way: &Way, period: u16) -> i64 {
    way.hours as i64 - (way.carries as u32 * period as u32) as i64
}

pub fn is_closed(way: &Way) -> bool {
    way.end == way.base
}
