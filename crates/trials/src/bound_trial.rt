// All loops of a trial, and the bound and the codes that the library tells.
use super::tally::more;
use super::tie::{Way, along, is_closed, tie_with_code, way_from, weight};
use super::trial::Trial;
use bound::{LoopRefusal, period_bound};
use checked::CheckedSheet;
use kinds::{Counted, Hours};

// What the loops of a trial say.
#[derive(Drop)]
pub struct Loops {
    pub count: u32,
    // the largest of 1 and the hours divided by the carries, rounded up
    pub bound: u32,
    // some loop without a carry weighs more than 0
    pub blocked: bool,
    // some loop weighs more than 0 at the trial's own period
    pub heavy: bool,
}

// The period that a way with some carries asks for.
fn asked(way: &Way) -> u32 {
    if way.hours <= 0 || way.carries == 0 {
        1
    } else {
        (way.hours as u32 - 1) / way.carries as u32 + 1
    }
}

// Takes a loop into account.
fn note(trial: &Trial, way: &Way, loops: &mut Loops) {
    loops.count = more(loops.count, 1);
    loops.bound = loops.bound.max(asked(way));
    if way.carries == 0 && way.hours > 0 {
        loops.blocked = true;
    }
    if weight(way, trial.period as u16) > 0 {
        loops.heavy = true;
    }
}

// The code of a number below 15: the rules, the ways back, and then floor, ceiling and turn of each step.
fn code_by(number: u16) -> u16 {
    number / 3 % 5 * 100 + number % 3 + 1
}

// The way along the tie with a code, if there is one and it leads back to the base or to a place above it. So each loop
// is met once, from its smallest place.
fn further(trial: &Trial, way: &Way, code: u16) -> Option<Way> {
    let found = tie_with_code(trial, code)?;
    if found.to < way.base {
        return None;
    }
    along(way, found)
}

// The loops that begin with a way and have at most so many ties more.
fn loops_from(trial: &Trial, way: &Way, ties: u8, loops: &mut Loops) {
    if ties == 0 {
        return;
    }
    for number in 0..15u16 {
        if let Some(next) = further(trial, way, code_by(number)) {
            if is_closed(&next) {
                note(trial, &next, loops);
            } else {
                loops_from(trial, &next, ties - 1, loops);
            }
        }
    }
}

pub fn find_loops(trial: &Trial) -> Loops {
    let mut loops = Loops {
        count: 0,
        bound: 1,
        blocked: false,
        heavy: false,
    };
    for base in 0..4u8 {
        loops_from(trial, &way_from(base), 4, &mut loops);
    }
    loops
}

// The way along the ties with these codes, if it is one.
fn way_by_codes(trial: &Trial, codes: &[u16]) -> Option<Way> {
    let first = tie_with_code(trial, *codes.first()?)?;
    let mut way = way_from(first.from);
    for code in codes {
        let found = tie_with_code(trial, *code)?;
        way = along(&way, found)?;
    }
    Some(way)
}

// Whether the first codes are those of a loop that weighs at least 1 at a period.
pub fn is_heavy_loop(trial: &Trial, codes: &[u16; 32], count: usize, period: u16) -> bool {
    codes
        .get(..count)
        .and_then(|codes| way_by_codes(trial, codes))
        .is_some_and(|way| is_closed(&way) && weight(&way, period) >= 1)
}

// Whether the library tells the bound that the loops ask for, or else a loop that rules out every period.
pub fn bound_agrees(trial: &Trial, source: &CheckedSheet, loops: &Loops) -> bool {
    let mut hours = [Hours { hours: 0 }; 1024];
    let mut counted = [Counted { hours: 0, links: 0 }; 1024];
    let mut codes = [0u16; 32];
    match period_bound(source, &mut hours, &mut counted, &mut codes) {
        Ok(bound) => !loops.blocked && bound as u32 == loops.bound,
        Err(LoopRefusal::NoTimetable { count }) => {
            loops.blocked && is_heavy_loop(trial, &codes, count, 999)
        }
        Err(LoopRefusal::TooShort) => false,
    }
}
