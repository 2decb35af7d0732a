// Vessels for the steps of a trial, brew by brew.
use super::partial::{Partial, start_of};
use super::timetable::brews;
use super::trial::{Trial, duration, kind, vessels_of_kind};

// Whether two steps with these starts are under way at once, the second so many brews later than the first.
fn meet(trial: &Trial, one: (u8, i8), other: (u8, i8), later: u8) -> bool {
    let shift = brews(later, trial.period) as i64;
    let first = one.1 as i64;
    let second = other.1 as i64 + shift;
    first < second + duration(trial, other.0) as i64
        && second < first + duration(trial, one.0) as i64
}

// Whether two steps meet in some brews, where brews up to eight apart are tried.
fn clash(trial: &Trial, one: (u8, i8), other: (u8, i8)) -> bool {
    (0..9u8).any(|later| meet(trial, one, other, later) || meet(trial, other, one, later))
}

fn number_of(numbers: &[Option<u8>; 4], step: u8) -> Option<u8> {
    numbers[step as usize % 4]
}

// Whether a lower-numbered step keeps a vessel from a step.
fn is_taken(
    trial: &Trial,
    partial: &Partial,
    numbers: &[Option<u8>; 4],
    one: (u8, i8),
    vessel: u8,
) -> bool {
    (1..one.0).any(|lower| {
        number_of(numbers, lower) == Some(vessel)
            && kind(trial, lower) == kind(trial, one.0)
            && start_of(partial, lower).is_some_and(|hour| clash(trial, (lower, hour), one))
    })
}

// The smallest vessel number that is not taken, if one is left.
fn vessel_for(
    trial: &Trial,
    partial: &Partial,
    numbers: &[Option<u8>; 4],
    one: (u8, i8),
) -> Option<u8> {
    (1..=vessels_of_kind(trial, kind(trial, one.0))).find(|&vessel| !is_taken(
        trial, partial, numbers, one, vessel,
    ))
}

// The vessel numbers of the steps, up to the first step that finds none.
pub fn numbered(trial: &Trial, partial: &Partial) -> [Option<u8>; 4] {
    let mut numbers = [None; 4];
    for step in 1..4u8 {
        if let Some(hour) = start_of(partial, step) {
            let vessel = vessel_for(trial, partial, &numbers, (step, hour));
            if vessel.is_none() {
                return numbers;
            }
            numbers[step as usize % 4] = vessel;
        }
    }
    numbers
}

// The first step without a vessel, if there is one.
pub fn first_without(trial: &Trial, numbers: &[Option<u8>; 4]) -> Option<u8> {
    (1..=trial.steps).find(|&step| number_of(numbers, step).is_none())
}

// Whether two steps keep out of each other's way if they have one vessel. A step must not meet itself a brew later.
fn pair_apart(
    trial: &Trial,
    partial: &Partial,
    numbers: &[Option<u8>; 4],
    one: u8,
    other: u8,
) -> bool {
    let (Some(first), Some(second)) = (start_of(partial, one), start_of(partial, other)) else {
        return true;
    };
    if kind(trial, one) != kind(trial, other)
        || number_of(numbers, one) != number_of(numbers, other)
    {
        return true;
    }
    (0..5u8).all(|later| {
        (one == other && later == 0) || !meet(trial, (one, first), (other, second), later)
    })
}

// Whether no vessel is held twice at once in five brews.
pub fn vessels_apart(trial: &Trial, partial: &Partial, numbers: &[Option<u8>; 4]) -> bool {
    (1..4u8).all(|one| (1..4u8).all(|other| pair_apart(trial, partial, numbers, one, other)))
}
