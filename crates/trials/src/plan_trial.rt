// The plans that the library tells, beside timetables filled by trying everything.
use super::bound_trial::is_heavy_loop;
use super::cellar::{first_without, numbered, vessels_apart};
use super::partial::{Partial, Span, calmest, filled, start_of, starts_of};
use super::tally::{Tally, more};
use super::timetable::is_lawful;
use super::trial::{Trial, vessels_of_kind};
use checked::CheckedSheet;
use choose::{Chooser, Earliest, Latest, LeastCrowded};
use kinds::{Counted, Hours};
use plan::{PlanRefusal, plan};

// What is expected of a plan: the starts, the vessel numbers, and the first step without a vessel, if there is one.
#[derive(Drop)]
pub struct Due {
    pub partial: Partial,
    pub numbers: [Option<u8>; 4],
    pub missing: Option<u8>,
}

fn due_by<F: Fn(&Trial, &Partial, u8, Span) -> i8>(trial: &Trial, pick: F) -> Due
    requires { F.IsAlwaysCallable pick }
{
    let partial = filled(trial, pick);
    let numbers = numbered(trial, &partial);
    let missing = first_without(trial, &numbers);
    Due {
        partial,
        numbers,
        missing,
    }
}

// The start hour that is written for a step.
fn hour_due(partial: &Partial, step: u8) -> i32 {
    start_of(partial, step).map_or(65_535, |hour| hour as i32)
}

// Whether a place, counted from 0, has what is due to its step: step 1 stands at place 0.
fn place_agrees(due: &Due, place: usize, start: u16, vessel: u8) -> bool {
    if place < 3 {
        start as i32 == hour_due(&due.partial, place as u8 + 1)
            && vessel == due.numbers[place + 1].unwrap_or(0)
    } else {
        start == 65_535 && vessel == 0
    }
}

fn written_agrees(due: &Due, starts: &[u16; 31], vessels: &[u8; 31]) -> bool {
    starts.iter().zip(vessels).enumerate().all(|(place, (&start, &vessel))| place_agrees(
        due, place, start, vessel,
    ))
}

// Whether the plan that is due, which was written, is lawful and holds no vessel twice.
fn is_sound_plan(trial: &Trial, due: &Due) -> bool {
    is_lawful(trial, &starts_of(&due.partial)) && vessels_apart(trial, &due.partial, &due.numbers)
}

fn stock_of(trial: &Trial) -> [u8; 8] {
    [
        vessels_of_kind(trial, 0),
        vessels_of_kind(trial, 1),
        0,
        0,
        0,
        0,
        0,
        0,
    ]
}

// What the library answers and writes.
#[derive(Clone, Copy)]
pub struct Asked {
    pub answer: Result<(), PlanRefusal>,
    pub codes: [u16; 32],
    pub starts: [u16; 31],
    pub vessels: [u8; 31],
}

fn ask<C: Chooser>(trial: &Trial, source: &CheckedSheet, chooser: &C) -> Asked {
    let mut hours = [Hours { hours: 0 }; 1024];
    let mut counted = [Counted { hours: 0, links: 0 }; 1024];
    let mut codes = [0u16; 32];
    let mut starts = [0u16; 31];
    let mut vessels = [0u8; 31];
    let stock = stock_of(trial);
    let answer = plan(
        source,
        &stock,
        chooser,
        &mut hours,
        &mut counted,
        &mut codes,
        &mut starts,
        &mut vessels,
    );
    Asked {
        answer,
        codes,
        starts,
        vessels,
    }
}

// Whether a plan was written that is due.
fn is_due(trial: &Trial, due: &Due, asked: &Asked) -> bool {
    due.missing.is_none()
        && written_agrees(due, &asked.starts, &asked.vessels)
        && is_sound_plan(trial, due)
}

// Whether the library wrote the plan that is due, or refused it as is due.
fn plan_agrees(trial: &Trial, lawful: bool, due: &Due, asked: &Asked) -> bool {
    match asked.answer {
        Ok(()) => lawful && is_due(trial, due, asked),
        Err(PlanRefusal::NoVessel { step }) => lawful && due.missing == Some(step),
        Err(PlanRefusal::NoTimetable { count }) => {
            !lawful && is_heavy_loop(trial, &asked.codes, count, trial.period as u16)
        }
        Err(_) => false,
    }
}

fn count_plan(lawful: bool, due: &Due, tally: &mut Tally) {
    if !lawful {
        return;
    }
    match due.missing {
        None => tally.plans = more(tally.plans, 1),
        Some(_) => tally.lacking = more(tally.lacking, 1),
    }
}

fn try_chooser<C: Chooser, F: Fn(&Trial, &Partial, u8, Span) -> i8>(
    trial: &Trial,
    source: &CheckedSheet,
    chooser: &C,
    pick: F,
    lawful: bool,
    tally: &mut Tally,
) -> bool
    requires { F.IsAlwaysCallable pick }
{
    let due = due_by(trial, pick);
    count_plan(lawful, &due, tally);
    plan_agrees(trial, lawful, &due, &ask(trial, source, chooser))
}

// Whether the plans under all three choosers are those that are due.
pub fn plans_agree(trial: &Trial, source: &CheckedSheet, lawful: bool, tally: &mut Tally) -> bool {
    let first = try_chooser(
        trial,
        source,
        &Earliest,
        |_, _, _, span| span.first,
        lawful,
        tally,
    );
    let last = try_chooser(
        trial,
        source,
        &Latest,
        |_, _, _, span| span.last,
        lawful,
        tally,
    );
    let calm = try_chooser(trial, source, &LeastCrowded, calmest, lawful, tally);
    first && last && calm
}
