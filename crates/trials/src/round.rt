// One sheet: everything is tried, compared and counted.
use super::bound_trial::{bound_agrees, find_loops};
use super::chart_trial::chart_agrees;
use super::plan_trial::plans_agree;
use super::tally::{Tally, more};
use super::timetable::find_timetables;
use super::trial::{Trial, full_sheet};
use checked::CheckedSheet;

// The waits of a sheet: one from each place to each.
fn wait_count(trial: &Trial) -> u32 {
    let places = trial.steps as u32 + 1;
    places * places
}

// Counts a sheet, its timetables and loops, and answers whether the library tells the same of them.
fn is_alike(trial: &Trial, source: &CheckedSheet, tally: &mut Tally) -> bool {
    let found = find_timetables(trial);
    let loops = find_loops(trial);
    tally.loops = more(tally.loops, loops.count);
    tally.timetables = more(tally.timetables, found.lawful);
    if found.lawful > 0 {
        tally.lawful = more(tally.lawful, 1);
        tally.waits = more(tally.waits, wait_count(trial));
    }
    if !loops.blocked {
        tally.bounds = more(tally.bounds, 1);
    }
    let plans = plans_agree(trial, source, found.lawful > 0, tally);
    loops.heavy == (found.lawful == 0)
        && chart_agrees(trial, source, &found)
        && bound_agrees(trial, source, &loops)
        && plans
}

pub fn try_sheet(trial: &Trial, tally: &mut Tally) {
    tally.sheets = more(tally.sheets, 1);
    let alike = match CheckedSheet::new(full_sheet(trial)) {
        Some(source) => is_alike(trial, &source, tally),
        None => false,
    };
    if !alike {
        tally.differences = more(tally.differences, 1);
    }
}
