// The wait chart that the library tells, beside all timetables.
use super::bound_trial::is_heavy_loop;
use super::timetable::Found;
use super::trial::Trial;
use checked::CheckedSheet;
use kinds::{Counted, Hours};
use waits::{LoopRefusal, wait_chart};

// The entry that is due at 32 * i + j.
fn entry_due(trial: &Trial, found: &Found, k: usize) -> i16 {
    let i = k / 32;
    let j = k % 32;
    let n = trial.steps as usize;
    if i <= n && j <= n {
        found.least[(4 * (i % 4) + j % 4) % 16]
    } else {
        -32768
    }
}

fn entries_agree(trial: &Trial, found: &Found, chart: &[i16; 1024]) -> bool {
    chart
        .iter()
        .enumerate()
        .all(|(k, &entry)| entry == entry_due(trial, found, k))
}

// Whether the library tells the least delays, or else a loop that leaves no lawful timetable.
pub fn chart_agrees(trial: &Trial, source: &CheckedSheet, found: &Found) -> bool {
    let mut hours = [Hours { hours: 0 }; 1024];
    let mut counted = [Counted { hours: 0, links: 0 }; 1024];
    let mut chart = [0i16; 1024];
    let mut codes = [0u16; 32];
    match wait_chart(source, &mut hours, &mut counted, &mut chart, &mut codes) {
        Ok(()) => found.lawful > 0 && entries_agree(trial, found, &chart),
        Err(LoopRefusal::NoTimetable { count }) => {
            found.lawful == 0 && is_heavy_loop(trial, &codes, count, trial.period as u16)
        }
        Err(LoopRefusal::TooShort) => false,
    }
}
