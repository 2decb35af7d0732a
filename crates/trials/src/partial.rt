// Filling a timetable step by step, by trying all timetables each time.
use super::timetable::{brews, is_lawful, start, timetable, timetable_count};
use super::trial::{Trial, duration, kind};

// The starts of the steps placed; none at the others.
#[derive(Clone, Copy)]
pub struct Partial {
    pub placed: [Option<i8>; 4],
}

pub fn start_of(partial: &Partial, step: u8) -> Option<i8> {
    partial.placed[step as usize % 4]
}

// The starts of all steps, 0 where there is none.
pub fn starts_of(partial: &Partial) -> [i8; 4] {
    partial.placed.map(|hour| hour.unwrap_or(0))
}

fn agrees(starts: &[i8; 4], partial: &Partial) -> bool {
    partial
        .placed
        .iter()
        .zip(starts)
        .all(|(placed, start)| placed.is_none_or(|hour| hour == *start))
}

// The first and the last hour of a step over the lawful timetables that agree with the starts placed.
#[derive(Clone, Copy)]
pub struct Span {
    pub first: i8,
    pub last: i8,
}

fn widened(span: Span, hour: i8) -> Span {
    Span {
        first: span.first.min(hour),
        last: span.last.max(hour),
    }
}

fn window(trial: &Trial, partial: &Partial, step: u8) -> Span {
    let mut span = Span {
        first: i8::MAX,
        last: i8::MIN,
    };
    for number in 0..timetable_count(trial.steps) {
        let starts = timetable(trial, number);
        if agrees(&starts, partial) && is_lawful(trial, &starts) {
            span = widened(span, start(&starts, step));
        }
    }
    span
}

fn slack(span: Span) -> i16 {
    span.last as i16 - span.first as i16
}

// The step that is placed next, if one waits: the one with the least slack, the first of them at a tie.
fn next(trial: &Trial, partial: &Partial) -> Option<u8> {
    (1..=trial.steps)
        .filter(|&step| start_of(partial, step).is_none())
        .min_by_key(|&step| slack(window(trial, partial, step)))
}

// Whether a step that starts at `from` in every brew is under way at an hour in one of them. Brew 8 starts at `from`, and
// the others so many periods sooner or later.
fn is_in_brew(trial: &Trial, from: i8, hours: u8, hour: i16, brew: u8) -> bool {
    let began = from as i64 + brews(brew, trial.period) as i64 - brews(8, trial.period) as i64;
    began <= hour as i64 && (hour as i64) < began + hours as i64
}

// Whether a step that starts at `from` in every brew is under way at an hour. Brews up to eight sooner or later are
// tried.
fn is_under_way(trial: &Trial, from: i8, hours: u8, hour: i16) -> bool {
    (0..17u8).any(|brew| is_in_brew(trial, from, hours, hour, brew))
}

// Whether a step is placed and under way at an hour.
fn is_at_work(trial: &Trial, partial: &Partial, step: u8, hour: i16) -> bool {
    start_of(partial, step).is_some_and(|from| is_under_way(
        trial,
        from,
        duration(trial, step),
        hour,
    ))
}

// How many placed steps of a kind are under way at an hour.
fn crowd_at(trial: &Trial, partial: &Partial, sort: u8, hour: i16) -> usize {
    (1..4u8)
        .filter(|&step| kind(trial, step) == sort && is_at_work(trial, partial, step, hour))
        .count()
}

// The largest crowd that a step meets if it starts at an hour.
fn peak(trial: &Trial, partial: &Partial, step: u8, hour: i8) -> usize {
    (0..duration(trial, step))
        .map(|k| crowd_at(trial, partial, kind(trial, step), hour as i16 + k as i16))
        .max()
        .unwrap_or(0)
}

// The hour at which the fewest steps of the same kind are met, at the worst moment; the earliest of those.
pub fn calmest(trial: &Trial, partial: &Partial, step: u8, span: Span) -> i8 {
    (span.first..=span.last)
        .min_by_key(|&hour| peak(trial, partial, step, hour))
        .unwrap_or(span.first)
}

// The starts that come of a way to pick an hour from a step's window, beside the steps placed.
pub(crate) fn filled<F: Fn(&Trial, &Partial, u8, Span) -> i8>(trial: &Trial, pick: F) -> Partial
    requires { F.IsAlwaysCallable pick }
{
    let mut partial = Partial { placed: [None; 4] };
    for _ in 0..3u8 {
        if let Some(step) = next(trial, &partial) {
            let span = window(trial, &partial, step);
            partial.placed[step as usize % 4] = Some(pick(trial, &partial, step, span));
        }
    }
    partial
}
