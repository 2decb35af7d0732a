// The sheets that are tried: every pair of rules out of a list, for several spans, periods and durations.
ghost use Rattle.std.specs.Prelude.{◌≤◌};

use super::round::try_sheet;
use super::tally::Tally;
use super::trial::Trial;
use sheet::Rule;

// How many steps a trial has, as a number from 1 to 3.
fn step_count(steps: u8) -> u16
    ensures some { 1 ≤ result }
    ensures few { result ≤ 3 }
{
    match steps {
        1 => 1,
        2 => 2,
        _ => 3,
    }
}

// The number of pairs of steps; a step makes a pair with itself too.
fn pair_count(steps: u8) -> u16
    ensures some { 1 ≤ result }
    ensures few { result ≤ 9 }
{
    match steps {
        1 => 1,
        2 => 4,
        _ => 9,
    }
}

// The number of different rules: none; After, in three forms, and Within, in two, for each pair of steps; At, in two
// forms, for each step.
fn rule_count(steps: u8) -> u16 {
    1 + 5 * pair_count(steps) + 2 * step_count(steps)
}

// After for a pair of steps: at once, an hour later and a brew later, or at once two brews later.
fn after(u: u8, v: u8, form: u16) -> Rule {
    let (gap, carry) = match form {
        0 => (0, 0),
        1 => (1, 1),
        _ => (0, 2),
    };
    Rule::After { u, v, gap, carry }
}

// A rule for a pair of steps: three forms of After, then two of Within.
fn pair_rule(u: u8, v: u8, form: u16) -> Rule {
    if form < 3 {
        after(u, v, form)
    } else {
        Rule::Within {
            u,
            v,
            hours: form % 2 * 2,
        }
    }
}

// A step by a number: the remainder by the number of steps, counted from 1.
fn step_by(number: u16, steps: u8) -> u8 {
    let place = number % step_count(steps);
    (place % 3) as u8 + 1
}

// The rule of a number below the number of rules.
fn rule_by(steps: u8, number: u16) -> Rule {
    if number == 0 {
        return Rule::Free;
    }
    let place = number - 1;
    let u = step_by(place, steps);
    let form = place / pair_count(steps);
    if form < 5 {
        pair_rule(u, step_by(place / step_count(steps), steps), form)
    } else {
        let beyond = place.saturating_sub(5 * pair_count(steps));
        Rule::At {
            v: u,
            hour: beyond / step_count(steps) % 2 * 2,
        }
    }
}

// A single step has spans from 1 to 5 hours; several have spans from 3 to 5 hours.
fn span_by(steps: u8, setting: u16) -> u8 {
    if steps == 1 {
        1 + (setting % 5) as u8
    } else {
        3 + (setting % 3) as u8
    }
}

// Periods from 1 to 4 hours, and steps of 1 to 3 hours.
fn trial_of(steps: u8, setting: u16, first: Rule, second: Rule) -> Trial {
    let third = (setting % 2) as u8;
    Trial {
        steps,
        span: span_by(steps, setting),
        period: 1 + (setting / 5 % 4) as u8,
        durations: [
            0,
            1 + (setting / 20 % 3) as u8,
            1 + (setting / 2 % 3) as u8,
            1 + third,
        ],
        kinds: [0, 0, 0, third],
        rules: [first, second, Rule::Free],
        vessels: (setting / 7 % 3) as u8,
    }
}

// One of the 60 settings, for a pair of rules.
fn setting_by(first: u16, second: u16, k: u16) -> u16 {
    (first % 60 * 7 + second % 60 * 11 + k % 60) % 60
}

fn settings_of(steps: u8, settings: u16, first: u16, second: u16, tally: &mut Tally) {
    let one = rule_by(steps, first);
    let other = rule_by(steps, second);
    for k in 0..settings {
        let setting = setting_by(first, second, k);
        try_sheet(&trial_of(steps, setting, one, other), tally);
    }
}

fn seconds_of(steps: u8, settings: u16, first: u16, tally: &mut Tally) {
    for second in 0..rule_count(steps) {
        settings_of(steps, settings, first, second, tally);
    }
}

// Tries all pairs of rules over so many steps, each in so many settings.
pub fn sheets_of(steps: u8, settings: u16, tally: &mut Tally) {
    for first in 0..rule_count(steps) {
        seconds_of(steps, settings, first, tally);
    }
}
