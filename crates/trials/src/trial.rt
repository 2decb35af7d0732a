// A small sheet that is tried.
use sheet::{Rule, Sheet, Step};

// Steps 1 to `steps`, of which there are at most 3, and rules 1 to 3. The duration and the kind of step n stand at
// place n.
#[derive(Clone, Copy)]
pub struct Trial {
    pub steps: u8,
    pub span: u8,
    pub period: u8,
    pub durations: [u8; 4],
    pub kinds: [u8; 4],
    pub rules: [Rule; 3],
    // vessels of kind 0; of kind 1 there is one
    pub vessels: u8,
}

pub fn duration(trial: &Trial, step: u8) -> u8 {
    trial.durations[step as usize % 4]
}

pub fn kind(trial: &Trial, step: u8) -> u8 {
    trial.kinds[step as usize % 4]
}

pub fn vessels_of_kind(trial: &Trial, kind: u8) -> u8 {
    if kind == 0 { trial.vessels % 4 } else { 1 }
}

// Rule r of a trial; free where there is none.
pub fn rule(trial: &Trial, number: u16) -> Rule {
    if number == 0 || number > 3 {
        Rule::Free
    } else {
        trial.rules[number as usize - 1]
    }
}

// The trial as a sheet of the library.
pub fn full_sheet(trial: &Trial) -> Sheet {
    let mut sheet = Sheet::empty();
    sheet.span = trial.span as u16;
    sheet.period = trial.period as u16;
    for step in 1..4u8 {
        if step <= trial.steps {
            sheet.set_step(
                step,
                Some(Step {
                    duration: duration(trial, step) as u16,
                    kind: kind(trial, step),
                    name: *b"TRIED   ",
                }),
            );
        }
        sheet.set_rule(step, rule(trial, step as u16));
    }
    sheet
}
