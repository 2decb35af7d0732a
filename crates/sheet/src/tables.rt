// Reading and changing a full sheet.
ghost use Rattle.std.specs.Prelude.{◌≡◌, length, is_some, Some, None};
ghost use Rattle.sheet.specs.declared.forms.Rule.TheVariants.{Free};
ghost use Rattle.sheet.specs.Sheets.{numbered, has_step, rule_sheet};
ghost use Rattle.sheet.specs.Edits.{KeptAt, empty_sheet, with_step, with_duration, with_rule};

use super::forms::{Rule, Sheet, Step};

// Where a table keeps an entry, counted from 0. The entries are numbered from 1.
fn slot<T, const N: usize>(table: &[T; N], number: u8) -> Option<usize>
    ensures at { KeptAt table.now number result }
    ensures long { length table.now ≡ N }
{
    let before = (number as usize).checked_sub(1)?;
    if before < N { Some(before) } else { None }
}

impl Sheet {
    pub fn empty() -> Sheet
        ensures { result ≡ empty_sheet }
    {
        Sheet {
            steps: [None; 31],
            rules: [Rule::Free; 96],
            period: 24,
            span: 336,
            stock: [0; 8],
        }
    }

    pub fn step(&self, number: u8) -> Option<Step>
        ensures { result ≡ numbered None self.now.steps number }
    {
        let i = slot(&self.steps, number)?;
        self.steps[i]
    }

    pub fn has_step(&self, number: u8) -> bool
        ensures there { result ≡ is_some (numbered None self.now.steps number) }
        ensures told { result ≡ has_step (rule_sheet self.now) number }
    {
        self.step(number).is_some()
    }

    pub fn rule(&self, number: u8) -> Rule
        ensures { result ≡ numbered Free self.now.rules number }
    {
        match slot(&self.rules, number) {
            Some(i) => self.rules[i],
            None => Rule::Free,
        }
    }

    // Puts a step in or takes it out. A number without a step changes nothing.
    pub fn set_step(&mut self, number: u8, step: Option<Step>)
        ensures { self.new ≡ with_step self.old number step }
    {
        if let Some(i) = slot(&self.steps, number) {
            self.steps[i] = step;
        }
    }

    // Answers whether there is such a step.
    pub fn set_duration(&mut self, number: u8, duration: u16) -> bool
        ensures after { self.new ≡ with_duration self.old number duration }
        ensures value { result ≡ is_some (numbered None self.old.steps number) }
    {
        let Some(i) = slot(&self.steps, number) else {
            return false;
        };
        match &mut self.steps[i] {
            Some(record) => {
                record.duration = duration;
                true
            }
            None => false,
        }
    }

    // Puts a rule in or, with `Rule::Free`, takes it out. A number without a rule changes nothing.
    pub fn set_rule(&mut self, number: u8, rule: Rule)
        ensures { self.new ≡ with_rule self.old number rule }
    {
        if let Some(i) = slot(&self.rules, number) {
            self.rules[i] = rule;
        }
    }
}
