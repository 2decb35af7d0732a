// Whether a full sheet keeps every limit.
ghost use Rattle.std.specs.Prelude.{◌≡◌, ℕ, ◌<◌, ◌≤◌, ◌↔◌, length, None, IsTrue, All, slice_index};
ghost use Rattle.sheet.specs.declared.forms.Rule.TheVariants.{Free};
ghost use Rattle.sheet.specs.Limits.{From, FullSound};
ghost use Rattle.checked.specs.Kept.{StepKept, RuleKept, CountKept, EachOf, TellsWhether};

use sheet::{Rule, Sheet, Step};

// The eight bytes of a record's name are printable.
fn has_fitting_name(name: &[u8; 8]) -> bool
    ensures fits { IsTrue result ↔ ((k : ℕ) → k < 8 → From 0x20 0x7E (slice_index name.now k)) }
    ensures long { length name.now ≡ 8 }
{
    changes::name_fits(name)
}

fn step_fits(step: Option<Step>) -> bool
    ensures { IsTrue result ↔ StepKept step }
{
    match step {
        Some(step) => {
            step.duration >= 1
                && step.duration <= 999
                && step.kind <= 7
                && has_fitting_name(&step.name)
        }
        None => true,
    }
}

fn rule_fits(sheet: &Sheet, rule: Rule) -> bool
    ensures { IsTrue result ↔ RuleKept sheet.now rule }
{
    match rule {
        Rule::Free => true,
        Rule::After { u, v, gap, carry } => {
            sheet.has_step(u) && sheet.has_step(v) && gap <= 999 && carry <= 7
        }
        Rule::Within { u, v, hours } => { sheet.has_step(u) && sheet.has_step(v) && hours <= 999 }
        Rule::At { v, hour } => sheet.has_step(v) && hour <= 1999,
    }
}

fn steps_fit(table: &[Option<Step>; 31]) -> bool
    ensures fits { IsTrue result ↔ EachOf 31 None StepKept table.now }
    ensures long { length table.now ≡ 31 }
{
    table.iter().all(|step| step_fits(*step))
}

fn rules_fit(sheet: &Sheet, table: &[Rule; 96]) -> bool
    ensures fits { IsTrue result ↔ EachOf 96 Free (RuleKept sheet.now) table.now }
    ensures long { length table.now ≡ 96 }
{
    table.iter().all(|rule| rule_fits(sheet, *rule))
}

// Whether a stock has at most 16 vessels of each kind.
pub fn counts_fit(stock: &[u8; 8]) -> bool
    ensures fits { IsTrue result ↔ All (λ count. count ≤ 16) stock.now }
    ensures long { length stock.now ≡ 8 }
{
    stock.iter().all(|count| *count <= 16)
}

pub fn is_sound(sheet: &Sheet) -> bool
    ensures { TellsWhether (FullSound sheet.now) result }
{
    if sheet.period < 1 || sheet.period > 999 || sheet.span < 1 || sheet.span > 2000 {
        return false;
    }
    if !steps_fit(&sheet.steps) {
        return false;
    }
    if !rules_fit(sheet, &sheet.rules) {
        return false;
    }
    counts_fit(&sheet.stock)
}
