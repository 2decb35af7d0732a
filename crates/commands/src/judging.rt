// The first fault of a command on a sheet. The checks of each command run in the order of the faults' numbers.
ghost use Rattle.std.specs.Prelude.{◌≡◌, [], ◌∷◌};
ghost use Rattle.changes.specs.declared.faults.CommandFault.TheVariants.{Amount};
ghost use Rattle.book.specs.Commands.{said, add_step, remove_step, set_duration, put_after, put_within, put_at, remove_rule, set_vessels};
ghost use Rattle.changes.specs.Faults.{outside, lacks, taken, names, named, first_of, first_fault};
ghost use Rattle.commands.specs.Answers.{unless};

use book::Command;
use changes::{CommandFault, is_from, name_fits};
use sheet::{Rule, Sheet};

// One check: a fault, if it is there.
fn check(is_there: bool, fault: CommandFault) -> Result<(), CommandFault>
    ensures { result ≡ unless (first_of ((is_there, fault) ∷ [])) }
{
    if is_there { Err(fault) } else { Ok(()) }
}

fn is_outside(low: u16, high: u16, n: u16) -> bool
    ensures { result ≡ outside low high n }
{
    !is_from(low, high, n)
}

fn no_step_number(n: u8) -> bool
    ensures { result ≡ outside 1 31 n }
{
    is_outside(1, 31, n as u16)
}

fn no_rule_number(n: u8) -> bool
    ensures { result ≡ outside 1 96 n }
{
    is_outside(1, 96, n as u16)
}

fn lacks_step(sheet: &Sheet, number: u8) -> bool
    ensures { result ≡ lacks sheet.now number }
{
    !sheet.has_step(number)
}

fn is_taken(sheet: &Sheet, number: u8) -> bool
    ensures { result ≡ taken sheet.now number }
{
    !matches!(sheet.rule(number), Rule::Free)
}

fn names_step(rule: Rule, step: u8) -> bool
    ensures { result ≡ names step rule }
{
    match rule {
        Rule::Free => false,
        Rule::After { u, v, .. } => u == step || v == step,
        Rule::Within { u, v, .. } => u == step || v == step,
        Rule::At { v, .. } => v == step,
    }
}

fn is_named(rules: &[Rule; 96], step: u8) -> bool
    ensures { result ≡ named step rules.now }
{
    rules.iter().any(|rule| names_step(*rule, step))
}

fn judge_new_step(
    sheet: &Sheet,
    step: u8,
    duration: u16,
    kind: u8,
    name: &[u8],
) -> Result<(), CommandFault>
    ensures { result ≡ unless (first_fault sheet.now (add_step step duration kind name.now)) }
{
    check(no_step_number(step), CommandFault::StepNumber)?;
    check(sheet.has_step(step), CommandFault::StepPresent)?;
    check(is_outside(1, 999, duration), CommandFault::Duration)?;
    check(kind > 7, CommandFault::Kind)?;
    check(!name_fits(name), CommandFault::Name)
}

fn judge_removed_step(sheet: &Sheet, step: u8) -> Result<(), CommandFault>
    ensures { result ≡ unless (first_fault sheet.now (remove_step step)) }
{
    check(no_step_number(step), CommandFault::StepNumber)?;
    check(lacks_step(sheet, step), CommandFault::StepAbsent)?;
    check(is_named(&sheet.rules, step), CommandFault::StepNamed)
}

fn judge_duration(sheet: &Sheet, step: u8, duration: u16) -> Result<(), CommandFault>
    ensures { result ≡ unless (first_fault sheet.now (set_duration step duration)) }
{
    check(no_step_number(step), CommandFault::StepNumber)?;
    check(lacks_step(sheet, step), CommandFault::StepAbsent)?;
    check(is_outside(1, 999, duration), CommandFault::Duration)
}

fn judge_after(
    sheet: &Sheet,
    rule: u8,
    u: u8,
    v: u8,
    gap: u16,
    carry: u8,
) -> Result<(), CommandFault>
    ensures { result ≡ unless (first_fault sheet.now (put_after rule u v gap carry)) }
{
    check(
        no_step_number(u) || no_step_number(v),
        CommandFault::StepNumber,
    )?;
    check(
        lacks_step(sheet, u) || lacks_step(sheet, v),
        CommandFault::StepAbsent,
    )?;
    check(no_rule_number(rule), CommandFault::RuleNumber)?;
    check(is_taken(sheet, rule), CommandFault::RuleTaken)?;
    check(gap > 999, CommandFault::Hours)?;
    check(carry > 7, CommandFault::Carry)
}

fn judge_within(sheet: &Sheet, rule: u8, u: u8, v: u8, hours: u16) -> Result<(), CommandFault>
    ensures { result ≡ unless (first_fault sheet.now (put_within rule u v hours)) }
{
    check(
        no_step_number(u) || no_step_number(v),
        CommandFault::StepNumber,
    )?;
    check(
        lacks_step(sheet, u) || lacks_step(sheet, v),
        CommandFault::StepAbsent,
    )?;
    check(no_rule_number(rule), CommandFault::RuleNumber)?;
    check(is_taken(sheet, rule), CommandFault::RuleTaken)?;
    check(hours > 999, CommandFault::Hours)
}

fn judge_at(sheet: &Sheet, rule: u8, v: u8, hour: u16) -> Result<(), CommandFault>
    ensures { result ≡ unless (first_fault sheet.now (put_at rule v hour)) }
{
    check(no_step_number(v), CommandFault::StepNumber)?;
    check(lacks_step(sheet, v), CommandFault::StepAbsent)?;
    check(no_rule_number(rule), CommandFault::RuleNumber)?;
    check(is_taken(sheet, rule), CommandFault::RuleTaken)?;
    check(hour > 1999, CommandFault::Hours)
}

fn judge_removed_rule(sheet: &Sheet, rule: u8) -> Result<(), CommandFault>
    ensures { result ≡ unless (first_fault sheet.now (remove_rule rule)) }
{
    check(no_rule_number(rule), CommandFault::RuleNumber)?;
    check(!is_taken(sheet, rule), CommandFault::RuleAbsent)
}

fn judge_vessels(sheet: &Sheet, kind: u8, count: u8) -> Result<(), CommandFault>
    ensures { result ≡ unless (first_fault sheet.now (set_vessels kind count)) }
{
    check(kind > 7, CommandFault::Kind)?;
    check(count > 16, CommandFault::Amount)
}

fn judge_amount(limit: u16, amount: u16) -> Result<(), CommandFault>
    ensures { result ≡ unless (first_of ((outside 1 limit amount, Amount) ∷ [])) }
{
    check(is_outside(1, limit, amount), CommandFault::Amount)
}

// Tells the command's first fault on the sheet, if it has one besides leaving no lawful timetable.
pub fn judge(sheet: &Sheet, command: &Command) -> Result<(), CommandFault>
    ensures { result ≡ unless (first_fault sheet.now (said command.now)) }
{
    match *command {
        Command::AddStep {
            step,
            duration,
            kind,
            name,
        } => judge_new_step(sheet, step, duration, kind, name),
        Command::RemoveStep { step } => judge_removed_step(sheet, step),
        Command::SetDuration { step, duration } => judge_duration(sheet, step, duration),
        Command::After {
            rule,
            u,
            v,
            gap,
            carry,
        } => judge_after(sheet, rule, u, v, gap, carry),
        Command::Within { rule, u, v, hours } => judge_within(sheet, rule, u, v, hours),
        Command::At { rule, v, hour } => judge_at(sheet, rule, v, hour),
        Command::RemoveRule { rule } => judge_removed_rule(sheet, rule),
        Command::SetPeriod { period } => judge_amount(999, period),
        Command::SetSpan { span } => judge_amount(2000, span),
        Command::SetVessels { kind, count } => judge_vessels(sheet, kind, count),
    }
}
