// Commands written one behind another into a buffer that has the room. Each function tells the place behind what it
// wrote.
ghost use Rattle.std.specs.Prelude.{◌≡◌, ◌+◌, ◌≤◌, true, [], ◌∷◌, length, None};
ghost use Rattle.book.specs.Commands.{said, width, set_period, set_span};
ghost use Rattle.book.specs.Writing.{eight_bytes};
ghost use Rattle.sheet.specs.Sheets.{numbered};
ghost use Rattle.sheet.specs.declared.forms.Rule.TheVariants.{Free};
ghost use Rattle.card_writing.specs.Contents.{spelled_all, step_command, rule_command, steps_up_to, rules_up_to, card_of};
ghost use Rattle.card_writing.specs.Outcomes.{Put, card_room};

use crate::commands::{period_command, rule_command, span_command, step_command};
use book::{Command, encode};
use sheet::Sheet;

// The format has a spelling and the buffer the room, so that nothing is refused.
fn put(command: &Command, buffer: &mut [u8], at: usize) -> usize
    requires room { at + width (said command.now) ≤ length buffer.old }
    requires eight { eight_bytes (said command.now) ≡ true }
    ensures put { Put buffer.old at (spelled_all (said command.now ∷ [])) result buffer.new }
    ensures end { result ≡ at + width (said command.now) }
    ensures len { length buffer.new ≡ length buffer.old }
{
    match encode(command, buffer, at) {
        Ok(end) => end,
        Err(_) => unreachable!(),
    }
}

// A step that the sheet has not takes no bytes.
fn put_step(sheet: &Sheet, number: u8, buffer: &mut [u8], at: usize) -> usize
    requires { at + 13 ≤ length buffer.old }
    ensures put { let commands = step_command number (numbered None sheet.now.steps number) in
        Put buffer.old at (spelled_all commands) result buffer.new }
    ensures most { result ≤ at + 13 }
    ensures len { length buffer.new ≡ length buffer.old }
{
    match sheet.step(number) {
        Some(step) => put(&step_command(number, &step), buffer, at),
        None => at,
    }
}

// A free number takes no bytes.
fn put_rule(sheet: &Sheet, number: u8, buffer: &mut [u8], at: usize) -> usize
    requires { at + 7 ≤ length buffer.old }
    ensures put { let commands = rule_command number (numbered Free sheet.now.rules number) in
        Put buffer.old at (spelled_all commands) result buffer.new }
    ensures most { result ≤ at + 7 }
    ensures len { length buffer.new ≡ length buffer.old }
{
    match rule_command(number, &sheet.rule(number)) {
        Some(command) => put(&command, buffer, at),
        None => at,
    }
}

// The steps that the sheet has, by rising number.
fn put_steps(sheet: &Sheet, buffer: &mut [u8], at: usize) -> usize
    requires { at + 403 ≤ length buffer.old }
    ensures put { let commands = steps_up_to sheet.now.steps 31 in
        Put buffer.old at (spelled_all commands) result buffer.new }
    ensures most { result ≤ at + 403 }
    ensures len { length buffer.new ≡ length buffer.old }
{
    let mut place = at;
    for number in 1..32u8 {
        place = put_step(sheet, number, buffer, place);
    }
    place
}

// The rules that the sheet has, by rising number.
fn put_rules(sheet: &Sheet, buffer: &mut [u8], at: usize) -> usize
    requires { at + 672 ≤ length buffer.old }
    ensures put { let commands = rules_up_to sheet.now.rules 96 in
        Put buffer.old at (spelled_all commands) result buffer.new }
    ensures most { result ≤ at + 672 }
    ensures len { length buffer.new ≡ length buffer.old }
{
    let mut place = at;
    for number in 1..97u8 {
        place = put_rule(sheet, number, buffer, place);
    }
    place
}

// The period, the span, then the steps and then the rules.
pub(crate) fn put_card(sheet: &Sheet, buffer: &mut [u8]) -> usize
    requires { card_room ≤ length buffer.old }
    ensures put { Put buffer.old 0 (card_of sheet.now) result buffer.new }
    ensures most { result ≤ card_room }
{
    let behind_period = put(&period_command(sheet), buffer, 0);
    let behind_span = put(&span_command(sheet), buffer, behind_period);
    let behind_steps = put_steps(sheet, buffer, behind_span);
    put_rules(sheet, buffer, behind_steps)
}
