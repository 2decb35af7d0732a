ghost use Rattle.std.specs.Prelude.{◌≡◌};
ghost use Rattle.book.specs.Commands.{said};
ghost use Rattle.card.specs.Finds.{answers_of, noted_by, FindsIn, FindsOn};

use book::{Command, Reader};
use sheet::Rule;

// A step as a card spells it; the name is a part of the card.
#[derive(Clone, Copy)]
pub struct FoundStep<'a> {
    pub duration: u16,
    pub kind: u8,
    pub name: &'a [u8],
}

// What a card tells of its period and span, of one step and of one rule.
#[derive(Clone, Copy)]
pub struct Found<'a> {
    pub period: u16,
    pub span: u16,
    pub step: Option<FoundStep<'a>>,
    pub rule: Rule,
}

// What is found after one command more.
fn noted<'a>(found: Found<'a>, command: Command<'a>, step: u8, rule: u8) -> Found<'a>
    ensures { answers_of result ≡ noted_by step rule (answers_of found.entry) (said command.entry) }
{
    let mut found = found;
    match command {
        Command::SetPeriod { period } => found.period = period,
        Command::SetSpan { span } => found.span = span,
        Command::AddStep {
            step: number,
            duration,
            kind,
            name,
        } => {
            if number == step {
                found.step = Some(FoundStep {
                    duration,
                    kind,
                    name,
                });
            }
        }
        Command::After {
            rule: number,
            u,
            v,
            gap,
            carry,
        } => {
            if number == rule {
                found.rule = Rule::After { u, v, gap, carry };
            }
        }
        Command::Within {
            rule: number,
            u,
            v,
            hours,
        } => {
            if number == rule {
                found.rule = Rule::Within { u, v, hours };
            }
        }
        Command::At {
            rule: number,
            v,
            hour,
        } => {
            if number == rule {
                found.rule = Rule::At { v, hour };
            }
        }
        _ => {}
    }
    found
}

// What an empty planner's sheet tells of any step and rule.
pub const NOTHING_FOUND: Found<'static> = Found {
    period: 24,
    span: 336,
    step: None,
    rule: Rule::Free,
};

// What a reader finds from its place on, where its book is a card without a fault.
fn find_in<'a>(reader: &mut Reader<'a>, step: u8, rule: u8) -> Found<'a>
    ensures { FindsIn reader.old step rule (answers_of result) }
{
    let mut found = NOTHING_FOUND;
    while let Some(item) = reader.read_next() {
        match item {
            Ok(entry) => found = noted(found, entry.command, step, rule),
            Err(_) => return found,
        }
    }
    found
}

// What a card without a fault tells of a step and a rule.
pub(crate) fn find<'a>(card: &'a [u8], step: u8, rule: u8) -> Found<'a>
    ensures { FindsOn card.now step rule (answers_of result) }
{
    match Reader::new(card) {
        Ok(mut reader) => find_in(&mut reader, step, rule),
        Err(_) => NOTHING_FOUND,
    }
}
