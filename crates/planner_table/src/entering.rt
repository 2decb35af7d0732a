// Commands made by hand, and what becomes of them.
use book::Command;
use kinds::{Counted, Hours};
use planner::Planner;
use std::process::Abort;

pub const MASH: &[u8] = b"MASH    ";

pub(crate) fn add<'a>(step: u8, duration: u16, kind: u8, name: &'a [u8]) -> Command<'a> {
    Command::AddStep {
        step,
        duration,
        kind,
        name,
    }
}

pub(crate) fn remove(step: u8) -> Command<'static> {
    Command::RemoveStep { step }
}

pub(crate) fn duration(step: u8, duration: u16) -> Command<'static> {
    Command::SetDuration { step, duration }
}

pub(crate) fn after(rule: u8, u: u8, v: u8, gap: u16, carry: u8) -> Command<'static> {
    Command::After {
        rule,
        u,
        v,
        gap,
        carry,
    }
}

pub(crate) fn within(rule: u8, u: u8, v: u8, hours: u16) -> Command<'static> {
    Command::Within { rule, u, v, hours }
}

pub(crate) fn at(rule: u8, v: u8, hour: u16) -> Command<'static> {
    Command::At { rule, v, hour }
}

pub(crate) fn free(rule: u8) -> Command<'static> {
    Command::RemoveRule { rule }
}

pub(crate) fn period(period: u16) -> Command<'static> {
    Command::SetPeriod { period }
}

pub(crate) fn span(span: u16) -> Command<'static> {
    Command::SetSpan { span }
}

pub(crate) fn vessels(kind: u8, count: u8) -> Command<'static> {
    Command::SetVessels { kind, count }
}

// The number that refuses a command, or 0, and the sum of the codes written.
pub(crate) fn outcome(planner: &mut Planner, command: &Command) -> (u8, u16) {
    let mut hours = [Hours { hours: 0 }; 1024];
    let mut counted = [Counted { hours: 0, links: 0 }; 1024];
    let mut codes = [0u16; 32];
    let number = match planner.enter(command, &mut hours, &mut counted, &mut codes) {
        Ok(()) => 0,
        Err(refusal) => refusal.number(),
    };
    let mut sum = 0u16;
    for code in codes {
        sum = sum.saturating_add(code);
    }
    (number, sum)
}

// Enters commands that all are accepted.
pub(crate) fn enter_all(rt: &impl Abort, planner: &mut Planner, commands: &[Command]) {
    for command in commands {
        assert_eq!(rt; outcome(planner, command), (0, 0));
    }
}
