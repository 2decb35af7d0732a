// The worked example of three steps, entered command by command into an empty planner.
#![tactic(auto)]

use book::Command;
use kinds::{Counted, Hours};
use planner::{Planner, Refusal};
use std::io;

fn print_command(rt: &HostRuntime, command: &Command) -> io::Result<()> {
    match *command {
        Command::AddStep { step, duration, .. } => print!(rt;
            "add step {step}, {duration} hours: "
        ),
        Command::After {
            rule,
            u,
            v,
            gap,
            carry,
        } => print!(rt; "After {rule} ({u}, {v}, {gap}, {carry}): "),
        Command::Within { rule, u, v, hours } => print!(rt; "Within {rule} ({u}, {v}, {hours}): "),
        Command::SetPeriod { period } => print!(rt; "period {period}: "),
        Command::SetSpan { span } => print!(rt; "span {span}: "),
        _ => print!(rt; "another command: "),
    }
}

// The least code of a loop; the buffer holds zeros behind its codes, and no link has the code 0.
fn least_code(codes: &[u16; 32]) -> u16 {
    codes
        .iter()
        .copied()
        .filter(|code| *code != 0)
        .min()
        .unwrap_or(0)
}

// The codes of a loop in order. Any of its links may come first, so that it is told from its least code on.
fn print_loop(rt: &HostRuntime, codes: &[u16; 32]) -> io::Result<()> {
    let least = least_code(codes);
    let mut reached = false;
    for code in codes {
        let code = *code;
        reached = reached || code == least;
        if reached && code != 0 {
            print!(rt; " {code}")?;
        }
    }
    for code in codes {
        let code = *code;
        if code == least {
            return Ok(());
        }
        print!(rt; " {code}")?;
    }
    Ok(())
}

// A line for the command: entered, or the number of its refusal, for 14 with a loop.
fn enter(rt: &HostRuntime, planner: &mut Planner, command: Command) -> io::Result<()> {
    let mut hours = [Hours { hours: 0 }; 1024];
    let mut counted = [Counted { hours: 0, links: 0 }; 1024];
    let mut codes = [0u16; 32];
    print_command(rt, &command)?;
    match planner.enter(&command, &mut hours, &mut counted, &mut codes) {
        Ok(()) => print!(rt; "entered")?,
        Err(Refusal::NoTimetable { .. }) => {
            print!(rt; "refused 14, loop")?;
            print_loop(rt, &codes)?;
        }
        Err(refusal) => {
            let number = refusal.number();
            print!(rt; "refused {number}")?;
        }
    }
    println!(rt)
}

fn print_windows(rt: &HostRuntime, planner: &Planner) -> io::Result<()> {
    for step in 1..=31u8 {
        if let Ok((earliest, latest)) = planner.window(step) {
            println!(rt; "step {step} starts from {earliest} to {latest}")?;
        }
    }
    Ok(())
}

fn enter_office(rt: &HostRuntime, planner: &mut Planner) -> io::Result<()> {
    let commands = [
        Command::SetSpan { span: 60 },
        Command::AddStep {
            step: 1,
            duration: 6,
            kind: 0,
            name: b"MASH    ",
        },
        Command::AddStep {
            step: 2,
            duration: 20,
            kind: 1,
            name: b"FERMENT ",
        },
        Command::AddStep {
            step: 3,
            duration: 4,
            kind: 2,
            name: b"CROP    ",
        },
        Command::After {
            rule: 1,
            u: 1,
            v: 2,
            gap: 0,
            carry: 0,
        },
        Command::After {
            rule: 2,
            u: 2,
            v: 3,
            gap: 0,
            carry: 0,
        },
        Command::After {
            rule: 3,
            u: 3,
            v: 2,
            gap: 2,
            carry: 2,
        },
    ];
    for command in commands {
        enter(rt, planner, command)?;
    }
    Ok(())
}

// Step 3 starts at most so many hours after step 1 does.
fn within(rule: u8, hours: u16) -> Command<'static> {
    Command::Within {
        rule,
        u: 1,
        v: 3,
        hours,
    }
}

fn run(rt: &HostRuntime) -> anyhow::Result<()> {
    let mut planner = Planner::empty();
    enter_office(rt, &mut planner)?;
    print_windows(rt, &planner)?;
    // rule 3 is taken; 25 hours are less than steps 1 and 2 take together; 30 are not
    enter(rt, &mut planner, within(3, 25))?;
    enter(rt, &mut planner, within(4, 25))?;
    enter(rt, &mut planner, within(4, 30))?;
    print_windows(rt, &planner)?;
    // step 2 takes 20 hours
    enter(rt, &mut planner, Command::SetPeriod { period: 20 })?;
    enter(rt, &mut planner, Command::SetPeriod { period: 19 })?;
    print_windows(rt, &planner)?;
    Ok(())
}

fn main(rt: HostRuntime) -> anyhow::Result<()> {
    run(&rt)
}
