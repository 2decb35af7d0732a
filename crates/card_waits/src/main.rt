// The wait charts of two cards, one of them faulty, and of the sound one through both layers.
#![tactic(auto)]

use card::Card;
use kinds::{Counted, Hours};
use sheet::{LeftOut, OtherPeriod, Source};
use std::{fs, io};
use waits::wait_chart;

fn is_present<S: Source>(source: &S, place: u8) -> bool {
    place == 0 || source.step(place).is_some()
}

// A line for each present place: its number, and the waits from it to the present places.
fn print_rows<S: Source>(rt: &HostRuntime, source: &S, chart: &[i16; 1024]) -> io::Result<()> {
    for i in 0..32u8 {
        if is_present(source, i) {
            print!(rt; "{i}:")?;
            for j in 0..32u8 {
                if is_present(source, j) {
                    let wait = chart[32 * i as usize + j as usize];
                    print!(rt; " {wait}")?;
                }
            }
            println!(rt)?;
        }
    }
    Ok(())
}

fn print_codes(rt: &HostRuntime, codes: &[u16; 32]) -> io::Result<()> {
    print!(rt; "loop")?;
    for code in codes {
        if *code != 0 {
            let code = *code;
            print!(rt; " {code}")?;
        }
    }
    println!(rt)
}

fn print_waits<S: Source>(rt: &HostRuntime, source: &S) -> io::Result<()> {
    let period = source.period();
    println!(rt; "period {period}")?;
    let mut hours = [Hours { hours: 0 }; 1024];
    let mut counted = [Counted { hours: 0, links: 0 }; 1024];
    let mut chart = [0i16; 1024];
    let mut codes = [0u16; 32];
    match wait_chart(source, &mut hours, &mut counted, &mut chart, &mut codes) {
        Ok(()) => print_rows(rt, source, &chart),
        Err(refusal) => {
            let number = refusal.number();
            println!(rt; "refused {number}")?;
            print_codes(rt, &codes)
        }
    }
}

fn print_card(rt: &HostRuntime, name: &str) -> anyhow::Result<()> {
    let bytes = fs::read(rt, name)?;
    let card = Card::new(bytes.as_slice());
    match card.condition() {
        Ok(()) => println!(rt; "{name}: sound")?,
        Err(fault) => {
            let number = fault.cause.number();
            let offset = fault.offset;
            println!(rt; "{name}: fault {number} at {offset}")?;
        }
    }
    print_waits(rt, &card)?;
    print_waits(
        rt,
        &OtherPeriod {
            below: &card,
            period: 19,
        },
    )?;
    let freer = LeftOut {
        below: &card,
        number: 3,
    };
    print_waits(
        rt,
        &OtherPeriod {
            below: &freer,
            period: 20,
        },
    )?;
    Ok(())
}

fn run(rt: &HostRuntime) -> anyhow::Result<()> {
    print_card(rt, "three.card")?;
    print_card(rt, "faulty.card")
}

fn main(rt: HostRuntime) -> anyhow::Result<()> {
    run(&rt)
}
