// The links of a small sheet, with their weights: first as the sheet stands, then through both layers.
#![tactic(auto)]

ghost use Rattle.std.specs.Prelude.{◌≡◌};
ghost use Rattle.three_steps.specs.Example.{three_steps};

use checked::CheckedSheet;
use links::{CODES, link_with_code};
use sheet::{LeftOut, OtherPeriod, Rule, Sheet, Source, Step};
use std::io;

fn example() -> Sheet
    ensures { result ≡ three_steps }
{
    let mut sheet = Sheet::empty();
    sheet.span = 60;
    sheet.set_step(
        1,
        Some(Step {
            duration: 6,
            kind: 0,
            name: *b"MASH    ",
        }),
    );
    sheet.set_step(
        2,
        Some(Step {
            duration: 20,
            kind: 1,
            name: *b"FERMENT ",
        }),
    );
    sheet.set_step(
        3,
        Some(Step {
            duration: 4,
            kind: 2,
            name: *b"CROP    ",
        }),
    );
    sheet.set_rule(
        1,
        Rule::After {
            u: 1,
            v: 2,
            gap: 0,
            carry: 0,
        },
    );
    sheet.set_rule(
        2,
        Rule::After {
            u: 2,
            v: 3,
            gap: 0,
            carry: 0,
        },
    );
    sheet.set_rule(
        3,
        Rule::After {
            u: 3,
            v: 2,
            gap: 2,
            carry: 2,
        },
    );
    sheet
}

// A line for the period, then one for each link: code, the two places and the weight.
fn print_links<S: Source>(rt: &HostRuntime, source: &S) -> io::Result<()> {
    let period = source.period();
    println!(rt; "period {period}")?;
    for code in 0..CODES {
        if let Some(link) = link_with_code(source, code) {
            let from = link.from;
            let to = link.to;
            let weight = link.weight(period);
            println!(rt; "{code}: {from} to {to}, {weight}")?;
        }
    }
    Ok(())
}

fn main(rt: HostRuntime) -> io::Result<()> {
    let Some(source) = CheckedSheet::new(example()) else {
        return println!(rt; "the sheet breaks a limit");
    };
    print_links(&rt, &source)?;
    let faster = OtherPeriod {
        below: &source,
        period: 20,
    };
    let freer = LeftOut {
        below: &faster,
        number: 3,
    };
    print_links(&rt, &freer)
}
