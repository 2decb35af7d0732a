// The links of any source, told by their codes. Whoever wants all of them asks for every code below `CODES`.
#![tactic(auto)]

ghost use Rattle.std.specs.Prelude.{◌≡◌};
ghost use Rattle.sheet.specs.Sheets.{duration};
ghost use Rattle.walks.specs.Codes.{row_link, link_of};

use sheet::{Link, Rule, Source};

// Every link's code lies below.
pub const CODES: u16 = 432;

fn hours_of<S: Source>(source: &S, step: u8) -> u16
    ensures { result ≡ duration (S.Source.sheet source.now).told step }
{
    match source.step(step) {
        Some((hours, _)) => hours,
        None => 0,
    }
}

// The link that a rule stands for; of an At, the one from hour zero to its step.
fn rule_link<S: Source>(source: &S, number: u8) -> Option<Link>
    ensures { result ≡ row_link (S.Source.sheet source.now).told 0 number }
{
    let code = number as u16;
    match source.rule(number) {
        Rule::Free => None,
        Rule::After { u, v, gap, carry } => {
            let hours = (hours_of(source, u) as u32 + gap as u32) as i32;
            Some(Link {
                from: u,
                to: v,
                hours,
                carries: carry,
                code,
            })
        }
        Rule::Within { u, v, hours } => Some(Link {
            from: v,
            to: u,
            hours: -(hours as i32),
            carries: 0,
            code,
        }),
        Rule::At { v, hour } => Some(Link {
            from: 0,
            to: v,
            hours: hour as i32,
            carries: 0,
            code,
        }),
    }
}

// The link of an At from its step back to hour zero.
fn back_link<S: Source>(source: &S, number: u8) -> Option<Link>
    ensures { result ≡ row_link (S.Source.sheet source.now).told 1 number }
{
    match source.rule(number) {
        Rule::At { v, hour } => Some(Link {
            from: v,
            to: 0,
            hours: -(hour as i32),
            carries: 0,
            code: 100 + number as u16,
        }),
        _ => None,
    }
}

fn floor_link<S: Source>(source: &S, step: u8) -> Option<Link>
    ensures { result ≡ row_link (S.Source.sheet source.now).told 2 step }
{
    match source.step(step) {
        Some(_) => Some(Link {
            from: 0,
            to: step,
            hours: 0,
            carries: 0,
            code: 200 + step as u16,
        }),
        None => None,
    }
}

fn ceiling_link<S: Source>(source: &S, step: u8) -> Option<Link>
    ensures { result ≡ row_link (S.Source.sheet source.now).told 3 step }
{
    match source.step(step) {
        Some((duration, _)) => {
            let hours = duration as i32 - source.span() as i32;
            Some(Link {
                from: step,
                to: 0,
                hours,
                carries: 0,
                code: 300 + step as u16,
            })
        }
        None => None,
    }
}

fn turn_link<S: Source>(source: &S, step: u8) -> Option<Link>
    ensures { result ≡ row_link (S.Source.sheet source.now).told 4 step }
{
    match source.step(step) {
        Some((duration, _)) => Some(Link {
            from: step,
            to: step,
            hours: duration as i32,
            carries: 1,
            code: 400 + step as u16,
        }),
        None => None,
    }
}

// The link of the source's sheet that has the code, if there is one.
pub fn link_with_code<S: Source>(source: &S, code: u16) -> Option<Link>
    ensures { result ≡ link_of (S.Source.sheet source.now).told code }
{
    let number = (code % 100) as u8;
    match code / 100 {
        0 => rule_link(source, number),
        1 => back_link(source, number),
        2 => floor_link(source, number),
        3 => ceiling_link(source, number),
        4 => turn_link(source, number),
        _ => None,
    }
}
