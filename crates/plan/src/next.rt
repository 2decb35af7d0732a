// Which step is placed next.
ghost use Rattle.std.specs.Prelude.{◌≡◌, ℕ, ◌+◌, ◌↔◌, ℤ, ◌-ℤ◌, ◌≤ℤ◌, IsTrue, Option};
ghost use Rattle.plan.specs.Next.{slack_left, slacks_left, Leader, NamesNext};

use super::window::Window;
use vessels::Placed;

// A waiting step by its place in the table, with its slack.
#[derive(Clone, Copy)]
pub struct Candidate {
    pub place: usize,
    pub slack: i64,
}

// The hours between the first and the last hour of a window.
fn slack(window: Window) -> i64
    ensures { result ≡ window.last -ℤ window.first }
{
    window.last as i64 - window.first as i64
}

// The slack of a step that is there and not placed.
fn slack_of(window: Option<Window>, placed: Option<Placed>) -> Option<i64>
    ensures { result ≡ slack_left window placed }
{
    match placed {
        Some(_) => None,
        None => window.map(slack),
    }
}

// Whether the step held so far, which has the smaller number, keeps the lead over a step with another slack.
fn keeps_lead(held: i64, slack: i64) -> bool
    ensures { IsTrue result ↔ (held ≤ℤ slack) }
{
    held <= slack
}

// The step with the least slack, with one place more.
fn pick(held: Option<Candidate>, place: usize, slack: Option<i64>) -> Option<Candidate>
    ensures { (slacks : ℕ → Option ℤ) → slacks place ≡ slack
        → Leader slacks place held → Leader slacks (place + 1) result }
{
    let Some(slack) = slack else {
        return held;
    };
    match held {
        Some(candidate) if keeps_lead(candidate.slack, slack) => held,
        _ => Some(Candidate { place, slack }),
    }
}

// The waiting step with the least slack, the first of them at a tie.
fn leader(windows: &[Option<Window>; 31], placed: &[Option<Placed>; 31]) -> Option<Candidate>
    ensures { Leader (slacks_left windows.now placed.now) 31 result }
{
    let mut held = None;
    for (place, (window, step)) in windows.iter().zip(placed).enumerate() {
        held = pick(held, place, slack_of(*window, *step));
    }
    held
}

// The step that is placed next, or none if no step is waiting.
pub(crate) fn next_step(windows: &[Option<Window>; 31], placed: &[Option<Placed>; 31]) -> Option<u8>
    ensures { NamesNext windows.now placed.now result }
{
    leader(windows, placed).map(|candidate| candidate.place as u8 + 1)
}
