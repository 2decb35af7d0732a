ghost use Rattle.std.specs.Prelude.{◌≡◌, ◌<◌, ◌↔◌, IsTrue, IsSomeAnd, MatchOption, MatchResult, slice_index};
ghost use Rattle.vessels.specs.Refusals.{told};
ghost use Rattle.vessels.specs.Replies.{IsMissing, Gave};
ghost use Rattle.vessels.specs.Vessels.{Keeps, Taken, Gets, NoneLeft, Due, Without, AllNumbered};

use super::placed::Placed;
use super::refusals::Refusal;
use super::sharing::share;

// Whether a lower-numbered step, if it is there, keeps the vessel that it has from another step.
fn keeps(lower: Option<Placed>, number: u8, other: Placed, vessel: u8, period: u16) -> bool
    ensures { IsTrue result ↔ IsSomeAnd lower (λ lower. Keeps period lower number other vessel) }
{
    lower.is_some_and(|lower| {
        number == vessel && lower.kind == other.kind && share(lower, other, period)
    })
}

// How many vessels of a kind there are; kinds without a count have none.
fn stock_of(stock: &[u8; 8], kind: u8) -> u8
    ensures { result ≡ slice_index stock.now kind }
{
    stock.get(kind as usize).copied().unwrap_or(0)
}

// A timetable whose steps are to get vessels, with the period at which it repeats: step n stands at place n - 1, or is
// absent.
#[derive(Clone, Copy)]
struct Timetable<'a> {
    placed: &'a [Option<Placed>; 31],
    period: u16,
}

impl Timetable<'_> {
    // Whether some lower-numbered step keeps the vessel from the step at a place.
    fn is_taken(&self, numbers: &[u8; 31], place: usize, step: Placed, vessel: u8) -> bool
        requires { place < 31 }
        ensures { let placed = self.now.placed.now in
            IsTrue result ↔ Taken self.now.period placed numbers.now place step vessel }
    {
        let placed = self.placed;
        placed[..place].iter().zip(numbers).any(|(&lower, &number)| keeps(
            lower,
            number,
            step,
            vessel,
            self.period,
        ))
    }

    // The smallest vessel number for the step at a place, if one is left.
    fn vessel_for(&self, stock: u8, numbers: &[u8; 31], place: usize, step: Placed) -> Option<u8>
        requires { place < 31 }
        ensures { MatchOption result
            (NoneLeft self.now.period stock self.now.placed.now numbers.now place step)
            (Gets self.now.period stock self.now.placed.now numbers.now place step) }
    {
        (1..=stock).find(|&vessel| !self.is_taken(numbers, place, step, vessel))
    }

    // The number due to the step at a place, once all lower-numbered steps have theirs.
    fn number_for(&self, stock: &[u8; 8], numbers: &[u8; 31], place: usize) -> Option<u8>
        requires { place < 31 }
        ensures { MatchOption result
            (Without self.now.period stock.now self.now.placed.now numbers.now place)
            (Due self.now.period stock.now self.now.placed.now numbers.now place) }
    {
        match self.placed[place] {
            Some(step) => self.vessel_for(stock_of(stock, step.kind), numbers, place, step),
            None => Some(0),
        }
    }

    // The vessel number of each step; it is refused for the first step that finds no vessel.
    fn give(&self, stock: &[u8; 8]) -> Result<[u8; 31], Refusal>
        ensures { MatchResult result
            (AllNumbered self.now.period stock.now self.now.placed.now)
            (IsMissing self.now.period stock.now self.now.placed.now) }
    {
        let mut numbers = [0; 31];
        for place in 0..31 {
            let number = self.number_for(stock, &numbers, place);
            numbers[place] = number.ok_or(Refusal::NoVessel(place as u8 + 1))?;
        }
        Ok(numbers)
    }
}

// Gives out vessels by rising step number: step n stands at place n - 1, or is absent, and its vessel number goes to
// place n - 1 of `numbers`. A step gets the smallest number, from 1 to the stock of its kind, that no lower-numbered
// step of that kind sharing a class has; an absent step gets 0.
pub fn give_out(
    placed: &[Option<Placed>; 31],
    period: u16,
    stock: &[u8; 8],
    numbers: &mut [u8],
) -> Result<(), Refusal>
    ensures { Gave period stock.now placed.now numbers.old (told result) numbers.new }
{
    if numbers.len() < 31 {
        return Err(Refusal::TooShort);
    }
    let given = Timetable { placed, period }.give(stock)?;
    numbers[..31].copy_from_slice(&given);
    Ok(())
}
