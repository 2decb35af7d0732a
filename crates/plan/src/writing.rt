// Start hours and vessels of steps that are filled in, written into the caller's buffers.
ghost use Rattle.std.specs.Prelude.{◌≡◌, ◌≤◌, ◌++◌, length, drop};
ghost use Rattle.choose.specs.Choosing.{HourRule};
ghost use Rattle.plan.specs.Plans.{start_hours, Wrote};
ghost use Rattle.vessels.specs.Refusals.{told};
ghost use Rattle.vessels.specs.Replies.{Gave};
ghost use Rattle.sheet.specs.Timetables.{Lawful};
ghost use Rattle.windows.specs.Placing.{Filled, starts as starts_of};

use sheet::Source;
use vessels::{ABSENT, Placed, Refusal, give_out};

// The start hours of all steps, 65,535 for an absent one: that of step n stands at place n - 1.
fn hours_of(placed: &[Option<Placed>; 31]) -> [u16; 31]
    ensures { result ≡ start_hours placed.now }
{
    placed.map(|step| step.map_or(ABSENT, |step| step.start))
}

// Writes the start hours of all steps. What lies behind the 31 hours stays.
fn write_starts(placed: &[Option<Placed>; 31], starts: &mut [u16])
    requires { 31 ≤ length starts.old }
    ensures { starts.new ≡ start_hours placed.now ++ drop 31 starts.old }
{
    starts[..31].copy_from_slice(&hours_of(placed));
}

// Gives out the vessels of a stock at the period of the sheet.
fn give_vessels<S: Source>(
    source: &S,
    stock: &[u8; 8],
    placed: &[Option<Placed>; 31],
    vessels: &mut [u8],
) -> Result<(), Refusal>
    requires { 31 ≤ length vessels.old }
    ensures { Gave (S.Source.sheet source.now).told.period stock.now placed.now
        vessels.old (told result) vessels.new }
{
    give_out(placed, source.period(), stock, vessels)
}

// Writes start hours and vessels, if every step finds a vessel.
pub(crate) fn write_plan<S: Source>(
    source: &S,
    stock: &[u8; 8],
    placed: &[Option<Placed>; 31],
    starts: &mut [u16],
    vessels: &mut [u8],
) -> Result<(), Refusal>
    requires starts { 31 ≤ length starts.old }
    requires vessels { 31 ≤ length vessels.old }
    ensures { (rule : HourRule) → Filled (S.Source.sheet source.now).told rule placed.now
        → Lawful (S.Source.sheet source.now).told (starts_of placed.now)
        → Wrote (S.Source.sheet source.now).told rule stock.now
        starts.old starts.new vessels.old vessels.new result }
{
    give_vessels(source, stock, placed, vessels)?;
    write_starts(placed, starts);
    Ok(())
}
