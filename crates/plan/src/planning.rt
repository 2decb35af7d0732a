// The plan of a source's sheet: a start hour and a vessel for each step.
ghost use Rattle.std.specs.Prelude.{◌≡◌, ◌≤◌, ◌↔◌, length, IsTrue, All};
ghost use Rattle.plan.specs.Plans.{plan_number, CountsFit, Wrote, of_chart, of_vessels, Room, Planned};
ghost use Rattle.sheet.specs.Waits.{IsChart};

use super::fill::fill;
use super::writing::write_plan;
use checked::counts_fit;
use choose::Chooser;
use kinds::{Counted, Hours};
use sheet::Source;
use vessels::Refusal;
use waits::{LoopRefusal, wait_chart};

// Why there is no plan.
#[derive(Clone, Copy, Debug, PartialEq, Eq)]
pub enum PlanRefusal {
    // A buffer is too short.
    TooShort,
    // A count of vessels is above 16.
    Count,
    // The sheet has no lawful timetable; the codes of so many links of a loop were written.
    NoTimetable { count: usize },
    // The first step that finds no vessel.
    NoVessel { step: u8 },
}

impl PlanRefusal {
    pub fn number(self) -> u8
        ensures { result ≡ plan_number self }
    {
        match self {
            PlanRefusal::TooShort => 30,
            PlanRefusal::Count => 12,
            PlanRefusal::NoTimetable { .. } => 14,
            PlanRefusal::NoVessel { .. } => 40,
        }
    }
}

// What a plan makes of a refusal of the wait chart.
impl From<LoopRefusal> for PlanRefusal {
    ghost from_gives = { λ f r. r ≡ of_chart f };

    fn from(refusal: LoopRefusal) -> PlanRefusal {
        match refusal {
            LoopRefusal::TooShort => PlanRefusal::TooShort,
            LoopRefusal::NoTimetable { count } => PlanRefusal::NoTimetable { count },
        }
    }
}

// What a plan makes of a refusal of the vessels.
impl From<Refusal> for PlanRefusal {
    ghost from_gives = { λ f r. r ≡ of_vessels f };

    fn from(refusal: Refusal) -> PlanRefusal {
        match refusal {
            Refusal::TooShort => PlanRefusal::TooShort,
            Refusal::NoVessel(step) => PlanRefusal::NoVessel { step },
        }
    }
}

// Places all steps by the wait chart and writes the plan, if every step finds a vessel.
fn plan_by_chart<S: Source, C: Chooser>(
    source: &S,
    stock: &[u8; 8],
    chooser: &C,
    chart: &[i16; 1024],
    starts: &mut [u16],
    vessels: &mut [u8],
) -> Result<(), Refusal>
    requires chart { IsChart (S.Source.sheet source.now).told chart.now }
    requires starts { 31 ≤ length starts.old }
    requires vessels { 31 ≤ length vessels.old }
    ensures { Wrote (S.Source.sheet source.now).told (C.Chooser.rule chooser.now) stock.now
        starts.old starts.new vessels.old vessels.new result }
{
    let placed = fill(source, chart, chooser);
    write_plan(source, stock, &placed, starts, vessels)
}

fn plan_or_loop<S: Source, C: Chooser>(
    source: &S,
    stock: &[u8; 8],
    chooser: &C,
    hours: &mut [Hours],
    counted: &mut [Counted],
    codes: &mut [u16],
    starts: &mut [u16],
    vessels: &mut [u8],
) -> Result<(), PlanRefusal>
    requires room { Room (record {
      hours = hours.old;
      counted = counted.old;
      codes = codes.old;
      starts = starts.old;
      vessels = vessels.old;
    }) }
    requires counts { CountsFit stock.now }
    ensures { Planned (S.Source.sheet source.now).told (C.Chooser.rule chooser.now) stock.now
        (record {
          hours = hours.old;
          counted = counted.old;
          codes = codes.old;
          starts = starts.old;
          vessels = vessels.old;
        })
        (record {
          hours = hours.new;
          counted = counted.new;
          codes = codes.new;
          starts = starts.new;
          vessels = vessels.new;
        }) result }
{
    let mut chart = [0i16; 1024];
    wait_chart(source, hours, counted, &mut chart, codes)?;
    plan_by_chart(source, stock, chooser, &chart, starts, vessels)?;
    Ok(())
}

// Writes the plan of the source's sheet: 31 start hours, 65,535 for an absent step, and 31 vessel numbers, 0 for an
// absent step. The steps are placed one by one, each at the hour that the chooser names, and then get vessels of the
// stock by rising number. Where the sheet has no lawful timetable, the codes of a loop are written instead. `hours` and
// `counted` are working charts, whose contents are then free.
pub fn plan<S: Source, C: Chooser>(
    source: &S,
    stock: &[u8; 8],
    chooser: &C,
    hours: &mut [Hours],
    counted: &mut [Counted],
    codes: &mut [u16],
    starts: &mut [u16],
    vessels: &mut [u8],
) -> Result<(), PlanRefusal>
    ensures { Planned (S.Source.sheet source.now).told (C.Chooser.rule chooser.now) stock.now
        (record {
          hours = hours.old;
          counted = counted.old;
          codes = codes.old;
          starts = starts.old;
          vessels = vessels.old;
        })
        (record {
          hours = hours.new;
          counted = counted.new;
          codes = codes.new;
          starts = starts.new;
          vessels = vessels.new;
        }) result }
{
    if hours.len() < 1024
        || counted.len() < 1024
        || codes.len() < 32
        || starts.len() < 31
        || vessels.len() < 31
    {
        return Err(PlanRefusal::TooShort);
    }
    if !counts_fit(stock) {
        return Err(PlanRefusal::Count);
    }
    plan_or_loop(
        source, stock, chooser, hours, counted, codes, starts, vessels,
    )
}
