ghost use Rattle.std.specs.Prelude.{◌≡◌};
ghost use Rattle.planner.specs.Refusals.{refusal_number, without_chart};
ghost use Rattle.planner.specs.declared.refusals.Refusal.TheVariants.{Faulty, Unread};

use book::Fault;
use changes::CommandFault;
use loops::LoopRefusal;

// Why a command was not entered.
#[derive(Clone, Copy, Debug, PartialEq, Eq)]
pub enum Refusal {
    // The command has a fault on the sheet that stands.
    Faulty(CommandFault),
    // The sheet asked for has no lawful timetable; the codes of so many links of a loop were written.
    NoTimetable { count: usize },
    // No command could be read.
    Unread(Fault),
    // A buffer is too short.
    TooShort,
}

impl Refusal {
    pub fn number(self) -> u8
        ensures { result ≡ refusal_number self }
    {
        match self {
            Refusal::Faulty(fault) => fault.number(),
            Refusal::NoTimetable { .. } => 14,
            Refusal::Unread(fault) => fault.cause.number(),
            Refusal::TooShort => 30,
        }
    }
}

impl From<CommandFault> for Refusal {
    ghost from_gives = { λ f r. r ≡ Faulty f };

    fn from(fault: CommandFault) -> Refusal {
        Refusal::Faulty(fault)
    }
}

// A reader's fault is passed on whole, with its offset.
impl From<Fault> for Refusal {
    ghost from_gives = { λ f r. r ≡ Unread f };

    fn from(fault: Fault) -> Refusal {
        Refusal::Unread(fault)
    }
}

// No wait chart, no planner.
impl From<LoopRefusal> for Refusal {
    ghost from_gives = { λ f r. r ≡ without_chart f };

    fn from(refusal: LoopRefusal) -> Refusal {
        match refusal {
            LoopRefusal::NoTimetable { count } => Refusal::NoTimetable { count },
            LoopRefusal::TooShort => Refusal::TooShort,
        }
    }
}
