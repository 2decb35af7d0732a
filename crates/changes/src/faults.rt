ghost use Rattle.std.specs.Prelude.{◌≡◌};
ghost use Rattle.changes.specs.Faults.{fault_number};

// What can be wrong with a command on a sheet, apart from leaving it without a lawful timetable.
#[derive(Clone, Copy, Debug, PartialEq, Eq)]
pub enum CommandFault {
    // A step number outside 1 to 31.
    StepNumber = 1,
    // The step to be added is there already.
    StepPresent = 2,
    // Any other step that the command names is absent.
    StepAbsent = 3,
    Duration = 4,
    Kind = 5,
    // A name that is not eight bytes long, or a byte of it outside 0x20 to 0x7E.
    Name = 6,
    // A rule number outside 1 to 96.
    RuleNumber = 7,
    // The rule number is not free.
    RuleTaken = 8,
    // The rule to be removed is not there.
    RuleAbsent = 9,
    // A gap, hours or an hour out of limits.
    Hours = 10,
    Carry = 11,
    // The period, the span or a count of vessels out of limits.
    Amount = 12,
    // The step to be removed is named by a rule.
    StepNamed = 13,
}

impl CommandFault {
    pub fn number(self) -> u8
        ensures { result ≡ fault_number self }
    {
        self as u8
    }
}
