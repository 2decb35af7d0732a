ghost use Rattle.std.specs.Prelude.{◌≡◌};
ghost use Rattle.book.specs.Commands.{said, width};

// What a book can ask for. No operand is judged here: the planner knows the limits.
#[derive(Clone, Copy, Debug)]
pub enum Command<'a> {
    // The name is a part of the book that the command was read from.
    AddStep {
        step: u8,
        duration: u16,
        kind: u8,
        name: &'a [u8],
    },
    RemoveStep {
        step: u8,
    },
    SetDuration {
        step: u8,
        duration: u16,
    },
    // Step v, of the brew that is `carry` later, starts at least `gap` hours after step u ends.
    After {
        rule: u8,
        u: u8,
        v: u8,
        gap: u16,
        carry: u8,
    },
    // Step v starts at most `hours` after step u starts.
    Within {
        rule: u8,
        u: u8,
        v: u8,
        hours: u16,
    },
    // Step v starts at this hour.
    At {
        rule: u8,
        v: u8,
        hour: u16,
    },
    RemoveRule {
        rule: u8,
    },
    SetPeriod {
        period: u16,
    },
    SetSpan {
        span: u16,
    },
    SetVessels {
        kind: u8,
        count: u8,
    },
}

impl Command<'_> {
    // How many bytes the command takes in a book, its own byte included.
    pub fn width(&self) -> usize
        ensures { result ≡ width (said self.now) }
    {
        match self {
            Command::AddStep { .. } => 13,
            Command::RemoveStep { .. } => 2,
            Command::SetDuration { .. } => 4,
            Command::After { .. } => 7,
            Command::Within { .. } => 6,
            Command::At { .. } => 5,
            Command::RemoveRule { .. } => 2,
            Command::SetPeriod { .. } => 3,
            Command::SetSpan { .. } => 3,
            Command::SetVessels { .. } => 3,
        }
    }
}
