ghost use Rattle.std.specs.Prelude.{◌≡◌};
ghost use Rattle.merge.specs.Reports.{book_number, report_on};

use planner::Refusal;

// The office keeps its book at a computer, the crew theirs on a tablet by the tanks.
#[derive(Clone, Copy, Debug, PartialEq, Eq)]
pub enum Book {
    Office = 1,
    Tablet = 2,
}

impl Book {
    pub fn number(self) -> u8
        ensures { result ≡ book_number self }
    {
        self as u8
    }
}

// What a merge tells of one refusal: the book, the offset in it, and the number.
#[derive(Clone, Copy, Debug, PartialEq, Eq)]
pub struct Report {
    pub book: Book,
    pub offset: usize,
    pub number: u8,
}

impl Report {
    // Fills a buffer that no merge has written to yet.
    pub const BLANK: Report = Report {
        book: Book::Office,
        offset: 0,
        number: 0,
    };
}

// A refusal, and where in which book it came about.
#[derive(Clone, Copy, Debug, PartialEq, Eq)]
pub struct Refused {
    pub book: Book,
    pub offset: usize,
    pub refusal: Refusal,
}

impl From<Refused> for Report {
    ghost from_gives = { λ f r. r ≡ report_on f };

    fn from(refused: Refused) -> Report {
        Report {
            book: refused.book,
            offset: refused.offset,
            number: refused.refusal.number(),
        }
    }
}
