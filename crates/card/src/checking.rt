ghost use Rattle.std.specs.Prelude.{◌≡◌, List};
ghost use Rattle.book.specs.Reading.{Item, book_of, place_of};
ghost use Rattle.book.specs.Walks.{Walk};
ghost use Rattle.card.specs.Cards.{ended, ruling, judged, verdict, outcome};
ghost use Rattle.card.specs.Marks.{marked, placed_in};
ghost use Rattle.card.specs.declared.order.Stage.TheVariants.{Period as due};
ghost use Rattle.sheet.specs.Edits.{empty_sheet};
ghost use Rattle.sheet.specs.declared.forms.Sheet.{Sheet};

use crate::faults::{CardCause, CardFault};
use crate::limits::{fits, mark};
use crate::order::{Stage, stage_after};
use book::{Entry, Reader};

// The stage after one command, or its fault: first that it is out of place, then that it breaks a limit.
fn judge(stage: Stage, marks: &[bool; 32], entry: &Entry) -> Result<Stage, CardFault>
    ensures { result ≡ ruling stage (marked marks.now) (placed_in entry.now) }
{
    let offset = entry.offset;
    let Some(later) = stage_after(stage, &entry.command) else {
        let cause = CardCause::OutOfPlace;
        return Err(CardFault { cause, offset });
    };
    if fits(marks, &entry.command) {
        return Ok(later);
    }
    let cause = CardCause::OutOfLimits;
    Err(CardFault { cause, offset })
}

// A card that ends before its period or its span lacks a command there.
fn judge_end(stage: Stage, end: usize) -> Result<(), CardFault>
    ensures { (sheet : Sheet) → result ≡ outcome (ended end stage sheet) }
{
    match stage {
        Stage::Period | Stage::Span => Err(CardFault {
            cause: CardCause::OutOfPlace,
            offset: end,
        }),
        Stage::Steps { .. } | Stage::Rules { .. } => Ok(()),
    }
}

// Judges all that a reader tells of a card that ends at `end`.
fn judge_all(reader: &mut Reader, end: usize) -> Result<(), CardFault>
    ensures { (items : List Item) → Walk (book_of reader.old) (place_of reader.old) items
        → result ≡ outcome (judged end due empty_sheet items) }
{
    let mut stage = Stage::Period;
    let mut marks = [false; 32];
    while let Some(item) = reader.read_next() {
        let entry = item?;
        stage = judge(stage, &marks, &entry)?;
        mark(&mut marks, &entry.command);
    }
    judge_end(stage, end)
}

// Tells the first fault of a card, if it has one.
pub fn check(card: &[u8]) -> Result<(), CardFault>
    ensures { result ≡ outcome (verdict card.now) }
{
    let mut reader = Reader::new(card)?;
    judge_all(&mut reader, card.len())
}
