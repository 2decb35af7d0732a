// A full sheet as a card in the caller's buffer.
ghost use Rattle.card_writing.specs.Contents.{card_of};
ghost use Rattle.card_writing.specs.Outcomes.{CardWritten, StandsFor};

use crate::placing::put_card;
use book::Unwritten;
use checked::CheckedSheet;

// The most bytes that a card of a sheet takes.
pub const CARD_ROOM: usize = 1081;

// Writes the sheet as a card to the buffer's front and tells the card's length. A buffer of fewer than 1,081 bytes is
// refused, however short the card would be.
pub fn write_card(checked: &CheckedSheet, buffer: &mut [u8]) -> Result<usize, Unwritten>
    ensures written { CardWritten (card_of checked.now.sheet) buffer.old result buffer.new }
    ensures stands { StandsFor checked.now.sheet result buffer.new }
{
    if buffer.len() < CARD_ROOM {
        return Err(Unwritten::TooShort);
    }
    Ok(put_card(&checked.sheet, buffer))
}
