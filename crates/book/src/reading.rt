ghost use Rattle.std.specs.Prelude.{◌≡◌, ◌≤◌, length, drop};
ghost use Rattle.book.specs.Reading.{Opened, Stepped};

use crate::commands::Command;
use crate::decoding::decode;
use crate::faults::{Cause, Fault};

// The most bytes that a book has.
pub const BOOK_LIMIT: usize = 4096;

// A command, and the offset of its first byte in the book.
#[derive(Clone, Copy, Debug)]
pub struct Entry<'a> {
    pub offset: usize,
    pub command: Command<'a>,
}

// Walks a book in place, command by command.
#[derive(Drop)]
pub struct Reader<'a> {
    book: &'a [u8],
    place: usize,
}

// What a book holds from a place on.
fn rest_of(book: &[u8], place: usize) -> &[u8]
    requires { place ≤ length book.now }
    ensures { result.now ≡ drop place book.now }
{
    &book[place..]
}

impl<'a> Reader<'a> {
    pub fn new(book: &'a [u8]) -> Result<Reader<'a>, Fault>
        ensures { Opened book.now result }
    {
        if book.len() > BOOK_LIMIT {
            return Err(Fault {
                cause: Cause::TooLong,
                offset: 0,
            });
        }
        Ok(Reader { book, place: 0 })
    }

    // The next command or fault, or nothing at the book's end. After a fault the rest of the book is dropped.
    pub fn read_next(&mut self) -> Option<Result<Entry<'a>, Fault>>
        ensures { Stepped self.old result self.new }
    {
        let book = self.book;
        let offset = self.place;
        if offset >= book.len() {
            return None;
        }
        match decode(rest_of(book, offset)) {
            Ok(command) => {
                self.place = offset + command.width();
                Some(Ok(Entry { offset, command }))
            }
            Err(cause) => {
                self.place = book.len();
                Some(Err(Fault { cause, offset }))
            }
        }
    }
}
