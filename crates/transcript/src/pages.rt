ghost use Rattle.std.specs.Prelude.{◌≡◌, ◌++◌, IfOk, Err, string_bytes, OnOk};
ghost use Rattle.book.specs.Commands.{said};
ghost use Rattle.book.specs.Reading.{item_of, book_of, place_of};
ghost use Rattle.book.specs.Walks.{Walkable};
ghost use Rattle.transcript.specs.Listings.{heading, Continued, Extended, Listing, OneListing};
ghost use Rattle.transcript.specs.Sentences.{sentence, line_of, line};

use crate::sentences::{Ended, Sentence};
use book::{Entry, Fault, Reader};
use std::alloc::{AllocError, Global};

fn add_entry(text: &mut String, entry: Entry) -> Result<(), AllocError>
    ensures { OnOk result (
        string_bytes text.new ≡ string_bytes text.old
        ++ line_of entry.entry.offset (sentence (said entry.entry.command))) }
{
    let offset = entry.offset;
    let words = Sentence(entry.command);
    write!(text, "{offset}: {words}\n")
}

fn add_fault(text: &mut String, fault: Fault) -> Result<(), AllocError>
    ensures { OnOk result (string_bytes text.new ≡ string_bytes text.old ++ line (Err fault)) }
{
    let offset = fault.offset;
    let words = Ended(fault.cause);
    write!(text, "{offset}: {words}\n")
}

fn add_item(text: &mut String, item: Result<Entry, Fault>) -> Result<(), AllocError>
    ensures { OnOk result (
        string_bytes text.new ≡ string_bytes text.old ++ line (item_of item.entry)) }
{
    match item {
        Ok(entry) => add_entry(text, entry),
        Err(fault) => add_fault(text, fault),
    }
}

// Adds a line for each item from the reader's place on.
fn add_items(text: &mut String, reader: &mut Reader) -> Result<(), AllocError>
    ensures { OnOk result (
        Continued (string_bytes text.old) (book_of reader.old) (place_of reader.old)
        (string_bytes text.new)) }
{
    while let Some(item) = reader.read_next() {
        add_item(text, item)?;
    }
    Ok(())
}

// Adds the lines of a whole book to the text.
fn add_book(text: &mut String, book: &[u8]) -> Result<(), AllocError>
    ensures { OnOk result (Extended (string_bytes text.old) book.now (string_bytes text.new)) }
{
    match Reader::new(book) {
        Ok(mut reader) => add_items(text, &mut reader),
        Err(fault) => add_fault(text, fault),
    }
}

// The text of a book: its title and length, and a line for each command or fault.
fn book_text(heap: Global, title: &str, book: &[u8]) -> Result<String, AllocError>
    ensures { IfOk result (λ s. Extended (heading title.now book.now) book.now (string_bytes s)) }
{
    let size = book.len();
    let mut text = format!(in heap; "{title}, {size} bytes\n")?;
    add_book(&mut text, book)?;
    Ok(text)
}

fn both_texts(heap: Global, office: &[u8], tablet: &[u8]) -> Result<String, AllocError>
    ensures { IfOk result (λ s. Listing office.now tablet.now (string_bytes s)) }
{
    let mut text = book_text(heap, "office", office)?;
    let tablet_text = book_text(heap, "tablet", tablet)?;
    text.push_str(tablet_text.as_str())?;
    Ok(text)
}

// The listing of both books. Any two books have one listing, and a walk through each that loses no byte.
pub fn listing(heap: Global, office: &[u8], tablet: &[u8]) -> Result<String, AllocError>
    ensures listed { IfOk result (λ s. Listing office.now tablet.now (string_bytes s)) }
    ensures only { OneListing office.now tablet.now }
    ensures walks { (Walkable office.now) × (Walkable tablet.now) }
{
    both_texts(heap, office, tablet)
}
