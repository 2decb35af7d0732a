// Books are entered command by command, each into the sheet then standing; every refusal is reported.
ghost use Rattle.std.specs.Prelude.{◌≡◌, ◌+◌, ◌<◌, ◌≤◌, ◌↔◌, length, IsTrue};
ghost use Rattle.book.specs.Reading.{item_of, book_of, place_of};
ghost use Rattle.planner.specs.Entering.{sheet_of};
ghost use Rattle.merge.specs.Books.{offset_in};
ghost use Rattle.merge.specs.Reports.{bytes_of};
ghost use Rattle.merge.specs.Merging.{half, Readable, Room, Done, Merged};
ghost use Rattle.merge.specs.Turns.{ItemEntered, ItemTaken, ItemsTaken, BookTaken};

use super::refusals::MergeRefusal;
use super::reports::{Book, Refused, Report};
use book::{BOOK_LIMIT, Entry, Fault, Reader};
use kinds::Hours;
use planner::{Planner, Refusal};

fn offset_of(item: &Result<Entry<'_>, Fault>) -> usize
    ensures { result ≡ offset_in (item_of item.now) }
{
    match item {
        Ok(entry) => entry.offset,
        Err(fault) => fault.offset,
    }
}

// Enters the command that a reader told, or says why nothing was entered.
fn enter_item(
    planner: &mut Planner,
    item: Result<Entry<'_>, Fault>,
    hours: &mut [Hours],
) -> Result<(), Refusal>
    requires { 1024 ≤ length hours.old }
    ensures { ItemEntered (sheet_of planner.old) (item_of item.entry) hours.old hours.new
        (sheet_of planner.new) result }
{
    let entry = item?;
    planner.admit(&entry.command, hours)
}

// Enters what a reader told, and reports a refusal at place `count`; tells how many reports there are then.
fn take_item(
    planner: &mut Planner,
    book: Book,
    item: Result<Entry<'_>, Fault>,
    hours: &mut [Hours],
    reports: &mut [Report],
    count: usize,
) -> usize
    requires room { 1024 ≤ length hours.old }
    requires place { count < length reports.old }
    ensures { ItemTaken book (sheet_of planner.old) (item_of item.entry) hours.old hours.new
        reports.old reports.new count (sheet_of planner.new) result }
{
    let offset = offset_of(&item);
    match enter_item(planner, item, hours) {
        Ok(()) => count,
        Err(refusal) => {
            reports[count] = Report::from(Refused {
                book,
                offset,
                refusal,
            });
            count + 1
        }
    }
}

// Enters all that a reader tells, and tells how many reports were written.
fn take_items(
    planner: &mut Planner,
    book: Book,
    reader: &mut Reader,
    hours: &mut [Hours],
    reports: &mut [Report],
) -> usize
    requires room { 1024 ≤ length hours.old }
    requires front { place_of reader.old ≡ 0 }
    requires reports { half (length (book_of reader.old)) ≤ length reports.old }
    ensures few { result ≤ half (length (book_of reader.old)) }
    ensures taken { ItemsTaken book (book_of reader.old) (place_of reader.old)
        (sheet_of planner.old) hours.old hours.new reports.old reports.new (sheet_of planner.new)
        result }
{
    let mut count = 0;
    while let Some(item) = reader.read_next() {
        count = take_item(planner, book, item, hours, reports, count);
    }
    count
}

// Enters a whole book.
fn take_book(
    planner: &mut Planner,
    book: Book,
    bytes: &[u8],
    hours: &mut [Hours],
    reports: &mut [Report],
) -> usize
    requires short { length bytes.now ≤ 4096 }
    requires room { 1024 ≤ length hours.old }
    requires reports { half (length bytes.now) ≤ length reports.old }
    ensures few { result ≤ half (length bytes.now) }
    ensures taken { BookTaken book bytes.now (sheet_of planner.old) hours.old hours.new
        reports.old reports.new (sheet_of planner.new) result }
{
    match Reader::new(bytes) {
        Ok(mut reader) => take_items(planner, book, &mut reader, hours, reports),
        Err(_) => unreachable!(),
    }
}

// Enters that one of the two books.
fn take_either(
    planner: &mut Planner,
    book: Book,
    office: &[u8],
    tablet: &[u8],
    hours: &mut [Hours],
    reports: &mut [Report],
) -> usize
    requires readable { Readable office.now tablet.now }
    requires room { 1024 ≤ length hours.old }
    requires reports { half (length (bytes_of book office.now tablet.now)) ≤ length reports.old }
    ensures few { result ≤ half (length (bytes_of book office.now tablet.now)) }
    ensures taken { BookTaken book (bytes_of book office.now tablet.now)
        (sheet_of planner.old) hours.old hours.new reports.old reports.new (sheet_of planner.new)
        result }
{
    match book {
        Book::Office => take_book(planner, book, office, hours, reports),
        Book::Tablet => take_book(planner, book, tablet, hours, reports),
    }
}

// Enters the office's book, then the tablet's into the sheet then standing.
fn take_both(
    planner: &mut Planner,
    office: &[u8],
    tablet: &[u8],
    hours: &mut [Hours],
    reports: &mut [Report],
) -> usize
    requires readable { Readable office.now tablet.now }
    requires room { Room office.now tablet.now
        (record { hours = hours.old; reports = reports.old }) }
    ensures { Done (sheet_of planner.old) office.now tablet.now
        (record { hours = hours.old; reports = reports.old }) result (sheet_of planner.new)
        (record { hours = hours.new; reports = reports.new }) }
{
    let first = take_either(planner, Book::Office, office, tablet, hours, reports);
    let second = take_either(
        planner,
        Book::Tablet,
        office,
        tablet,
        hours,
        &mut reports[first..],
    );
    first + second
}

fn is_readable(office: &[u8], tablet: &[u8]) -> bool
    ensures { IsTrue result ↔ Readable office.now tablet.now }
{
    office.len() <= BOOK_LIMIT && tablet.len() <= BOOK_LIMIT
}

// Half of a book's bytes, rounded up.
fn half_of(book: &[u8]) -> usize
    ensures { result ≡ half (length book.now) }
{
    book.len().div_ceil(2)
}

fn has_room(office: &[u8], tablet: &[u8], hours: &[Hours], reports: &[Report]) -> bool
    ensures { IsTrue result
        ↔ Room office.now tablet.now (record { hours = hours.now; reports = reports.now }) }
{
    hours.len() >= 1024 && reports.len() >= half_of(office) + half_of(tablet)
}

// Merges the office's book and then the tablet's into the planner. Each refusal gives one report, at the front of
// `reports`, and their number is returned. `hours` is a working chart, whose contents are then free.
pub fn merge(
    planner: &mut Planner,
    office: &[u8],
    tablet: &[u8],
    hours: &mut [Hours],
    reports: &mut [Report],
) -> Result<usize, MergeRefusal>
    ensures { Merged (sheet_of planner.old) office.now tablet.now
        (record { hours = hours.old; reports = reports.old }) (sheet_of planner.new)
        (record { hours = hours.new; reports = reports.new }) result }
{
    if !is_readable(office, tablet) {
        return Err(MergeRefusal::TooLong);
    }
    if !has_room(office, tablet, hours, reports) {
        return Err(MergeRefusal::TooShort);
    }
    Ok(take_both(planner, office, tablet, hours, reports))
}
