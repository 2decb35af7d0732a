// Fields written one behind another. Each function tells the place behind what it wrote.
ghost use Rattle.std.specs.Prelude.{◌≡◌, ◌+◌, ◌≤◌, length};
ghost use Rattle.card_writing.specs.Outcomes.{Put};
ghost use Rattle.lines.specs.Texts.{book_name, refused_text, report_text, period_text, step_text};

use itoa::{Buffer, Integer};
use merge::{Book, Report};

fn put_bytes(buffer: &mut [u8], at: usize, bytes: &[u8]) -> usize
    requires { at + length bytes.now ≤ length buffer.old }
    ensures put { Put buffer.old at bytes.now result buffer.new }
    ensures len { length buffer.new ≡ length buffer.old }
    ensures end { result ≡ at + length bytes.now }
{
    let end = at + bytes.len();
    buffer[at..end].copy_from_slice(bytes);
    end
}

// A number in decimal digits, without leading zeros.
fn put_number<I: Integer>(buffer: &mut [u8], at: usize, n: I) -> usize
    requires { at + I.MAX_STR_LEN ≤ length buffer.old }
    ensures put { Put buffer.old at (I.text n) result buffer.new }
    ensures len { length buffer.new ≡ length buffer.old }
    ensures end { result ≤ at + I.MAX_STR_LEN }
{
    put_bytes(buffer, at, Buffer::new().format(n).as_bytes())
}

fn put_book(buffer: &mut [u8], at: usize, book: Book) -> usize
    requires { at + 6 ≤ length buffer.old }
    ensures put { Put buffer.old at (book_name book) result buffer.new }
    ensures len { length buffer.new ≡ length buffer.old }
    ensures end { result ≡ at + 6 }
{
    match book {
        Book::Office => put_bytes(buffer, at, b"office"),
        Book::Tablet => put_bytes(buffer, at, b"tablet"),
    }
}

pub(crate) fn put_refused(buffer: &mut [u8], number: u8) -> usize
    requires { 32 ≤ length buffer.old }
    ensures { Put buffer.old 0 (refused_text number) result buffer.new }
{
    let at = put_bytes(buffer, 0, b"refused ");
    let at = put_number(buffer, at, number);
    put_bytes(buffer, at, b"\n")
}

pub(crate) fn put_report(buffer: &mut [u8], report: Report) -> usize
    requires { 32 ≤ length buffer.old }
    ensures { Put buffer.old 0 (report_text (book_name report.book) report.offset report.number)
        result buffer.new }
{
    let at = put_book(buffer, 0, report.book);
    let at = put_bytes(buffer, at, b" ");
    let at = put_number(buffer, at, report.offset);
    let at = put_bytes(buffer, at, b" ");
    let at = put_number(buffer, at, report.number);
    put_bytes(buffer, at, b"\n")
}

pub(crate) fn put_period(buffer: &mut [u8], period: u16, bound: u16) -> usize
    requires { 32 ≤ length buffer.old }
    ensures { Put buffer.old 0 (period_text period bound) result buffer.new }
{
    let at = put_bytes(buffer, 0, b"period ");
    let at = put_number(buffer, at, period);
    let at = put_bytes(buffer, at, b" bound ");
    let at = put_number(buffer, at, bound);
    put_bytes(buffer, at, b"\n")
}

pub(crate) fn put_step(
    buffer: &mut [u8],
    number: u8,
    name: &[u8],
    earliest: u16,
    latest: u16,
) -> usize
    requires room { 32 ≤ length buffer.old }
    requires name { length name.now ≤ 8 }
    ensures { Put buffer.old 0 (step_text number name.now earliest latest) result buffer.new }
{
    let at = put_number(buffer, 0, number);
    let at = put_bytes(buffer, at, b" ");
    let at = put_bytes(buffer, at, name);
    let at = put_bytes(buffer, at, b" ");
    let at = put_number(buffer, at, earliest);
    let at = put_bytes(buffer, at, b" ");
    let at = put_number(buffer, at, latest);
    put_bytes(buffer, at, b"\n")
}
