// The cells of a working chart: entry (a, b) of 32 by 32 at 32 * a + b, of which the first `count` rows and columns are
// in use.
ghost use Rattle.std.specs.Prelude.{◌≡◌, ℕ, ◌+◌, ◌*◌, ◌^◌, ◌<◌, ◌≤◌, true, false, List, length, slice_set};
ghost use Rattle.chart.specs.Laws.{limit};
ghost use Rattle.chart.specs.Cells.{at, Short, RaisedAt, RowTo, StageTo, ClosedTo, Closing};

use super::entry::Entry;

pub(crate) fn get<E: Entry>(cells: &[E], row: usize, column: usize) -> E
    requires room { 1024 ≤ length cells.now }
    requires row { row < 32 }
    requires column { column < 32 }
    ensures { result ≡ at E.neutral cells.now row column }
{
    cells[32 * row + column]
}

pub(crate) fn put<E: Entry>(cells: &mut [E], row: usize, column: usize, entry: E)
    requires room { 1024 ≤ length cells.old }
    requires row { row < 32 }
    requires column { column < 32 }
    ensures { cells.new ≡ slice_set cells.old (32 * row + column) entry }
{
    cells[32 * row + column] = entry;
}

pub(crate) fn raise<E: Entry>(cells: &mut [E], row: usize, column: usize, by: E)
    requires room { 1024 ≤ length cells.old }
    requires row { row < 32 }
    requires column { column < 32 }
    ensures { RaisedAt E.neutral E.under row column by cells.old cells.new }
{
    if by.beats(cells[32 * row + column]) {
        cells[32 * row + column] = by;
    }
}

// Raises a cell by the way over position `by`, of which `to` is the first part.
pub(crate) fn relax<E: Entry>(cells: &mut [E], row: usize, by: usize, column: usize, to: E)
    requires room { 1024 ≤ length cells.old }
    requires row { row < 32 }
    requires by { by < 32 }
    requires column { column < 32 }
    requires to_within { E.within limit to }
    requires on_within { E.within limit (at E.neutral cells.old by column) }
    ensures { let way = E.sum to (at E.neutral cells.old by column) in
        RaisedAt E.neutral E.under row column way cells.old cells.new }
{
    let on = get(cells, by, column);
    raise(cells, row, column, to.plus(on));
}

// Raises the cells of a row by the way over position `by`.
pub(crate) fn raise_row<E: Entry>(cells: &mut [E], row: usize, by: usize, count: usize)
    requires room { 1024 ≤ length cells.old }
    requires row { row < count }
    requires by { by < count }
    requires count { count ≤ 32 }
    requires to_within { E.within limit (at E.neutral cells.old row by) }
    requires on_within { (b : ℕ) → b < count → E.within limit (at E.neutral cells.old by b) }
    ensures { RowTo E.neutral E.sum E.under row by count cells.old cells.new }
{
    let to = get(cells, row, by);
    for b in 0..count {
        relax(cells, row, by, b, to);
    }
}

// Raises every cell by the way over position `by`. Its own entry is neutral, so that its row and its column stay.
pub(crate) fn stage<E: Entry>(cells: &mut [E], by: usize, count: usize)
    requires room { 1024 ≤ length cells.old }
    requires by { by < count }
    requires count { count ≤ 32 }
    requires settled { at E.neutral cells.old by by ≡ E.neutral }
    requires short { Short E.neutral E.within count limit cells.old }
    ensures { StageTo E.neutral E.sum E.under by count count cells.old cells.new }
{
    for a in 0..count {
        raise_row(cells, a, by, count);
    }
}

// Processes position `by`, whose entry to itself does not beat the neutral one.
pub(crate) fn process<E: Entry>(cells: &mut [E], by: usize, count: usize)
    requires room { 1024 ≤ length cells.old }
    requires by { by < count }
    requires count { count ≤ 32 }
    requires turn_low { E.under (at E.neutral cells.old by by) E.neutral }
    requires turn_high { E.under E.neutral (at E.neutral cells.old by by) }
    requires short { Short E.neutral E.within count (2 ^ (by + 1)) cells.old }
    ensures { (xs : List E) → ClosedTo E.neutral E.sum E.under E.within count by xs cells.old
        → ClosedTo E.neutral E.sum E.under E.within count (by + 1) xs cells.new }
{
    stage(cells, by, count);
}

// Whether the entry of a position to itself beats the neutral one.
pub(crate) fn turns_up<E: Entry>(cells: &[E], position: usize) -> bool
    requires room { 1024 ≤ length cells.now }
    requires position { position < 32 }
    ensures low { result ≡ false → E.under (at E.neutral cells.now position position) E.neutral }
    ensures high { result ≡ true
        → E.under (at E.neutral cells.now position position) E.neutral → ⊥ }
{
    get(cells, position, position).beats(E::zero())
}

// Closes the chart position by position. It stops at a position whose entry to itself beats the neutral one, processes
// neither it nor those after it, and answers it.
pub(crate) fn close<E: Entry>(cells: &mut [E], count: usize) -> Option<usize>
    requires room { 1024 ≤ length cells.old }
    requires count { count ≤ 32 }
    requires closed { ClosedTo E.neutral E.sum E.under E.within count 0 cells.old cells.old }
    ensures { Closing E.neutral E.sum E.under E.within count cells.old cells.new result }
{
    for k in 0..count {
        if turns_up(cells, k) {
            return Some(k);
        }
        process(cells, k, count);
    }
    None
}
