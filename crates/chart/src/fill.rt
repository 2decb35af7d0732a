// Filling a working chart from a source.
ghost use Rattle.std.specs.Prelude.{◌≡◌, ℕ, ◌+◌, ◌<◌, ◌≤◌, length, Some};
ghost use Rattle.sheet.specs.declared.forms.Link.{Link};
ghost use Rattle.walks.specs.Codes.{link_of};
ghost use Rattle.chart.specs.Cells.{RaisedAt};
ghost use Rattle.chart.specs.Positions.{IsPlaces, position};
ghost use Rattle.chart.specs.Runs.{Edge, StartedTo, FilledTo};

use super::cells::{get, put, raise};
use super::entry::Entry;
use super::places::Places;
use links::{CODES, link_with_code};
use sheet::{Link, Source};

// What the link with a code counts for.
fn entry_with_code<S: Source, E: Entry>(source: &S, code: u16) -> E
    ensures { let sheet = (S.Source.sheet source.now).told in
        (l : Link) → link_of sheet code ≡ Some l → result ≡ E.value sheet.period l }
{
    match link_with_code(source, code) {
        Some(link) => E::of_link(&link, source.period()),
        None => E::zero(),
    }
}

// Raises the entry between a link's ends.
fn raise_between<E: Entry>(places: &Places, cells: &mut [E], link: &Link, by: E)
    requires room { 1024 ≤ length cells.old }
    requires from { link.now.from < 32 }
    requires to { link.now.to < 32 }
    requires row { position places.now link.now.from < 32 }
    requires column { position places.now link.now.to < 32 }
    ensures { let row = position places.now link.now.from in
        let column = position places.now link.now.to in
        RaisedAt E.neutral E.under row column by cells.old cells.new }
{
    let from = places.positions[link.from as usize] as usize;
    let to = places.positions[link.to as usize] as usize;
    raise(cells, from, to, by);
}

// What a chart is filled from: a source, and the present places of its sheet.
#[derive(Drop)]
pub(crate) struct Filler<'a, S: Source> {
    pub source: &'a S,
    pub places: &'a Places,
    ghost known: { IsPlaces (S.Source.sheet source.now).told places.now },
}

impl<'a, S: Source> Filler<'a, S> {
    // The first entry from position `a` to position `b`: by a floor from place 0, by a ceiling to it, and by both between
    // other places, for which the entries from and to place 0 are read.
    fn first_entry<E: Entry>(&self, cells: &[E], a: usize, b: usize) -> E
        requires room { 1024 ≤ length cells.now }
        requires from { a < self.now.places.now.count }
        requires to { b < self.now.places.now.count }
        requires started { let sheet = (S.Source.sheet self.now.source.now).told in
            let places = self.now.places.now in
            StartedTo E.neutral E.sum E.value E.under E.within sheet places a b cells.now }
        ensures { let sheet = (S.Source.sheet self.now.source.now).told in
            let places = self.now.places.now in
            Edge E.neutral E.sum E.value E.under E.within sheet places a b result }
    {
        if a == b {
            E::zero()
        } else if a == 0 {
            entry_with_code(self.source, 200 + self.places.list[b] as u16)
        } else if b == 0 {
            entry_with_code(self.source, 300 + self.places.list[a] as u16)
        } else {
            let to = get(cells, a, 0);
            let on = get(cells, 0, b);
            to.plus(on)
        }
    }

    fn first_row<E: Entry>(&self, cells: &mut [E], row: usize)
        requires room { 1024 ≤ length cells.old }
        requires row { row < self.now.places.now.count }
        requires started { let sheet = (S.Source.sheet self.now.source.now).told in
            let places = self.now.places.now in
            StartedTo E.neutral E.sum E.value E.under E.within sheet places row 0 cells.old }
        ensures { let sheet = (S.Source.sheet self.now.source.now).told in
            let places = self.now.places.now in
            StartedTo E.neutral E.sum E.value E.under E.within sheet places (row + 1) 0 cells.new }
    {
        for b in 0..self.places.count {
            let entry = self.first_entry(cells, row, b);
            put(cells, row, b, entry);
        }
    }

    // Writes an entry for every pair of positions.
    fn start<E: Entry>(&self, cells: &mut [E])
        requires room { 1024 ≤ length cells.old }
        ensures { let sheet = (S.Source.sheet self.now.source.now).told in
            let places = self.now.places.now in
            FilledTo E.neutral E.sum E.value E.under E.within sheet places 0 cells.new }
    {
        for row in 0..self.places.count {
            self.first_row(cells, row);
        }
    }

    // Raises the entry of the link with a code, if there is one.
    fn raise_link<E: Entry>(&self, cells: &mut [E], code: u16)
        requires room { 1024 ≤ length cells.old }
        requires filled { let sheet = (S.Source.sheet self.now.source.now).told in
            let places = self.now.places.now in
            FilledTo E.neutral E.sum E.value E.under E.within sheet places code cells.old }
        ensures { let sheet = (S.Source.sheet self.now.source.now).told in
            let places = self.now.places.now in
            FilledTo E.neutral E.sum E.value E.under E.within sheet places (code + 1) cells.new }
    {
        if let Some(link) = link_with_code(self.source, code) {
            let by = E::of_link(&link, self.source.period());
            raise_between(self.places, cells, &link, by);
        }
    }

    // Fills the chart: every pair of positions has an entry, and every link is under its own.
    pub(crate) fn fill<E: Entry>(&self, cells: &mut [E])
        requires room { 1024 ≤ length cells.old }
        ensures { let sheet = (S.Source.sheet self.now.source.now).told in
            let places = self.now.places.now in
            FilledTo E.neutral E.sum E.value E.under E.within sheet places 432 cells.new }
    {
        self.start(cells);
        for code in 0..CODES {
            self.raise_link(cells, code);
        }
    }
}
