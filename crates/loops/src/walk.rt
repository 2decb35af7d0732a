// The walk along a loop.
ghost use Rattle.std.specs.Prelude.{◌≡◌, ◌<◌, ◌≤◌, ◌^◌, ◌↔◌, length, slice_set, IsTrue};
ghost use Rattle.chart.specs.Cells.{at as entry_at, Short};
ghost use Rattle.chart.specs.Positions.{IsPlaces};
ghost use Rattle.kinds.specs.Together.{no_link, CountedWithin};
ghost use Rattle.sheet.specs.Links.{IsLink};
ghost use Rattle.loops.specs.Loops.{LoopWritten};
ghost use Rattle.loops.specs.Steps.{Stopped, WholeWay, PartWay, Accounts, FoundAt, FoundBelow};

use chart::{Entry, Places};
use kinds::Counted;
use links::{CODES, link_with_code};
use sheet::{Link, Source};

// What a walk along a loop reads: a sheet, and its working chart that stopped at a position.
#[derive(Drop)]
pub(crate) struct Walk<'a, S: Source> {
    pub source: &'a S,
    pub places: &'a Places,
    pub cells: &'a [Counted; 1024],
    pub stop: usize,
    ghost known: { IsPlaces (S.Source.sheet source.now).told places.now },
    ghost inside: { stop < places.now.count },
    ghost short: { Short no_link CountedWithin places.now.count (2 ^ 33) cells.now },
}

fn put_code(codes: &mut [u16], count: usize, code: u16)
    requires { count < length codes.old }
    ensures { codes.new ≡ slice_set codes.old count code }
{
    codes[count] = code;
}

impl<'a, S: Source> Walk<'a, S> {
    // The entry from a position to the one at which the chart stopped.
    fn entry(&self, here: usize) -> Counted
        requires { here < self.now.places.now.count }
        ensures { result ≡ entry_at no_link self.now.cells.now here self.now.stop }
    {
        self.cells[32 * here + self.stop]
    }

    fn is_whole_way(&self, here: usize, link: &Link) -> bool
        requires { here < self.now.places.now.count }
        ensures { let sheet = (S.Source.sheet self.now.source.now).told in
            let places = self.now.places.now in
            IsTrue result
            ↔ WholeWay sheet.period places self.now.stop here self.now.cells.now link.now }
    {
        link.to == self.places.list[self.stop]
            && Counted::of_link(link, self.source.period()) == self.entry(here)
    }

    fn is_part_way(&self, here: usize, link: &Link) -> bool
        requires here { here < self.now.places.now.count }
        requires link { IsLink (S.Source.sheet self.now.source.now).told link.now }
        ensures { let sheet = (S.Source.sheet self.now.source.now).told in
            let places = self.now.places.now in
            IsTrue result
            ↔ PartWay sheet.period places self.now.stop here self.now.cells.now link.now }
    {
        let next = self.places.positions[link.to as usize] as usize;
        if next >= self.stop {
            return false;
        }
        let value = Counted::of_link(link, self.source.period());
        let way = value.plus(self.entry(next));
        way == self.entry(here)
    }

    fn accounts(&self, here: usize, link: &Link) -> bool
        requires here { here < self.now.places.now.count }
        requires link { IsLink (S.Source.sheet self.now.source.now).told link.now }
        ensures { let sheet = (S.Source.sheet self.now.source.now).told in
            let places = self.now.places.now in
            IsTrue result
            ↔ Accounts sheet.period places self.now.stop here self.now.cells.now link.now }
    {
        link.from == self.places.list[here]
            && (self.is_whole_way(here, link) || self.is_part_way(here, link))
    }

    // The link with a code, if it accounts for the entry.
    fn try_code(&self, here: usize, code: u16) -> Option<Link>
        requires { here < self.now.places.now.count }
        ensures { let sheet = (S.Source.sheet self.now.source.now).told in
            FoundAt sheet self.now.places.now self.now.stop here self.now.cells.now code result }
    {
        let link = link_with_code(self.source, code)?;
        self.accounts(here, &link).then_some(link)
    }

    fn find_link(&self, here: usize) -> Option<Link>
        requires { here < self.now.places.now.count }
        ensures { let sheet = (S.Source.sheet self.now.source.now).told in
            FoundBelow sheet self.now.places.now self.now.stop here self.now.cells.now 432 result }
    {
        (0..CODES).find_map(|code| self.try_code(here, code))
    }

    // A link that accounts for the entry from position `here` to the position at which the chart stopped.
    fn next_link(&self, here: usize) -> Link
        requires stopped { let sheet = (S.Source.sheet self.now.source.now).told in
            Stopped sheet self.now.places.now self.now.stop self.now.cells.now }
        requires here { here < self.now.places.now.count }
        requires links { 0 < (entry_at no_link self.now.cells.now here self.now.stop).links }
        ensures link { IsLink (S.Source.sheet self.now.source.now).told result }
        ensures accounts { let sheet = (S.Source.sheet self.now.source.now).told in
            Accounts sheet.period self.now.places.now self.now.stop here self.now.cells.now result }
    {
        let Some(link) = self.find_link(here) else {
            unreachable!()
        };
        link
    }

    // Writes the codes of a loop through the place at which the chart stopped, and tells their number.
    pub(crate) fn write_loop(&self, codes: &mut [u16]) -> usize
        requires stopped { let sheet = (S.Source.sheet self.now.source.now).told in
            Stopped sheet self.now.places.now self.now.stop self.now.cells.now }
        requires codes { 32 ≤ length codes.old }
        ensures { LoopWritten (S.Source.sheet self.now.source.now).told codes.old codes.new result }
    {
        let mut here = self.stop;
        let mut count = 0;
        loop {
            let link = self.next_link(here);
            put_code(codes, count, link.code);
            count += 1;
            here = self.places.positions[link.to as usize] as usize;
            if here == self.stop {
                return count;
            }
        }
    }
}
