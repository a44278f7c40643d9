// The lines of a text, one after the other.
ghost use Rattle.std.specs.Prelude.{◌≡◌, IfOk};
ghost use Rattle.listings.specs.Listings.{content, bar_of, empty, left, malformed, cut_read, word_read, line_read};

use crate::listing::Listing;
use crate::rows::Rows;
use faults::{Fault, Layer, Refusal};
use lines::{Word, entry};
use std::alloc::{AllocError, Global};

const MOST_CUTS: usize = 64;

// The fault of a line that is out of form or out of its place.
pub fn malformed(line: u64) -> Fault
    ensures { result ≡ malformed line }
{
    Fault::new(Refusal::Malformed, Layer::Text, line)
}

impl<R: Rows> Listing<R> {
    // Nothing is read yet. All the room that a text can need is reserved here.
    pub fn new(heap: Global) -> Result<Listing<R>, AllocError>
        ensures { IfOk result (λ l. content R.seen l ≡ empty) }
    {
        let cuts = Vec::with_capacity(heap, MOST_CUTS)?;
        Ok(Listing { rows: None, cuts })
    }

    // The line `bar N`, on line `at`: it comes once only.
    fn read_bar(&mut self, at: u64, number: u64) -> Result<(), Fault>
        ensures { left result (content R.seen self.new) ≡ word_read R.laying at (bar_of R.seen self.old.rows) Word.Bar number (content R.seen self.old) }
    {
        if self.rows.is_some() {
            return Err(malformed(at));
        }
        self.rows = Some(R::begin(number)?);
        Ok(())
    }

    // One more cut, with the bar's capacity.
    fn add_cut(&mut self, capacity: u64, size: u64) -> Result<(), Fault>
        ensures { left result (content R.seen self.new) ≡ cut_read capacity size (content R.seen self.old) }
    {
        if !(1..=capacity).contains(&size) {
            return Err(Fault::new(Refusal::Size, Layer::Text, size));
        }
        if self.cuts.len() >= MOST_CUTS {
            return Err(Fault::new(Refusal::TooMany, Layer::Text, MOST_CUTS as u64));
        }
        self.cuts.push_reserved(size);
        Ok(())
    }

    // The line `cut N`, on line `at`.
    fn read_cut(&mut self, at: u64, size: u64) -> Result<(), Fault>
        ensures { left result (content R.seen self.new) ≡ word_read R.laying at (bar_of R.seen self.old.rows) Word.Cut size (content R.seen self.old) }
    {
        let rows = self.rows.as_ref().ok_or(malformed(at))?;
        let capacity = rows.bar();
        self.add_cut(capacity, size)
    }

    // The line of a row, on line `at`.
    fn read_row(&mut self, at: u64, kind: R::Kind, parameter: u64) -> Result<(), Fault>
        ensures { left result (content R.seen self.new) ≡ word_read R.laying at (bar_of R.seen self.old.rows) (Word.Row kind) parameter (content R.seen self.old) }
    {
        let rows = self.rows.as_mut().ok_or(malformed(at))?;
        rows.add(kind, parameter)
    }

    // A word and its number on line `at`.
    fn read_entry(&mut self, at: u64, word: Word<R::Kind>, number: u64) -> Result<(), Fault>
        ensures { left result (content R.seen self.new) ≡ word_read R.laying at (bar_of R.seen self.old.rows) word number (content R.seen self.old) }
    {
        match word {
            Word::Bar => self.read_bar(at, number),
            Word::Cut => self.read_cut(at, number),
            Word::Row(kind) => self.read_row(at, kind, number),
        }
    }

    // Line `at`, without the byte 10 that ends it.
    pub fn read_line(&mut self, at: u64, line: &[u8]) -> Result<(), Fault>
        ensures { left result (content R.seen self.new) ≡ line_read R.words R.laying at line.now (content R.seen self.old) }
    {
        let (word, number) = entry::<R>(line).ok_or(malformed(at))?;
        self.read_entry(at, word, number)
    }
}
