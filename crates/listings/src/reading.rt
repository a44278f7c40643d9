// A whole text, line by line.
ghost use Rattle.std.specs.Prelude.{◌≡◌, []};
ghost use Rattle.std.specs.List.{position};
ghost use Rattle.listings.specs.Listings.{content, left};
ghost use Rattle.listings.specs.Texts.{malformed_at_line, stopped, ends_line, scanned, listed, list_from};

use crate::listing::Listing;
use crate::parsing::malformed;
use crate::rows::Rows;
use faults::Fault;

// Why a text is refused, and at which line, counted from 1.
#[derive(Clone, Copy, PartialEq, Eq, Debug)]
pub struct Stop {
    pub fault: Fault,
    pub line: u64,
}

// A text has at most this many bytes.
const MOST_BYTES: usize = 65_536;

// A line out of form.
fn malformed_at(line: u64) -> Stop
    ensures { result ≡ malformed_at_line line }
{
    Stop {
        fault: malformed(line),
        line,
    }
}

// What a line answers, with its number where it is refused.
fn stopped_at(line: u64, answer: Result<(), Fault>) -> Result<(), Stop>
    ensures { result ≡ stopped line answer }
{
    answer.map_err(|fault| Stop { fault, line })
}

// The place of the first byte that ends a line.
fn line_end(text: &[u8]) -> Option<usize>
    ensures { result ≡ position ends_line text.now }
{
    text.iter().position(|b| *b == b'\n')
}

impl<R: Rows> Listing<R> {
    // Every line of the text, up to the first that is refused.
    fn scan(&mut self, text: &[u8]) -> Result<(), Stop>
        ensures { left result (content R.seen self.new) ≡ scanned R.words R.laying 1 (content R.seen self.old) [] text.now }
    {
        // A `for` over `split_inclusive` was tried, and its invariant did not close: nothing names what its closure computes.
        let mut rest = text;
        let mut line = 1;
        while let Some(end) = line_end(rest) {
            stopped_at(line, self.read_line(line, &rest[..end]))?;
            rest = &rest[end + 1..];
            line += 1;
        }
        if !rest.is_empty() {
            return Err(malformed_at(line));
        }
        Ok(())
    }

    // The whole text: the rows, with the cuts left in the listing, or the first refusal.
    pub fn read_text(&mut self, text: &[u8]) -> Result<R, Stop>
        ensures { listed R.seen result self.new.cuts.items ≡ list_from R.words R.laying (content R.seen self.old) text.now }
    {
        if text.len() > MOST_BYTES {
            return Err(malformed_at(0));
        }
        self.scan(text)?;
        self.rows.take().ok_or(malformed_at(1))
    }
}
