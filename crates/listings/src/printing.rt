// What is printed of a text.
ghost use Rattle.std.specs.Prelude.{◌≡◌, ℕ, List, Some, IfOk, string_bytes};
ghost use Rattle.bounds.specs.Bounds.{asked_of};
ghost use Rattle.faults.specs.Faults.{number_of};
ghost use Rattle.listings.specs.Answers.{lower_line_text, refused_line_text, refusal_text, printed, fault_of, NoFewerBars};
ghost use Rattle.listings.specs.Texts.{list_of};
ghost use Rattle.listings.specs.Written.{ReadAsWritten};

use crate::listing::Listing;
use crate::reading::Stop;
use crate::rows::Rows;
use faults::Fault;
use std::alloc::{AllocError, Global};
use std::fmt;

// Rows that bound the number of bars from below.
pub trait Bounding: Rows {
    // the figure of a capacity, cuts and rows
    ghost figure: { ℕ → List ℕ → List Self.Row → ℕ };

    // The lower figure of cuts. A list of more than 64 cuts is refused with 6, then the first cut above the bar's capacity
    // with 4.
    fn lower_figure(&self, cuts: &[u64]) -> Result<u64, Fault>
        ensures { result ≡ asked_of (Self.Rows.seen self.now).0 (λ list. figure (Self.Rows.seen self.now).0 list (Self.Rows.seen self.now).1) cuts.now };

    ghost sound: { (text : List ℕ) → NoFewerBars figure (list_of Self.RowWords.words Self.Rows.laying text) };
}

// The text to print, and the fault where the input was refused.
#[derive(Drop)]
pub struct Printed {
    pub text: String,
    pub refused: Option<Fault>,
}

impl fmt::Display for Stop {
    ghost output = { λ stop. Some (refusal_text (number_of stop.fault.refusal) stop.line) };

    fn fmt<W: fmt::Write>(&self, f: &mut fmt::Formatter<W>) -> fmt::Result {
        let number = u64::from(self.fault.refusal);
        let line = self.line;
        write!(f, "refused {number} line {line}")
    }
}

// The line `lower N`.
fn lower_line(heap: Global, lower: u64) -> Result<String, AllocError>
    ensures { IfOk result (λ s. string_bytes s ≡ lower_line_text lower) }
{
    format!(in heap; "lower {lower}\n")
}

// The line `refused NUMBER line LINE`.
fn refused_line(heap: Global, stop: Stop) -> Result<String, AllocError>
    ensures { IfOk result (λ s. string_bytes s ≡ refused_line_text (number_of stop.fault.refusal) stop.line) }
{
    format!(in heap; "{stop}\n")
}

// The lower figure of a cutting list, `lower N`, or its first refusal, `refused NUMBER line LINE`. Want of memory is the one
// other answer. No plan of the list has fewer bars than the figure says, and the list is what the lines of the input say.
pub fn answer<R: Bounding>(heap: Global, input: &[u8]) -> Result<Printed, AllocError>
    ensures text { IfOk result (λ p. string_bytes p.text ≡ printed R.figure (list_of R.words R.laying input.now)) }
    ensures refused { IfOk result (λ p. p.refused ≡ fault_of (list_of R.words R.laying input.now)) }
    ensures least { NoFewerBars R.figure (list_of R.words R.laying input.now) }
    ensures lines { ReadAsWritten R.words R.laying input.now }
{
    let mut listing = Listing::<R>::new(heap)?;
    match listing.read_text(input) {
        Ok(rows) => {
            let lower = rows.lower_figure(listing.cuts.as_slice()).unwrap();
            Ok(Printed {
                text: lower_line(heap, lower)?,
                refused: None,
            })
        }
        Err(stop) => Ok(Printed {
            text: refused_line(heap, stop)?,
            refused: Some(stop.fault),
        }),
    }
}
