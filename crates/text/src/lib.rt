// A cutting list as text, whose rows each name a function of its own.
#![tactic(auto)]

ghost use Rattle.std.specs.Prelude.{◌≡◌, IfOk, string_bytes};
ghost use Rattle.listings.specs.Answers.{printed, fault_of, NoFewerBars};
ghost use Rattle.listings.specs.Written.{ReadAsWritten};
ghost use Rattle.text.specs.Kinds.{kind_words};
ghost use Rattle.text.specs.Lower.{lower_of};
ghost use Rattle.text.specs.Texts.{function_laying, list_of};

use listings::printing;
pub use listings::printing::Printed;
use rows::FunctionRows;
use std::alloc::{AllocError, Global};

mod function;
pub mod kinds;
mod lower;
pub mod rows;

// The lower figure of a cutting list, `lower N`, or its first refusal, `refused NUMBER line LINE`. Want of memory is the one
// other answer. No plan of the list has fewer bars than the figure says, and the list is what the lines of the input say.
pub fn answer(heap: Global, input: &[u8]) -> Result<Printed, AllocError>
    ensures text { IfOk result (λ p. string_bytes p.text ≡ printed lower_of (list_of input.now)) }
    ensures refused { IfOk result (λ p. p.refused ≡ fault_of (list_of input.now)) }
    ensures least { NoFewerBars lower_of (list_of input.now) }
    ensures lines { ReadAsWritten kind_words function_laying input.now }
{
    printing::answer::<FunctionRows>(heap, input)
}
