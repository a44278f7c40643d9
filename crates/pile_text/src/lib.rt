// A cutting list as text, whose rows are laid on a pile.
#![tactic(auto)]

ghost use Rattle.std.specs.Prelude.{◌≡◌, IfOk, string_bytes};
ghost use Rattle.listings.specs.Answers.{printed, fault_of, NoFewerBars};
ghost use Rattle.listings.specs.Written.{ReadAsWritten};
ghost use Rattle.pile_text.specs.Kinds.{kind_words};
ghost use Rattle.pile_text.specs.Laid.{pile_laying, list_of};
ghost use Rattle.pile_text.specs.Lower.{lower_of};

use laid::LaidRows;
use listings::printing;
pub use listings::printing::Printed;
use std::alloc::{AllocError, Global};

pub mod laid;
mod lower;

// The lower figure of a cutting list, `lower N`, or its first refusal, `refused NUMBER line LINE`. Want of memory is the one
// other answer. No plan of the list has fewer bars than the figure says, and the list is what the lines of the input say.
pub fn answer(heap: Global, input: &[u8]) -> Result<Printed, AllocError>
    ensures text { IfOk result (λ p. string_bytes p.text ≡ printed lower_of (list_of input.now)) }
    ensures refused { IfOk result (λ p. p.refused ≡ fault_of (list_of input.now)) }
    ensures least { NoFewerBars lower_of (list_of input.now) }
    ensures lines { ReadAsWritten kind_words pile_laying input.now }
{
    printing::answer::<LaidRows>(heap, input)
}
