// The checks that every bounder begins with, for whoever implements the interface.
ghost use Rattle.std.specs.Prelude.{◌≡◌, nat_lt, position};
ghost use Rattle.bounds.specs.Bounds.{asked_of};

use crate::MOST;
use faults::{Fault, Layer, Refusal};

// The position of the first entry above the capacity, if there is one.
fn first_above(capacity: u64, list: &[u64]) -> Option<usize>
    ensures { result ≡ position (λ s. nat_lt capacity s) list.now }
{
    list.iter().position(|size| *size > capacity)
}

// A list of more than 64 entries is refused with 6, then the first entry above the capacity with 4 and its position.
pub fn check_list(capacity: u64, list: &[u64]) -> Result<(), Fault>
    ensures { result ≡ asked_of capacity (λ _. tt) list.now }
{
    if list.len() > MOST {
        return Err(Fault::new(Refusal::TooMany, Layer::Bound, MOST as u64));
    }
    match first_above(capacity, list) {
        Some(i) => Err(Fault::new(Refusal::Size, Layer::Bound, i as u64)),
        None => Ok(()),
    }
}
