// Lower bounds on the number of bars that a list of sizes needs.
#![tactic(auto)]

ghost use Rattle.std.specs.Prelude.{◌≡◌, ℕ, ◌+◌, ◌-◌, ◌/◌, ◌≤◌, List};
ghost use Rattle.dual_feasible.specs.Laws.{InRange};
ghost use Rattle.plans.specs.Plans.{AtLeast};
ghost use Rattle.bounds.specs.Bounds.{asked, bound, Sound};

use dual_feasible::DualFeasible;
use faults::{Fault, Layer, Refusal};

pub mod checks;
pub mod function_bound;
pub mod greater;

// A list has at most this many entries.
pub const MOST: usize = 64;

// A quotient, rounded up.
#[tactic(auto, using(crate::proofs::RoundedUp::rounded_up_is))]
fn rounded_up(total: u64, image: u64) -> u64
    requires { 1 ≤ image }
    ensures { result ≡ (total + (image - 1)) / image }
{
    total.div_ceil(image)
}

// The bound of a dual feasible function: the values of the list added up, divided by the image capacity and rounded up.
// A list of more than 64 entries is refused with 6, then the first entry above the capacity with 4 and its position.
// No plan of the list has fewer bars.
pub fn lower_bound<F: DualFeasible>(f: &F, list: &[u64]) -> Result<u64, Fault>
    ensures answer { result ≡ asked (F.capacity f.now) (bound (F.image f.now) (F.map f.now)) list.now }
    ensures least { AtLeast (F.capacity f.now) list.now (bound (F.image f.now) (F.map f.now) list.now) }
{
    if list.len() > MOST {
        return Err(Fault::new(Refusal::TooMany, Layer::Bound, MOST as u64));
    }
    let (_, image) = f.capacities();
    let mut total = 0;
    for (i, size) in list.iter().enumerate() {
        // The function's own fault names the size; a bounder's names its position, and `map_err` would say these words in a
        // closure. `check_list` first would be a second walk over the list, at each bound that is asked.
        let Ok(value) = f.value(*size) else {
            return Err(Fault::new(Refusal::Size, Layer::Bound, i as u64));
        };
        total += value;
    }
    Ok(rounded_up(total, image))
}

// A bounder: it tells a number for each list, and no plan of the list has fewer bars.
pub trait Bounder {
    ghost capacity: { Self → ℕ };

    ghost number: { Self → List ℕ → ℕ };

    // The capacity.
    fn capacity(&self) -> u64
        ensures { result ≡ capacity self.now };

    // The number of a list: refusal 6 with 64 for more than 64 entries, then 4 with the position of the first entry
    // above the capacity.
    fn number(&self, list: &[u64]) -> Result<u64, Fault>
        ensures { result ≡ asked (capacity self.now) (number self.now) list.now };

    ghost limits: { (b : Self) → InRange (capacity b) };

    ghost sound: { (b : Self) → Sound (capacity b) (number b) };
}
