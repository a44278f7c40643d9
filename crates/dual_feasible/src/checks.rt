// The checks that every function begins with, for whoever implements the interfaces.
ghost use Rattle.std.specs.Prelude.{◌≡◌, Ok};
ghost use Rattle.dual_feasible.specs.Answers.{capacity_check, size_check};

use faults::{Fault, Layer, Refusal};

// Capacities and image capacities go from 1 up to here.
pub const GREATEST: u64 = 1_000_000_000;

// A capacity outside 1 to 1,000,000,000 is refused with 1, in the layer that was called. Whoever keeps a capacity says that
// it is in range in a ghost field beside it: a type for capacities would put `f.capacity.value` into every clause and law, or,
// with a model, keep from the laws that it is in range.
pub fn check_capacity(layer: Layer, capacity: u64) -> Result<(), Fault>
    ensures { result ≡ capacity_check layer capacity (Ok tt) }
{
    if !(1..=GREATEST).contains(&capacity) {
        return Err(Fault::new(Refusal::Capacity, layer, capacity));
    }
    Ok(())
}

// A size above the capacity is refused with 4.
pub fn check_size(capacity: u64, size: u64) -> Result<(), Fault>
    ensures { result ≡ size_check capacity size (Ok tt) }
{
    if size > capacity {
        return Err(Fault::new(Refusal::Size, Layer::Function, size));
    }
    Ok(())
}
