// Rounding k: sizes rounded down to whole parts of a k + 1st of the bar, but for those that are such parts exactly.
ghost use Rattle.std.specs.Prelude.{◌≡◌, ◌*◌, ◌≤◌};
ghost use Rattle.dual_feasible.specs.Laws.{InRange, greatest};
ghost use Rattle.faults.specs.Faults.{outcome};
ghost use Rattle.functions.specs.Made.{rounding_made};
ghost use Rattle.functions.specs.Values.{rounding, rounding_image};
ghost use Rattle.std.proofs.Math.Nat.{one-le-mul};
ghost use Rattle.functions.specs.SuperadditiveValues.{rounding_lawful, rounding_adds};

use dual_feasible::checks::{GREATEST, check_capacity, check_size};
use dual_feasible::{DualFeasible, Superadditive};
use faults::{Fault, Layer, Refusal};

#[derive(Drop)]
pub struct Rounding {
    capacity: u64,
    parameter: u64,
    ghost limits: { InRange capacity },
    ghost range: { (1 ≤ parameter) × (parameter ≤ 1000) },
    ghost product: { capacity * parameter ≤ greatest },
}

impl Rounding {
    // Rounding k for a capacity: refusal 1 for the capacity, then 2 where k is outside 1 to 1,000, then 3 with the
    // capacity where k times it is above 1,000,000,000.
    pub fn new(capacity: u64, k: u64) -> Result<Rounding, Fault>
        ensures { outcome (λ f. (f.capacity, f.parameter)) result ≡ rounding_made capacity k }
    {
        check_capacity(Layer::Function, capacity)?;
        if !(1..=1_000).contains(&k) {
            return Err(Fault::new(Refusal::Parameter, Layer::Function, k));
        }
        if capacity * k > GREATEST {
            return Err(Fault::new(Refusal::ImageCapacity, Layer::Function, capacity));
        }
        Ok(Rounding {
            capacity,
            parameter: k,
        })
    }
}

impl DualFeasible for Rounding {
    ghost capacity = { λ f. f.capacity };

    ghost image = { λ f. rounding_image f.capacity f.parameter };

    ghost map = { λ f. rounding f.capacity f.parameter };

    ghost limits = { λ f. (f.limits, (one-le-mul f.limits.0 f.range.0, f.product)) };

    ghost lawful = { λ f. rounding_lawful f.capacity f.parameter f.limits.0 };

    fn capacities(&self) -> (u64, u64) {
        (self.capacity, self.capacity * self.parameter)
    }

    fn value(&self, size: u64) -> Result<u64, Fault> {
        check_size(self.capacity, size)?;
        let scaled = (self.parameter + 1) * size;
        if scaled % self.capacity == 0 {
            return Ok(size * self.parameter);
        }
        Ok(self.capacity * (scaled / self.capacity))
    }
}

impl Superadditive for Rounding {
    ghost capacity = { Self.DualFeasible.capacity };

    ghost image = { Self.DualFeasible.image };

    ghost map = { Self.DualFeasible.map };

    ghost limits = { λ f. (f.limits, (one-le-mul f.limits.0 f.range.0, f.product)) };

    ghost lawful = { λ f. rounding_lawful f.capacity f.parameter f.limits.0 };

    ghost superadditive = { λ f. rounding_adds f.capacity f.parameter f.limits.0 };

    fn own_capacities(&self) -> (u64, u64) {
        self.capacities()
    }
}
