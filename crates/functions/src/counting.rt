// Counting e: how many pieces of size e a size takes the place of. It is lawful and not superadditive.
ghost use Rattle.std.specs.Prelude.{◌≡◌, ◌*◌, ◌≤◌};
ghost use Rattle.dual_feasible.specs.Laws.{InRange};
ghost use Rattle.faults.specs.Faults.{outcome};
ghost use Rattle.functions.specs.Made.{counting_made};
ghost use Rattle.functions.specs.Values.{counting, counting_image};
ghost use Rattle.functions.specs.CountingLaw.{counting_lawful};
ghost use Rattle.std.proofs.Common.{rules};

use dual_feasible::DualFeasible;
use dual_feasible::checks::{check_capacity, check_size};
use faults::{Fault, Layer, Refusal};

#[derive(Drop)]
pub struct Counting {
    capacity: u64,
    parameter: u64,
    ghost limits: { InRange capacity },
    ghost range: { (1 ≤ parameter) × (2 * parameter ≤ capacity) },
}

impl Counting {
    // Counting e for a capacity: refusal 1 for the capacity, then 2 where e is 0 or twice e is above the capacity.
    pub fn new(capacity: u64, e: u64) -> Result<Counting, Fault>
        ensures { outcome (λ f. (f.capacity, f.parameter)) result ≡ counting_made capacity e }
    {
        check_capacity(Layer::Function, capacity)?;
        if !(1..=capacity / 2).contains(&e) {
            return Err(Fault::new(Refusal::Parameter, Layer::Function, e));
        }
        Ok(Counting {
            capacity,
            parameter: e,
        })
    }
}

impl DualFeasible for Counting {
    ghost capacity = { λ f. f.capacity };

    ghost image = { λ f. counting_image f.capacity f.parameter };

    ghost map = { λ f. counting f.capacity f.parameter };

    ghost limits = { Prim.search rules };

    ghost lawful = { λ f. counting_lawful f.capacity f.parameter f.range.0 };

    fn capacities(&self) -> (u64, u64) {
        (self.capacity, self.capacity / self.parameter)
    }

    fn value(&self, size: u64) -> Result<u64, Fault> {
        check_size(self.capacity, size)?;
        if 2 * size > self.capacity {
            return Ok(self.capacity / self.parameter - (self.capacity - size) / self.parameter);
        }
        Ok(u64::from(self.parameter <= size))
    }
}
