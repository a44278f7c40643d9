// Division k: how many pieces of size k go into a size.
ghost use Rattle.std.specs.Prelude.{◌≡◌, ◌≤◌};
ghost use Rattle.dual_feasible.specs.Laws.{InRange};
ghost use Rattle.faults.specs.Faults.{outcome};
ghost use Rattle.functions.specs.Made.{division_made};
ghost use Rattle.functions.specs.Values.{division, division_image};
ghost use Rattle.functions.specs.SuperadditiveValues.{division_lawful, division_adds};
ghost use Rattle.std.proofs.Common.{rules};

use dual_feasible::checks::{check_capacity, check_size};
use dual_feasible::{DualFeasible, Superadditive};
use faults::{Fault, Layer, Refusal};

#[derive(Drop)]
pub struct Division {
    capacity: u64,
    parameter: u64,
    ghost limits: { InRange capacity },
    ghost range: { (1 ≤ parameter) × (parameter ≤ capacity) },
}

impl Division {
    // Division k for a capacity: refusal 1 for the capacity, then 2 where k is outside 1 to the capacity.
    pub fn new(capacity: u64, k: u64) -> Result<Division, Fault>
        ensures { outcome (λ f. (f.capacity, f.parameter)) result ≡ division_made capacity k }
    {
        check_capacity(Layer::Function, capacity)?;
        if !(1..=capacity).contains(&k) {
            return Err(Fault::new(Refusal::Parameter, Layer::Function, k));
        }
        Ok(Division {
            capacity,
            parameter: k,
        })
    }
}

impl DualFeasible for Division {
    ghost capacity = { λ f. f.capacity };

    ghost image = { λ f. division_image f.capacity f.parameter };

    ghost map = { λ f. division f.parameter };

    ghost limits = { Prim.search rules };

    ghost lawful = { λ f. division_lawful f.capacity f.parameter f.range.0 };

    fn capacities(&self) -> (u64, u64) {
        (self.capacity, self.capacity / self.parameter)
    }

    fn value(&self, size: u64) -> Result<u64, Fault> {
        check_size(self.capacity, size)?;
        Ok(size / self.parameter)
    }
}

impl Superadditive for Division {
    ghost capacity = { Self.DualFeasible.capacity };

    ghost image = { Self.DualFeasible.image };

    ghost map = { Self.DualFeasible.map };

    ghost limits = { Prim.search rules };

    ghost lawful = { λ f. division_lawful f.capacity f.parameter f.range.0 };

    ghost superadditive = { λ f. division_adds f.capacity f.parameter f.range.0 };

    fn own_capacities(&self) -> (u64, u64) {
        self.capacities()
    }
}
