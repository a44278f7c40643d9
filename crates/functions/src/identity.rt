// Identity: each size is its own value.
ghost use Rattle.std.specs.Prelude.{◌≡◌};
ghost use Rattle.dual_feasible.specs.Laws.{InRange};
ghost use Rattle.faults.specs.Faults.{outcome};
ghost use Rattle.functions.specs.Made.{identity_made};
ghost use Rattle.functions.specs.Values.{identity};
ghost use Rattle.std.proofs.Common.{rules};

use dual_feasible::checks::{check_capacity, check_size};
use dual_feasible::{DualFeasible, Superadditive};
use faults::{Fault, Layer};

#[derive(Drop)]
pub struct Identity {
    capacity: u64,
    ghost limits: { InRange capacity },
}

impl Identity {
    // The identity for a capacity, else refusal 1.
    pub fn new(capacity: u64) -> Result<Identity, Fault>
        ensures { outcome (λ f. f.capacity) result ≡ identity_made capacity }
    {
        check_capacity(Layer::Function, capacity)?;
        Ok(Identity { capacity })
    }
}

impl DualFeasible for Identity {
    ghost capacity = { λ f. f.capacity };

    ghost image = { λ f. f.capacity };

    ghost map = { λ _. identity };

    ghost limits = { Prim.search rules };

    ghost lawful = { Prim.search rules };

    fn capacities(&self) -> (u64, u64) {
        (self.capacity, self.capacity)
    }

    fn value(&self, size: u64) -> Result<u64, Fault> {
        check_size(self.capacity, size)?;
        Ok(size)
    }
}

impl Superadditive for Identity {
    ghost capacity = { Self.DualFeasible.capacity };

    ghost image = { Self.DualFeasible.image };

    ghost map = { Self.DualFeasible.map };

    ghost limits = { Prim.search rules };

    ghost lawful = { Prim.search rules };

    ghost superadditive = { Prim.search rules };

    fn own_capacities(&self) -> (u64, u64) {
        self.capacities()
    }
}
