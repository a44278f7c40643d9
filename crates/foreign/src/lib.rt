// What a user of the library writes to meet its interfaces from another crate: a function, a bounder, and layers stacked.
#![tactic(auto)]

ghost use Rattle.std.specs.Prelude.{◌≡◌, Ok};
ghost use Rattle.dual_feasible.specs.Answers.{capacity_check};
ghost use Rattle.dual_feasible.specs.Laws.{InRange};
ghost use Rattle.faults.specs.Faults.{outcome};
ghost use Rattle.foreign.specs.ZeroLaw.{zero_lawful};
ghost use Rattle.std.proofs.Common.{rules};

use dual_feasible::checks::{check_capacity, check_size};
use dual_feasible::{DualFeasible, Superadditive};
use faults::{Fault, Layer};

pub mod halves;
pub mod stacked;

// Every size weighs nothing.
#[derive(Drop)]
pub struct Zero {
    capacity: u64,
    ghost limits: { InRange capacity },
}

impl Zero {
    // The function that is always 0, for a capacity, else refusal 1.
    pub fn new(capacity: u64) -> Result<Zero, Fault>
        ensures { outcome (λ f. f.capacity) result ≡ capacity_check Layer.Function capacity (Ok capacity) }
    {
        check_capacity(Layer::Function, capacity)?;
        Ok(Zero { capacity })
    }
}

impl DualFeasible for Zero {
    ghost capacity = { λ f. f.capacity };

    ghost image = { λ _. 1 };

    ghost map = { λ _ _. 0 };

    ghost limits = { Prim.search rules };

    ghost lawful = { λ f. zero_lawful f.capacity };

    fn capacities(&self) -> (u64, u64) {
        (self.capacity, 1)
    }

    fn value(&self, size: u64) -> Result<u64, Fault> {
        check_size(self.capacity, size)?;
        Ok(0)
    }
}

impl Superadditive for Zero {
    ghost capacity = { Self.DualFeasible.capacity };

    ghost image = { Self.DualFeasible.image };

    ghost map = { Self.DualFeasible.map };

    ghost limits = { Prim.search rules };

    ghost lawful = { λ f. zero_lawful f.capacity };

    ghost superadditive = { Prim.search rules };

    fn own_capacities(&self) -> (u64, u64) {
        self.capacities()
    }
}
