// The bound that a dual feasible function gives.
ghost use Rattle.std.specs.Prelude.{◌≡◌};
ghost use Rattle.bounds.specs.Bounds.{bound};
ghost use Rattle.bounds.specs.Sound.{bound_sound};
ghost use Rattle.std.proofs.Common.{rules};

use crate::{Bounder, lower_bound};
use dual_feasible::DualFeasible;
use faults::Fault;

// A dual feasible function as a bounder.
#[derive(Drop)]
pub struct FunctionBound<F> {
    function: F,
}

impl<F> FunctionBound<F> {
    // The bounder of a function, at its capacity.
    pub fn new(function: F) -> FunctionBound<F>
        ensures { result.function ≡ function }
    {
        FunctionBound { function }
    }
}

impl<F: DualFeasible> Bounder for FunctionBound<F> {
    ghost capacity = { λ b. F.DualFeasible.capacity b.function };

    ghost number = { λ b. bound (F.DualFeasible.image b.function) (F.DualFeasible.map b.function) };

    ghost limits = { Prim.search rules };

    ghost sound = { λ b list few.
        let f = b.function in
        bound_sound (F.DualFeasible.capacity f) (F.DualFeasible.image f) (F.DualFeasible.map f) (F.DualFeasible.limits f).1.0 (F.DualFeasible.lawful f) list };

    fn capacity(&self) -> u64 {
        let (capacity, _) = self.function.capacities();
        capacity
    }

    fn number(&self, list: &[u64]) -> Result<u64, Fault> {
        lower_bound(&self.function, list)
    }
}
