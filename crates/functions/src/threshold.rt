// Threshold t: sizes below t weigh nothing, and sizes above the capacity less t weigh a whole bar.
ghost use Rattle.std.specs.Prelude.{◌≡◌, ◌*◌, ◌≤◌};
ghost use Rattle.dual_feasible.specs.Laws.{InRange};
ghost use Rattle.faults.specs.Faults.{outcome};
ghost use Rattle.functions.specs.Made.{threshold_made};
ghost use Rattle.functions.specs.Values.{threshold};
ghost use Rattle.functions.specs.SuperadditiveValues.{threshold_lawful, threshold_adds};
ghost use Rattle.std.proofs.Common.{rules};

use dual_feasible::checks::{check_capacity, check_size};
use dual_feasible::{DualFeasible, Superadditive};
use faults::{Fault, Layer, Refusal};

#[derive(Drop)]
pub struct Threshold {
    capacity: u64,
    parameter: u64,
    ghost limits: { InRange capacity },
    ghost half: { 2 * parameter ≤ capacity },
}

impl Threshold {
    // Threshold t for a capacity: refusal 1 for the capacity, then 2 where twice t is above it.
    pub fn new(capacity: u64, t: u64) -> Result<Threshold, Fault>
        ensures { outcome (λ f. (f.capacity, f.parameter)) result ≡ threshold_made capacity t }
    {
        check_capacity(Layer::Function, capacity)?;
        if t > capacity / 2 {
            return Err(Fault::new(Refusal::Parameter, Layer::Function, t));
        }
        Ok(Threshold {
            capacity,
            parameter: t,
        })
    }
}

impl DualFeasible for Threshold {
    ghost capacity = { λ f. f.capacity };

    ghost image = { λ f. f.capacity };

    ghost map = { λ f. threshold f.capacity f.parameter };

    ghost limits = { Prim.search rules };

    ghost lawful = { λ f. threshold_lawful f.capacity f.parameter f.half };

    fn capacities(&self) -> (u64, u64) {
        (self.capacity, self.capacity)
    }

    fn value(&self, size: u64) -> Result<u64, Fault> {
        check_size(self.capacity, size)?;
        let high = self.capacity - self.parameter;
        if size > high {
            return Ok(self.capacity);
        }
        Ok(if self.parameter <= size { size } else { 0 })
    }
}

impl Superadditive for Threshold {
    ghost capacity = { Self.DualFeasible.capacity };

    ghost image = { Self.DualFeasible.image };

    ghost map = { Self.DualFeasible.map };

    ghost limits = { Prim.search rules };

    ghost lawful = { λ f. threshold_lawful f.capacity f.parameter f.half };

    ghost superadditive = { λ f. threshold_adds f.capacity f.parameter f.half };

    fn own_capacities(&self) -> (u64, u64) {
        self.capacities()
    }
}
