// Scaling: a function's values brought to another image capacity, rounded down.
ghost use Rattle.std.specs.Prelude.{◌≡◌, ℕ};
ghost use Rattle.dual_feasible.specs.Laws.{InRange};
ghost use Rattle.faults.specs.Faults.{outcome};
ghost use Rattle.layers.specs.Layers.{scaled, scaling_made};
ghost use Rattle.layers.specs.ScaledLaw.{scaled_lawful, scaled_adds};
ghost use Rattle.std.proofs.Common.{rules};

use dual_feasible::checks::GREATEST;
use dual_feasible::{DualFeasible, Superadditive};
use faults::{Fault, Layer, Refusal};

// The function's values for the image capacity `target`.
#[derive(Drop)]
pub struct Scaling<F> {
    inner: F,
    target: u64,
    ghost limits: { InRange target },
}

impl<F: DualFeasible + Drop> Scaling<F> {
    // Scaling to a target: refusal 2 with the target where it is outside 1 to 1,000,000,000.
    pub fn new(inner: F, target: u64) -> Result<Scaling<F>, Fault>
        ensures { outcome {Y = F × ℕ} (λ f. (f.inner, f.target)) result ≡ scaling_made target (inner, target) }
    {
        if !(1..=GREATEST).contains(&target) {
            return Err(Fault::new(Refusal::Parameter, Layer::Function, target));
        }
        Ok(Scaling { inner, target })
    }
}

impl<F: DualFeasible> DualFeasible for Scaling<F> {
    ghost capacity = { λ f. F.DualFeasible.capacity f.inner };

    ghost image = { λ f. f.target };

    ghost map = { λ f. scaled (F.DualFeasible.image f.inner) f.target (F.DualFeasible.map f.inner) };

    ghost limits = { Prim.search rules };

    ghost lawful = { λ f. scaled_lawful _ _ _ (F.DualFeasible.limits f.inner).1.0 _ (F.DualFeasible.lawful f.inner) };

    fn capacities(&self) -> (u64, u64) {
        let (capacity, _) = self.inner.capacities();
        (capacity, self.target)
    }

    fn value(&self, size: u64) -> Result<u64, Fault> {
        let (_, image) = self.inner.capacities();
        let value = self.inner.value(size)?;
        Ok(value * self.target / image)
    }
}

impl<F: Superadditive> Superadditive for Scaling<F> {
    ghost capacity = { λ f. F.Superadditive.capacity f.inner };

    ghost image = { λ f. f.target };

    ghost map = { λ f. scaled (F.Superadditive.image f.inner) f.target (F.Superadditive.map f.inner) };

    ghost limits = { Prim.search rules };

    ghost lawful = { λ f. scaled_lawful _ _ _ (F.Superadditive.limits f.inner).1.0 _ (F.Superadditive.lawful f.inner) };

    ghost superadditive = { λ f. scaled_adds _ _ _ (F.Superadditive.limits f.inner).1.0 _ (F.Superadditive.superadditive f.inner) };

    fn own_capacities(&self) -> (u64, u64) {
        let (capacity, _) = self.inner.own_capacities();
        (capacity, self.target)
    }
}
