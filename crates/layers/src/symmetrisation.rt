// Symmetrisation: what a size and the rest of the bar weigh adds up to the whole image capacity.
ghost use Rattle.std.specs.Prelude.{◌≡◌};
ghost use Rattle.faults.specs.Faults.{outcome};
ghost use Rattle.layers.specs.Layers.{symmetrised, symmetrised_image, symmetrisation_made};
ghost use Rattle.layers.specs.SymmetrisedLaw.{symmetrised_lawful, symmetrised_adds};
ghost use Rattle.std.proofs.Common.{rules};

use dual_feasible::checks::{GREATEST, check_size};
use dual_feasible::{DualFeasible, Superadditive};
use faults::{Fault, Layer, Refusal};

// Twice the function's value below half the capacity, mirrored above it.
#[derive(Drop)]
pub struct Symmetrisation<F> {
    inner: F,
}

impl<F: Superadditive + Drop> Symmetrisation<F> {
    // The symmetrisation of a superadditive function: refusal 3 with the capacity where twice the image capacity is above
    // 1,000,000,000.
    pub fn new(inner: F) -> Result<Symmetrisation<F>, Fault>
        ensures { outcome (λ f. f.inner) result ≡ symmetrisation_made (F.Superadditive.capacity inner) (F.Superadditive.image inner) inner }
    {
        let (capacity, image) = inner.own_capacities();
        if 2 * image > GREATEST {
            return Err(Fault::new(Refusal::ImageCapacity, Layer::Function, capacity));
        }
        Ok(Symmetrisation { inner })
    }
}

// It takes its meaning from the superadditive interface. It is total in meaning, as every layer of this project is: it looks
// at the image capacity at each question, and where twice that is out of range, it means 0 everywhere.
impl<F: Superadditive> DualFeasible for Symmetrisation<F> {
    ghost capacity = { λ f. F.Superadditive.capacity f.inner };

    ghost image = { λ f. symmetrised_image (F.Superadditive.image f.inner) };

    ghost map = { λ f. symmetrised (F.Superadditive.capacity f.inner) (F.Superadditive.image f.inner) (F.Superadditive.map f.inner) };

    ghost limits = { Prim.search rules };

    ghost lawful = { λ f. symmetrised_lawful _ _ _ (F.Superadditive.limits f.inner).0.0 (F.Superadditive.lawful f.inner) (F.Superadditive.superadditive f.inner) };

    fn capacities(&self) -> (u64, u64) {
        let (capacity, image) = self.inner.own_capacities();
        if 2 * image > GREATEST {
            return (capacity, image);
        }
        (capacity, 2 * image)
    }

    fn value(&self, size: u64) -> Result<u64, Fault> {
        let (capacity, image) = self.inner.own_capacities();
        check_size(capacity, size)?;
        if 2 * image > GREATEST {
            return Ok(0);
        }
        if 2 * size > capacity {
            let rest = self.inner.value(capacity - size)?;
            return Ok(2 * image - 2 * rest);
        }
        if 2 * size == capacity {
            return Ok(image);
        }
        let value = self.inner.value(size)?;
        Ok(2 * value)
    }
}

impl<F: Superadditive> Superadditive for Symmetrisation<F> {
    ghost capacity = { Self.DualFeasible.capacity };

    ghost image = { Self.DualFeasible.image };

    ghost map = { Self.DualFeasible.map };

    ghost limits = { Prim.search rules };

    ghost lawful = { λ f. symmetrised_lawful _ _ _ (F.Superadditive.limits f.inner).0.0 (F.Superadditive.lawful f.inner) (F.Superadditive.superadditive f.inner) };

    ghost superadditive = { λ f. symmetrised_adds _ _ _ (F.Superadditive.limits f.inner).0.0 (F.Superadditive.lawful f.inner) (F.Superadditive.superadditive f.inner) };

    fn own_capacities(&self) -> (u64, u64) {
        self.capacities()
    }
}
