// Composition: an outer function over an inner one.
ghost use Rattle.std.specs.Prelude.{◌≡◌};
ghost use Rattle.dual_feasible.specs.Answers.{valued};
ghost use Rattle.faults.specs.Faults.{outcome};
ghost use Rattle.layers.specs.Layers.{composed, composition_made};
ghost use Rattle.layers.specs.ComposedLaw.{composed_lawful, composed_adds};
ghost use Rattle.std.proofs.Common.{rules};

use dual_feasible::{DualFeasible, Superadditive};
use faults::{Fault, Layer, Refusal};

// The outer function's value at the inner function's value.
#[derive(Drop)]
pub struct Composition<O, I> {
    outer: O,
    inner: I,
}

impl<O: DualFeasible + Drop, I: DualFeasible + Drop> Composition<O, I> {
    // The composition of two functions: refusal 5 with the inner's image capacity where the outer is not made for it.
    pub fn new(outer: O, inner: I) -> Result<Composition<O, I>, Fault>
        ensures { outcome {Y = O × I} (λ f. (f.outer, f.inner)) result ≡ composition_made (O.DualFeasible.capacity outer) (I.DualFeasible.image inner) (outer, inner) }
    {
        let (capacity, _) = outer.capacities();
        let (_, image) = inner.capacities();
        if capacity != image {
            return Err(Fault::new(Refusal::CapacitiesDiffer, Layer::Function, image));
        }
        Ok(Composition { outer, inner })
    }
}

// The outer function's value at the inner function's value of a size, or 0 where the outer is not made for the inner's image
// capacity.
fn composed_value<O: DualFeasible, I: DualFeasible>(
    outer: &O,
    inner: &I,
    size: u64,
) -> Result<u64, Fault>
    ensures { result ≡ valued (I.DualFeasible.capacity inner.now) (composed (O.DualFeasible.capacity outer.now) (O.DualFeasible.map outer.now) (I.DualFeasible.image inner.now) (I.DualFeasible.map inner.now)) size }
{
    let (capacity, _) = outer.capacities();
    let (_, image) = inner.capacities();
    let value = inner.value(size)?;
    if capacity != image {
        return Ok(0);
    }
    outer.value(value)
}

// It is total in meaning, as every layer of this project is: it compares the two capacities at each question, and where they
// differ, it means 0 everywhere.
impl<O: DualFeasible, I: DualFeasible> DualFeasible for Composition<O, I> {
    ghost capacity = { λ f. I.DualFeasible.capacity f.inner };

    ghost image = { λ f. O.DualFeasible.image f.outer };

    ghost map = { λ f. composed (O.DualFeasible.capacity f.outer) (O.DualFeasible.map f.outer) (I.DualFeasible.image f.inner) (I.DualFeasible.map f.inner) };

    ghost limits = { Prim.search rules };

    ghost lawful = { λ f. composed_lawful _ _ _ _ _ _ (I.DualFeasible.lawful f.inner) (O.DualFeasible.lawful f.outer) };

    fn capacities(&self) -> (u64, u64) {
        let (_, image) = self.outer.capacities();
        let (capacity, _) = self.inner.capacities();
        (capacity, image)
    }

    fn value(&self, size: u64) -> Result<u64, Fault> {
        composed_value(&self.outer, &self.inner, size)
    }
}

impl<O: Superadditive, I: Superadditive> Superadditive for Composition<O, I> {
    ghost capacity = { λ f. I.Superadditive.capacity f.inner };

    ghost image = { λ f. O.Superadditive.image f.outer };

    ghost map = { λ f. composed (O.Superadditive.capacity f.outer) (O.Superadditive.map f.outer) (I.Superadditive.image f.inner) (I.Superadditive.map f.inner) };

    ghost limits = { Prim.search rules };

    ghost lawful = { λ f. composed_lawful _ _ _ _ _ _ (I.Superadditive.lawful f.inner) (O.Superadditive.lawful f.outer) };

    ghost superadditive = { λ f. composed_adds _ _ _ _ _ _ (I.Superadditive.lawful f.inner) (O.Superadditive.lawful f.outer) (I.Superadditive.superadditive f.inner) (O.Superadditive.superadditive f.outer) };

    fn own_capacities(&self) -> (u64, u64) {
        let (_, image) = self.outer.own_capacities();
        let (capacity, _) = self.inner.own_capacities();
        (capacity, image)
    }
}
