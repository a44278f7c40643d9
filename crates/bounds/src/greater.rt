// The greater of the numbers of two bounders of one capacity.
ghost use Rattle.std.specs.Prelude.{◌≡◌};
ghost use Rattle.bounds.specs.Bounds.{greater, greater_made};
ghost use Rattle.faults.specs.Faults.{outcome};
ghost use Rattle.bounds.specs.Sound.{greater_sound};
ghost use Rattle.std.proofs.Common.{rules};

use crate::Bounder;
use faults::{Fault, Layer, Refusal};

#[derive(Drop)]
pub struct Greater<A, B> {
    first: A,
    second: B,
}

impl<A: Bounder + Drop, B: Bounder + Drop> Greater<A, B> {
    // Two bounders of one capacity, else refusal 5 with the capacity of the second.
    pub fn new(first: A, second: B) -> Result<Greater<A, B>, Fault>
        ensures { outcome {Y = _ × _} (λ g. (g.first, g.second)) result ≡ greater_made (A.Bounder.capacity first) (B.Bounder.capacity second) (first, second) }
    {
        let second_capacity = second.capacity();
        if first.capacity() != second_capacity {
            return Err(Fault::new(Refusal::CapacitiesDiffer, Layer::Bound, second_capacity));
        }
        Ok(Greater { first, second })
    }
}

// Nothing in the pair says that the capacities agree, so where they differ it means 0, which is sound.
impl<A: Bounder, B: Bounder> Bounder for Greater<A, B> {
    ghost capacity = { λ g. A.Bounder.capacity g.first };

    ghost number = { λ g list. greater (A.Bounder.capacity g.first) (B.Bounder.capacity g.second) (A.Bounder.number g.first list) (B.Bounder.number g.second list) };

    ghost limits = { Prim.search rules };

    ghost sound = { λ b. greater_sound (A.Bounder.capacity b.first) (B.Bounder.capacity b.second) (A.Bounder.number b.first) (B.Bounder.number b.second) (A.Bounder.sound b.first) (B.Bounder.sound b.second) };

    fn capacity(&self) -> u64 {
        self.first.capacity()
    }

    fn number(&self, list: &[u64]) -> Result<u64, Fault> {
        let first = self.first.number(list)?;
        if self.first.capacity() != self.second.capacity() {
            return Ok(0);
        }
        let second = self.second.number(list)?;
        Ok(first.max(second))
    }
}
