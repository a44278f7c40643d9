// A bounder of one's own: no bar takes two entries above half the capacity, so each of them needs its own.
ghost use Rattle.std.specs.Prelude.{◌≡◌, count_by, nat_lt, Ok};
ghost use Rattle.dual_feasible.specs.Answers.{capacity_check};
ghost use Rattle.dual_feasible.specs.Laws.{InRange};
ghost use Rattle.faults.specs.Faults.{outcome};
ghost use Rattle.foreign.specs.AboveHalf.{above_half};
ghost use Rattle.foreign.specs.AboveHalfSound.{above_half_sound};
ghost use Rattle.std.proofs.Common.{rules};

use bounds::Bounder;
use bounds::checks::check_list;
use dual_feasible::checks::check_capacity;
use faults::{Fault, Layer};

#[derive(Drop)]
pub struct Halves {
    capacity: u64,
    ghost limits: { InRange capacity },
}

// How many entries are above a size.
fn count_above(list: &[u64], half: u64) -> usize
    ensures { result ≡ count_by (λ s. nat_lt half s) list.now }
{
    list.iter().filter(|size| **size > half).count()
}

impl Halves {
    // The bounder for a capacity, else refusal 1.
    pub fn new(capacity: u64) -> Result<Halves, Fault>
        ensures { outcome (λ b. b.capacity) result ≡ capacity_check Layer.Bound capacity (Ok capacity) }
    {
        check_capacity(Layer::Bound, capacity)?;
        Ok(Halves { capacity })
    }
}

impl Bounder for Halves {
    ghost capacity = { λ b. b.capacity };

    ghost number = { λ b. above_half b.capacity };

    ghost limits = { Prim.search rules };

    ghost sound = { λ b. above_half_sound b.capacity };

    fn capacity(&self) -> u64 {
        self.capacity
    }

    fn number(&self, list: &[u64]) -> Result<u64, Fault> {
        check_list(self.capacity, list)?;
        Ok(count_above(list, self.capacity / 2) as u64)
    }
}
