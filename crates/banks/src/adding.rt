// Making a bank and adding piles to it.
ghost use Rattle.std.specs.Prelude.{◌≡◌};
ghost use Rattle.faults.specs.Faults.{outcome, checked, kept_or};
ghost use Rattle.piles.specs.Contents.{pile_rows};
ghost use Rattle.banks.specs.Banks.{bank_made, pile_added};
ghost use Rattle.banks.specs.Contents.{bank_piles};

use crate::bank::{Bank, MOST_PILES};
use arrayvec::ArrayVec;
use dual_feasible::DualFeasible;
use dual_feasible::checks::check_capacity;
use faults::{Fault, Layer, Refusal};
use piles::pile::Pile;

impl Bank {
    // A bank with no pile, for a capacity, else refusal 1.
    pub fn new(capacity: u64) -> Result<Bank, Fault>
        ensures { outcome (λ b. (b.capacity, bank_piles b)) result ≡ bank_made capacity }
    {
        check_capacity(Layer::Bound, capacity)?;
        Ok(Bank {
            capacity,
            piles: ArrayVec::new(),
        })
    }

    // One pile more: refusal 5 with its capacity where that is not the bank's, then 6 for a ninth. A refused pile leaves the
    // bank as it was.
    #[tactic(auto, using(crate::proofs::OneMore::one_more))]
    pub fn add(&mut self, pile: &Pile) -> Result<(), Fault>
        ensures answer { result ≡ checked (pile_added self.old.capacity (bank_piles self.old) pile.now.capacity (pile_rows pile.now)) }
        ensures capacity { self.new.capacity ≡ self.old.capacity }
        ensures piles { bank_piles self.new ≡ kept_or (bank_piles self.old) (pile_added self.old.capacity (bank_piles self.old) pile.now.capacity (pile_rows pile.now)) }
    {
        let (capacity, _) = pile.capacities();
        if capacity != self.capacity {
            return Err(Fault::new(Refusal::CapacitiesDiffer, Layer::Bound, capacity));
        }
        if self.piles.is_full() {
            return Err(Fault::new(Refusal::TooMany, Layer::Bound, MOST_PILES as u64));
        }
        self.piles.push(pile.rows());
        Ok(())
    }
}
