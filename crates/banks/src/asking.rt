// A bank's answers.
ghost use Rattle.std.specs.Prelude.{◌≡◌, true, is_ok};
ghost use Rattle.faults.specs.Faults.{outcome};
ghost use Rattle.bounds.specs.Bounds.{asked_of};
ghost use Rattle.piles.specs.Laying.{pile_of};
ghost use Rattle.piles.specs.Plain.{rows_in};
ghost use Rattle.banks.specs.Banks.{pile_bound, bank_number, best_pile_of, surveyed};
ghost use Rattle.banks.specs.Best.{findings, improved};
ghost use Rattle.banks.specs.Contents.{bank_piles};
ghost use Rattle.banks.specs.BankSound.{bank_sound};

use crate::bank::Bank;
use bounds::checks::check_list;
use bounds::{Bounder, lower_bound};
use faults::Fault;
use piles::pile::Pile;
use piles::rows::Rows;

// The bound of a pile that is made from plain rows.
fn bound_of(capacity: u64, rows: &Rows, list: &[u64]) -> Result<u64, Fault>
    requires { is_ok (pile_of capacity (rows_in rows.now)) ≡ true }
    ensures { result ≡ asked_of capacity (λ l. pile_bound capacity l (rows_in rows.now)) list.now }
{
    let pile = Pile::from_rows(capacity, rows.as_slice())?;
    lower_bound(&pile, list)
}

// The greatest bound of some piles, and the number of the first of them that reaches it.
#[derive(Clone, Copy)]
struct Best {
    bound: u64,
    pile: u64,
}

// The better of what was found of the piles before this one and this pile's bound. On equality it is the pile before,
// which has the lower number.
fn better_of(found: Option<Best>, bound: u64, pile: u64) -> Option<Best>
    ensures { result ≡ improved found bound pile }
{
    match found {
        Some(best) if best.bound >= bound => found,
        _ => Some(Best { bound, pile }),
    }
}

impl Bank {
    // The piles that are held.
    fn held(&self) -> &[Rows]
        ensures { result.now ≡ self.now.piles.items }
    {
        self.piles.as_slice()
    }

    // The greatest bound, and the number of the first pile that reaches it, where there is a pile.
    fn survey(&self, list: &[u64]) -> Result<Option<Best>, Fault>
        ensures { outcome findings result ≡ asked_of self.now.capacity (surveyed self.now.capacity (bank_piles self.now)) list.now }
    {
        check_list(self.capacity, list)?;
        let piles = self.held();
        let mut found = None;
        for (i, rows) in piles.iter().enumerate() {
            let bound = bound_of(self.capacity, rows, list)?;
            found = better_of(found, bound, i as u64);
        }
        Ok(found)
    }

    // The number of the pile with the greatest bound of a list, from 0, the lowest on equality; an empty bank has none. A
    // list is refused as by every bounder.
    pub fn best_pile(&self, list: &[u64]) -> Result<Option<u64>, Fault>
        ensures { result ≡ asked_of self.now.capacity (best_pile_of self.now.capacity (bank_piles self.now)) list.now }
    {
        let best = self.survey(list)?;
        let number = best.map(|best| best.pile);
        Ok(number)
    }
}

impl Bounder for Bank {
    ghost capacity = { λ b. b.capacity };

    ghost number = { λ b. bank_number b.capacity (bank_piles b) };

    ghost limits = { λ b. b.limits };

    ghost sound = { λ b list few. bank_sound b.capacity (bank_piles b) list b.standing };

    fn capacity(&self) -> u64 {
        self.capacity
    }

    fn number(&self, list: &[u64]) -> Result<u64, Fault> {
        let best = self.survey(list)?;
        let greatest = best.map_or(0, |best| best.bound);
        Ok(greatest)
    }
}
