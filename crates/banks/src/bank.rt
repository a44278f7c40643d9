// A bank of piles.
ghost use Rattle.std.specs.Prelude.{◌≡◌, true, map};
ghost use Rattle.dual_feasible.specs.Laws.{InRange};
ghost use Rattle.piles.specs.Plain.{rows_in};
ghost use Rattle.banks.specs.Banks.{all_made};

use arrayvec::ArrayVec;
use piles::rows::Rows;

// A bank holds at most this many piles.
pub(crate) const MOST_PILES: usize = 8;

// A capacity and up to 8 piles of that capacity. The table holds plain rows, from which a pile is made when it is asked.
#[derive(Drop)]
pub struct Bank {
    pub(crate) capacity: u64,
    pub(crate) piles: ArrayVec<Rows, MOST_PILES>,
    ghost limits: { InRange capacity },
    ghost standing: { all_made capacity (map rows_in piles.items) ≡ true },
}
