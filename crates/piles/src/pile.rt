// A pile of rows.
ghost use Rattle.std.specs.Prelude.{◌≡◌, ◌≤◌, true, false};
ghost use Rattle.arrayvec.specs.ArrayVec.{array_vec_len};
ghost use Rattle.dual_feasible.specs.Laws.{InRange};
ghost use Rattle.piles.specs.Layered.{layered_image};
ghost use Rattle.piles.specs.Laying.{most_rows, counting_among};
ghost use Rattle.piles.specs.Standing.{rows_of, stands, unmixed, topmost};

use crate::rows::{MOST_ROWS, Step};
use arrayvec::ArrayVec;

// A capacity and up to 8 rows, the lowest first. With no row it is the identity.
#[derive(Drop)]
pub struct Pile {
    pub(crate) capacity: u64,
    pub(crate) steps: ArrayVec<Step, MOST_ROWS>,
    // the image capacity of all rows
    pub(crate) image: u64,
    // the topmost symmetrisation
    pub(crate) mirror: Option<usize>,
    // whether a row counts
    pub(crate) counting: bool,
    ghost limits: { InRange capacity },
    ghost few: { array_vec_len steps ≤ most_rows },
    ghost standing: { stands capacity steps.items ≡ true },
    ghost order: { unmixed false (rows_of steps.items) ≡ true },
    ghost whole: { image ≡ layered_image capacity (rows_of steps.items) },
    ghost top: { topmost mirror (rows_of steps.items) ≡ true },
    ghost counted: { counting ≡ counting_among (rows_of steps.items) },
}
