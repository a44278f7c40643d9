// Rows that are laid on a pile.
ghost use Rattle.piles.specs.Contents.{pile_rows};
ghost use Rattle.pile_text.specs.Kinds.{kind_words, kinds_told};
ghost use Rattle.pile_text.specs.Laid.{pile_laying};

use dual_feasible::DualFeasible;
use faults::Fault;
use lines::words::RowWords;
use listings::rows::Rows;
use piles::pile::Pile;
use piles::rows::{Kind, Row};

// The pile of a text's rows, as a type of this crate.
#[derive(Drop)]
pub struct LaidRows {
    pub pile: Pile,
}

impl RowWords for LaidRows {
    type Kind = Kind;

    ghost words = { kind_words };

    ghost told = { kinds_told };

    fn named(text: &[u8]) -> Option<Kind> {
        match text {
            b"threshold" => Some(Kind::Threshold),
            b"rounding" => Some(Kind::Rounding),
            b"division" => Some(Kind::Division),
            b"counting" => Some(Kind::Counting),
            b"symmetrise" => Some(Kind::Symmetrisation),
            b"scale" => Some(Kind::Scaling),
            _ => None,
        }
    }
}

impl Rows for LaidRows {
    type Row = Row;

    ghost seen = { λ rows. (rows.pile.capacity, pile_rows rows.pile) };

    ghost laying = { pile_laying };

    fn begin(capacity: u64) -> Result<LaidRows, Fault> {
        let pile = Pile::new(capacity)?;
        Ok(LaidRows { pile })
    }

    fn bar(&self) -> u64 {
        let (capacity, _) = self.pile.capacities();
        capacity
    }

    fn add(&mut self, kind: Kind, parameter: u64) -> Result<(), Fault> {
        // Every row is laid by its kind's number, as in `Pile::from_rows`.
        self.pile.lay(u64::from(kind), parameter)
    }
}
