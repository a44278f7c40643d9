// Rows: a kind of function or layer, and its parameter.
ghost use Rattle.std.specs.Prelude.{◌≡◌, true};
ghost use Rattle.dual_feasible.specs.Laws.{InRange};
ghost use Rattle.piles.specs.Laying.{accepted};
ghost use Rattle.piles.specs.Plain.{rows_in};
ghost use Rattle.piles.specs.Kinds.{kind_number, Numbers};

// A pile has at most this many rows.
pub(crate) const MOST_ROWS: usize = 8;

// What a row lays on those below it.
#[derive(Clone, Copy, Default, PartialEq, Eq, Debug)]
pub enum Kind {
    // also the kind in the unused places of a table
    #[default]
    Threshold = 1,
    Rounding,
    Division,
    Counting,
    Symmetrisation,
    Scaling,
}

// A number that no kind has.
#[derive(Clone, Copy, PartialEq, Eq, Debug)]
pub struct UnknownKind(pub u64);

// A kind and its parameter, which is 0 for a symmetrisation: every row is laid with both, and any other is refused.
#[derive(Clone, Copy, Default, PartialEq, Eq, Debug)]
pub struct Row {
    pub kind: Kind,
    pub parameter: u64,
}

// Plain rows for a table, the lowest first: those below the count are meant. They lie in an array with their count, since
// plain rows are `Copy`, and a vector of fixed capacity is not.
#[derive(Clone, Copy, Default)]
pub struct Rows {
    pub(crate) count: usize,
    pub(crate) rows: [Row; MOST_ROWS],
}

// A row that is laid, with the image capacity beneath it, so that a value costs one walk over the rows.
#[derive(Clone, Copy)]
pub(crate) struct Step {
    pub(crate) row: Row,
    pub(crate) below: u64,
    ghost limits: { InRange below },
    ghost accepted: { accepted row.kind below row.parameter ≡ true },
}

// What a table of steps holds in its unused places.
impl Default for Step {
    fn default() -> Step {
        Step {
            row: Row::default(),
            below: 1,
        }
    }
}

// The kind's number, from 1 to 6.
impl From<Kind> for u64 {
    ghost from_gives = { λ kind n. n ≡ kind_number kind };

    fn from(kind: Kind) -> u64 {
        kind as u64
    }
}

// The kind that has the number, if there is one.
impl TryFrom<u64> for Kind {
    type Error = UnknownKind;

    ghost try_from_gives = { Numbers };

    fn try_from(number: u64) -> Result<Kind, UnknownKind> {
        match number {
            1 => Ok(Kind::Threshold),
            2 => Ok(Kind::Rounding),
            3 => Ok(Kind::Division),
            4 => Ok(Kind::Counting),
            5 => Ok(Kind::Symmetrisation),
            6 => Ok(Kind::Scaling),
            _ => Err(UnknownKind(number)),
        }
    }
}

impl Rows {
    // No rows.
    pub const NONE: Rows = Rows {
        count: 0,
        rows: [Row {
            kind: Kind::Threshold,
            parameter: 0,
        }; MOST_ROWS],
    };

    // The rows that are meant.
    pub fn as_slice(&self) -> &[Row]
        ensures { result.now ≡ rows_in self.now }
    {
        let count = self.count.min(MOST_ROWS);
        &self.rows[..count]
    }
}
