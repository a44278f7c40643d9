// Rows that each name a function of its own.
ghost use Rattle.std.specs.Prelude.{◌≡◌, true, map};
ghost use Rattle.dual_feasible.specs.Laws.{InRange};
ghost use Rattle.text.specs.Functions.{function_row, all_for};
ghost use Rattle.text.specs.Kinds.{kind_words, kinds_told};
ghost use Rattle.text.specs.Texts.{function_laying};

use crate::function::Function;
use crate::kinds::{Kind, Row};
use arrayvec::ArrayVec;
use dual_feasible::checks::check_capacity;
use faults::{Fault, Layer, Refusal};
use lines::words::RowWords;
use listings::rows::Rows;

const MOST_ROWS: usize = 8;

// The functions that the rows name, made for the bar's capacity. The table is fixed, so that reading meets no want of memory.
#[derive(Drop)]
pub struct FunctionRows {
    pub(crate) capacity: u64,
    pub(crate) functions: ArrayVec<Function, MOST_ROWS>,
    ghost limits: { InRange capacity },
    ghost same: { all_for capacity functions.items ≡ true },
}

impl RowWords for FunctionRows {
    type Kind = Kind;

    ghost words = { kind_words };

    ghost told = { kinds_told };

    fn named(text: &[u8]) -> Option<Kind> {
        match text {
            b"threshold" => Some(Kind::Threshold),
            b"rounding" => Some(Kind::Rounding),
            b"division" => Some(Kind::Division),
            b"counting" => Some(Kind::Counting),
            _ => None,
        }
    }
}

impl Rows for FunctionRows {
    type Row = Row;

    ghost seen = { λ rows. (rows.capacity, map function_row rows.functions.items) };

    ghost laying = { function_laying };

    fn begin(capacity: u64) -> Result<FunctionRows, Fault> {
        check_capacity(Layer::Function, capacity)?;
        Ok(FunctionRows {
            capacity,
            functions: ArrayVec::new(),
        })
    }

    fn bar(&self) -> u64 {
        self.capacity
    }

    fn add(&mut self, kind: Kind, parameter: u64) -> Result<(), Fault> {
        if self.functions.len() >= MOST_ROWS {
            return Err(Fault::new(Refusal::TooMany, Layer::Text, MOST_ROWS as u64));
        }
        self.functions
            .push(Function::new(self.capacity, kind, parameter)?);
        Ok(())
    }
}
