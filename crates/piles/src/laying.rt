// Making a pile and laying rows on it.
ghost use Rattle.std.specs.Prelude.{◌≡◌, ◌<◌, ◌≤◌, true, false, not, ◌&&◌, [], ◌∷◌, ◌++◌, Some, Ok};
ghost use Rattle.arrayvec.specs.ArrayVec.{array_vec_len};
ghost use Rattle.dual_feasible.specs.Laws.{greatest};
ghost use Rattle.faults.specs.Faults.{outcome, checked, kept_or};
ghost use Rattle.piles.specs.Contents.{pile_rows};
ghost use Rattle.piles.specs.Kinds.{symmetrises, counts};
ghost use Rattle.piles.specs.Laying.{most_rows, pile_made, pile_of, laid, parameter_outside, image_outside, accepted, counting_among, row_laid};
ghost use Rattle.piles.specs.Plain.{rows_in};
ghost use Rattle.piles.specs.Layered.{image_over_kind};
ghost use Rattle.piles.specs.Standing.{topmost};

use crate::pile::Pile;
use crate::rows::{Kind, MOST_ROWS, Row, Rows, Step};
use arrayvec::ArrayVec;
use dual_feasible::checks::{GREATEST, check_capacity};
use faults::{Fault, Layer, Refusal};

impl Kind {
    // Whether the kind is that of a symmetrisation.
    fn symmetrises(self) -> bool
        ensures { result ≡ symmetrises self }
    {
        matches!(self, Kind::Symmetrisation)
    }

    // Whether the kind is that of a counting function.
    fn counts(self) -> bool
        ensures { result ≡ counts self }
    {
        matches!(self, Kind::Counting)
    }
}

// A step's row is accepted, so a row that is not yet is asked with the image capacity beside it. Each rule of the kinds is one
// `match`, here and for steps: there are no kinds but these, and a rule is read in one place. The ranges are those that making
// the functions checks, whose faults name a parameter and not a row.
impl Row {
    // Whether the parameter is in its range, over an image capacity.
    fn in_range(self, below: u64) -> bool
        ensures { result ≡ not (parameter_outside self.kind below self.parameter) }
    {
        let parameter = self.parameter;
        match self.kind {
            Kind::Threshold => parameter <= below / 2,
            Kind::Rounding => (1..=1_000).contains(&parameter),
            Kind::Division => (1..=below).contains(&parameter),
            Kind::Counting => (1..=below / 2).contains(&parameter),
            Kind::Symmetrisation => parameter == 0,
            Kind::Scaling => (1..=GREATEST).contains(&parameter),
        }
    }

    // Whether the image capacity would be above 1,000,000,000.
    fn too_large(self, below: u64) -> bool
        requires range { parameter_outside self.kind below self.parameter ≡ false }
        requires below { below ≤ greatest }
        ensures { result ≡ image_outside self.kind below self.parameter }
    {
        match self.kind {
            Kind::Rounding => below * self.parameter > GREATEST,
            Kind::Symmetrisation => 2 * below > GREATEST,
            _ => false,
        }
    }
}

impl Step {
    // The image capacity of the row.
    fn image(self) -> u64
        ensures { result ≡ image_over_kind self.row.kind self.below self.row.parameter }
    {
        let parameter = self.row.parameter;
        match self.row.kind {
            Kind::Threshold => self.below,
            Kind::Rounding => self.below * parameter,
            Kind::Division | Kind::Counting => self.below / parameter,
            Kind::Symmetrisation => 2 * self.below,
            Kind::Scaling => parameter,
        }
    }
}

impl Pile {
    // A pile with no row, for a capacity, else refusal 1.
    pub fn new(capacity: u64) -> Result<Pile, Fault>
        ensures { outcome (λ p. (p.capacity, pile_rows p)) result ≡ pile_made capacity }
    {
        check_capacity(Layer::Pile, capacity)?;
        Ok(Pile {
            capacity,
            steps: ArrayVec::new(),
            image: capacity,
            mirror: None,
            counting: false,
        })
    }

    // The checks of a row of a known kind: its parameter (2), counting beneath a symmetrisation (8) and the image
    // capacity (3), each with the number of the row being laid.
    fn check_row(&self, row: Row) -> Result<(), Fault>
        ensures { result ≡ checked (row_laid self.now.capacity (pile_rows self.now) (Some row.kind) row.parameter) }
    {
        let at = self.steps.len() as u64;
        if !row.in_range(self.image) {
            return Err(Fault::new(Refusal::Parameter, Layer::Pile, at));
        }
        if self.counting && row.kind.symmetrises() {
            return Err(Fault::new(Refusal::CountingBeneath, Layer::Pile, at));
        }
        if row.too_large(self.image) {
            return Err(Fault::new(Refusal::ImageCapacity, Layer::Pile, at));
        }
        Ok(())
    }

    // The topmost symmetrisation, with one row more on top.
    #[tactic(auto, using(crate::proofs::OneMore::one_more))]
    fn mirror_with(&self, row: Row) -> Option<usize>
        ensures { topmost result (pile_rows self.now ++ row ∷ []) ≡ true }
    {
        if row.kind.symmetrises() {
            return Some(self.steps.len());
        }
        self.mirror
    }

    // Whether a row counts, with one row more on top.
    #[tactic(auto, using(crate::proofs::OneMore::one_more))]
    fn counting_with(&self, row: Row) -> bool
        ensures { result ≡ counting_among (pile_rows self.now ++ row ∷ []) }
    {
        self.counting || row.kind.counts()
    }

    // One row more, which the checks have accepted.
    #[tactic(auto, using(crate::proofs::OneMore::one_more))]
    fn push(&mut self, row: Row)
        requires few { array_vec_len self.old.steps < most_rows }
        requires accepted { accepted row.kind self.old.image row.parameter ≡ true }
        requires apart { (symmetrises row.kind && self.old.counting) ≡ false }
        ensures capacity { self.new.capacity ≡ self.old.capacity }
        ensures rows { pile_rows self.new ≡ pile_rows self.old ++ row ∷ [] }
    {
        let below = self.image;
        let step = Step { row, below };
        let mirror = self.mirror_with(row);
        let counting = self.counting_with(row);
        self.steps.push(step);
        self.image = step.image();
        self.mirror = mirror;
        self.counting = counting;
    }

    // One row more, of the kind with the number: refusal 6 for a ninth row, then 2 for an unknown kind or a parameter
    // outside its range, 8 for a symmetrisation over a counting row, and 3 for the image capacity. A refused row leaves the
    // pile as it was.
    pub fn lay(&mut self, kind: u64, parameter: u64) -> Result<(), Fault>
        ensures answer { result ≡ checked (laid self.old.capacity (pile_rows self.old) kind parameter) }
        ensures capacity { self.new.capacity ≡ self.old.capacity }
        ensures rows { pile_rows self.new ≡ kept_or (pile_rows self.old) (laid self.old.capacity (pile_rows self.old) kind parameter) }
    {
        if self.steps.is_full() {
            return Err(Fault::new(Refusal::TooMany, Layer::Pile, MOST_ROWS as u64));
        }
        // A kind comes as its number, so that an unknown one has its refusal, which names the row and not the number;
        // `map_err` would say these words in a closure.
        let Ok(kind) = Kind::try_from(kind) else {
            return Err(Fault::new(Refusal::Parameter, Layer::Pile, self.steps.len() as u64));
        };
        let row = Row { kind, parameter };
        self.check_row(row)?;
        self.push(row);
        Ok(())
    }

    // The pile of plain rows, laid one after the other, or the first refusal. Every row is laid by its kind's number: a second
    // call, for a known kind, would be proved and read beside the first.
    pub fn from_rows(capacity: u64, rows: &[Row]) -> Result<Pile, Fault>
        ensures { outcome (λ p. (p.capacity, pile_rows p)) result ≡ pile_of capacity rows.now }
    {
        let mut pile = Pile::new(capacity)?;
        for row in rows {
            pile.lay(u64::from(row.kind), row.parameter)?;
        }
        Ok(pile)
    }

    // The rows, plain. Laid again for the same capacity they make the same pile.
    pub fn rows(&self) -> Rows
        ensures rows { rows_in result ≡ pile_rows self.now }
        ensures again { pile_of self.now.capacity (rows_in result) ≡ Ok (self.now.capacity, rows_in result) }
    {
        let mut rows = [Row::default(); MOST_ROWS];
        for (i, step) in self.steps.iter().enumerate() {
            rows[i] = step.row;
        }
        let count = self.steps.len();
        Rows { count, rows }
    }
}
