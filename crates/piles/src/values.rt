// The values of a pile: what each row makes of the value below it, in one walk. The checks of a laid row make any other
// check needless here. So the formulas of the functions stand here once more: a function's own `value` checks the size
// again, and a public function asks nothing of its callers.
ghost use Rattle.std.specs.Prelude.{◌≡◌, ◌+◌, ◌*◌, ◌/◌, ◌≤◌, Some, drop};
ghost use Rattle.dual_feasible.specs.Answers.{valued};
ghost use Rattle.dual_feasible.specs.Laws.{greatest};
ghost use Rattle.functions.specs.Values.{threshold, rounding, counting};
ghost use Rattle.piles.specs.Contents.{pile_rows};
ghost use Rattle.piles.specs.Layered.{layered, layered_image};
ghost use Rattle.piles.specs.Walks.{raised, climbed, Climbs};
ghost use Rattle.piles.specs.LaidLaw.{laid_lawful};
ghost use Rattle.piles.specs.Relaying.{pile_again};

use crate::pile::Pile;
use crate::rows::{Kind, Step};
use dual_feasible::DualFeasible;
use dual_feasible::checks::check_size;
use faults::Fault;

impl Step {
    // The value of a threshold row.
    fn cut_off(self, value: u64) -> u64
        requires { 2 * self.row.parameter ≤ self.below }
        ensures { result ≡ threshold self.below self.row.parameter value }
    {
        let t = self.row.parameter;
        if value > self.below - t {
            return self.below;
        }
        if t <= value { value } else { 0 }
    }

    // The value of a rounding row.
    fn round(self, value: u64) -> u64
        requires range { self.row.parameter ≤ 1000 }
        requires value { value ≤ self.below }
        ensures { result ≡ rounding self.below self.row.parameter value }
    {
        let k = self.row.parameter;
        let scaled = (k + 1) * value;
        if scaled % self.below == 0 {
            return value * k;
        }
        self.below * (scaled / self.below)
    }

    // The value of a counting row.
    fn count(self, value: u64) -> u64
        requires range { 1 ≤ self.row.parameter }
        requires value { value ≤ self.below }
        ensures { result ≡ counting self.below self.row.parameter value }
    {
        let e = self.row.parameter;
        if 2 * value > self.below {
            return self.below / e - (self.below - value) / e;
        }
        u64::from(e <= value)
    }

    // The value of a scaling row.
    fn scale(self, value: u64) -> u64
        requires target { self.row.parameter ≤ greatest }
        requires value { value ≤ self.below }
        ensures { result ≡ value * self.row.parameter / self.below }
    {
        value * self.row.parameter / self.below
    }

    // What the row makes of the value below it.
    fn raise(self, value: u64) -> u64
        requires { value ≤ self.below }
        ensures { result ≡ raised self.row.kind self.below self.row.parameter value }
    {
        match self.row.kind {
            Kind::Threshold => self.cut_off(value),
            Kind::Rounding => self.round(value),
            Kind::Division => value / self.row.parameter,
            Kind::Counting => self.count(value),
            Kind::Symmetrisation => 2 * value,
            Kind::Scaling => self.scale(value),
        }
    }
}

// A value carried up some steps. A `fold` would ask that its closure takes any value, where `raise` takes one in range.
fn climb(steps: &[Step], start: u64) -> u64
    requires { Climbs start steps.now }
    ensures { result ≡ climbed start steps.now }
{
    let mut value = start;
    for step in steps {
        value = step.raise(value);
    }
    value
}

impl Pile {
    // The value of the topmost symmetrisation, row `top`, which the steps above it carry up. The steps beneath it are asked
    // below half the capacity alone, where every symmetrisation among them only doubles.
    #[tactic(auto, using(crate::proofs::Mirroring::around_top))]
    fn mirrored(&self, top: usize, size: u64) -> u64
        requires top { self.now.mirror ≡ Some top }
        requires size { size ≤ self.now.capacity }
        ensures climbs { Climbs result (drop (top + 1) self.now.steps.items) }
        ensures value { climbed result (drop (top + 1) self.now.steps.items) ≡ layered self.now.capacity (pile_rows self.now) size }
    {
        let steps = self.steps.as_slice();
        let beneath = &steps[..top];
        let below = steps[top].below;
        if 2 * size < self.capacity {
            return 2 * climb(beneath, size);
        }
        if 2 * size == self.capacity {
            return below;
        }
        2 * below - 2 * climb(beneath, self.capacity - size)
    }

    // The value of all rows at a size up to the capacity. The topmost symmetrisation alone has to mirror.
    #[tactic(auto, using(crate::proofs::Mirroring::inside, crate::proofs::Climbing::values_climbed))]
    fn stacked(&self, size: u64) -> u64
        requires { size ≤ self.now.capacity }
        ensures { result ≡ layered self.now.capacity (pile_rows self.now) size }
    {
        match self.mirror {
            None => climb(&self.steps, size),
            Some(top) => climb(&self.steps[top + 1..], self.mirrored(top, size)),
        }
    }
}

// A pile has the values of the layered function of the same make, by the definitions that the functions and the layers
// have their own meaning by.
impl DualFeasible for Pile {
    ghost capacity = { λ p. p.capacity };

    ghost image = { λ p. layered_image p.capacity (pile_rows p) };

    ghost map = { λ p. layered p.capacity (pile_rows p) };

    ghost limits = { λ p. let l = laid_lawful p.capacity (pile_rows p) (pile_again p) in (l.1, l.2) };

    ghost lawful = { λ p. (laid_lawful p.capacity (pile_rows p) (pile_again p)).0 };

    fn capacities(&self) -> (u64, u64)
        ensures { result ≡ (self.now.capacity, layered_image self.now.capacity (pile_rows self.now)) }
    {
        (self.capacity, self.image)
    }

    fn value(&self, size: u64) -> Result<u64, Fault>
        ensures { result ≡ valued self.now.capacity (layered self.now.capacity (pile_rows self.now)) size }
    {
        check_size(self.capacity, size)?;
        Ok(self.stacked(size))
    }
}
