// The lower figure of a cutting list.
ghost use Rattle.std.specs.Prelude.{◌≡◌, ℕ, List, [], ◌∷◌, Ok};
ghost use Rattle.banks.specs.Contents.{bank_piles};
ghost use Rattle.faults.specs.Faults.{outcome};
ghost use Rattle.piles.specs.Contents.{pile_rows};
ghost use Rattle.piles.specs.declared.rows.Row.{Row as RowOf};
ghost use Rattle.pile_text.specs.Guarantee.{no_fewer_bars};
ghost use Rattle.pile_text.specs.Lower.{lower_of};

use crate::laid::LaidRows;
use banks::bank::Bank;
use bounds::Bounder;
use bounds::function_bound::FunctionBound;
use bounds::greater::Greater;
use dual_feasible::DualFeasible;
use faults::Fault;
use functions::identity::Identity;
use listings::printing::Bounding;
use piles::pile::Pile;

// The program's bounder: the greater of the identity's bound and a bank that holds the pile.
fn bounder_of(pile: &Pile) -> Result<Greater<FunctionBound<Identity>, Bank>, Fault>
    ensures { outcome {Y = ℕ × ℕ × List (List RowOf)} (λ b. (b.first.function.capacity, b.second.capacity, bank_piles b.second)) result ≡ Ok (pile.now.capacity, pile.now.capacity, pile_rows pile.now ∷ []) }
{
    let (capacity, _) = pile.capacities();
    let identity = FunctionBound::new(Identity::new(capacity)?);
    let mut bank = Bank::new(capacity)?;
    bank.add(pile)?;
    Greater::new(identity, bank)
}

impl Bounding for LaidRows {
    ghost figure = { lower_of };

    ghost sound = { no_fewer_bars };

    // The number of the cuts by the program's bounder.
    fn lower_figure(&self, cuts: &[u64]) -> Result<u64, Fault> {
        let bounder = bounder_of(&self.pile)?;
        bounder.number(cuts)
    }
}
