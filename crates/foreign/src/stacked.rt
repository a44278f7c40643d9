// Layers over the library's functions, as a user stacks them.
ghost use Rattle.std.specs.Prelude.{◌≡◌};
ghost use Rattle.dual_feasible.specs.Answers.{valued};
ghost use Rattle.faults.specs.Faults.{and_then};
ghost use Rattle.functions.specs.Made.{division_made, counting_made};
ghost use Rattle.functions.specs.Values.{division, division_image, counting, counting_image};
ghost use Rattle.layers.specs.Layers.{symmetrised, symmetrisation_made, scaled, scaling_made};

use dual_feasible::DualFeasible;
use faults::Fault;
use functions::counting::Counting;
use functions::division::Division;
use layers::scaling::Scaling;
use layers::symmetrisation::Symmetrisation;

// The value of a size by division k, symmetrised. A counting function in its place does not compile.
pub fn symmetrised_division(capacity: u64, k: u64, size: u64) -> Result<u64, Fault>
    ensures { result ≡ and_then (division_made capacity k) (λ _. and_then (symmetrisation_made {X = Unit} capacity (division_image capacity k) tt) (λ _. valued capacity (symmetrised capacity (division_image capacity k) (division k)) size)) }
{
    let function = Division::new(capacity, k)?;
    let layer = Symmetrisation::new(function)?;
    layer.value(size)
}

// The value of a size by counting e, scaled to a target.
pub fn scaled_counting(capacity: u64, e: u64, target: u64, size: u64) -> Result<u64, Fault>
    ensures { result ≡ and_then (counting_made capacity e) (λ _. and_then (scaling_made {X = Unit} target tt) (λ _. valued capacity (scaled (counting_image capacity e) target (counting capacity e)) size)) }
{
    let function = Counting::new(capacity, e)?;
    let layer = Scaling::new(function, target)?;
    layer.value(size)
}
