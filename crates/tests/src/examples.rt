// What the examples of functions and layers share.
ghost use Rattle.std.specs.Prelude.{◌≡◌, Err};
ghost use Rattle.faults.specs.Faults.{fault, outcome};

use dual_feasible::DualFeasible;
use faults::{Fault, Layer, Refusal};

// The values at four sizes.
pub(crate) fn four<F: DualFeasible>(f: &F, sizes: [u64; 4]) -> Result<[u64; 4], Fault> {
    let [a, b, c, d] = sizes;
    Ok([f.value(a)?, f.value(b)?, f.value(c)?, f.value(d)?])
}

// That a function was made, without the function.
pub(crate) fn made<F: Drop>(answer: Result<F, Fault>) -> Result<(), Fault>
    ensures { result ≡ outcome (λ _. tt) answer }
{
    answer.map(|_| ())
}

// A refusal of the functions' layer, which would be the same word in each call.
pub(crate) fn refused(refusal: Refusal, figure: u64) -> Result<(), Fault>
    ensures { result ≡ Err (fault refusal Layer.Function figure) }
{
    Err(Fault::new(refusal, Layer::Function, figure))
}
