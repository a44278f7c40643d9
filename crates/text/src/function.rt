// The function that a row names.
ghost use Rattle.std.specs.Prelude.{◌≡◌};
ghost use Rattle.faults.specs.Faults.{outcome};
ghost use Rattle.text.specs.Functions.{function_capacity, function_row, function_image, function_value, function_made};
ghost use Rattle.text.specs.FunctionsLaw.{function_limits, function_lawful};

use crate::kinds::Kind;
use dual_feasible::DualFeasible;
use faults::Fault;
use functions::counting::Counting;
use functions::division::Division;
use functions::rounding::Rounding;
use functions::threshold::Threshold;

// One of the four functions, made for the bar's capacity.
#[derive(Drop)]
pub enum Function {
    Threshold(Threshold),
    Rounding(Rounding),
    Division(Division),
    Counting(Counting),
}

impl Function {
    // The function of a kind with its parameter, else its own refusal.
    pub fn new(capacity: u64, kind: Kind, parameter: u64) -> Result<Function, Fault>
        ensures { outcome (λ f. (function_capacity f, function_row f)) result ≡ function_made capacity kind parameter }
    {
        Ok(match kind {
            Kind::Threshold => Function::Threshold(Threshold::new(capacity, parameter)?),
            Kind::Rounding => Function::Rounding(Rounding::new(capacity, parameter)?),
            Kind::Division => Function::Division(Division::new(capacity, parameter)?),
            Kind::Counting => Function::Counting(Counting::new(capacity, parameter)?),
        })
    }
}

// What fills the unused places of a table of functions.
impl Default for Function {
    fn default() -> Function {
        Function::Threshold(Threshold::new(1, 0).unwrap())
    }
}

impl DualFeasible for Function {
    ghost capacity = { function_capacity };

    ghost image = { function_image };

    ghost map = { function_value };

    ghost limits = { function_limits };

    ghost lawful = { function_lawful };

    fn capacities(&self) -> (u64, u64) {
        match self {
            Function::Threshold(f) => f.capacities(),
            Function::Rounding(f) => f.capacities(),
            Function::Division(f) => f.capacities(),
            Function::Counting(f) => f.capacities(),
        }
    }

    fn value(&self, size: u64) -> Result<u64, Fault> {
        match self {
            Function::Threshold(f) => f.value(size),
            Function::Rounding(f) => f.value(size),
            Function::Division(f) => f.value(size),
            Function::Counting(f) => f.value(size),
        }
    }
}
