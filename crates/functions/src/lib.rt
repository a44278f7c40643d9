// The five dual feasible functions, each made for a capacity. The four with a parameter check its range by an `if` each, as
// scaling does: a shared check would take the same operands, and be no shorter.
#![tactic(auto)]

pub mod counting;
pub mod division;
pub mod identity;
pub mod rounding;
pub mod threshold;
