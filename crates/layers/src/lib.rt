// The three layers, each over every implementation of the interface that it takes.
#![tactic(auto)]

pub mod composition;
pub mod scaling;
pub mod symmetrisation;
