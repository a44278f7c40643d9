// Piles: lawful functions that are built row by row as a program runs.
#![tactic(auto)]

mod laying;
pub mod pile;
pub mod rows;
pub mod values;
