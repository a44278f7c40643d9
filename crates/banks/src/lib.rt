// Banks: several piles of one capacity, and the greatest of their bounds.
#![tactic(auto)]

mod adding;
pub mod asking;
pub mod bank;
