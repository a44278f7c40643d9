// A cutting list as text: what is read of it, and what is printed. What the rows of a text are kept in, and their words,
// are left to an implementation.
#![tactic(auto)]

pub mod listing;
pub mod parsing;
pub mod printing;
pub mod reading;
pub mod rows;
