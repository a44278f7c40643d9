// Plans of a cutting list. This crate is definitions and lemmas alone: see specs/Plans.antt.
#![tactic(auto)]
