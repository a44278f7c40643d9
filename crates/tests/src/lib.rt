// Examples, run through the public calls.
#![tactic(auto)]

#[cfg(test)]
mod bounders_tests;
#[cfg(test)]
mod examples;
#[cfg(test)]
mod functions_tests;
#[cfg(test)]
mod layers_tests;
#[cfg(test)]
mod pile_text_tests;
#[cfg(test)]
mod piles_tests;
#[cfg(test)]
mod text_tests;
#[cfg(test)]
mod texts;
