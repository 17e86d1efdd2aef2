// Tests of the frames crate.

#![tactic(auto)]

#[cfg(test)]
mod form_tests;
#[cfg(test)]
mod text_tests;
