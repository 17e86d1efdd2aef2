// A third store of names, and tests of all three.

#![tactic(auto)]

pub mod single;
#[cfg(test)]
mod tests;
