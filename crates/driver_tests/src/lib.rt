// What the driver reports, where memory suffices.

#![tactic(auto)]

#[cfg(test)]
mod tests;
