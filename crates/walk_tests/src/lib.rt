// Sheets examined over both stores.

#![tactic(auto)]

pub mod sheets;
#[cfg(test)]
mod tests;
