// Stores of names: a stack of levels, each a table from names to values.

#![tactic(auto)]

mod buckets;
pub mod chains;
pub mod entry;
pub mod pile;
pub mod refusal;
pub mod search;
mod slices;
pub mod store;
mod table;
pub mod tables;
