// The typing rules of CPP and the walk that decides them: definitions and theorems, with no code but the numbers of violations.

#![tactic(auto)]

pub mod theorems;
pub mod violation;

pub use violation::Violation;
