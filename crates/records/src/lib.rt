// What a book knows of its sheets, how it refuses, and the theory that ties both to the law of kept verdicts.

#![tactic(auto)]

pub mod fault;
pub mod record;

pub use fault::{Checked, Fault};
pub use record::Record;
pub use walk::Signature;
