// The walk over one sheet: its frames in order, each judged with the heads and the levels of variables.

#![tactic(auto)]

mod codes;
pub mod examining;
mod expression;
mod machine;
mod operands;
pub mod params;
mod place;
mod running;
pub mod signature;
pub mod theorems;
mod variables;
pub mod verdict;

pub use examining::examine;
pub use params::{head_of, repeated_parameter};
pub use signature::Signature;
pub use verdict::{Refusal, Verdict};
