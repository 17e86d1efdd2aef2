// The text of frames: reading and writing.

#![tactic(auto)]

pub mod text;

pub use text::{read, write};
