// The input of a program: how it is read, and how it is cut into pieces, one a sheet.

#![tactic(auto)]

mod pieces;
mod reading;

pub use pieces::{Pieces, cut};
pub use reading::{LONGEST, read_input};

// So many frames there are to read a piece into: one more than a sheet may have, so that form sees a sheet that is too long.
pub const FRAMES: usize = 257;
