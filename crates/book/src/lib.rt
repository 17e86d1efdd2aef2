// A book of 32 sheets over lent areas: put, clear and post edit it, check walks what is due, a reader tells types.

#![tactic(auto)]

mod areas;
pub mod book;
pub mod reader;
mod sheet;
mod table;

pub use book::Book;
pub use reader::Reader;
pub use records::{Checked, Fault};
