// A book of 32 sheets. The host lends frames and a column to each call, as two slices of any length: a struct of both would be
// one more word of the interface, so the calls take two parameters.
use crate::table::Table;

// The records of its sheets, and whether its last accepted edit or check was a check that found it valid: a mark and no type of its
// own, since the host keeps one book through all its states.
#[derive(Drop)]
pub struct Book {
    table: Table,
    valid: bool,
}

pub mod checking;
pub mod editing;
pub mod opening;
