// A reader of types, which stands only on a valid book.
use crate::areas::{Column, Frames};
use crate::table::Table;

// It borrows the book's records and both areas, so that none of them changes while it stands.
#[derive(Drop)]
pub struct Reader<'a> {
    pub(crate) table: &'a Table,
    pub(crate) frames: &'a Frames,
    pub(crate) column: &'a Column,
}

pub mod asking;
