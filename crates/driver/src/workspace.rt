// A book with the memory that its calls are lent.
ghost use Rattle.std.specs.Prelude.{◌≡◌, vec_len};

use book::Book;
use std::alloc::{AllocError, Global};
use syntax::Frame;

// So many places has an area.
const AREA: usize = 8192;

// A book and its areas of frames and of types: two areas, as the book's calls take them.
#[derive(Drop)]
pub(crate) struct Workspace {
    book: Book,
    frames: Vec<Frame>,
    column: Vec<u8>,
    ghost wide: { vec_len frames ≡ 8192 },
    ghost long: { vec_len column ≡ 8192 },
}

impl Workspace {
    // A new book over areas of its own.
    pub(crate) fn new(heap: Global) -> Result<Self, AllocError> {
        Ok(Workspace {
            book: Book::new(),
            frames: vec![in heap; Frame::BLANK; AREA]?,
            column: vec![in heap; 0u8; AREA]?,
        })
    }
}

mod running;
mod writing;
