// A book of the library with areas of its own, and its calls with their answers in numbers.
use book::{Book, Checked, Fault};
use frames::{Formed, form, read};
use levels::store::{Declaring, Looking};
use std::alloc::{AllocError, Global};
use syntax::{Diagnostic, Frame};

// So many frames and bytes; the areas of another length that calls are now and then lent have fewer.
const AREA: usize = 8192;

const OTHER: usize = 9;

// The areas that a call is lent.
#[derive(Clone, Copy, PartialEq, Eq)]
pub enum Lengths {
    Right,
    OtherFrames,
    OtherColumn,
}

impl Lengths {
    // The length of the frames.
    pub fn frames(self) -> usize {
        if self == Lengths::OtherFrames {
            OTHER
        } else {
            AREA
        }
    }

    // The length of the column.
    pub fn column(self) -> usize {
        if self == Lengths::OtherColumn {
            OTHER
        } else {
            AREA
        }
    }
}

// The book, its frames and its column.
#[derive(Drop)]
pub struct Lent {
    book: Book,
    pub frames: Vec<Frame>,
    pub column: Vec<u8>,
}

// The four numbers of a fault.
fn numbers(fault: Fault) -> [usize; 4] {
    let d = Diagnostic::from(fault);
    [
        usize::from(d.number),
        usize::from(d.layer),
        usize::from(d.sheet),
        d.place,
    ]
}

// The four numbers of a refusal, or zeros for a call that was done.
fn told(answer: Result<(), Fault>) -> [usize; 4] {
    answer.err().map_or([0; 4], numbers)
}

// How many were walked, and the four numbers of the fault or zeros; a refused check has 99 walked.
fn told_check(answer: Result<Checked, Fault>) -> [usize; 5] {
    let (walked, [number, layer, sheet, place]) = match answer {
        Err(fault) => (99, numbers(fault)),
        Ok(checked) => (checked.walked, checked.fault.map_or([0; 4], numbers)),
    };
    [walked, number, layer, sheet, place]
}

impl Lent {
    // A new book over areas that hold something, and then made fresh.
    pub fn new(heap: Global) -> Result<Lent, AllocError> {
        let mut lent = Lent {
            book: Book::new(),
            frames: vec![in heap; Frame {
                kind: 9,
                ..Frame::BLANK
            }; AREA]?,
            column: vec![in heap; 7u8; AREA]?,
        };
        let _ = lent.fresh(Lengths::Right);
        Ok(lent)
    }

    // A call of fresh.
    pub fn fresh(&mut self, lengths: Lengths) -> [usize; 4] {
        let (mut frames, mut column) = ([Frame::BLANK; OTHER], [0; OTHER]);
        told(match lengths {
            Lengths::Right => self.book.fresh(&mut self.frames, &mut self.column),
            Lengths::OtherFrames => self.book.fresh(&mut frames, &mut self.column),
            Lengths::OtherColumn => self.book.fresh(&mut self.frames, &mut column),
        })
    }

    // A call of put.
    pub fn put(&mut self, sheet: u8, formed: &Formed, lengths: Lengths) -> [usize; 4] {
        let (mut frames, mut column) = ([Frame::BLANK; OTHER], [0; OTHER]);
        told(match lengths {
            Lengths::Right => {
                self.book
                    .put(sheet, formed, &mut self.frames, &mut self.column)
            }
            Lengths::OtherFrames => self.book.put(sheet, formed, &mut frames, &mut self.column),
            Lengths::OtherColumn => self.book.put(sheet, formed, &mut self.frames, &mut column),
        })
    }

    // Reads, forms and puts by three calls.
    pub fn put_text(&mut self, text: &[u8], sheet: u8, room: &mut [Frame]) -> [usize; 4] {
        let count = match read(text, room) {
            Err(fault) => return numbers(Fault::Posted(fault, sheet)),
            Ok(count) => count,
        };
        self.put_frames(sheet, room.get(..count).unwrap_or(&[]))
    }

    // Forms and puts.
    pub fn put_frames(&mut self, sheet: u8, frames: &[Frame]) -> [usize; 4] {
        let mut formed = Formed::new();
        match form(frames, &mut formed) {
            Err(fault) => numbers(Fault::Posted(fault, sheet)),
            Ok(()) => self.put(sheet, &formed, Lengths::Right),
        }
    }

    // A call of post.
    pub fn post(&mut self, text: &[u8], sheet: u8, room: &mut [Frame]) -> [usize; 4] {
        told(
            self.book
                .post(text, sheet, room, &mut self.frames, &mut self.column),
        )
    }

    // A call of clear.
    pub fn clear(&mut self, sheet: u8, lengths: Lengths) -> [usize; 4] {
        let (mut frames, mut column) = ([Frame::BLANK; OTHER], [0; OTHER]);
        told(match lengths {
            Lengths::Right => self.book.clear(sheet, &mut self.frames, &mut self.column),
            Lengths::OtherFrames => self.book.clear(sheet, &mut frames, &mut self.column),
            Lengths::OtherColumn => self.book.clear(sheet, &mut self.frames, &mut column),
        })
    }

    // A call of check.
    pub fn check<H: Declaring<u64>, S: Declaring<u8>>(
        &mut self,
        lengths: Lengths,
        heads: &mut H,
        variables: &mut S,
    ) -> [usize; 5] {
        let (frames, mut column) = ([Frame::BLANK; OTHER], [0; OTHER]);
        told_check(match lengths {
            Lengths::Right => {
                self.book
                    .check(&self.frames, &mut self.column, heads, variables)
            }
            Lengths::OtherFrames => self.book.check(&frames, &mut self.column, heads, variables),
            Lengths::OtherColumn => self.book.check(&self.frames, &mut column, heads, variables),
        })
    }

    // The number of the type at a place, or 0 for none; 100 and its number for a refused question, 200 and its number for a refused reader.
    pub fn type_at(&self, sheet: u8, place: usize, lengths: Lengths) -> usize {
        let (frames, column) = ([Frame::BLANK; OTHER], [0; OTHER]);
        let made = match lengths {
            Lengths::Right => self.book.reader(&self.frames, &self.column),
            Lengths::OtherFrames => self.book.reader(&frames, &self.column),
            Lengths::OtherColumn => self.book.reader(&self.frames, &column),
        };
        match made {
            Err(fault) => numbers(fault)[0].saturating_add(200),
            Ok(reader) => match reader.type_at(sheet, place) {
                Err(fault) => numbers(fault)[0].saturating_add(100),
                Ok(t) => t.map_or(0, |t| usize::from(u8::from(t))),
            },
        }
    }

    // Whether the areas hold the same.
    pub fn holds(&self, frames: &[Frame], column: &[u8]) -> bool {
        self.frames.as_slice() == frames && self.column.as_slice() == column
    }

    // The host writes a frame from outside.
    pub fn alter(&mut self, place: usize, frame: Frame) {
        if let Some(there) = self.frames.get_mut(place) {
            *there = frame;
        }
    }

    // The host writes a byte of the column from outside.
    pub fn stain(&mut self, place: usize, number: u8) {
        if let Some(there) = self.column.get_mut(place) {
            *there = number;
        }
    }
}
