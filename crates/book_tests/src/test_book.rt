// A book with areas of its own, to try calls on.
use book::{Book, Checked, Fault};
use frames::{Formed, form};
use levels::chains::Chains;
use levels::entry::Entry;
use levels::pile::Pile;
use levels::store::{Declaring, Looking};
use std::alloc::{AllocError, Global};
use syntax::{Diagnostic, Frame};

// The book, its frames and its column: two areas, as the book's calls take them.
#[derive(Drop)]
pub struct TestBook {
    book: Book,
    frames: Vec<Frame>,
    column: Vec<u8>,
}

// The four numbers of a refusal, or zeros for a call that was done. (Numbers, here and in the cases: they are what hosts are promised.)
pub fn told(answer: Result<(), Fault>) -> [usize; 4] {
    answer.err().map_or([0; 4], numbers)
}

// The four numbers of a fault.
pub fn numbers(fault: Fault) -> [usize; 4] {
    let d = Diagnostic::from(fault);
    [
        d.number as usize,
        d.layer as usize,
        d.sheet as usize,
        d.place,
    ]
}

// How many were walked, and the four numbers of the fault or zeros; a refused check has 99 walked.
pub fn answered(answer: Result<Checked, Fault>) -> [usize; 5] {
    let (walked, [number, layer, sheet, place]) = match answer {
        Err(fault) => (99, numbers(fault)),
        Ok(checked) => (checked.walked, checked.fault.map_or([0; 4], numbers)),
    };
    [walked, number, layer, sheet, place]
}

// The place in an area of a place of a sheet.
fn at(sheet: usize, place: usize) -> usize {
    sheet.saturating_mul(256).saturating_add(place)
}

// An entry of a store.
pub fn entry<V>(name: u16, value: V, next: Option<usize>) -> Entry<V> {
    Entry { name, value, next }
}

impl TestBook {
    // A fresh book over areas that held something.
    pub fn new(heap: Global) -> Result<TestBook, AllocError> {
        let mut frames = vec![in heap; Frame {
            kind: 9,
            ..Frame::BLANK
        }; 8192]?;
        let mut column = vec![in heap; 7u8; 8192]?;
        let mut book = Book::new();
        let _ = book.fresh(&mut frames, &mut column);
        Ok(TestBook {
            book,
            frames,
            column,
        })
    }

    // Forms the frames and puts the sheet.
    pub fn put(&mut self, sheet: u8, frames: &[Frame]) -> [usize; 4] {
        let mut formed = Formed::new();
        if let Err(fault) = form(frames, &mut formed) {
            return numbers(Fault::Posted(fault, sheet));
        }
        self.put_formed(sheet, &formed)
    }

    // Puts a formed sheet.
    pub fn put_formed(&mut self, sheet: u8, formed: &Formed) -> [usize; 4] {
        told(
            self.book
                .put(sheet, formed, &mut self.frames, &mut self.column),
        )
    }

    // A fresh book over a column that is too short.
    pub fn fresh_short(&mut self) -> [usize; 4] {
        told(self.book.fresh(&mut self.frames, &mut [0; 9]))
    }

    // A check over such a column.
    pub fn check_short(&mut self) -> [usize; 5] {
        let mut entries = [entry(0, 0u64, None); 256];
        let mut room = [entry(0, 0u8, None); 256];
        let mut heads = Pile::new(&mut entries);
        let mut variables = Pile::new(&mut room);
        answered(
            self.book
                .check(&self.frames, &mut [0; 9], &mut heads, &mut variables),
        )
    }

    // A check with a store of heads that has an entry too few.
    pub fn check_small(&mut self) -> [usize; 5] {
        let mut entries = [entry(0, 0u64, None); 255];
        let mut room = [entry(0, 0u8, None); 256];
        let mut heads = Pile::new(&mut entries);
        let mut variables = Pile::new(&mut room);
        self.check_with(&mut heads, &mut variables)
    }

    // The type that a reader over such a column gives.
    pub fn type_short(&self, sheet: u8, place: usize) -> usize {
        self.type_over(&[0; 9], sheet, place)
    }

    // Puts over a column that is too short.
    pub fn put_short(&mut self, sheet: u8, formed: &Formed) -> [usize; 4] {
        told(self.book.put(sheet, formed, &mut self.frames, &mut [0; 9]))
    }

    // Reads, forms and puts.
    pub fn post(&mut self, sheet: u8, text: &[u8]) -> [usize; 4] {
        let mut room = [Frame::BLANK; 9];
        told(
            self.book
                .post(text, sheet, &mut room, &mut self.frames, &mut self.column),
        )
    }

    // Empties a sheet.
    pub fn clear(&mut self, sheet: u8) -> [usize; 4] {
        told(self.book.clear(sheet, &mut self.frames, &mut self.column))
    }

    // A check with a pile for the heads and chains for the variables, both over used entries.
    pub fn check(&mut self) -> [usize; 5] {
        let mut entries = [entry(7, 5u64, Some(9)); 256];
        let mut room = [entry(7, 3u8, Some(9)); 256];
        let mut heads = Pile::new(&mut entries);
        let mut variables = Chains::new(&mut room);
        answered(
            self.book
                .check(&self.frames, &mut self.column, &mut heads, &mut variables),
        )
    }

    // A check with other stores, of any kind.
    pub fn check_with<H: Declaring<u64>, S: Declaring<u8>>(
        &mut self,
        heads: &mut H,
        variables: &mut S,
    ) -> [usize; 5] {
        answered(
            self.book
                .check(&self.frames, &mut self.column, heads, variables),
        )
    }

    // The host writes a frame into a sheet from outside.
    pub fn alter(&mut self, sheet: usize, place: usize, frame: Frame) {
        if let Some(there) = self.frames.get_mut(at(sheet, place)) {
            *there = frame;
        }
    }

    // The host writes a number into the column from outside.
    pub fn mark(&mut self, sheet: usize, place: usize, number: u8) {
        if let Some(there) = self.column.get_mut(at(sheet, place)) {
            *there = number;
        }
    }

    // The number in the column.
    pub fn number(&self, sheet: usize, place: usize) -> usize {
        self.column
            .get(at(sheet, place))
            .map_or(999, |n| *n as usize)
    }

    // The type that the reader gives.
    pub fn type_at(&self, sheet: u8, place: usize) -> usize {
        self.type_over(&self.column, sheet, place)
    }

    // The type that a reader over this column gives: 0 for none, 100 and the number for a refused question, 200 and the number
    // for a refused reader.
    fn type_over(&self, column: &[u8], sheet: u8, place: usize) -> usize {
        match self.book.reader(&self.frames, column) {
            Err(fault) => 200usize.saturating_add(numbers(fault)[0]),
            Ok(reader) => match reader.type_at(sheet, place) {
                Err(fault) => 100usize.saturating_add(numbers(fault)[0]),
                Ok(t) => t.map_or(0, |t| u8::from(t) as usize),
            },
        }
    }
}
