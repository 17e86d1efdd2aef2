// One history: calls at random on two books, each foretold by the plain book.
use crate::counts::Counts;
use crate::draft::Frames;
use crate::draft::sheets::{nested, sheet};
use crate::head::some_head;
use crate::lent::{Lengths, Lent};
use crate::plain::Plain;
use crate::random::Random;
use std::alloc::{AllocError, Global};

// The numbers that come next, the plain book, two books in step, and one more to judge by. The host alters areas from outside or not.
#[derive(Drop)]
pub struct Trial {
    random: Random,
    plain: Plain,
    left: Lent,
    right: Lent,
    spare: Lent,
    // whether the last check walked a sheet to its end or fault
    has_walked: bool,
    alters: bool,
}

impl Trial {
    // A history of that seed.
    pub fn new(heap: Global, seed: u64, alters: bool) -> Result<Trial, AllocError> {
        Ok(Trial {
            random: Random::new(seed),
            plain: Plain::new(heap)?,
            left: Lent::new(heap)?,
            right: Lent::new(heap)?,
            spare: Lent::new(heap)?,
            has_walked: false,
            alters,
        })
    }

    // So many calls; the number of the first that differs from what was foretold, if one does.
    pub fn run(&mut self, calls: usize, counts: &mut Counts) -> Option<usize> {
        for call in 0..calls {
            if !self.step(counts) || !self.areas_agree() {
                return Some(call);
            }
        }
        None
    }

    // One call; whether both books answered as foretold.
    fn step(&mut self, counts: &mut Counts) -> bool {
        match self.random.below(20) {
            0..=5 => self.post(counts),
            6..=8 => self.put(counts),
            9 | 10 => self.clear(counts),
            11..=15 => self.check(counts),
            16 | 17 if self.alters => self.alter(counts),
            18 if self.random.once_in(8) => self.fresh(counts),
            _ if self.plain.valid || self.random.once_in(4) => self.question(counts),
            _ => self.check(counts),
        }
    }

    // Whether both books' areas hold what is foretold.
    fn areas_agree(&self) -> bool {
        self.left.holds(&self.plain.frames, &self.plain.column)
            && self.right.holds(&self.plain.frames, &self.plain.column)
    }

    // A sheet's number, mostly one of a few, now and then one that no sheet has.
    fn some_sheet(&mut self) -> u8 {
        let sheets = match self.random.below(12) {
            0 => 256,
            1 | 2 => 32,
            _ => 9,
        };
        u8::try_from(self.random.below(sheets)).unwrap_or(0)
    }

    // Areas of the right length, mostly.
    fn some_lengths(&mut self) -> Lengths {
        match self.random.below(40) {
            0 => Lengths::OtherFrames,
            1 => Lengths::OtherColumn,
            _ => Lengths::Right,
        }
    }

    // A name of a function: one of a few, mostly.
    fn some_name(&mut self) -> u16 {
        let names = if self.random.once_in(4) { 40 } else { 8 };
        self.random.name(names)
    }

    // A sheet of that name to put, written by one who mostly knows the book's functions.
    fn some_frames(&mut self, name: u16) -> Frames {
        if self.random.once_in(30) {
            return nested(name, 32);
        }
        let head = some_head(name, &mut self.random);
        let repeats = self.random.once_in(12);
        let mut known = self.plain.known();
        if let Some(own) = known.get_mut(usize::from(name)) {
            *own = Some(head);
        }
        sheet(name, &head, repeats, known, &mut self.random)
    }

    // The sheet that has the name, mostly, or any.
    fn sheet_for(&mut self, name: u16) -> u8 {
        match self.plain.sheet_of(name) {
            Some(sheet) if !self.random.once_in(6) => sheet,
            _ => self.some_sheet(),
        }
    }
}

pub mod acts;
pub mod checking;
