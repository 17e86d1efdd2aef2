// The calls of a history, and the alterations from outside.
use super::Trial;
use crate::counts::{Act, Counts, more};
use crate::draft::frame;
use crate::lent::Lengths;
use crate::letter::Letter;
use crate::plain::{AREA, SHEETS};
use crate::stores::first;
use frames::{Formed, form};
use syntax::Frame;

// What stands in the room before a post reads into it.
const JUNK: Frame = Frame {
    kind: 7,
    t: 7,
    name: 7,
    load: 7,
};

impl Trial {
    // Posts a text, by one call and by three.
    pub(crate) fn post(&mut self, counts: &mut Counts) -> bool {
        let name = self.some_name();
        let mut letter = Letter::new(self.some_frames(name));
        if self.random.once_in(4) {
            letter.damage(&mut self.random);
        }
        let k = self.sheet_for(name);
        let foretold = match letter.refused_on(k) {
            Some(refused) => refused,
            None => self.plain.put(k, letter.frames.as_slice(), AREA, AREA),
        };
        counts.count(Act::Post, foretold[0]);
        let mut room = [JUNK; 257];
        let mut other = [JUNK; 257];
        let lent = first(&mut room, letter.room);
        let left = self.left.post(letter.text(), k, lent);
        let lent = first(&mut other, letter.room);
        let right = self.right.put_text(letter.text(), k, lent);
        left == foretold
            && right == foretold
            && letter.was_read(&room, JUNK)
            && letter.was_read(&other, JUNK)
    }

    // Puts a formed sheet.
    pub(crate) fn put(&mut self, counts: &mut Counts) -> bool {
        let name = self.some_name();
        let frames = self.some_frames(name);
        let mut formed = Formed::new();
        if form(frames.as_slice(), &mut formed).is_err() {
            return false;
        }
        let (k, lengths) = (self.sheet_for(name), self.some_lengths());
        let foretold = self
            .plain
            .put(k, frames.as_slice(), lengths.frames(), lengths.column());
        counts.count(Act::Put, foretold[0]);
        self.left.put(k, &formed, lengths) == foretold
            && self.right.put(k, &formed, lengths) == foretold
    }

    // Clears a sheet.
    pub(crate) fn clear(&mut self, counts: &mut Counts) -> bool {
        let name = self.some_name();
        let (k, lengths) = (self.sheet_for(name), self.some_lengths());
        let foretold = self.plain.clear(k, lengths.frames(), lengths.column());
        counts.count(Act::Clear, foretold[0]);
        self.left.clear(k, lengths) == foretold && self.right.clear(k, lengths) == foretold
    }

    // Makes the book fresh.
    pub(crate) fn fresh(&mut self, counts: &mut Counts) -> bool {
        let lengths = match self.random.below(4) {
            0 => Lengths::OtherFrames,
            1 => Lengths::OtherColumn,
            _ => Lengths::Right,
        };
        let foretold = self.plain.fresh(lengths.frames(), lengths.column());
        counts.count(Act::Fresh, foretold[0]);
        self.left.fresh(lengths) == foretold && self.right.fresh(lengths) == foretold
    }

    // Asks for the type at a place.
    pub(crate) fn question(&mut self, counts: &mut Counts) -> bool {
        let (k, lengths) = (self.some_sheet(), self.some_lengths());
        let place = self.random.below(300);
        let (number, foretold) = if lengths != Lengths::Right {
            (32, 232)
        } else if !self.plain.valid {
            (36, 236)
        } else if k >= SHEETS {
            (31, 131)
        } else {
            (0, self.plain.type_at(k, place))
        };
        counts.count(Act::Question, number);
        self.left.type_at(k, place, lengths) == foretold
            && self.right.type_at(k, place, lengths) == foretold
    }

    // A frame that may be or not be allowed where it is written.
    fn some_frame(&mut self) -> Frame {
        let name = self.random.name(12);
        match self.random.below(9) {
            0 => frame(0x20, 0, 0, 0),
            1 => frame(0x22, 0, 0, 5),
            2 => frame(0x23, 0, 0, 5),
            3 => frame(0x25, 0, name, 0),
            4 => frame(0x02, self.random.code(4), name, 0),
            5 => frame(0x26, 0, name, 0),
            6 => frame(0x30, 0, 0, 0),
            7 => frame(0x14, 0, 0, 0),
            _ => frame(0x01, self.random.code(5), name, 0),
        }
    }

    // The frame that stands at a place, with another name, type or load.
    fn tweaked(&mut self, place: usize) -> Frame {
        let there = self.plain.frame_at(place);
        match self.random.below(4) {
            0 | 1 => Frame {
                name: self.random.name(12),
                ..there
            },
            2 => Frame {
                t: self.random.code(5),
                ..there
            },
            _ => Frame {
                load: there.load.saturating_add(1),
                ..there
            },
        }
    }

    // The host writes a number into the column, a frame with one field altered, or another frame.
    pub(crate) fn alter(&mut self, counts: &mut Counts) -> bool {
        more(&mut counts.alterations);
        let sheet = self.random.below(9);
        let places = if self.random.once_in(2) { 4 } else { 24 };
        let place = sheet
            .saturating_mul(256)
            .saturating_add(self.random.below(places));
        match self.random.below(4) {
            0 => {
                let number = self.random.code(8).saturating_sub(1);
                self.stain_all(place, number);
            }
            1 | 2 => {
                let frame = self.tweaked(place);
                self.alter_all(place, frame);
            }
            _ => {
                let frame = self.some_frame();
                self.alter_all(place, frame);
            }
        }
        true
    }

    // Writes a number into each column.
    fn stain_all(&mut self, place: usize, number: u8) {
        self.plain.stain(place, number);
        self.left.stain(place, number);
        self.right.stain(place, number);
    }

    // Writes a frame into each area.
    fn alter_all(&mut self, place: usize, frame: Frame) {
        self.plain.alter(place, frame);
        self.left.alter(place, frame);
        self.right.alter(place, frame);
    }
}
