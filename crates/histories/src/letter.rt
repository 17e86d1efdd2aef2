// Texts to post, good or damaged in one known way.
use crate::draft::sheets::nested;
use crate::draft::{Frames, frame};
use crate::random::Random;
use codec::write;
use syntax::Frame;

// Room for the text of the longest list of frames.
const LONGEST: usize = 4400;

// A line of the text.
const LINE: usize = 17;

// So many frames may a sheet have; a host hands over room for one more.
const PLACES: usize = 256;

// A text, the room to read into, and how reading or form must refuse it: number, layer and place, if they do.
#[derive(Drop)]
pub struct Letter {
    text: [u8; LONGEST],
    length: usize,
    pub room: usize,
    refusal: Option<[usize; 3]>,
    pub frames: Frames,
}

impl Letter {
    // The text of the frames, which are a sheet.
    pub fn new(frames: Frames) -> Letter {
        let mut letter = Letter {
            text: [0; LONGEST],
            length: 0,
            room: PLACES + 1,
            refusal: None,
            frames,
        };
        letter.spell();
        letter
    }

    // Writes the text of the frames.
    fn spell(&mut self) {
        self.length = write(self.frames.as_slice(), &mut self.text).unwrap_or(0);
    }

    // The text.
    pub fn text(&self) -> &[u8] {
        self.text.get(..self.length).unwrap_or(&[])
    }

    // What a post of it on that sheet answers, where reading or form refuses it.
    pub fn refused_on(&self, sheet: u8) -> Option<[usize; 4]> {
        let [number, layer, place] = self.refusal?;
        Some([number, layer, usize::from(sheet), place])
    }

    // How many frames reading leaves in the room.
    fn count_read(&self) -> usize {
        let Some(refusal) = self.refusal else {
            return self.frames.len();
        };
        let [_, layer, place] = refusal;
        if layer == 1 { place } else { self.frames.len() }
    }

    // Whether the room holds the frames that were read, and the rest as it was.
    pub fn was_read(&self, room: &[Frame], before: Frame) -> bool {
        let count = self.count_read();
        for (i, there) in room.iter().enumerate() {
            let wanted = if i < count {
                self.frames.as_slice().get(i).copied().unwrap_or(before)
            } else {
                before
            };
            if *there != wanted {
                return false;
            }
        }
        true
    }

    // A place of its frames.
    fn some_place(&self, random: &mut Random) -> usize {
        random.below(self.frames.len())
    }

    // Another frame at a place.
    fn replace(&mut self, place: usize, frame: Frame) {
        if let Some(there) = self.frames.get_mut(place) {
            *there = frame;
        }
    }

    // Damages the text or its frames in one of twelve ways, and notes the refusal.
    pub fn damage(&mut self, random: &mut Random) {
        let place = self.some_place(random);
        match random.below(12) {
            0 => return self.spoil(place, random),
            1 => return self.narrow(place),
            2 => return self.cut(),
            3 => self.endless(),
            4 => self.go_on(),
            5 => self.wrong(place, 21, frame(0x3D, 0, 0, 0)),
            6 => self.wrong(place, 21, frame(0x0F, 1, 2, 3)),
            7 => self.wrong(place, 22, frame(0x20, 0, 0, 1)),
            8 => self.wrong(place, 22, frame(0x25, 1, 4, 0)),
            9 => self.misplaced(place),
            10 => self.too_deep(),
            _ => self.too_long(),
        }
        self.spell();
    }

    // One byte that is no digit.
    fn spoil(&mut self, place: usize, random: &mut Random) {
        let i = place
            .saturating_mul(LINE)
            .saturating_add(random.below(LINE));
        if let Some(byte) = self.text.get_mut(i) {
            *byte = b'g';
        }
        self.refusal = Some([11, 1, place]);
    }

    // Less room than frames.
    fn narrow(&mut self, place: usize) {
        self.room = place;
        self.refusal = Some([12, 1, place]);
    }

    // The last line is cut short.
    fn cut(&mut self) {
        self.length = self.length.saturating_sub(1);
        self.refusal = Some([11, 1, self.frames.len().saturating_sub(1)]);
    }

    // END is missing, or everything is.
    fn endless(&mut self) {
        let _ = self.frames.pop();
        self.refusal = Some([25, 2, self.frames.len()]);
    }

    // A frame after END.
    fn go_on(&mut self) {
        if self.frames.len() < PLACES {
            self.refusal = Some([26, 2, self.frames.len()]);
            let _ = self.frames.try_push(frame(0x14, 0, 0, 0));
        }
    }

    // A frame that no place allows.
    fn wrong(&mut self, place: usize, number: usize, frame: Frame) {
        self.refusal = Some([number, 2, place]);
        self.replace(place, frame);
    }

    // A frame that this place doesn't allow.
    fn misplaced(&mut self, place: usize) {
        let other = if place == 0 {
            frame(0x03, 0, 0, 0)
        } else {
            frame(0x01, 5, 0, 0)
        };
        self.wrong(place, 23, other);
    }

    // One block too deep.
    fn too_deep(&mut self) {
        self.frames = nested(0, 33);
        self.refusal = Some([24, 2, 33]);
    }

    // One frame too many.
    fn too_long(&mut self) {
        self.frames = nested(0, 128);
        let _ = self.frames.pop();
        self.refusal = Some([20, 2, PLACES]);
    }
}
