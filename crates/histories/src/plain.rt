// A plain book, kept from the calls' arguments alone by the sentences of docs/book.md: what each call must answer, what the areas must
// hold, and which sheets are due. Only the verdict on a sheet comes from elsewhere (judge.rt).
use crate::head::{Head, Known};
use std::alloc::{AllocError, Global};
use syntax::Frame;

pub const SHEETS: u8 = 32;

pub const AREA: usize = 8192;

// A sheet's frames in an area, and its bytes in a column.
const PLACES: usize = 256;

// The kind of a call.
const CALL: u8 = 0x26;

// What a call answers that was done: no number, layer, sheet and place.
pub const DONE: [usize; 4] = [0; 4];

// A filled sheet. The verdict is that of its last walk: number, layer and place of a fault, or zeros.
#[derive(Clone, Copy)]
pub struct Entry {
    pub name: u16,
    pub head: Head,
    pub end: usize,
    pub due: bool,
    pub verdict: [usize; 3],
}

// The 32 sheets, and what the areas must hold; whether the last accepted edit or check was a check that found it valid; and whether
// nothing was altered from outside since the last accepted fresh.
#[derive(Drop)]
pub struct Plain {
    entries: [Option<Entry>; 32],
    pub frames: Vec<Frame>,
    pub column: Vec<u8>,
    pub valid: bool,
    pub clean: bool,
}

// The places of a sheet in an area.
pub fn part<T>(area: &[T], sheet: u8) -> &[T] {
    let start = usize::from(sheet) * PLACES;
    area.get(start..start + PLACES).unwrap_or(&[])
}

// Writes the sheet's part of an area: these, and then the other value.
pub fn write_part<T: Copy>(area: &mut [T], sheet: u8, part: &[T], rest: T) {
    let start = usize::from(sheet) * PLACES;
    for i in 0..PLACES {
        if let Some(there) = area.get_mut(start + i) {
            *there = part.get(i).copied().unwrap_or(rest);
        }
    }
}

// The head that the entries give to a name.
fn head_of(entries: &[Option<Entry>], name: u16) -> Option<Head> {
    for slot in entries {
        if let Some(entry) = slot {
            if entry.name == name {
                return Some(entry.head);
            }
        }
    }
    None
}

// The name, the head and the count of parameters' frames that stand at the front of a sheet.
pub fn front(sheet: &[Frame]) -> (u16, Head) {
    let Some(first) = sheet.first() else {
        return (0, Head::new(&[], 0));
    };
    let mut types = [0u8; 16];
    let count = usize::try_from(first.load).unwrap_or(0).min(16);
    for (t, frame) in types.iter_mut().zip(sheet.iter().skip(1)) {
        *t = frame.t;
    }
    let params = types.get(..count).unwrap_or(&[]);
    (first.name, Head::new(params, first.t))
}

// The lowest place whose parameter has the name of an earlier one.
pub fn repeated(sheet: &[Frame], head: &Head) -> Option<usize> {
    for place in 1..=head.params().len() {
        let name = sheet.get(place).map(|f| f.name);
        for earlier in 1..place {
            if sheet.get(earlier).map(|f| f.name) == name {
                return Some(place);
            }
        }
    }
    None
}

impl Plain {
    // A fresh book.
    pub fn new(heap: Global) -> Result<Plain, AllocError> {
        Ok(Plain {
            entries: [None; 32],
            frames: vec![in heap; Frame::BLANK; AREA]?,
            column: vec![in heap; 0u8; AREA]?,
            valid: false,
            clean: true,
        })
    }

    // The entry of a sheet, if it is filled.
    pub fn entry(&self, sheet: u8) -> Option<Entry> {
        self.entries.get(usize::from(sheet)).copied().flatten()
    }

    // How many sheets are filled.
    pub fn filled(&self) -> usize {
        self.entries.iter().filter(|e| e.is_some()).count()
    }

    // Whether some sheet has a function of that name.
    pub fn has(&self, name: u16) -> bool {
        head_of(&self.entries, name).is_some()
    }

    // The heads of the names below 8.
    pub fn known(&self) -> Known {
        let mut known = [None; 8];
        for (place, name) in known.iter_mut().zip(0u16..) {
            *place = head_of(&self.entries, name);
        }
        known
    }

    // The sheet of a function of that name, if there is one.
    pub fn sheet_of(&self, name: u16) -> Option<u8> {
        for sheet in 0..SHEETS {
            if self.entry(sheet).is_some_and(|e| e.name == name) {
                return Some(sheet);
            }
        }
        None
    }

    // The frames of a filled sheet, up to its end.
    pub fn own(&self, sheet: u8) -> &[Frame] {
        let end = self.entry(sheet).map_or(0, |e| e.end.saturating_add(1));
        part(&self.frames, sheet).get(..end).unwrap_or(&[])
    }

    // Another entry for a sheet; every sheet that then calls a name whose head this alters is due.
    fn change(&mut self, sheet: u8, entry: Option<Entry>) {
        let before = self.entries;
        if let Some(slot) = self.entries.get_mut(usize::from(sheet)) {
            *slot = entry;
        }
        for other in 0..SHEETS {
            if self.calls_altered(other, &before) {
                self.set_due(other);
            }
        }
        self.valid = false;
    }

    // Whether the sheet calls a name to which the book gives another head than before, or none, or its first.
    fn calls_altered(&self, sheet: u8, before: &[Option<Entry>]) -> bool {
        for frame in self.own(sheet) {
            if frame.kind == CALL
                && head_of(before, frame.name) != head_of(&self.entries, frame.name)
            {
                return true;
            }
        }
        false
    }

    // A filled sheet is due.
    fn set_due(&mut self, sheet: u8) {
        if let Some(Some(entry)) = self.entries.get_mut(usize::from(sheet)) {
            entry.due = true;
        }
    }

    // The number that a reader of a valid book gives at a place, or 0.
    pub fn type_at(&self, sheet: u8, place: usize) -> usize {
        let kind = self.own(sheet).get(place).map_or(0, |f| f.kind);
        let number = part(&self.column, sheet).get(place).copied().unwrap_or(0);
        let ends = (kind >= 0x20 && kind <= 0x2A) || (kind >= 0x30 && kind <= 0x3C);
        if ends && number >= 1 && number <= 5 {
            usize::from(number)
        } else {
            0
        }
    }

    // The frame that stands at a place of the area.
    pub fn frame_at(&self, place: usize) -> Frame {
        self.frames.get(place).copied().unwrap_or(Frame::BLANK)
    }

    // The host writes a frame from outside.
    pub fn alter(&mut self, place: usize, frame: Frame) {
        if let Some(there) = self.frames.get_mut(place) {
            *there = frame;
        }
        self.clean = false;
    }

    // The host writes a byte of the column from outside.
    pub fn stain(&mut self, place: usize, number: u8) {
        if let Some(there) = self.column.get_mut(place) {
            *there = number;
        }
        self.clean = false;
    }
}

pub mod calls;
