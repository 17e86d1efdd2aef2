// What each call must answer, and what it does to the plain book.
use super::{AREA, DONE, Entry, Plain, SHEETS, front, repeated, write_part};
use syntax::Frame;

// What a refused call answers.
fn refused(number: usize, sheet: u8) -> [usize; 4] {
    [number, 3, usize::from(sheet), 0]
}

impl Plain {
    // Fresh, over areas of these lengths.
    pub fn fresh(&mut self, frames: usize, column: usize) -> [usize; 4] {
        if frames != AREA || column != AREA {
            return refused(32, 255);
        }
        self.entries = [None; 32];
        for frame in self.frames.iter_mut() {
            *frame = Frame::BLANK;
        }
        for byte in self.column.iter_mut() {
            *byte = 0;
        }
        self.valid = false;
        self.clean = true;
        DONE
    }

    // Whether another sheet has the name.
    fn is_taken(&self, sheet: u8, name: u16) -> bool {
        self.sheet_of(name).is_some_and(|other| other != sheet)
    }

    // A put of frames that have the form of a sheet.
    pub fn put(&mut self, sheet: u8, own: &[Frame], frames: usize, column: usize) -> [usize; 4] {
        if sheet >= SHEETS {
            return refused(31, sheet);
        }
        if frames != AREA || column != AREA {
            return refused(32, sheet);
        }
        let (name, head) = front(own);
        if self.is_taken(sheet, name) {
            return refused(33, sheet);
        }
        if let Some(place) = repeated(own, &head) {
            return [34, 3, usize::from(sheet), place];
        }
        let entry = Entry {
            name,
            head,
            end: own.len().saturating_sub(1),
            due: true,
            verdict: [0; 3],
        };
        self.change(sheet, Some(entry));
        write_part(&mut self.frames, sheet, own, Frame::BLANK);
        write_part(&mut self.column, sheet, &[], 0);
        DONE
    }

    // A clear.
    pub fn clear(&mut self, sheet: u8, frames: usize, column: usize) -> [usize; 4] {
        if sheet >= SHEETS {
            return refused(31, sheet);
        }
        if frames != AREA || column != AREA {
            return refused(32, sheet);
        }
        if self.entry(sheet).is_none() {
            return refused(35, sheet);
        }
        self.change(sheet, None);
        write_part(&mut self.frames, sheet, &[], Frame::BLANK);
        write_part(&mut self.column, sheet, &[], 0);
        DONE
    }

    // A sheet was walked, with this verdict and this part of the column.
    pub fn walked(&mut self, sheet: u8, verdict: [usize; 3], column: &[u8]) {
        if let Some(Some(entry)) = self.entries.get_mut(usize::from(sheet)) {
            entry.due = false;
            entry.verdict = verdict;
        }
        write_part(&mut self.column, sheet, column, 0);
    }

    // The fault of the lowest faulty sheet, or zeros; without one the book is valid.
    pub fn checked(&mut self) -> [usize; 4] {
        self.valid = true;
        for sheet in 0..SHEETS {
            if let Some(entry) = self.entry(sheet) {
                let [number, layer, place] = entry.verdict;
                if number != 0 {
                    self.valid = false;
                    return [number, layer, usize::from(sheet), place];
                }
            }
        }
        DONE
    }
}
