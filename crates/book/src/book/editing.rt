// The edits of a book: a new one, fresh, put, clear and post.
ghost use Rattle.std.specs.Prelude.{◌≡◌, ℕ, true, List, length, IfErr};
ghost use Rattle.syntax.specs.declared.frame.Frame.{Frame as Frames};
ghost use Rattle.history.specs.Calls.{Call.put, Call.clear, Call.post};
ghost use Rattle.history.specs.Working.{new_book};
ghost use Rattle.history.specs.Runs.{Does, Freshens};
ghost use Rattle.history.specs.Law.{New, FreshMade};
ghost use Rattle.history.specs.Promise.{Promise};
ghost use Rattle.cpp.specs.Cpp.{cpp};
ghost use Rattle.cpp.specs.Text.{lines_read};
ghost use Rattle.cpp.specs.Reading.{filled_with};
ghost use Rattle.records.specs.Answers.{refusal_of, edited, unnamed};
ghost use Rattle.records.specs.Sheets.{sheet_from};
ghost use Rattle.book.specs.States.{state};

use super::Book;
use crate::areas::{AREA, write_part};
use crate::sheet::Sheet;
use crate::table::Table;
use frames::{Formed, form, read};
use records::{Fault, Record, Signature};
use syntax::Frame;
use walk::{Verdict, head_of, repeated_parameter};

impl Book {
    // An empty book that is not valid.
    pub fn new() -> Self
        ensures result { (f : List Frames) (k : List ℕ) → state result f k ≡ new_book f k }
        ensures history { (f : List Frames) (k : List ℕ) → New cpp (state result f k) }
    {
        Book {
            table: Table::new(),
            valid: false,
        }
    }

    // Empties the book and sets both areas to 0.
    pub fn fresh(&mut self, frames: &mut [Frame], column: &mut [u8]) -> Result<(), Fault>
        ensures does { Freshens cpp (state self.old frames.old column.old) (refusal_of result) (state self.new frames.new column.new) }
        ensures unnamed { IfErr result (λ e. unnamed e ≡ true) }
        ensures history { FreshMade cpp (state self.old frames.old column.old) (refusal_of result) (state self.new frames.new column.new) }
    {
        let Some(frames) = frames.as_mut_array::<AREA>() else {
            return Err(Fault::OtherLength(None));
        };
        let Some(column) = column.as_mut_array::<AREA>() else {
            return Err(Fault::OtherLength(None));
        };
        frames.fill(Frame::BLANK);
        column.fill(0);
        *self = Book::new();
        Ok(())
    }

    // Writes a formed sheet to the sheet of that number, empty or not.
    pub fn put(
        &mut self,
        sheet: u8,
        formed: &Formed,
        frames: &mut [Frame],
        column: &mut [u8],
    ) -> Result<(), Fault>
        ensures does { Does cpp (state self.old frames.old column.old) (put sheet (sheet_from formed.now) (length frames.old) (length column.old)) (edited result) (state self.new frames.new column.new) }
        ensures history { Promise cpp (state self.old frames.old column.old) (put sheet (sheet_from formed.now) (length frames.old) (length column.old)) (edited result) (state self.new frames.new column.new) }
    {
        let k = Sheet::try_from(sheet)?;
        let Some(frames) = frames.as_mut_array() else {
            return Err(Fault::OtherLength(Some(sheet)));
        };
        let Some(column) = column.as_mut_array() else {
            return Err(Fault::OtherLength(Some(sheet)));
        };
        let name = formed.name();
        if self.table.named_elsewhere(k, name) {
            return Err(Fault::NameTaken(sheet));
        }
        if let Some(place) = repeated_parameter(formed) {
            return Err(Fault::RepeatedParameter(sheet, place));
        }
        let head = head_of(formed);
        let signature = Signature { name, head };
        let old = self.table.signature(k);
        self.table.mark(frames, old, Some(signature));
        let end = (formed.count() - 1) as u8;
        let record = Record {
            signature,
            end,
            due: true,
            kept: Verdict::Valid,
        };
        self.table.replace(k, Some(record));
        self.valid = false;
        write_part(frames, k, formed.sheet());
        write_part(column, k, &[0; 256]);
        Ok(())
    }

    // Empties the sheet of that number.
    pub fn clear(&mut self, sheet: u8, frames: &mut [Frame], column: &mut [u8]) -> Result<(), Fault>
        ensures does { Does cpp (state self.old frames.old column.old) (clear sheet (length frames.old) (length column.old)) (edited result) (state self.new frames.new column.new) }
        ensures history { Promise cpp (state self.old frames.old column.old) (clear sheet (length frames.old) (length column.old)) (edited result) (state self.new frames.new column.new) }
    {
        let k = Sheet::try_from(sheet)?;
        let Some(frames) = frames.as_mut_array() else {
            return Err(Fault::OtherLength(Some(sheet)));
        };
        let Some(column) = column.as_mut_array() else {
            return Err(Fault::OtherLength(Some(sheet)));
        };
        let old = self.table.signature(k);
        if old.is_none() {
            return Err(Fault::EmptySheet(sheet));
        }
        self.table.mark(frames, old, None);
        self.table.replace(k, None);
        self.valid = false;
        write_part(frames, k, &[Frame::BLANK; 256]);
        write_part(column, k, &[0; 256]);
        Ok(())
    }

    // Reads a text, forms the frames read and puts the sheet; the frames read stay.
    pub fn post(
        &mut self,
        text: &[u8],
        sheet: u8,
        room: &mut [Frame],
        frames: &mut [Frame],
        column: &mut [u8],
    ) -> Result<(), Fault>
        ensures does { Does cpp (state self.old frames.old column.old) (post sheet text.now (length room.old) (length frames.old) (length column.old)) (edited result) (state self.new frames.new column.new) }
        ensures leaves { room.new ≡ filled_with (lines_read (length room.old) text.now).0 room.old }
        ensures history { Promise cpp (state self.old frames.old column.old) (post sheet text.now (length room.old) (length frames.old) (length column.old)) (edited result) (state self.new frames.new column.new) }
    {
        let posted = |fault| Fault::Posted(fault, sheet);
        let count = read(text, room).map_err(posted)?;
        let mut formed = Formed::new();
        form(&room[..count], &mut formed).map_err(posted)?;
        self.put(sheet, &formed, frames, column)
    }
}
