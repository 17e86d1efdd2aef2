// The making of a type reader.
ghost use Rattle.std.specs.Prelude.{◌≡◌, true, length, Ok, Err, IfErr};
ghost use Rattle.history.specs.Working.{working_reading};
ghost use Rattle.history.specs.Promise.{ReaderPromise};
ghost use Rattle.cpp.specs.Cpp.{cpp};
ghost use Rattle.records.specs.Answers.{refusal_of, unnamed};
ghost use Rattle.book.specs.States.{state};

use super::Book;
use crate::reader::Reader;
use records::Fault;
use syntax::Frame;

impl Book {
    // A reader of the types of a valid book.
    pub fn reader<'a>(&'a self, frames: &'a [Frame], column: &'a [u8]) -> Result<Reader<'a>, Fault>
        ensures result { refusal_of result ≡ working_reading (state self.now frames.now column.now) (length frames.now) (length column.now) }
        ensures lends { elim result [ Ok q ↦ (q.table.now ≡ self.now.table) × (q.frames.now ≡ frames.now) × (q.column.now ≡ column.now) | Err e ↦ Unit {0} ] }
        ensures unnamed { IfErr result (λ e. unnamed e ≡ true) }
        ensures history { ReaderPromise cpp (state self.now frames.now column.now) (length frames.now) (length column.now) (refusal_of result) }
    {
        let Some(frames) = frames.as_array() else {
            return Err(Fault::OtherLength(None));
        };
        let Some(column) = column.as_array() else {
            return Err(Fault::OtherLength(None));
        };
        if !self.valid {
            return Err(Fault::NotValid);
        }
        Ok(Reader {
            table: &self.table,
            frames,
            column,
        })
    }
}
