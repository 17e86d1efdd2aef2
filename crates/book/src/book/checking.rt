// The check of a book.
ghost use Rattle.std.specs.Prelude.{◌≡◌, true, length, IfErr};
ghost use Rattle.history.specs.Calls.{Call.check};
ghost use Rattle.history.specs.Runs.{Does};
ghost use Rattle.history.specs.Law.{Law};
ghost use Rattle.history.specs.Promise.{Promise};
ghost use Rattle.cpp.specs.Cpp.{cpp};
ghost use Rattle.records.specs.Answers.{checked_of, unnamed};
ghost use Rattle.book.specs.States.{state, HeadsLeft, VariablesLeft};

use super::Book;
use levels::store::{Declaring, Looking};
use records::{Checked, Fault};
use syntax::Frame;

// So many entries a store must have room for.
const ROOM: usize = 256;

impl Book {
    // Walks every sheet that is due, and answers how many and the fault of the lowest faulty sheet, walked now or before.
    pub fn check<H: Declaring<u64>, S: Declaring<u8>>(
        &mut self,
        frames: &[Frame],
        column: &mut [u8],
        heads: &mut H,
        variables: &mut S,
    ) -> Result<Checked, Fault>
        ensures does { Does cpp (state self.old frames.now column.old) (check (length frames.now) (length column.old) (H.Looking.meaning heads.old).capacity (S.Looking.meaning variables.old).capacity) (checked_of result) (state self.new frames.now column.new) }
        ensures heads { HeadsLeft (state self.old frames.now column.old) (H.Looking.meaning heads.old) result (H.Looking.meaning heads.new) }
        ensures variables { VariablesLeft (state self.old frames.now column.old) (S.Looking.meaning variables.old) result (S.Looking.meaning variables.new) }
        ensures history { Promise cpp (state self.old frames.now column.old) (check (length frames.now) (length column.old) (H.Looking.meaning heads.old).capacity (S.Looking.meaning variables.old).capacity) (checked_of result) (state self.new frames.now column.new) }
        ensures unnamed { IfErr result (λ e. unnamed e ≡ true) }
        ensures law { Law cpp }
    {
        let Some(frames) = frames.as_array() else {
            return Err(Fault::OtherLength(None));
        };
        let Some(column) = column.as_mut_array() else {
            return Err(Fault::OtherLength(None));
        };
        if heads.capacity() < ROOM || variables.capacity() < ROOM {
            return Err(Fault::SmallStore);
        }
        self.table.declare_heads(heads);
        let walked = self.table.walk_due(frames, column, heads, variables);
        let fault = self.table.lowest_fault();
        self.valid = fault.is_none();
        Ok(Checked { walked, fault })
    }
}
