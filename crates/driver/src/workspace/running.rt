// The run over an input.
ghost use Rattle.std.specs.Prelude.{◌≡◌, None};
ghost use Rattle.history.specs.Plain.{plain};
ghost use Rattle.history.specs.Stands.{Stands};
ghost use Rattle.cpp.specs.Cpp.{cpp};
ghost use Rattle.records.specs.Answers.{refusal_of, edited, checked_of};
ghost use Rattle.driver.specs.Histories.{posted, checking, all_posts, posting_fault};
ghost use Rattle.driver.specs.Reports.{Says, Leaves};
ghost use Rattle.driver.specs.Workspaces.{book_of, Goes};

use super::Workspace;
use crate::rejected::Rejected;
use input::{FRAMES, LONGEST, Pieces};
use levels::chains::Chains;
use levels::entry::Entry;
use levels::pile::Pile;
use records::{Checked, Fault};
use syntax::Frame;

// So many entries has a store.
const ENTRIES: usize = 256;

// An entry before any name is declared.
fn unused<V>(value: V) -> Entry<V> {
    Entry {
        name: 0,
        value,
        next: None,
    }
}

impl Workspace {
    // Posts a piece on the sheet of that number.
    fn post(&mut self, piece: &[u8], sheet: u8) -> Result<(), Fault>
        ensures history { Goes (book_of self.old) (posted sheet piece.now) (edited result) (book_of self.new) }
    {
        self.book.post(
            piece,
            sheet,
            &mut [Frame::BLANK; FRAMES],
            &mut self.frames,
            &mut self.column,
        )
    }

    // Makes the book fresh and posts each piece on the sheet of its number, up to the first refusal.
    fn post_pieces(&mut self, input: &[u8]) -> Result<(), Fault>
        ensures result { refusal_of result ≡ posting_fault input.now 8192 8192 }
        ensures history { refusal_of result ≡ None → Stands cpp (plain cpp (all_posts input.now)) (book_of self.new) }
    {
        self.book.fresh(&mut self.frames, &mut self.column)?;
        for (piece, sheet) in Pieces::new(input).zip(0..) {
            self.post(piece, sheet)?;
        }
        Ok(())
    }

    // Checks the book, with a pile for the heads and chains for the variables.
    fn check(&mut self) -> Result<Checked, Fault>
        ensures history { Goes (book_of self.old) (checking 256 256) (checked_of result) (book_of self.new) }
    {
        let mut heads = [unused(0u64); ENTRIES];
        let mut variables = [unused(0u8); ENTRIES];
        self.book.check(
            &self.frames,
            &mut self.column,
            &mut Pile::new(&mut heads),
            &mut Chains::new(&mut variables),
        )
    }

    // Makes of the input a book, piece by piece, up to the first refusal, and checks it; answers how many sheets that walked.
    #[tactic(auto, using(crate::proofs::RunLaws::after_check))]
    pub(crate) fn run(&mut self, input: &[u8]) -> Result<usize, Rejected>
        ensures result { Says input.now 8192 8192 256 256 result }
        ensures history { Leaves input.now 256 256 result (book_of self.new) }
    {
        if input.len() > LONGEST {
            return Err(Rejected::TooLong);
        }
        self.post_pieces(input)?;
        let Checked { walked, fault } = self.check()?;
        match fault {
            Some(fault) => Err(Rejected::from(fault)),
            None => Ok(walked),
        }
    }
}
