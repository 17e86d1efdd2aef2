// One sheet's record: looked at, replaced.
ghost use Rattle.std.specs.Prelude.{◌≡◌, ℕ, true, false, replicate, ◌≢◌, slice_index_or, slice_set};
ghost use Rattle.records.specs.Records.{headed, clash, signatures_of, signed};

use super::Table;
use crate::sheet::Sheet;
use records::{Record, Signature};

impl Table {
    // Every sheet is empty.
    pub(crate) fn new() -> Self
        ensures { result.records ≡ replicate 32 None }
    {
        Table {
            records: [None; 32],
        }
    }

    // The record of a sheet, if it is filled.
    pub(crate) fn at(&self, sheet: Sheet) -> Option<Record>
        ensures { result ≡ slice_index_or self.now.records sheet.number None }
    {
        self.records[sheet.index()]
    }

    // The name and head of a sheet, if it is filled.
    pub(crate) fn signature(&self, sheet: Sheet) -> Option<Signature>
        ensures { signed result ≡ signatures_of self.now.records sheet.number }
    {
        self.at(sheet).map(|record| record.signature)
    }

    // Replaces the record of a sheet, by none or by one with a packed head and a name that no other sheet has.
    pub(crate) fn replace(&mut self, sheet: Sheet, row: Option<Record>)
        requires head { headed row ≡ true }
        requires free { (t : ℕ) → (t ≢ sheet.number) → clash (slice_index_or self.old.records t None) row ≡ false }
        ensures { self.new.records ≡ slice_set self.old.records sheet.number row }
    {
        self.records[sheet.index()] = row;
    }
}
