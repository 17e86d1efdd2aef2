// The search for a name among the records.
ghost use Rattle.std.specs.Prelude.{◌≡◌};
ghost use Rattle.history.specs.Calls.{elsewhere};
ghost use Rattle.cpp.specs.Cpp.{cpp};
ghost use Rattle.records.specs.Records.{signatures_of};

use super::Table;
use crate::sheet::Sheet;
use levels::search::newest_filled;

impl Table {
    // Whether another sheet than this one has the name.
    pub(crate) fn named_elsewhere(&self, sheet: Sheet, name: u16) -> bool
        ensures { result ≡ elsewhere cpp (signatures_of self.now.records) sheet.number name }
    {
        newest_filled(&self.records, name).is_some_and(|t| t != sheet.index())
    }
}
