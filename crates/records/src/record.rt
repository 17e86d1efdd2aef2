// The record of a sheet.
ghost use Rattle.std.specs.Prelude.{◌≡◌};
ghost use Rattle.history.specs.Words.{map_some};
ghost use Rattle.history.specs.Language.{fault_on};
ghost use Rattle.records.specs.Faults.{told};
ghost use Rattle.records.specs.Records.{kept_of};

use crate::fault::Fault;
use levels::search::Named;
use walk::{Signature, Verdict};

// What the book keeps of a filled sheet: of its last put the name with the packed head and the place of END; whether it is due,
// and the verdict of its last walk. (A mark beside the verdict, and no Option of it: a sheet that becomes due keeps its verdict until a check.)
#[derive(Clone, Copy)]
pub struct Record {
    pub signature: Signature,
    pub end: u8,
    pub due: bool,
    pub kept: Verdict,
}

impl Record {
    // The fault that the verdict kept tells of the sheet.
    pub fn fault(&self, sheet: u8) -> Option<Fault>
        ensures { map_some told result ≡ fault_on sheet (kept_of self.now.kept) }
    {
        match self.kept {
            Verdict::Valid => None,
            Verdict::Broken(violation, place) => Some(Fault::Broken(violation, sheet, place)),
            Verdict::Altered => Some(Fault::Altered(sheet)),
        }
    }
}

impl Named for Record {
    ghost label = { λ r. r.signature.name };

    fn name(&self) -> u16 {
        self.signature.name
    }
}
