// The number of a sheet.
ghost use Rattle.std.specs.Prelude.{◌≡◌, ◌+◌, ◌*◌, ◌<◌};

use records::Fault;
use std::ops::Range;

// One of the 32 sheets of a book, by its number.
#[derive(Clone, Copy)]
pub(crate) struct Sheet {
    number: u8,
    ghost below: { number < 32 },
}

// How many sheets a book has.
const SHEETS: u8 = 32;

impl TryFrom<u8> for Sheet {
    ghost use Rattle.std.specs.Prelude.{◌≡◌, ◌<◌, ◌≤◌, MatchResult};
    ghost use Rattle.records.specs.declared.fault.Fault.TheVariants.{NoSheet};

    type Error = Fault;

    // The sheet of that number; 31 where there is none.
    ghost try_from_gives = { λ n r. MatchResult r (λ s. (n < 32) × (s.number ≡ n)) (λ e. (32 ≤ n) × (e ≡ NoSheet n)) };

    fn try_from(number: u8) -> Result<Sheet, Fault> {
        if number >= SHEETS {
            return Err(Fault::NoSheet(number));
        }
        Ok(Sheet { number })
    }
}

impl Sheet {
    // The sheet whose record stands at that place.
    pub(crate) fn at(index: usize) -> Sheet
        requires { index < 32 }
        ensures { result.number ≡ index }
    {
        Sheet {
            number: index as u8,
        }
    }

    // Its place among the records.
    pub(crate) fn index(self) -> usize
        ensures { result ≡ self.number }
    {
        self.number as usize
    }

    // Its places in an area.
    pub(crate) fn range(self) -> Range<usize>
        ensures start { result.start ≡ 256 * self.number }
        ensures end { result.end ≡ 256 * self.number + 256 }
    {
        let start = 256 * self.index();
        start..start + 256
    }
}
