// The loop over the frames of a sheet.
ghost use Rattle.std.specs.Prelude.{◌≡◌, ◌≤◌, false, replicate};
ghost use Rattle.frames.specs.Sheets.{frames_of};
ghost use Rattle.levels.specs.Store.{with_levels};
ghost use Rattle.walk.specs.Params.{param_twice};
ghost use Rattle.walk.specs.Outcomes.{outcome, verdict_of, column_of, levels_of};

use crate::machine::Machine;
use crate::place::Place;
use crate::verdict::Verdict;
use frames::Formed;
use levels::store::{Declaring, Looking};

// Walks a sheet that has no parameter twice: its types into the blank column, or the first violation. (The capacity of a lent store is no
// fact of a type: in a struct, the store that the lender gets back would not be known.)
pub(crate) fn run<H: Looking<u64>, S: Declaring<u8>>(
    sheet: &Formed,
    column: &mut [u8],
    heads: &H,
    variables: &mut S,
) -> Verdict
    requires apart { param_twice (frames_of sheet.now) ≡ false }
    requires blank { column.old ≡ replicate 256 0 }
    requires capacity { 256 ≤ (S.Looking.meaning variables.old).capacity }
    ensures result { result ≡ verdict_of (outcome (H.Looking.meaning heads.now).levels (frames_of sheet.now)) }
    ensures column { column.new ≡ column_of (outcome (H.Looking.meaning heads.now).levels (frames_of sheet.now)) }
    ensures levels { S.Looking.meaning variables.new ≡ with_levels (S.Looking.meaning variables.old) (levels_of (outcome (H.Looking.meaning heads.now).levels (frames_of sheet.now))) }
{
    variables.wipe();
    let frames = sheet.frames();
    let mut machine = Machine::new();
    for (i, frame) in frames.iter().enumerate() {
        let place = Place {
            frames,
            i,
            frame: *frame,
        };
        match machine.step(&place, heads, variables) {
            Ok(t) => column[i] = t,
            Err(violation) => {
                column.fill(0);
                return Verdict::Broken(violation, i);
            }
        }
    }
    Verdict::Valid
}
