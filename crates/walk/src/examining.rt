// The examination of one sheet.
ghost use Rattle.std.specs.Prelude.{◌≡◌, length, IsTrue};
ghost use Rattle.frames.specs.Sheets.{frames_of};
ghost use Rattle.walk.specs.Outcomes.{outcome};
ghost use Rattle.walk.specs.Examined.{recorded, examined, Leaves, Decides};

use crate::params::{head_of, repeated_parameter};
use crate::running::run;
use crate::signature::Signature;
use crate::verdict::{Refusal, Verdict};
use frames::{Formed, form};
use levels::store::{Declaring, Looking};
use syntax::Frame;

// A column has so many places.
const PLACES: usize = 256;

// So many variables may stand at once.
const ROOM: usize = 256;

// Whether the frames form a sheet with this signature, and no parameter twice; then the formed sheet is filled with them. (It is lent, and
// not handed out: as a value it would be copied, which costs more than the walk of a short sheet.)
#[tactic(auto, using(crate::proofs::RepeatPlaces::twice_found))]
fn as_recorded(frames: &[Frame], signature: Signature, sheet: &mut Formed) -> bool
    ensures test { result ≡ recorded frames.now signature.name signature.head }
    ensures sheet { IsTrue result → frames_of sheet.new ≡ frames.now }
{
    form(frames, sheet).is_ok()
        && sheet.name() == signature.name
        && head_of(sheet) == signature.head
        && repeated_parameter(sheet).is_none()
}

// Walks a sheet that its record gives this signature: its types into the column, or the first violation, or that the frames were altered.
pub fn examine<H: Looking<u64>, S: Declaring<u8>>(
    frames: &[Frame],
    signature: Signature,
    column: &mut [u8],
    heads: &H,
    variables: &mut S,
) -> Result<Verdict, Refusal>
    ensures result { result ≡ examined (length column.old) (S.Looking.meaning variables.old).capacity (recorded frames.now signature.name signature.head) (outcome (H.Looking.meaning heads.now).levels frames.now) }
    ensures leaves { Leaves column.old column.new (S.Looking.meaning variables.old) (S.Looking.meaning variables.new) (recorded frames.now signature.name signature.head) (outcome (H.Looking.meaning heads.now).levels frames.now) }
    ensures law { Decides (H.Looking.meaning heads.now).levels frames.now (length column.old) (S.Looking.meaning variables.old).capacity (recorded frames.now signature.name signature.head) result column.new (S.Looking.meaning variables.new).levels }
{
    if column.len() != PLACES {
        return Err(Refusal::OtherColumn);
    }
    if variables.capacity() < ROOM {
        return Err(Refusal::SmallStore);
    }
    column.fill(0);
    let mut sheet = Formed::new();
    if !as_recorded(frames, signature, &mut sheet) {
        return Ok(Verdict::Altered);
    }
    Ok(run(&sheet, column, heads, variables))
}
