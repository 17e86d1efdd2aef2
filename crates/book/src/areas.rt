// The areas that the host lends: 256 places for each sheet. Each call makes arrays of them by the library's method, area by area. (Both at
// once, as a pair, was tried: of a refused area the proof then knows no value, and the goal names `c.frames-1.given` for it.)
ghost use Rattle.std.specs.Prelude.{◌≡◌, suc, length, take};
ghost use Rattle.history.specs.Areas.{part, with_part};

use crate::sheet::Sheet;
use syntax::Frame;

// So many places has an area.
pub(crate) const AREA: usize = 8192;

// The frames of all sheets.
pub(crate) type Frames = [Frame; AREA];

// The column: the type of each of these frames, by its number.
pub(crate) type Column = [u8; AREA];

// The frames of a sheet up to its END, at the place `end`.
pub(crate) fn own_frames(frames: &Frames, sheet: Sheet, end: u8) -> &[Frame]
    ensures { result.now ≡ take (suc end) (part sheet.number frames.now) }
{
    &frames[sheet.range()][..=end as usize]
}

// Writes a sheet's part.
pub(crate) fn write_part<T: Copy>(area: &mut [T; AREA], sheet: Sheet, part: &[T])
    requires { length part.now ≡ 256 }
    ensures { area.new ≡ with_part sheet.number part.now area.old }
{
    // as a slice, which can be borrowed by parts
    let area = &mut area[..];
    area[sheet.range()].copy_from_slice(part);
}
