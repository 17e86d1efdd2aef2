// A sheet that went through `form`, and no other way.
ghost use Rattle.std.specs.Prelude.{◌≡◌, ◌-◌, ◌≤◌, true, length, take, drop, replicate};
ghost use Rattle.syntax.specs.Form.{is_sheet};
ghost use Rattle.syntax.specs.Writing.{blank};

use syntax::Frame;

// The frames of the sheet stand in front, and blank ones after them: an array with its count, since `sheet` lends all 256
// places, the blank ones too, and a sheet keeps its frames in itself (no heap).
#[derive(Drop)]
pub struct Formed {
    frames: [Frame; 256],
    count: usize,
    ghost full: { length frames ≡ 256 },
    ghost within: { count ≤ 256 },
    ghost formed: { is_sheet (take count frames) ≡ true },
    ghost rest: { drop count frames ≡ replicate (256 - count) blank },
}

pub mod forming;
pub mod reading;
