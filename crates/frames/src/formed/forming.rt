// How a sheet goes through form.
ghost use Rattle.std.specs.Prelude.{◌≡◌, ◌-◌, ◌≤◌, [], ◌∷◌, ◌++◌, length, replicate};
ghost use Rattle.syntax.specs.Writing.{frame, blank, written};
ghost use Rattle.syntax.specs.Heads.{nothing_done};
ghost use Rattle.syntax.specs.Form.{accepted, forms};
ghost use Rattle.frames.specs.States.{Judged};
ghost use Rattle.frames.specs.Sheets.{frames_of, Filled, Leaves, Lawful};

use super::Formed;
use crate::machine::Machine;
use syntax::{Fault, Frame};

// So many frames may a sheet have.
const LONGEST: usize = 256;

impl Formed {
    // At first HEAD of void 0, and END.
    #[tactic(auto, unfolding(syntax::specs::Form::step, syntax::specs::Writing::written))]
    pub fn new() -> Self
        ensures result { Filled (frame 0x01 5 0 0 ∷ (frame 0x03 0 0 0 ∷ [])) result }
        ensures tree { written nothing_done ≡ frames_of result }
    {
        let mut frames = [Frame::BLANK; 256];
        frames[0] = Frame {
            kind: 0x01,
            t: 5,
            ..Frame::BLANK
        };
        frames[1] = Frame {
            kind: 0x03,
            ..Frame::BLANK
        };
        Formed { frames, count: 2 }
    }
}

// Takes the frames through the machine.
fn judged(frames: &[Frame]) -> Result<(), Fault>
    ensures { Judged (forms frames.now) result }
{
    if frames.len() > LONGEST {
        return Err(Fault::TooLong);
    }
    let mut m = Machine::new();
    for f in frames {
        m.take_frame(*f)?;
    }
    m.ended()
}

// Writes the frames to the front of the area, and blank ones after them.
fn write_padded(frames: &[Frame], area: &mut [Frame; 256])
    requires { length frames.now ≤ 256 }
    ensures { area.new ≡ frames.now ++ replicate (256 - length frames.now) blank }
{
    area[..frames.len()].copy_from_slice(frames);
    area[frames.len()..].fill(Frame::BLANK);
}

// Fills the sheet with frames that were accepted.
fn fill(frames: &[Frame], into: &mut Formed)
    requires { forms frames.now ≡ accepted }
    ensures { Filled frames.now into.new }
{
    write_padded(frames, &mut into.frames);
    into.count = frames.len();
}

// Fills the sheet with the frames if they have the form of one; a refusal leaves it as it was.
#[tactic(auto, using(crate::proofs::Verdicts::lawful))]
pub fn form(frames: &[Frame], into: &mut Formed) -> Result<(), Fault>
    ensures result { Judged (forms frames.now) result }
    ensures leaves { Leaves frames.now into.old into.new result }
    ensures law { Lawful frames.now result }
{
    judged(frames)?;
    fill(frames, into);
    Ok(())
}
