// A place in a sheet.
ghost use Rattle.std.specs.Prelude.{◌≡◌, ◌≤◌};
ghost use Rattle.syntax.specs.Heads.{head};
ghost use Rattle.walk.specs.Places.{At, between};

use syntax::Frame;

// The frames of a sheet, a place among them, and the frame there.
#[derive(Clone, Copy)]
pub struct Place<'a> {
    pub(crate) frames: &'a [Frame],
    pub(crate) i: usize,
    pub(crate) frame: Frame,
    ghost at: { At frames.now i frame },
}

impl<'a> Place<'a> {
    // The code of the type that the sheet returns.
    pub(crate) fn returns(&self) -> u8
        ensures { result ≡ (head self.now.frames.now).t }
    {
        self.frames[0].t
    }

    // The frames from an earlier place up to this one.
    pub(crate) fn since(&self, first: usize) -> &'a [Frame]
        requires { first ≤ self.now.i }
        ensures { result.now ≡ between first self.now.i self.now.frames.now }
    {
        &self.frames[first..self.i]
    }
}
