// Whole sheets.
use super::{Draft, Frames, Task, VOID, Variable, frame};
use crate::head::{Head, Known};
use crate::random::Random;
use arrayvec::ArrayVec;

impl Draft {
    // The head, and parameters whose names differ unless one is to be repeated.
    fn begin(&mut self, name: u16, head: &Head, repeats: bool) {
        let count = u32::try_from(head.params().len()).unwrap_or(0);
        self.put(frame(0x01, head.returns, name, count));
        let first = self.random.name(4);
        for (i, t) in head.params().iter().enumerate() {
            let more = u16::try_from(i).unwrap_or(0);
            let name = first.saturating_add(if repeats { more / 2 } else { more });
            self.put(frame(0x02, *t, name, 0));
            self.declare(Variable { name, t: *t });
        }
    }

    // Empty blocks up to one frame less than a sheet may have, or two.
    fn pad(&mut self) {
        for _ in 0..127 {
            if self.frames.len() < 254 {
                self.put(frame(0x16, 0, 0, 0));
                self.put(frame(0x17, 0, 0, 0));
            }
        }
    }
}

// A sheet of that name and head.
pub fn sheet(name: u16, head: &Head, repeats: bool, known: Known, random: &mut Random) -> Frames {
    let mut draft = Draft::new(head.returns, known, random);
    draft.begin(name, head, repeats);
    for _ in 0..random.below(6) {
        draft.then(&[Task::Statement(2, false)]);
    }
    draft.grow();
    if random.once_in(8) {
        draft.pad();
    }
    draft.put(frame(0x03, 0, 0, 0));
    draft.frames
}

// A sheet of so many blocks, one in another.
pub fn nested(name: u16, depth: usize) -> Frames {
    let mut frames: Frames = ArrayVec::new();
    let _ = frames.try_push(frame(0x01, VOID, name, 0));
    for _ in 0..depth {
        let _ = frames.try_push(frame(0x16, 0, 0, 0));
    }
    for _ in 0..depth {
        let _ = frames.try_push(frame(0x17, 0, 0, 0));
    }
    let _ = frames.try_push(frame(0x03, 0, 0, 0));
    frames
}

// A sheet that does nothing, of that name and head.
pub fn stub(name: u16, head: &Head) -> Frames {
    let mut frames: Frames = ArrayVec::new();
    let count = u32::try_from(head.params().len()).unwrap_or(0);
    let _ = frames.try_push(frame(0x01, head.returns, name, count));
    for (i, t) in head.params().iter().enumerate() {
        let _ = frames.try_push(frame(0x02, *t, u16::try_from(i).unwrap_or(0), 0));
    }
    let _ = frames.try_push(frame(0x03, 0, 0, 0));
    frames
}
