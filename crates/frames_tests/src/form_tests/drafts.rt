// Frames and lists of them to try, and what form says of them.
use arrayvec::ArrayVec;
use frames::{Fault, Formed, Frame, form};

// HEAD of void 0 without parameters.
pub const HEAD: Frame = Frame {
    kind: 0x01,
    t: 5,
    ..Frame::BLANK
};

pub const END: Frame = Frame {
    kind: 0x03,
    ..Frame::BLANK
};

pub const DO: Frame = Frame {
    kind: 0x10,
    ..Frame::BLANK
};

pub const RETV: Frame = Frame {
    kind: 0x14,
    ..Frame::BLANK
};

pub const TRUE: Frame = Frame {
    kind: 0x20,
    ..Frame::BLANK
};

pub const PLUS: Frame = Frame {
    kind: 0x30,
    ..Frame::BLANK
};

pub const UNKNOWN: Frame = Frame {
    kind: 0xFF,
    ..Frame::BLANK
};

// The count of frames of the sheet that they form, or why they form none.
pub fn formed(frames: &[Frame]) -> Result<usize, Fault> {
    let mut sheet = Formed::new();
    form(frames, &mut sheet)?;
    Ok(sheet.count())
}

// Puts frames without fields, of these kinds, so many times: a count, and no list to walk.
fn put_times(frames: &mut ArrayVec<Frame, 300>, n: usize, kinds: &[u8]) {
    for _ in 0..n {
        for kind in kinds {
            let _ = frames.try_push(Frame {
                kind: *kind,
                ..Frame::BLANK
            });
        }
    }
}

// What is said of HEAD, so many times the kinds `begin`, the kinds `middle`, so many times the kinds `end`, and END.
pub fn nested(n: usize, begin: &[u8], middle: &[u8], m: usize, end: &[u8]) -> Result<usize, Fault> {
    let mut frames = ArrayVec::new();
    let _ = frames.try_push(HEAD);
    put_times(&mut frames, n, begin);
    put_times(&mut frames, 1, middle);
    put_times(&mut frames, m, end);
    let _ = frames.try_push(END);
    formed(&frames)
}
