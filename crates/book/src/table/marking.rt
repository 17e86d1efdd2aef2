// The marks on the callers of a name whose head changes.
ghost use Rattle.std.specs.Prelude.{◌≡◌, ◌==◌, ℕ, ◌&&◌, ◌<◌, None, IsTrue, slice_index_or};
ghost use Rattle.history.specs.Language.{head_for, differ};
ghost use Rattle.history.specs.Areas.{part};
ghost use Rattle.records.specs.Records.{signed, calls_changed, marked_record};

use super::Table;
use crate::areas::{Frames, own_frames};
use crate::sheet::Sheet;
use records::Signature;
use syntax::Frame;

// The kind of a call.
const CALL: u8 = 0x26;

// The head that the signature gives to the name.
fn head_for(name: u16, signature: Option<Signature>) -> Option<u64>
    ensures { result ≡ head_for name (signed signature) }
{
    match signature {
        Some(s) if s.name == name => Some(s.head),
        _ => None,
    }
}

// Whether the new signature is the old: then every name has the head that it had.
fn stays(old: Option<Signature>, new: Option<Signature>) -> bool
    ensures { IsTrue result → signed old ≡ signed new }
{
    old == new
}

// Whether the frame calls a name to which the new signature gives another head than the old, or none, or its first. (Old and new stay two
// parameters: they are only compared, and a pair of them would name each once more.)
fn calls_another(frame: &Frame, old: Option<Signature>, new: Option<Signature>) -> bool
    ensures { result ≡ (frame.now.kind == CALL && differ (head_for frame.now.name (signed old)) (head_for frame.now.name (signed new))) }
{
    frame.kind == CALL && head_for(frame.name, old) != head_for(frame.name, new)
}

// Whether any of the frames calls such a name.
fn calls_changed(frames: &[Frame], old: Option<Signature>, new: Option<Signature>) -> bool
    ensures { result ≡ calls_changed (signed old) (signed new) frames.now }
{
    frames.iter().any(|f| calls_another(f, old, new))
}

impl Table {
    // Marks each filled sheet whose frames call a name that the change of one sheet's signature gives another head. (Frames are looked through
    // only where some name's head changes, and not of a sheet that is due already.)
    pub(crate) fn mark(&mut self, frames: &Frames, old: Option<Signature>, new: Option<Signature>)
        ensures { (t : ℕ) → t < 32 → slice_index_or self.new.records t None ≡ marked_record (signed old) (signed new) (part t frames.now) (slice_index_or self.old.records t None) }
    {
        if stays(old, new) {
            return;
        }
        for (t, slot) in self.records.iter_mut().enumerate() {
            if let Some(record) = slot {
                if !record.due
                    && calls_changed(own_frames(frames, Sheet::at(t), record.end), old, new)
                {
                    record.due = true;
                }
            }
        }
    }
}
