// The theorem of this crate that no call's contract states. The function does nothing; what counts is the statement that its contract names.
ghost use Rattle.walk.specs.Recorded.{RecordDecides};

// Frames count as altered exactly where they are no sheet with the given name and head, or have a parameter twice.
#[tactic(auto, using(crate::proofs::Recording::record_decides))]
pub fn record_decides()
    ensures law { RecordDecides }
{}
