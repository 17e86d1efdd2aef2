// CPP as a language of the law of kept verdicts: definitions and theorems, with no code of their own.
// No function does anything; what counts is the statement that its contract names.

#![tactic(auto)]

ghost use Rattle.history.specs.Law.{Law};
ghost use Rattle.cpp.specs.Cpp.{cpp};
ghost use Rattle.cpp.specs.Promises.{Promises};
ghost use Rattle.cpp.specs.Forming.{FormsTied};
ghost use Rattle.cpp.specs.Kinds.{ExpressionsTied, CallsTied};
ghost use Rattle.cpp.specs.Reading.{ReadsTied};
ghost use Rattle.cpp.specs.Tells.{SheetsTied};
ghost use Rattle.cpp.specs.Judges.{JudgeTied};
ghost use Rattle.cpp.specs.Worked.{WorkedExamples};
ghost use Rattle.cpp.specs.Trial.{Trial};

// Of every history of calls on a book of CPP sheets since an accepted fresh: what each call answers and leaves, and what a reader then gives.
pub fn law()
    ensures law { Law cpp }
{}

// Of one call, reader or question on a book that stands as some history says.
pub fn promises()
    ensures law { Promises }
{}

// The form of the language is the verdict on the frames, and a sheet is its frames.
pub fn forms_tied()
    ensures law { FormsTied }
{}

// The frames that end an expression are those whose kind adds an operand.
pub fn expressions_tied()
    ensures law { ExpressionsTied }
{}

// The names that frames call are those of the frames of the call's kind.
pub fn calls_tied()
    ensures law { CallsTied }
{}

// The reading of the language is what reading a text into an area answers and leaves.
pub fn reads_tied()
    ensures law { ReadsTied }
{}

// A sheet's name, the number of its head and its first repeat are those of the definition that it writes.
pub fn sheets_tied()
    ensures law { SheetsTied }
{}

// The judge finds a sheet valid exactly where a derivation exists, with its types, and else tells the rule that the definition first breaks, and where.
pub fn judge_tied()
    ensures law { JudgeTied }
{}

// The worked examples, each on a fresh book: answers, counts of sheets walked, faults, places and types.
pub fn worked_examples()
    ensures law { WorkedExamples }
{}

// Edits, checks, refusals and texts to try, computed by both books.
pub fn trial()
    ensures law { Trial }
{}
