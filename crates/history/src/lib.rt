// The law of kept verdicts, for any language of definitions with a local judge: stated in specs/, proved in proofs/ for every such language.
// A contract can name it of one language only, so these functions name it of a small one.

#![tactic(auto)]

ghost use Rattle.history.specs.Law.{Law};
ghost use Rattle.history.specs.Example.{example, Promises};
ghost use Rattle.history.specs.Trial.{Trial};

// Of every history of calls since an accepted fresh: what each call answers and leaves, and what a reader then gives.
pub fn law()
    ensures law { Law example }
{}

// Of one call, reader or question on a book that stands as some history says.
pub fn promise()
    ensures law { Promises }
{}

// A run of edits and checks, each refusal, and a sheet altered from outside, computed.
pub fn trial()
    ensures law { Trial }
{}
