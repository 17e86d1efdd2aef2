// The theorems of this crate. No function does anything; what counts is the statement that its contract names.
ghost use Rattle.rules.specs.Decided.{WalkDecides, SheetDecides};
ghost use Rattle.rules.specs.Typed.{TypeOnce, ColumnTypes, TypedPlaces, TypesAgree, ColumnBlank, ColumnLong, ColumnWide};
ghost use Rattle.rules.specs.First.{FirstFault};
ghost use Rattle.rules.specs.Calls.{CallsDecide};
ghost use Rattle.rules.specs.Bounds.{WithinBounds};
ghost use Rattle.rules.specs.Books.{HeadsOnce, BookDecides};
ghost use Rattle.rules.specs.Examples.{Examples};
ghost use Rattle.rules.specs.Broken.{BrokenRule};

// Over the frames of a definition the walk answers a column exactly where a derivation has that column.
pub fn walk_decides()
    ensures law { WalkDecides }
{}

// The same over frames that have the form of a sheet.
pub fn sheet_decides()
    ensures law { SheetDecides }
{}

// An expression has at most one type.
pub fn type_once()
    ensures law { TypeOnce }
{}

// The column has the number of a type exactly where the derivation gives that type.
pub fn column_types()
    ensures law { ColumnTypes }
{}

// A derivation gives a type exactly where an expression ends.
pub fn typed_places()
    ensures law { TypedPlaces }
{}

// All derivations of a definition give one and the same type at a place.
pub fn types_agree()
    ensures law { TypesAgree }
{}

// Where no expression ends the column has 0.
pub fn column_blank()
    ensures law { ColumnBlank }
{}

// The column has a number for each frame.
pub fn column_long()
    ensures law { ColumnLong }
{}

// The fault of a walk is at the first frame that violates a rule.
pub fn first_fault()
    ensures law { FirstFault }
{}

// Heads that agree on the names that a sheet calls give the same walk, and leave the same levels.
pub fn calls_decide()
    ensures law { CallsDecide }
{}

// The walk of a sheet never has more than 33 levels or 256 names standing.
pub fn within_bounds()
    ensures law { WithinBounds }
{}

// A program generates at most one table of heads.
pub fn heads_once()
    ensures law { HeadsOnce }
{}

// A book is valid exactly where no name and no parameter stands twice and every walk ends without a fault.
pub fn book_decides()
    ensures law { BookDecides }
{}

// The sheets to try answer as expected.
pub fn examples_stand()
    ensures law { Examples }
{}

// A walk leaves 256 numbers in the column of a sheet.
pub fn column_wide()
    ensures law { ColumnWide }
{}

// The walk has a fault exactly where the definition first breaks a rule: the parts before have derivations, there the rule cannot be applied.
pub fn broken_rule()
    ensures law { BrokenRule }
{}
