// What the examination of a sheet answers.
use rules::Violation;

// The sheet is valid; or its frame at the place violates a rule; or its frames are not those that its record tells of.
// (No Result: a faulty sheet was examined all the same, and `examine` keeps that apart from a refusal.)
#[derive(Clone, Copy, PartialEq, Eq, Debug)]
pub enum Verdict {
    Valid,
    Broken(Violation, usize),
    Altered,
}

// Why a sheet is not examined.
#[derive(Clone, Copy, PartialEq, Eq, Debug)]
pub enum Refusal {
    // the column has not 256 places
    OtherColumn,
    // the store of variables has room for fewer than 256
    SmallStore,
}
