// The refusals of the book and the faults of its sheets.
use rules::Violation;

// Why a call was refused, or what is wrong with a sheet; a number in a case is the sheet, and after it the place.
#[derive(Clone, Copy, PartialEq, Eq, Debug)]
pub enum Fault {
    // a fault of reading or of form, in what was posted on the sheet
    Posted(syntax::Fault, u8),
    NoSheet(u8),
    // with the sheet, where the call names one
    OtherLength(Option<u8>),
    NameTaken(u8),
    RepeatedParameter(u8, usize),
    EmptySheet(u8),
    NotValid,
    Altered(u8),
    SmallStore,
    Broken(Violation, u8, usize),
}

// What a check answers: how many sheets it walked, and the fault of the lowest faulty sheet; without one the book is valid.
#[derive(Clone, Copy, PartialEq, Eq, Debug)]
pub struct Checked {
    pub walked: usize,
    pub fault: Option<Fault>,
}

pub mod diagnosing;
