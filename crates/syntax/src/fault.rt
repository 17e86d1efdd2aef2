// The refusals of read, write and form.

// Why a call was refused; the number in a case is the place, a line of the text or a frame of the sheet.
#[derive(Clone, Copy, PartialEq, Eq, Debug)]
pub enum Fault {
    BadLine(usize),
    FramesFull(usize),
    TextShort,
    TooLong,
    UnknownKind(usize),
    BadField(usize),
    NotAllowed(usize),
    TooDeep(usize),
    NoEnd(usize),
    AfterEnd(usize),
}

// A fault as a host reports it: its number, the layer that found it, and the sheet and place where. The fields are numbers
// since the format of a report has numbers; 255 stands for no sheet.
#[derive(Clone, Copy, PartialEq, Eq, Debug)]
pub struct Diagnostic {
    pub number: u8,
    pub layer: u8,
    pub sheet: u8,
    pub place: usize,
}

pub mod diagnosing;
