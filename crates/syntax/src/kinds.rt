// What the table of kinds tells of a kind.
ghost use Rattle.std.specs.Prelude.{◌≡◌};
ghost use Rattle.syntax.specs.Kinds.{within, fields_fit};

use super::frame::Frame;

// What a frame does where it may stand. An operand takes so many operands and adds one, a call as many as its load;
// a statement needs exactly so many operands and takes them.
#[derive(Clone, Copy, PartialEq, Eq, Debug)]
pub enum Role {
    Head,
    Param,
    End,
    Operand(u8),
    Call,
    Statement(u8),
    Decl,
    Name,
    Open,
    Close,
    While,
    If,
}

// The numbers that a field may hold, from low to high. (std's RangeInclusive would do, but it is not Copy, and a row is.)
#[derive(Clone, Copy, PartialEq, Eq, Debug)]
pub struct Span {
    pub low: u32,
    pub high: u32,
}

impl Span {
    // Whether the field may hold the number.
    pub fn contains(&self, n: u32) -> bool
        ensures { result ≡ within self.now n }
    {
        self.low <= n && n <= self.high
    }
}

// The ranges of a kind's fields; a field that it lacks has 0 alone.
#[derive(Clone, Copy, PartialEq, Eq, Debug)]
pub struct Row {
    pub t: Span,
    pub name: Span,
    pub load: Span,
    pub role: Role,
}

impl Row {
    // Whether each field of the frame is within its range.
    pub fn suits(&self, frame: Frame) -> bool
        ensures { result ≡ fields_fit self.now frame }
    {
        self.t.contains(u32::from(frame.t))
            && self.name.contains(u32::from(frame.name))
            && self.load.contains(frame.load)
    }
}
