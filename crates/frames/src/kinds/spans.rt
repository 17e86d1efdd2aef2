// The ranges that the fields of a kind may have.
use syntax::Span;

// A field that a kind lacks is 0.
pub const LACKING: Span = Span { low: 0, high: 0 };

pub const RETURN_TYPE: Span = Span { low: 1, high: 5 };

pub const VALUE_TYPE: Span = Span { low: 1, high: 4 };

pub const ANY_NAME: Span = Span {
    low: 0,
    high: 65535,
};

pub const ANY_LOAD: Span = Span {
    low: 0,
    high: 4294967295,
};

pub const UP_TO_16: Span = Span { low: 0, high: 16 };

pub const FROM_1_TO_16: Span = Span { low: 1, high: 16 };
