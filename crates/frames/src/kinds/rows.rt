// The rows of the table of kinds: the ranges of the fields, and the operand effect.
use super::spans::*;
use syntax::{Role, Row};

// The rows that many kinds start from: no fields, a name alone, a type and a name.
const BARE: Row = Row {
    t: LACKING,
    name: LACKING,
    load: LACKING,
    role: Role::End,
};

const NAMED: Row = Row {
    name: ANY_NAME,
    ..BARE
};

const TYPED: Row = Row {
    t: VALUE_TYPE,
    ..NAMED
};

const HEAD: Row = Row {
    t: RETURN_TYPE,
    name: ANY_NAME,
    load: UP_TO_16,
    role: Role::Head,
};

const PARAM: Row = Row {
    role: Role::Param,
    ..TYPED
};

const END: Row = Row {
    role: Role::End,
    ..BARE
};

const DO: Row = Row {
    role: Role::Statement(1),
    ..BARE
};

const DECL: Row = Row {
    t: VALUE_TYPE,
    name: LACKING,
    load: FROM_1_TO_16,
    role: Role::Decl,
};

const NAME: Row = Row {
    role: Role::Name,
    ..NAMED
};

const INIT: Row = Row {
    role: Role::Statement(1),
    ..TYPED
};

const RETV: Row = Row {
    role: Role::Statement(0),
    ..BARE
};

const RET: Row = Row {
    role: Role::Statement(1),
    ..BARE
};

const OPEN: Row = Row {
    role: Role::Open,
    ..BARE
};

const CLOSE: Row = Row {
    role: Role::Close,
    ..BARE
};

const WHILE: Row = Row {
    role: Role::While,
    ..BARE
};

const IF: Row = Row {
    role: Role::If,
    ..BARE
};

const TRUTH: Row = Row {
    role: Role::Operand(0),
    ..BARE
};

const LITERAL: Row = Row {
    load: ANY_LOAD,
    ..TRUTH
};

const VARIABLE: Row = Row {
    role: Role::Operand(0),
    ..NAMED
};

const CALL: Row = Row {
    load: UP_TO_16,
    role: Role::Call,
    ..NAMED
};

const UPDATE: Row = Row {
    role: Role::Operand(0),
    ..NAMED
};

const BINARY: Row = Row {
    role: Role::Operand(2),
    ..BARE
};

const ASSIGN: Row = Row {
    role: Role::Operand(1),
    ..NAMED
};

// The row of each kind at its number.
pub static ROWS: [Option<Row>; 61] = [
    None,
    Some(HEAD),
    Some(PARAM),
    Some(END),
    None,
    None,
    None,
    None,
    None,
    None,
    None,
    None,
    None,
    None,
    None,
    None,
    Some(DO),
    Some(DECL),
    Some(NAME),
    Some(INIT),
    Some(RETV),
    Some(RET),
    Some(OPEN),
    Some(CLOSE),
    Some(WHILE),
    Some(IF),
    None,
    None,
    None,
    None,
    None,
    None,
    Some(TRUTH),
    Some(TRUTH),
    Some(LITERAL),
    Some(LITERAL),
    Some(LITERAL),
    Some(VARIABLE),
    Some(CALL),
    Some(UPDATE),
    Some(UPDATE),
    Some(UPDATE),
    Some(UPDATE),
    None,
    None,
    None,
    None,
    None,
    Some(BINARY),
    Some(BINARY),
    Some(BINARY),
    Some(BINARY),
    Some(BINARY),
    Some(BINARY),
    Some(BINARY),
    Some(BINARY),
    Some(BINARY),
    Some(BINARY),
    Some(BINARY),
    Some(BINARY),
    Some(ASSIGN),
];
