// The judgement of expressions: it looks names up, and declares none.
ghost use Rattle.std.specs.Prelude.{◌≡◌, ◌≤◌, length};
ghost use Rattle.levels.specs.Store.{looked};
ghost use Rattle.rules.specs.declared.violation.Violation.TheVariants.{Undeclared};
ghost use Rattle.rules.specs.Faults.{need};
ghost use Rattle.walk.specs.Judge.{arity, numeric, operated, called, judge};

use crate::codes::{BOOL, DOUBLE, INT, STRING};
use crate::operands::Operands;
use levels::store::Looking;
use rules::Violation;
use syntax::Frame;

// How many operands an expression's last frame takes.
pub(crate) fn parts(frame: Frame) -> usize
    ensures { result ≡ arity frame }
{
    match frame.kind {
        0x26 => frame.load as usize,
        0..=0x2F => 0,
        0x30..=0x3B => 2,
        _ => 1,
    }
}

// Whether it is the type of a number, int or double.
fn is_number(t: u8) -> bool
    ensures { result ≡ numeric t }
{
    t == INT || t == DOUBLE
}

// The type that an operator gives at operands of the types a and b.
fn operator(kind: u8, a: u8, b: u8) -> Result<u8, Violation>
    requires first { 0x30 ≤ kind }
    requires last { kind ≤ 0x3B }
    ensures { result ≡ operated kind a b }
{
    match kind {
        0x30 if a == b && INT <= a && a <= STRING => Ok(a),
        0x31..=0x33 if a == b && is_number(a) => Ok(a),
        0x34 | 0x35 | 0x38 | 0x39 if a == b && is_number(a) => Ok(BOOL),
        0x36 | 0x37 if a == b && BOOL <= a && a <= DOUBLE => Ok(BOOL),
        0x3A | 0x3B if a == b && a == BOOL => Ok(BOOL),
        _ => Err(Violation::OtherOperands),
    }
}

// The type that a call of the head with so many operands gives.
fn call(head: Option<u64>, count: u32, operands: &Operands) -> Result<u8, Violation>
    requires { count ≤ length operands.now }
    ensures { result ≡ called head count operands.now }
{
    let head = head.ok_or(Violation::NoFunction)?;
    if count as usize != heads::count(head) {
        return Err(Violation::OtherCount);
    }
    if !operands.fit(head) {
        return Err(Violation::OtherArgument);
    }
    Ok(heads::returns(head))
}

// The type of a variable.
fn variable<S: Looking<u8>>(name: u16, variables: &S) -> Result<u8, Violation>
    ensures { result ≡ need Undeclared (looked (S.Looking.meaning variables.now).levels name) }
{
    variables.look(name).ok_or(Violation::Undeclared)
}

// The type of the expression that ends at the frame. Kinds are told apart by ranges with guards, the form that the project asks for in the walk.
pub(crate) fn type_of<H: Looking<u64>, S: Looking<u8>>(
    frame: Frame,
    operands: &Operands,
    heads: &H,
    variables: &S,
) -> Result<u8, Violation>
    requires kind { 0x20 ≤ frame.kind }
    requires ready { arity frame ≤ length operands.now }
    ensures { result ≡ judge (H.Looking.meaning heads.now).levels (S.Looking.meaning variables.now).levels frame operands.now }
{
    match frame.kind {
        0x20 | 0x21 => Ok(BOOL),
        0x22 => Ok(INT),
        0x23 => Ok(DOUBLE),
        0x24 => Ok(STRING),
        0x25 => variable(frame.name, variables),
        0x26 => call(heads.look(frame.name), frame.load, operands),
        0x27..=0x2F => match variable(frame.name, variables)? {
            t if is_number(t) => Ok(t),
            _ => Err(Violation::OtherOperands),
        },
        0x30..=0x3B => operator(frame.kind, operands.at(1), operands.at(0)),
        _ => match variable(frame.name, variables)? {
            t if t == operands.at(0) => Ok(t),
            _ => Err(Violation::OtherAssigned),
        },
    }
}
