// The form of a sheet: what is accepted, and what is refused where.
use drafts::*;
use frames::{Diagnostic, Fault, Formed, Frame, Parameter, Type, form};

mod drafts;
mod fields;
mod nesting;

// int 7
const PARAM: Frame = Frame {
    kind: 0x02,
    t: 2,
    name: 7,
    ..Frame::BLANK
};

const NAME: Frame = Frame {
    kind: 0x12,
    name: 8,
    ..Frame::BLANK
};

// A call with two arguments.
const CALL: Frame = Frame {
    kind: 0x26,
    name: 1,
    load: 2,
    ..Frame::BLANK
};

// HEAD and DECL for so many parameters and names.
fn head_of(n: u32) -> Frame {
    Frame {
        kind: 0x01,
        t: 4,
        name: 500,
        load: n,
    }
}

fn decl_of(n: u32) -> Frame {
    Frame {
        kind: 0x11,
        t: 2,
        load: n,
        ..Frame::BLANK
    }
}

#[test]
fn the_shortest_lists(rt: HostRuntime) {
    assert_eq!(rt; formed(&[]), Err(Fault::NoEnd(0)));
    assert_eq!(rt; formed(&[HEAD]), Err(Fault::NoEnd(1)));
    assert_eq!(rt; formed(&[END]), Err(Fault::NotAllowed(0)));
    assert_eq!(rt; formed(&[HEAD, END]), Ok(2));
}

#[test]
fn nothing_stands_after_the_end(rt: HostRuntime) {
    assert_eq!(rt; formed(&[HEAD, END, END]), Err(Fault::AfterEnd(2)));
    assert_eq!(rt; formed(&[HEAD, END, UNKNOWN]), Err(Fault::AfterEnd(2)));
    assert_eq!(rt; formed(&[HEAD, END, head_of(17)]), Err(Fault::AfterEnd(2)));
}

#[test]
fn the_longest_sheet(rt: HostRuntime) {
    assert_eq!(rt; nested(254, b"\x14", b"", 0, b""), Ok(256));
    assert_eq!(rt; nested(255, b"\x14", b"", 0, b""), Err(Fault::TooLong));
    assert_eq!(rt; formed(&[UNKNOWN; 300]), Err(Fault::TooLong));
}

// The number and the place that a host is told of a refusal; the layer is 2, and no sheet is named.
fn told(answer: Result<usize, Fault>) -> (u8, usize) {
    match answer.map_err(Diagnostic::from) {
        Err(
            Diagnostic {
                number,
                layer: 2,
                sheet: 255,
                place,
            },
        ) => (number, place),
        _ => (0, 0),
    }
}

#[test]
fn what_refusals_tell(rt: HostRuntime) {
    assert_eq!(rt; told(formed(&[UNKNOWN; 257])), (20, 256));
    assert_eq!(rt; told(formed(&[HEAD, UNKNOWN, END])), (21, 1));
    assert_eq!(rt; told(formed(&[HEAD, head_of(17), END])), (22, 1));
    assert_eq!(rt; told(formed(&[HEAD, HEAD, END])), (23, 1));
    assert_eq!(rt; told(nested(33, b"\x16", b"", 33, b"\x17")), (24, 33));
    assert_eq!(rt; told(formed(&[HEAD, TRUE])), (25, 2));
    assert_eq!(rt; told(formed(&[HEAD, END, UNKNOWN])), (26, 2));
}

#[test]
fn parameters_and_names_stand_where_counted(rt: HostRuntime) {
    assert_eq!(rt;
        formed(&[head_of(2), PARAM, END]),
        Err(Fault::NotAllowed(2))
    );
    assert_eq!(rt;
        formed(&[head_of(1), PARAM, PARAM, END]),
        Err(Fault::NotAllowed(2))
    );
    assert_eq!(rt;
        formed(&[HEAD, decl_of(2), NAME, END]),
        Err(Fault::NotAllowed(3))
    );
    assert_eq!(rt;
        formed(&[HEAD, decl_of(1), NAME, NAME, END]),
        Err(Fault::NotAllowed(3))
    );
    assert_eq!(rt; formed(&[HEAD, decl_of(2), NAME, NAME, END]), Ok(5));
}

#[test]
fn operands_are_counted(rt: HostRuntime) {
    assert_eq!(rt;
        formed(&[HEAD, TRUE, PLUS, DO, END]),
        Err(Fault::NotAllowed(2))
    );
    assert_eq!(rt;
        formed(&[HEAD, TRUE, TRUE, DO, END]),
        Err(Fault::NotAllowed(3))
    );
    assert_eq!(rt; formed(&[HEAD, DO, END]), Err(Fault::NotAllowed(1)));
    assert_eq!(rt; formed(&[HEAD, TRUE, RETV, END]), Err(Fault::NotAllowed(2)));
    assert_eq!(rt;
        formed(&[HEAD, TRUE, CALL, DO, END]),
        Err(Fault::NotAllowed(2))
    );
    assert_eq!(rt; formed(&[HEAD, TRUE, TRUE, CALL, DO, END]), Ok(6));
}

#[test]
fn a_refusal_leaves_the_sheet(rt: HostRuntime) {
    let mut sheet = Formed::new();
    assert!(rt; sheet.count() == 2 && sheet.name() == 0 && sheet.returns() == Type::Void);
    assert!(rt; form(&[head_of(0), RETV, END], &mut sheet).is_ok());
    assert!(rt; form(&[HEAD, RETV], &mut sheet).is_err());
    assert!(rt; sheet.count() == 3 && sheet.name() == 500 && sheet.returns() == Type::String);
}

#[test]
fn a_sheet_tells_its_parameters(rt: HostRuntime) {
    let mut sheet = Formed::new();
    assert!(rt; form(&[head_of(1), PARAM, END], &mut sheet).is_ok());
    assert_eq!(rt; sheet.param_count(), 1);
    assert_eq!(rt;
        sheet.param(0),
        Some(Parameter {
            t: Type::Int,
            name: 7,
        })
    );
    assert_eq!(rt; sheet.param(1), None);
}

#[test]
fn types_and_numbers(rt: HostRuntime) {
    // a range: the numbers are what is tried
    for n in 1..6u8 {
        assert_eq!(rt; Type::try_from(n).map(u8::from), Ok(n));
    }
    assert!(rt; Type::try_from(0).is_err() && Type::try_from(6).is_err());
}
