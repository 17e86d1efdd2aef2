// What an examination answers and leaves.
use crate::sheets::*;
use frames::{Formed, form};
use levels::entry::Entry;
use levels::pile::Pile;
use levels::store::{Declaring, Looking};
use syntax::Frame;
use walk::{Signature, examine, head_of};

// int f(int x) packs to this, and void f() to that.
const INT_OF_INT: u64 = 522;

const VOID_OF_NONE: u64 = 5;

// int f(int x) { return x + 1; }
fn plus_one() -> [Frame; 7] {
    [
        frame(0x01, 2, 1, 1),
        frame(0x02, 2, 2, 0),
        frame(0x25, 0, 2, 0),
        frame(0x22, 0, 0, 1),
        frame(0x30, 0, 0, 0),
        frame(0x15, 0, 0, 0),
        frame(0x03, 0, 0, 0),
    ]
}

// Whether the column begins with these numbers and has 0 after them.
fn has(column: &[u8], types: &[u8]) -> bool {
    column
        .strip_prefix(types)
        .is_some_and(|rest| rest.iter().all(|&t| t == 0))
}

#[test]
fn valid(rt: HostRuntime) {
    let mut column = [9u8; 256];
    assert!(rt; both(&plus_one(), 1, INT_OF_INT, &mut column) == Some((0, 0)));
    assert!(rt; has(&column, &[0, 0, 2, 2, 2, 0, 0]));
}

#[test]
fn heads(rt: HostRuntime) {
    let mut sheet = Formed::new();
    assert!(rt; head_of(&sheet) == VOID_OF_NONE);
    assert!(rt; form(&plus_one(), &mut sheet).is_ok());
    assert!(rt; head_of(&sheet) == INT_OF_INT);
}

// void f() { while (true) int x, x; } faults at the second name.
#[test]
fn broken(rt: HostRuntime) {
    let mut column = [9u8; 256];
    let names = [
        frame(0x01, 5, 1, 0),
        frame(0x20, 0, 0, 0),
        frame(0x18, 0, 0, 0),
        frame(0x11, 2, 0, 2),
        frame(0x12, 0, 3, 0),
        frame(0x12, 0, 3, 0),
        frame(0x03, 0, 0, 0),
    ];
    assert!(rt; both(&names, 1, VOID_OF_NONE, &mut column) == Some((58, 5)));
    assert!(rt; has(&column, &[]));
}

#[test]
fn altered(rt: HostRuntime) {
    let mut column = [9u8; 256];
    assert!(rt; both(&plus_one(), 2, INT_OF_INT, &mut column) == Some((38, 0)));
    assert!(rt; both(&plus_one(), 1, VOID_OF_NONE, &mut column) == Some((38, 0)));
    assert!(rt; both(&plus_one()[0..6], 1, INT_OF_INT, &mut column) == Some((38, 0)));
    let twice = [
        frame(0x01, 5, 1, 2),
        frame(0x02, 2, 4, 0),
        frame(0x02, 2, 4, 0),
        frame(0x03, 0, 0, 0),
    ];
    assert!(rt; both(&twice, 1, 4629, &mut column) == Some((38, 0)));
    assert!(rt; has(&column, &[]));
}

#[test]
fn refused(rt: HostRuntime) {
    let mut short = [9u8; 255];
    assert!(rt; piled(&plus_one(), 1, INT_OF_INT, &mut short) == (1, 0));
    assert!(rt; short[0] == 9);
    let mut column = [9u8; 256];
    let mut room = [Entry {
        name: 0,
        value: 0u8,
        next: None,
    }; 255];
    let mut shelf = [Entry {
        name: 0,
        value: 0u64,
        next: None,
    }; 2];
    let mut variables = Pile::new(&mut room);
    let heads = Pile::new(&mut shelf);
    assert!(rt;
        told(examine(
            &plus_one(),
            Signature {
                name: 1,
                head: INT_OF_INT,
            },
            &mut column,
            &heads,
            &mut variables,
        )) == (2, 0)
    );
    assert!(rt; column[0] == 9);
}

// void f(int a) { int b; { bool c; { b + c; } } } faults with both blocks open; a valid sheet leaves one level. What stood in the store before is gone.
#[test]
fn levels_left(rt: HostRuntime) {
    let open_blocks = [
        frame(0x01, 5, 1, 1),
        frame(0x02, 2, 4, 0),
        frame(0x11, 2, 0, 1),
        frame(0x12, 0, 5, 0),
        frame(0x16, 0, 0, 0),
        frame(0x11, 1, 0, 1),
        frame(0x12, 0, 6, 0),
        frame(0x16, 0, 0, 0),
        frame(0x25, 0, 5, 0),
        frame(0x25, 0, 6, 0),
        frame(0x30, 0, 0, 0),
        frame(0x10, 0, 0, 0),
        frame(0x17, 0, 0, 0),
        frame(0x17, 0, 0, 0),
        frame(0x03, 0, 0, 0),
    ];
    let mut column = [9u8; 256];
    let mut room = [Entry {
        name: 0,
        value: 0u8,
        next: None,
    }; 256];
    let mut shelf = [Entry {
        name: 0,
        value: 0u64,
        next: None,
    }; 2];
    let mut variables = Pile::new(&mut room);
    let heads = Pile::new(&mut shelf);
    assert!(rt; variables.enter().is_ok() && variables.declare(8, 4).is_ok());
    let signature = Signature { name: 1, head: 525 };
    assert!(rt;
        told(examine(&open_blocks, signature, &mut column, &heads, &mut variables)) == (55, 10)
    );
    assert!(rt;
        variables.look(4) == Some(2) && variables.look(5) == Some(2) && variables.look(6) == Some(1)
    );
    assert!(rt; variables.look(8) == None && !variables.here(6));
    assert!(rt; variables.leave().is_ok() && variables.here(6) && !variables.here(5));
    assert!(rt; variables.leave().is_ok() && variables.here(5) && variables.here(4));
    assert!(rt; variables.leave().is_ok() && variables.leave().is_err());
    let signature = Signature {
        name: 1,
        head: INT_OF_INT,
    };
    assert!(rt;
        told(examine(&plus_one(), signature, &mut column, &heads, &mut variables)) == (0, 0)
    );
    assert!(rt; variables.here(2) && variables.leave().is_ok() && variables.leave().is_err());
}
