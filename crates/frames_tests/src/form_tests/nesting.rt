// Unfinished things inside one another: 32 of them form, a 33rd does not.
// The kinds: 14 RETV, 16 OPEN, 17 CLOSE, 18 WHILE, 19 IF, 20 true.
use super::drafts::nested;
use frames::Fault;

#[test]
fn blocks(rt: HostRuntime) {
    assert_eq!(rt; nested(32, b"\x16", b"", 32, b"\x17"), Ok(66));
    assert_eq!(rt;
        nested(33, b"\x16", b"", 33, b"\x17"),
        Err(Fault::TooDeep(33))
    );
    assert_eq!(rt;
        nested(2, b"\x16", b"", 1, b"\x17"),
        Err(Fault::NotAllowed(4))
    );
}

#[test]
fn loops(rt: HostRuntime) {
    assert_eq!(rt; nested(32, b"\x20\x18", b"\x14", 0, b""), Ok(67));
    assert_eq!(rt;
        nested(33, b"\x20\x18", b"\x14", 0, b""),
        Err(Fault::TooDeep(66))
    );
    assert_eq!(rt;
        nested(2, b"\x20\x18", b"", 0, b""),
        Err(Fault::NotAllowed(5))
    );
}

// Each choice is the first half of the one before.
#[test]
fn choices(rt: HostRuntime) {
    assert_eq!(rt; nested(32, b"\x20\x19", b"\x14", 32, b"\x14"), Ok(99));
    assert_eq!(rt;
        nested(33, b"\x20\x19", b"\x14", 33, b"\x14"),
        Err(Fault::TooDeep(66))
    );
    assert_eq!(rt;
        nested(32, b"\x20\x19", b"\x14", 31, b"\x14"),
        Err(Fault::NotAllowed(97))
    );
}

// Each choice is the second half of the one before.
#[test]
fn chains(rt: HostRuntime) {
    assert_eq!(rt; nested(32, b"\x20\x19\x14", b"\x14", 0, b""), Ok(99));
    assert_eq!(rt;
        nested(33, b"\x20\x19\x14", b"\x14", 0, b""),
        Err(Fault::TooDeep(98))
    );
    assert_eq!(rt;
        nested(32, b"\x20\x19\x14", b"", 0, b""),
        Err(Fault::NotAllowed(97))
    );
}

// The two halves of a choice share its place; 23 is asked before 24.
#[test]
fn halves(rt: HostRuntime) {
    assert_eq!(rt;
        nested(30, b"\x16", b"\x20\x19\x16\x17\x16\x17", 30, b"\x17"),
        Ok(68)
    );
    assert_eq!(rt;
        nested(31, b"\x16", b"\x20\x19\x16\x17\x16\x17", 31, b"\x17"),
        Err(Fault::TooDeep(34))
    );
    assert_eq!(rt;
        nested(32, b"\x16", b"\x20\x18\x14", 32, b"\x17"),
        Err(Fault::TooDeep(34))
    );
    assert_eq!(rt;
        nested(32, b"\x16", b"\x20\x16", 33, b"\x17"),
        Err(Fault::NotAllowed(34))
    );
}

// while(true) while(true) if(true) return; else return; and then a statement of the body.
#[test]
fn upward(rt: HostRuntime) {
    assert_eq!(rt; nested(2, b"\x20\x18", b"\x20\x19\x14\x14", 0, b""), Ok(10));
    assert_eq!(rt;
        nested(2, b"\x20\x18", b"\x20\x19\x14\x14", 1, b"\x14"),
        Ok(11)
    );
    assert_eq!(rt;
        nested(2, b"\x20\x18", b"\x20\x19\x14\x14", 1, b"\x17"),
        Err(Fault::NotAllowed(9))
    );
    assert_eq!(rt;
        nested(1, b"\x20\x18\x16", b"\x20\x18", 1, b"\x17"),
        Err(Fault::NotAllowed(6))
    );
}
