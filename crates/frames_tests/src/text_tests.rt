// Reading and writing text.
ghost use Rattle.std.specs.Prelude.{◌≤◌};

use frames::{Diagnostic, Frame, read, write};

// A frame with another digit at every place of its text.
const SAMPLE: Frame = Frame {
    kind: 0x01,
    t: 0x23,
    name: 0x4567,
    load: 0x89ABCDEF,
};

const LINE: &[u8; 17] = b"0123456789ABCDEF\n";

// How many frames are read of the text into so many, or the fault as a host reports it.
fn read_into(room: usize, text: &[u8]) -> Result<usize, Diagnostic>
    requires { room ≤ 257 }
{
    let mut area = [Frame::BLANK; 257];
    read(text, &mut area[..room]).map_err(Diagnostic::from)
}

// The report of a fault of the text.
fn fault(number: u8, place: usize) -> Diagnostic {
    Diagnostic {
        number,
        layer: 1,
        sheet: 255,
        place,
    }
}

#[test]
fn texts_that_are_read(rt: HostRuntime) {
    assert_eq!(rt; read_into(0, b""), Ok(0));
    assert_eq!(rt; read_into(257, b""), Ok(0));
    assert_eq!(rt; read_into(1, LINE), Ok(1));
    assert_eq!(rt;
        read_into(2, b"FFFFFFFFFFFFFFFF\n0000000000000000\n"),
        Ok(2)
    );
}

#[test]
fn texts_that_are_refused(rt: HostRuntime) {
    assert_eq!(rt; read_into(1, b"0"), Err(fault(11, 0)), "one byte");
    assert_eq!(rt;
        read_into(1, b"0123456789ABCDEF"),
        Err(fault(11, 0)),
        "no last newline"
    );
    assert_eq!(rt;
        read_into(1, b"0123456789ABCDEf\n"),
        Err(fault(11, 0)),
        "lower case"
    );
    assert_eq!(rt;
        read_into(1, b"0123456789ABCDEF\r\n"),
        Err(fault(11, 0)),
        "CRLF"
    );
    assert_eq!(rt;
        read_into(2, b"0123456789ABCDEF\n\n"),
        Err(fault(11, 1)),
        "empty line"
    );
    assert_eq!(rt;
        read_into(1, b"0123456789ABCDEFG\n"),
        Err(fault(11, 0)),
        "a digit too many"
    );
    assert_eq!(rt;
        read_into(0, b"x"),
        Err(fault(12, 0)),
        "no room for a bad line"
    );
    assert_eq!(rt;
        read_into(1, b"0123456789ABCDEF\nzz"),
        Err(fault(12, 1)),
        "no room after a good line"
    );
}

#[test]
fn frames_read_before_a_fault_stay(rt: HostRuntime) {
    let mut area = [Frame::BLANK; 3];
    assert!(rt; read(b"0123456789ABCDEF\nzz", &mut area).is_err());
    assert_eq!(rt; area, [SAMPLE, Frame::BLANK, Frame::BLANK]);
}

#[test]
fn a_full_area_is_asked_before_the_line(rt: HostRuntime) {
    let mut text = [b'0'; 17 * 257 + 2];
    for line in text.chunks_exact_mut(17) {
        line[16] = b'\n';
    }
    text[17 * 257] = b'z';
    assert_eq!(rt; read_into(257, &text), Err(fault(12, 257)));
    assert_eq!(rt; read_into(257, &text[0..17 * 257]), Ok(257));
}

#[test]
fn what_is_written(rt: HostRuntime) {
    let frames = [SAMPLE; 2];
    let mut text = [7u8; 35];
    assert_eq!(rt;
        write(&frames, &mut text[0..33]).map_err(Diagnostic::from),
        Err(fault(13, 0)),
        "one byte too few"
    );
    assert!(rt; text[0] == 7 && text[32] == 7, "nothing altered");
    assert_eq!(rt; write(&frames, &mut text[0..34]), Ok(34), "just enough");
    assert!(rt; text[0] == b'0' && text[15] == b'F' && text[33] == 10 && text[34] == 7);
    assert_eq!(rt;
        write(&frames[0..0], &mut text[0..0]),
        Ok(0),
        "nothing into nothing"
    );
}
