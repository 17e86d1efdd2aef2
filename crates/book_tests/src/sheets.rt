// Sheets to put, named by what they show.
use syntax::{Frame, Type};

// A frame of these four fields. (The tests of the walk have the same one; a crate for both would hold nothing else.)
pub fn frame(kind: u8, t: u8, name: u16, load: u32) -> Frame {
    Frame {
        kind,
        t,
        name,
        load,
    }
}

// void 1(T d) {} with the parameter's type and name.
pub fn takes(t: Type, name: u16) -> [Frame; 3] {
    [
        frame(0x01, 5, 1, 1),
        frame(0x02, u8::from(t), name, 0),
        frame(0x03, 0, 0, 0),
    ]
}

// void NAME() {}
pub fn nothing(name: u16) -> [Frame; 2] {
    [frame(0x01, 5, name, 0), frame(0x03, 0, 0, 0)]
}

// void NAME() { 1(1.0); }
pub fn calls(name: u16) -> [Frame; 5] {
    [
        frame(0x01, 5, name, 0),
        frame(0x23, 0, 0, 1),
        frame(0x26, 0, 1, 1),
        frame(0x10, 0, 0, 0),
        frame(0x03, 0, 0, 0),
    ]
}

// void NAME() { 9; } where nothing is called 9
pub fn unknown(name: u16) -> [Frame; 4] {
    [
        frame(0x01, 5, name, 0),
        frame(0x25, 0, 9, 0),
        frame(0x10, 0, 0, 0),
        frame(0x03, 0, 0, 0),
    ]
}

// int 3(int A, int B) { return A; }
pub fn two(a: u16, b: u16) -> [Frame; 6] {
    [
        frame(0x01, 2, 3, 2),
        frame(0x02, 2, a, 0),
        frame(0x02, 2, b, 0),
        frame(0x25, 0, a, 0),
        frame(0x15, 0, 0, 0),
        frame(0x03, 0, 0, 0),
    ]
}

// void 3(int 6, int 7) { int 5; { int 4; } return; }
pub fn declares() -> [Frame; 11] {
    [
        frame(0x01, 5, 3, 2),
        frame(0x02, 2, 6, 0),
        frame(0x02, 2, 7, 0),
        frame(0x11, 2, 0, 1),
        frame(0x12, 0, 5, 0),
        frame(0x16, 0, 0, 0),
        frame(0x11, 2, 0, 1),
        frame(0x12, 0, 4, 0),
        frame(0x17, 0, 0, 0),
        frame(0x14, 0, 0, 0),
        frame(0x03, 0, 0, 0),
    ]
}

// void NAME() { NAME(); }
pub fn own_caller(name: u16) -> [Frame; 4] {
    [
        frame(0x01, 5, name, 0),
        frame(0x26, 0, name, 0),
        frame(0x10, 0, 0, 0),
        frame(0x03, 0, 0, 0),
    ]
}

// void 4(int 8) { { int 7; { 9; } } } with a fault inside two blocks
pub fn deep_fault() -> [Frame; 11] {
    [
        frame(0x01, 5, 4, 1),
        frame(0x02, 2, 8, 0),
        frame(0x16, 0, 0, 0),
        frame(0x11, 2, 0, 1),
        frame(0x12, 0, 7, 0),
        frame(0x16, 0, 0, 0),
        frame(0x25, 0, 9, 0),
        frame(0x10, 0, 0, 0),
        frame(0x17, 0, 0, 0),
        frame(0x17, 0, 0, 0),
        frame(0x03, 0, 0, 0),
    ]
}
