// Each kind with right and wrong values in each field.
use super::drafts::{HEAD, formed};
use frames::{Fault, Frame};
use std::ops::RangeInclusive;

static TYPES: [u8; 8] = [0, 1, 2, 3, 4, 5, 6, 255];

static NAMES: [u16; 4] = [0, 1, 256, 65535];

static LOADS: [u32; 7] = [0, 1, 2, 16, 17, 65536, 4294967295];

// The numbers that a kind's fields may hold.
#[derive(Drop)]
struct Fields {
    t: RangeInclusive<u8>,
    name: RangeInclusive<u16>,
    load: RangeInclusive<u32>,
}

fn ranges(
    t: RangeInclusive<u8>,
    name: RangeInclusive<u16>,
    load: RangeInclusive<u32>,
) -> Option<Fields> {
    Some(Fields { t, name, load })
}

fn fields_of(kind: u8) -> Option<Fields> {
    match kind {
        0x01 => ranges(1..=5, 0..=65535, 0..=16),
        0x02 | 0x13 => ranges(1..=4, 0..=65535, 0..=0),
        0x11 => ranges(1..=4, 0..=0, 1..=16),
        0x03 | 0x10 | 0x14..=0x19 | 0x20 | 0x21 | 0x30..=0x3B => ranges(0..=0, 0..=0, 0..=0),
        0x12 | 0x25 | 0x27..=0x2A | 0x3C => ranges(0..=0, 0..=65535, 0..=0),
        0x22..=0x24 => ranges(0..=0, 0..=0, 0..=4294967295),
        0x26 => ranges(0..=0, 0..=65535, 0..=16),
        _ => None,
    }
}

// Whether a field of the frame is refused, after HEAD.
fn unfit(kind: u8, t: u8, name: u16, load: u32) -> bool {
    let frame = Frame {
        kind,
        t,
        name,
        load,
    };
    formed(&[HEAD, frame]) == Err(Fault::BadField(1))
}

// Whether the kind is known as it should be, and its fields are: each is tried with the others at their least.
fn agrees(kind: u8) -> bool {
    let Some(fields) = fields_of(kind) else {
        let frame = Frame {
            kind,
            t: 9,
            name: 9,
            load: 9,
        };
        return formed(&[HEAD, frame]) == Err(Fault::UnknownKind(1));
    };
    let t = *fields.t.start();
    let load = *fields.load.start();
    TYPES
        .iter()
        .all(|t| unfit(kind, *t, 0, load) != fields.t.contains(t))
        && NAMES.iter().all(|name| unfit(kind, t, *name, load) != fields.name.contains(name))
        && LOADS.iter().all(|load| unfit(kind, t, 0, *load) != fields.load.contains(load))
}

#[test]
fn every_kind_and_field(rt: HostRuntime) {
    // a range: the kinds are what is tried
    for kind in 0..=255u8 {
        assert!(rt; agrees(kind), "{}", kind);
    }
}
