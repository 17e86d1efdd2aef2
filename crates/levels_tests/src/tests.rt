// Both stores and the third one on examples, over entries that hold anything, and packed heads.
use crate::single::Single;
use heads::{count, pack, parameter, returns};
use levels::chains::Chains;
use levels::entry::Entry;
use levels::pile::Pile;
use levels::refusal::Refusal;
use levels::store::{Declaring, Looking};
use levels_clients::{declare_two, look_either};
use std::process::Abort;
use std::test::Fail;

// What lent memory may hold.
const GARBAGE: Entry<u8> = Entry {
    name: 7,
    value: 99,
    next: Some(1000),
};

// 0, or the number of the refusal, which is what hosts are promised.
fn number_of(r: Result<(), Refusal>) -> u8 {
    r.err().map_or(0, u8::from)
}

// 33 levels and no more; nothing without a level.
fn deepens<S: Declaring<u8>>(rt: &impl Abort, s: &mut S) -> Result<(), Fail> {
    s.wipe();
    assert_eq!(rt; number_of(s.leave()), 42);
    assert_eq!(rt; number_of(s.declare(0, 1)), 43);
    assert_eq!(rt; s.look(7), None);
    assert!(rt; !s.here(7));
    // a count, and no list to walk; so are the ranges below: the numbers are what is tried
    for _ in 0..33 {
        s.enter()?;
    }
    assert_eq!(rt; number_of(s.enter()), 41);
    Ok(())
}

// As many names as there is room for, name 0 among them.
fn fills<S: Declaring<u8>>(rt: &impl Abort, s: &mut S, room: u16) -> Result<(), Fail> {
    deepens(rt, s)?;
    assert_eq!(rt; s.capacity(), room as usize);
    for name in 0..room {
        s.declare(name, 3)?;
    }
    assert_eq!(rt; number_of(s.declare(room, 1)), 45);
    if room > 0 {
        assert_eq!(rt; number_of(s.declare(0, 1)), 44);
        assert_eq!(rt; s.look(room - 1), Some(3));
    }
    s.leave()?;
    assert_eq!(rt; s.look(0), None);
    Ok(())
}

// A name on two levels, names equal modulo 64, and what is seen again after leaving.
fn shadows<S: Declaring<u8>>(rt: &impl Abort, s: &mut S) -> Result<(), Fail> {
    assert_eq!(rt; declare_two(s, 7, 1, 71, 2)?, Some(1));
    s.enter()?;
    s.declare(7, 3)?;
    assert_eq!(rt; s.look(7), Some(3));
    assert_eq!(rt; s.look(71), Some(2));
    assert!(rt; !s.here(71));
    s.leave()?;
    assert_eq!(rt; s.look(7), Some(1));
    assert_eq!(rt; s.look(135), None);
    assert_eq!(rt; number_of(s.declare(71, 4)), 44);
    assert_eq!(rt; s.look(71), Some(2));
    Ok(())
}

// Entries of both levels count, and a wipe leaves none of them.
fn counts_levels<S: Declaring<u8>>(rt: &impl Abort, s: &mut S) -> Result<(), Fail> {
    shadows(rt, s)?;
    s.declare(135, 4)?;
    assert_eq!(rt; s.look(135), Some(4));
    s.enter()?;
    assert_eq!(rt; number_of(s.declare(7, 3)), 45);
    s.leave()?;
    shadows(rt, s)
}

// A name is seen from a level above it, also name 0, and again once that level is left; a name equal modulo 64 is another.
fn sees_through<S: Declaring<u8>>(rt: &impl Abort, s: &mut S) -> Result<(), Fail> {
    s.wipe();
    s.enter()?;
    s.declare(0, 5)?;
    s.enter()?;
    assert_eq!(rt; s.look(0), Some(5));
    assert_eq!(rt; s.look(64), None);
    assert!(rt; !s.here(0));
    s.leave()?;
    assert!(rt; s.here(0));
    assert!(rt; !s.here(64));
    assert_eq!(rt; look_either(s, 64, 0), Some(5));
    s.leave()?;
    assert_eq!(rt; s.look(0), None);
    Ok(())
}

// The same calls on two stores.
fn agree<A: Declaring<u8>, B: Declaring<u8>>(rt: &impl Abort, a: &mut A, b: &mut B) {
    a.wipe();
    b.wipe();
    for i in 0..400u16 {
        if i % 7 == 0 {
            assert_eq!(rt; number_of(a.enter()), number_of(b.enter()));
        }
        if i % 31 == 0 {
            assert_eq!(rt; number_of(a.leave()), number_of(b.leave()));
        }
        let name = i * 37 % 130;
        assert_eq!(rt;
            number_of(a.declare(name, 5)),
            number_of(b.declare(name, 5))
        );
        assert_eq!(rt; a.look(i % 130), b.look(i % 130));
        assert_eq!(rt; a.here(i % 130), b.here(i % 130));
    }
}

// Both stores over the same memory have room for so many.
fn both_fill(rt: &impl Abort, lent: &mut [Entry<u8>], room: u16) -> Result<(), Fail> {
    fills(rt, &mut Pile::new(lent), room)?;
    fills(rt, &mut Chains::new(lent), room)
}

#[test]
fn memory_of_any_length(rt: HostRuntime) -> Result<(), Fail> {
    both_fill(&rt, &mut [GARBAGE; 0], 0)?;
    both_fill(&rt, &mut [GARBAGE; 1], 1)?;
    both_fill(&rt, &mut [GARBAGE; 255], 255)?;
    both_fill(&rt, &mut [GARBAGE; 256], 256)
}

#[test]
fn memory_past_the_capacity(rt: HostRuntime) -> Result<(), Fail> {
    let mut lent = [GARBAGE; 300];
    both_fill(&rt, &mut lent, 256)?;
    for entry in &lent[256..] {
        assert_eq!(rt; entry.name, 7);
        assert_eq!(rt; entry.value, 99);
        assert_eq!(rt; entry.next, Some(1000));
    }
    Ok(())
}

#[test]
fn names_are_shadowed(rt: HostRuntime) -> Result<(), Fail> {
    let mut lent = [GARBAGE; 3];
    shadows(&rt, &mut Pile::new(&mut lent))?;
    shadows(&rt, &mut Chains::new(&mut lent))
}

#[test]
fn names_are_seen_from_above(rt: HostRuntime) -> Result<(), Fail> {
    let mut lent = [GARBAGE; 1];
    sees_through(&rt, &mut Pile::new(&mut lent))?;
    sees_through(&rt, &mut Chains::new(&mut lent))?;
    sees_through(&rt, &mut Single::new())
}

#[test]
fn levels_share_the_entries(rt: HostRuntime) -> Result<(), Fail> {
    let mut lent = [GARBAGE; 3];
    counts_levels(&rt, &mut Pile::new(&mut lent))?;
    counts_levels(&rt, &mut Chains::new(&mut lent))
}

#[test]
fn stores_agree(rt: HostRuntime) {
    let mut piled = [GARBAGE; 100];
    let mut chained = [GARBAGE; 100];
    agree(
        &rt,
        &mut Pile::new(&mut piled),
        &mut Chains::new(&mut chained),
    );
}

#[test]
fn a_single_entry(rt: HostRuntime) -> Result<(), Fail> {
    let mut single = Single::new();
    let mut lent = [GARBAGE; 1];
    fills(&rt, &mut single, 1)?;
    agree(&rt, &mut single, &mut Chains::new(&mut lent));
    Ok(())
}

#[test]
fn heads_are_unpacked(rt: HostRuntime) -> Result<(), Fail> {
    assert_eq!(rt; pack(&[1, 8], 2), None);
    assert_eq!(rt; pack(&[1; 17], 2), None);
    let head = pack(&[1, 2, 3, 4, 1, 2, 3, 4, 1, 2, 3, 4, 1, 2, 3, 7], 5).ok_or("packed")?;
    assert_eq!(rt; count(head), 16);
    assert_eq!(rt; returns(head), 5);
    assert_eq!(rt; parameter(head, 0), Some(1));
    assert_eq!(rt; parameter(head, 15), Some(7));
    assert_eq!(rt; parameter(head, 16), None);
    Ok(())
}

// A store of heads gives back the head of the level nearest the top.
fn keeps_heads<S: Declaring<u64>>(
    rt: &impl Abort,
    s: &mut S,
    outer: u64,
    inner: u64,
) -> Result<(), Fail> {
    s.wipe();
    s.enter()?;
    s.declare(0, outer)?;
    s.enter()?;
    s.declare(0, inner)?;
    assert_eq!(rt; s.look(0), Some(inner));
    s.leave()?;
    assert_eq!(rt; s.look(0), Some(outer));
    Ok(())
}

#[test]
fn heads_in_stores(rt: HostRuntime) -> Result<(), Fail> {
    let outer = pack(&[3, 2], 5).ok_or("packed")?;
    let inner = pack(&[], 1).ok_or("packed")?;
    let mut piled = [Entry {
        name: 0,
        value: 0u64,
        next: Some(9),
    }; 2];
    let mut chained = piled;
    keeps_heads(&rt, &mut Pile::new(&mut piled), outer, inner)?;
    keeps_heads(&rt, &mut Chains::new(&mut chained), outer, inner)
}
