// Two stores of names side by side: the same calls on both, and whether they answer and look alike.
ghost use Rattle.std.specs.Prelude.{◌≡◌, take};

use crate::counts::Counts;
use crate::random::Random;
use levels::entry::Entry;
use levels::refusal::Refusal;
use levels::store::{Declaring, Looking};

// Names below this are looked for.
const NAMES: u16 = 64;

// An entry before any name is declared.
pub fn unused<V>(value: V) -> Entry<V> {
    Entry {
        name: 0,
        value,
        next: None,
    }
}

// Leaves something in the entries, as an earlier user might.
pub fn soil<V>(entries: &mut [Entry<V>], random: &mut Random) {
    for entry in entries.iter_mut() {
        entry.name = random.name(64);
        entry.next = if random.once_in(2) {
            Some(random.below(300))
        } else {
            None
        };
    }
}

// The first so many of the items, or all.
pub fn first<T>(items: &mut [T], count: usize) -> &mut [T]
    ensures { result.now ≡ take count items.old }
{
    let end = count.min(items.len());
    &mut items[..end]
}

// One call, the same on both; whether both answered alike.
fn call<V: Copy, A: Declaring<V>, B: Declaring<V>>(
    a: &mut A,
    b: &mut B,
    value: V,
    random: &mut Random,
    enters: usize,
    counts: &mut Counts,
) -> bool {
    let name = random.name(400);
    let (left, right) = match random.below(40) {
        0 => (a.leave(), b.leave()),
        1 => (a.declare(name % 4, value), b.declare(name % 4, value)),
        n if n < enters => (a.enter(), b.enter()),
        _ => (a.declare(name, value), b.declare(name, value)),
    };
    counts.count_store(left.err().map(u8::from));
    left == right
}

// The same calls on both, so many that levels and entries run out now and then; whether both answered alike.
pub fn stir<V: Copy, A: Declaring<V>, B: Declaring<V>>(
    a: &mut A,
    b: &mut B,
    value: V,
    random: &mut Random,
    counts: &mut Counts,
) -> bool {
    let most = if random.once_in(30) { 400 } else { 12 };
    let enters = if random.once_in(3) { 30 } else { 8 };
    for _ in 0..random.below(most) {
        if !call(a, b, value, random, enters, counts) {
            return false;
        }
    }
    if random.once_in(2) {
        a.wipe();
        b.wipe();
    }
    true
}

// Whether both have the same names on the top level, and the same values nearest the top.
fn look_alike<V: PartialEq + Drop, A: Looking<V>, B: Looking<V>>(a: &A, b: &B) -> bool {
    for name in 0..NAMES {
        if a.look(name) != b.look(name) || a.here(name) != b.here(name) {
            return false;
        }
    }
    a.capacity() == b.capacity()
}

// Whether both look alike, and go on to while the levels are left one by one.
pub fn alike<V: PartialEq + Drop, A: Declaring<V>, B: Declaring<V>>(a: &mut A, b: &mut B) -> bool {
    for _ in 0..35 {
        if !look_alike(a, b) {
            return false;
        }
        let (left, right) = (a.leave(), b.leave());
        if left != right {
            return false;
        }
        if left.is_err() {
            return true;
        }
    }
    false
}

// What a store tells, in one number.
pub fn picture<V: Into<u64>, S: Looking<V>>(store: &S) -> u64 {
    let mut all = 0u64;
    for name in 0..NAMES {
        let value: u64 = store.look(name).map_or(0, |v| v.into());
        let seen = value
            .wrapping_mul(2)
            .wrapping_add(u64::from(store.here(name)));
        all = all.wrapping_mul(0x0000_0100_0000_01B3).wrapping_add(seen);
    }
    all
}
