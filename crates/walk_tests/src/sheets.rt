// Sheets to examine, and their examination with a store of each kind.
use levels::chains::Chains;
use levels::entry::Entry;
use levels::pile::Pile;
use levels::store::{Declaring, Looking};
use syntax::Frame;
use walk::{Refusal, Signature, Verdict, examine};

// A frame of these four fields. (The tests of the book have the same one; a crate for both would hold nothing else.)
pub fn frame(kind: u8, t: u8, name: u16, load: u32) -> Frame {
    Frame {
        kind,
        t,
        name,
        load,
    }
}

// An entry of a store that was lent to another before.
fn used<V>(value: V) -> Entry<V> {
    Entry {
        name: 7,
        value,
        next: Some(9),
    }
}

// The number of an answer, and its place: 0 for a valid sheet, 38 for an altered one, 1 and 2 for a refusal. The cases give numbers, as the documents do.
pub fn told(answer: Result<Verdict, Refusal>) -> (usize, usize) {
    match answer {
        Ok(Verdict::Valid) => (0, 0),
        Ok(Verdict::Broken(violation, place)) => (usize::from(u8::from(violation)), place),
        Ok(Verdict::Altered) => (38, 0),
        Err(Refusal::OtherColumn) => (1, 0),
        Err(Refusal::SmallStore) => (2, 0),
    }
}

// Examines the sheet as the one of that name and head, with its head alone to call.
fn examined<H: Declaring<u64>, S: Declaring<u8>>(
    frames: &[Frame],
    name: u16,
    head: u64,
    column: &mut [u8],
    heads: &mut H,
    variables: &mut S,
) -> (usize, usize) {
    let _ = heads.enter();
    let _ = heads.declare(name, head);
    told(examine(frames, Signature { name, head }, column, heads, variables))
}

// The same with piles. (It and the next stay two: each makes its stores over entries that are lent here; what follows is one.)
pub fn piled(frames: &[Frame], name: u16, head: u64, column: &mut [u8]) -> (usize, usize) {
    let mut room = [used(3u8); 256];
    let mut shelf = [used(5u64); 32];
    let mut variables = Pile::new(&mut room);
    let mut heads = Pile::new(&mut shelf);
    examined(frames, name, head, column, &mut heads, &mut variables)
}

// The same with chains.
pub fn chained(frames: &[Frame], name: u16, head: u64, column: &mut [u8]) -> (usize, usize) {
    let mut room = [used(3u8); 256];
    let mut shelf = [used(5u64); 32];
    let mut variables = Chains::new(&mut room);
    let mut heads = Chains::new(&mut shelf);
    examined(frames, name, head, column, &mut heads, &mut variables)
}

// The answer and the column that both stores give, if they give the same.
pub fn both(frames: &[Frame], name: u16, head: u64, column: &mut [u8]) -> Option<(usize, usize)> {
    let mut other = [8u8; 256];
    let a = piled(frames, name, head, column);
    let b = chained(frames, name, head, &mut other);
    (a == b && &*column == other.as_slice()).then_some(a)
}
