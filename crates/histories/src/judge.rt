// The verdict on one sheet as it now stands, by a book of its own: the sheet, and for every other filled sheet one that does nothing and has
// its head.
use crate::draft::sheets::stub;
use crate::lent::{Lengths, Lent};
use crate::plain::{DONE, Entry, Plain, SHEETS, front};
use crate::stores::unused;
use levels::pile::Pile;

// Whether the frames form a sheet of the name and head that were put, with no parameter twice. It stands in the spare book then.
fn is_as_put(spare: &mut Lent, plain: &Plain, sheet: u8, entry: &Entry) -> bool {
    let own = plain.own(sheet);
    let (name, head) = front(own);
    name == entry.name && head == entry.head && spare.put_frames(sheet, own) == DONE
}

// Puts a sheet that does nothing for every other filled one.
fn put_stubs(spare: &mut Lent, plain: &Plain, sheet: u8) {
    for other in 0..SHEETS {
        if other != sheet {
            if let Some(entry) = plain.entry(other) {
                let _ = spare.put_frames(other, stub(entry.name, &entry.head).as_slice());
            }
        }
    }
}

// Number, layer and place of the sheet's fault, or zeros. Its part of the column is left in the spare book.
pub fn judged(spare: &mut Lent, plain: &Plain, sheet: u8) -> [usize; 3] {
    let _ = spare.fresh(Lengths::Right);
    let Some(entry) = plain.entry(sheet) else {
        return [0; 3];
    };
    if !is_as_put(spare, plain, sheet, &entry) {
        return [38, 3, 0];
    }
    put_stubs(spare, plain, sheet);
    let mut heads = [unused(0u64); 256];
    let mut variables = [unused(0u8); 256];
    let [_, number, layer, _, place] = spare.check(
        Lengths::Right,
        &mut Pile::new(&mut heads),
        &mut Pile::new(&mut variables),
    );
    [number, layer, place]
}
