// What histories of calls answer and leave.
use crate::sheets::*;
use crate::test_book::{TestBook, entry};
use frames::Formed;
use levels::chains::Chains;
use std::alloc::Global;
use std::process::Abort;
use std::test::*;
use syntax::Type;

pub const DONE: [usize; 4] = [0, 0, 0, 0];

// A callee on sheet 0 and its caller on sheet 1, checked.
pub fn checked_pair(rt: &impl Abort, heap: Global) -> Result<TestBook, Fail> {
    let mut book = TestBook::new(heap)?;
    assert_eq!(rt; book.put(0, &takes(Type::Double, 8)), DONE);
    assert_eq!(rt; book.put(1, &calls(2)), DONE);
    assert_eq!(rt; book.check(), [2, 0, 0, 0, 0]);
    Ok(book)
}

// A parameter that becomes int is seen by the caller, and so is a callee that goes, and one that comes again.
#[test]
fn a_callee_changes(rt: HostRuntime) -> Result<(), Fail> {
    let mut book = checked_pair(&rt, rt.alloc())?;
    assert_eq!(rt; book.put(0, &takes(Type::Int, 8)), DONE);
    assert_eq!(rt; book.check(), [2, 54, 4, 1, 2]);
    assert_eq!(rt; book.clear(0), DONE);
    assert_eq!(rt; book.check(), [1, 52, 4, 1, 2]);
    assert_eq!(rt; book.check(), [0, 52, 4, 1, 2]);
    assert_eq!(rt; book.put(5, &takes(Type::Double, 8)), DONE);
    assert_eq!(rt; book.check(), [2, 0, 0, 0, 0]);
    Ok(())
}

// Another parameter name, the same head: the caller is not due.
#[test]
fn the_same_head(rt: HostRuntime) -> Result<(), Fail> {
    let mut book = checked_pair(&rt, rt.alloc())?;
    assert_eq!(rt; book.put(0, &takes(Type::Double, 6)), DONE);
    assert_eq!(rt; book.check(), [1, 0, 0, 0, 0]);
    assert_eq!(rt; book.check(), [0, 0, 0, 0, 0]);
    Ok(())
}

// A head that goes and comes back, on its sheet or another, still counts: the caller's part of the column is written anew, and no other.
#[test]
fn a_head_restored(rt: HostRuntime) -> Result<(), Fail> {
    let mut book = checked_pair(&rt, rt.alloc())?;
    assert_eq!(rt; book.put(0, &takes(Type::Int, 8)), DONE);
    assert_eq!(rt; book.put(0, &takes(Type::Double, 8)), DONE);
    assert_eq!(rt; book.check(), [2, 0, 0, 0, 0]);
    assert_eq!(rt; book.put(31, &nothing(6)), DONE);
    assert_eq!(rt; book.check(), [1, 0, 0, 0, 0]);
    assert_eq!(rt; book.clear(0), DONE);
    assert_eq!(rt; book.put(5, &takes(Type::Double, 8)), DONE);
    for sheet in [0, 1, 5, 31] {
        book.mark(sheet, 1, 9);
    }
    assert_eq!(rt; book.check(), [2, 0, 0, 0, 0]);
    assert_eq!(rt;
        [0, 1, 5, 31].map(|sheet| book.number(sheet, 1)),
        [9, 3, 0, 9]
    );
    Ok(())
}

// A put of another name alters two heads.
#[test]
fn replaced_by_another(rt: HostRuntime) -> Result<(), Fail> {
    let mut book = checked_pair(&rt, rt.alloc())?;
    assert_eq!(rt; book.put(0, &nothing(6)), DONE);
    assert_eq!(rt; book.check(), [2, 52, 4, 1, 2]);
    assert_eq!(rt; book.put(0, &takes(Type::Double, 8)), DONE);
    assert_eq!(rt; book.check(), [2, 0, 0, 0, 0]);
    Ok(())
}

// A formed sheet can be put as it is at first, a function named 0; and 0 is a name like any other.
#[test]
fn the_first_formed_sheet(rt: HostRuntime) -> Result<(), Fail> {
    let mut book = TestBook::new(rt.alloc())?;
    assert_eq!(rt; book.put_formed(31, &Formed::new()), DONE);
    assert_eq!(rt; book.put(4, &nothing(0)), [33, 3, 4, 0]);
    assert_eq!(rt; book.put(4, &own_caller(1)), DONE);
    assert_eq!(rt; book.check(), [2, 0, 0, 0, 0]);
    assert_eq!(rt; book.put(4, &own_caller(0)), [33, 3, 4, 0]);
    assert_eq!(rt; book.put(31, &own_caller(0)), DONE);
    assert_eq!(rt; book.check(), [1, 0, 0, 0, 0]);
    assert_eq!(rt; book.type_at(31, 1), 5);
    Ok(())
}

// A caller before its callee.
#[test]
fn the_caller_first(rt: HostRuntime) -> Result<(), Fail> {
    let mut book = TestBook::new(rt.alloc())?;
    assert_eq!(rt; book.put(1, &calls(2)), DONE);
    assert_eq!(rt; book.check(), [1, 52, 4, 1, 2]);
    assert_eq!(rt; book.put(0, &takes(Type::Double, 8)), DONE);
    assert_eq!(rt; book.check(), [2, 0, 0, 0, 0]);
    Ok(())
}

// A refused put leaves the reader and makes nothing due.
#[test]
fn refused_puts(rt: HostRuntime) -> Result<(), Fail> {
    let mut book = checked_pair(&rt, rt.alloc())?;
    assert_eq!(rt; book.put(4, &takes(Type::Int, 8)), [33, 3, 4, 0]);
    assert_eq!(rt; book.put(40, &takes(Type::Int, 8)), [31, 3, 40, 0]);
    assert_eq!(rt; book.put(4, &two(6, 6)), [34, 3, 4, 2]);
    assert_eq!(rt; book.put_short(4, &Formed::new()), [32, 3, 4, 0]);
    assert_eq!(rt; book.clear(4), [35, 3, 4, 0]);
    assert_eq!(rt; book.clear(200), [31, 3, 200, 0]);
    assert_eq!(rt; book.type_at(1, 1), 3);
    assert_eq!(rt; book.check(), [0, 0, 0, 0, 0]);
    Ok(())
}

// The lowest faulty sheet counts, also where its verdict was kept; a cleared one counts no more.
#[test]
fn a_kept_fault(rt: HostRuntime) -> Result<(), Fail> {
    let mut book = TestBook::new(rt.alloc())?;
    assert_eq!(rt; book.put(0, &unknown(1)), DONE);
    assert_eq!(rt; book.check(), [1, 51, 4, 0, 1]);
    assert_eq!(rt; book.put(3, &unknown(2)), DONE);
    assert_eq!(rt; book.check(), [1, 51, 4, 0, 1]);
    assert_eq!(rt; book.clear(0), DONE);
    assert_eq!(rt; book.check(), [0, 51, 4, 3, 1]);
    Ok(())
}

// A sheet that is emptied before its walk is never walked, nor is one that called itself.
#[test]
fn empty_is_never_due(rt: HostRuntime) -> Result<(), Fail> {
    let mut book = TestBook::new(rt.alloc())?;
    assert_eq!(rt; book.put(0, &own_caller(1)), DONE);
    assert_eq!(rt; book.clear(0), DONE);
    assert_eq!(rt; book.check(), [0, 0, 0, 0, 0]);
    Ok(())
}

// The types, and where there are none.
#[test]
fn types_are_read(rt: HostRuntime) -> Result<(), Fail> {
    let mut book = checked_pair(&rt, rt.alloc())?;
    assert_eq!(rt; book.type_at(1, 1), 3);
    assert_eq!(rt; book.type_at(1, 2), 5);
    assert_eq!(rt; book.type_at(1, 3), 0);
    assert_eq!(rt; book.type_at(1, 300), 0);
    assert_eq!(rt; book.type_at(0, 257), 0);
    assert_eq!(rt; book.type_at(2, 1), 0);
    assert_eq!(rt; book.type_at(32, 0), 131);
    assert_eq!(rt; book.clear(1), DONE);
    assert_eq!(rt; book.type_at(1, 1), 236);
    Ok(())
}

// A column or frames altered from outside: no type where none can be.
#[test]
fn an_altered_column(rt: HostRuntime) -> Result<(), Fail> {
    let mut book = checked_pair(&rt, rt.alloc())?;
    book.mark(1, 0, 2);
    book.mark(1, 1, 6);
    book.mark(1, 9, 2);
    assert_eq!(rt; book.type_at(1, 0), 0);
    assert_eq!(rt; book.type_at(1, 1), 0);
    assert_eq!(rt; book.type_at(1, 9), 0);
    Ok(())
}

// Frames of a sheet that is not due decide nothing.
#[test]
fn altered_but_not_due(rt: HostRuntime) -> Result<(), Fail> {
    let mut book = checked_pair(&rt, rt.alloc())?;
    book.alter(1, 4, frame(0x14, 0, 0, 0));
    assert_eq!(rt; book.check(), [0, 0, 0, 0, 0]);
    assert_eq!(rt; book.number(1, 1), 3);
    Ok(())
}

// A due sheet that forms no more, has another name, another head, or a parameter twice: no types, the verdict stays though the frame
// comes back, until the sheet is due again.
#[test]
fn altered_and_due(rt: HostRuntime) -> Result<(), Fail> {
    let mut book = TestBook::new(rt.alloc())?;
    for (place, from, to) in [
        (5, frame(0x03, 0, 0, 0), frame(0x14, 0, 0, 0)),
        (0, frame(0x01, 2, 3, 2), frame(0x01, 2, 9, 2)),
        (2, frame(0x02, 2, 7, 0), frame(0x02, 1, 7, 0)),
        (2, frame(0x02, 2, 7, 0), frame(0x02, 2, 6, 0)),
    ] {
        assert_eq!(rt; book.put(0, &two(6, 7)), DONE);
        book.alter(0, place, to);
        book.mark(0, 3, 2);
        assert_eq!(rt; book.check(), [1, 38, 3, 0, 0]);
        assert_eq!(rt; book.number(0, 3), 0);
        book.alter(0, place, from);
        assert_eq!(rt; book.check(), [0, 38, 3, 0, 0]);
        assert_eq!(rt; book.type_at(0, 3), 236);
        assert_eq!(rt; book.put(0, &two(6, 7)), DONE);
        assert_eq!(rt; book.check(), [1, 0, 0, 0, 0]);
        assert_eq!(rt; book.number(0, 3), 2);
    }
    Ok(())
}

// A due sheet that still forms as recorded is walked as it now stands.
#[test]
fn altered_within_its_head(rt: HostRuntime) -> Result<(), Fail> {
    let mut book = TestBook::new(rt.alloc())?;
    assert_eq!(rt; book.put(0, &two(6, 7)), DONE);
    book.alter(0, 2, frame(0x02, 2, 9, 0));
    assert_eq!(rt; book.check(), [1, 0, 0, 0, 0]);
    assert_eq!(rt; book.put(0, &two(6, 7)), DONE);
    book.alter(0, 3, frame(0x25, 0, 8, 0));
    assert_eq!(rt; book.check(), [1, 51, 4, 0, 3]);
    Ok(())
}

// An altered caller is found only when its callee makes it due; restored, it is walked when it is due again.
#[test]
fn an_altered_caller(rt: HostRuntime) -> Result<(), Fail> {
    let mut book = checked_pair(&rt, rt.alloc())?;
    book.alter(1, 4, frame(0x14, 0, 0, 0));
    assert_eq!(rt; book.put(0, &takes(Type::Int, 8)), DONE);
    assert_eq!(rt; book.check(), [2, 38, 3, 1, 0]);
    book.alter(1, 4, frame(0x03, 0, 0, 0));
    assert_eq!(rt; book.check(), [0, 38, 3, 1, 0]);
    assert_eq!(rt; book.put(0, &takes(Type::Double, 8)), DONE);
    assert_eq!(rt; book.check(), [2, 0, 0, 0, 0]);
    Ok(())
}

// Refused calls between an edit and its check make nothing due and end nothing.
#[test]
fn refused_calls_between(rt: HostRuntime) -> Result<(), Fail> {
    let mut book = checked_pair(&rt, rt.alloc())?;
    assert_eq!(rt; book.put(0, &takes(Type::Int, 8)), DONE);
    assert_eq!(rt; book.put(1, &nothing(1)), [33, 3, 1, 0]);
    assert_eq!(rt; book.put(1, &two(6, 6)), [34, 3, 1, 2]);
    assert_eq!(rt; book.put_short(0, &Formed::new()), [32, 3, 0, 0]);
    assert_eq!(rt; book.clear(5), [35, 3, 5, 0]);
    assert_eq!(rt; book.clear(32), [31, 3, 32, 0]);
    assert_eq!(rt; book.post(1, b"zz"), [11, 1, 1, 0]);
    assert_eq!(rt; book.fresh_short(), [32, 3, 255, 0]);
    assert_eq!(rt; book.check_short(), [99, 32, 3, 255, 0]);
    assert_eq!(rt; book.check_small(), [99, 39, 3, 255, 0]);
    assert_eq!(rt; book.type_at(1, 1), 236);
    assert_eq!(rt; book.check(), [2, 54, 4, 1, 2]);
    Ok(())
}

// Stores that are too small refuse the check, which then ends nothing.
#[test]
fn small_stores(rt: HostRuntime) -> Result<(), Fail> {
    let mut book = TestBook::new(rt.alloc())?;
    assert_eq!(rt; book.put(0, &nothing(1)), DONE);
    assert_eq!(rt; book.check_small(), [99, 39, 3, 255, 0]);
    assert_eq!(rt; book.check(), [1, 0, 0, 0, 0]);
    Ok(())
}

// The same of a small store of variables; a valid book stays valid.
#[test]
fn small_variables(rt: HostRuntime) -> Result<(), Fail> {
    let mut book = checked_pair(&rt, rt.alloc())?;
    let mut entries = [entry(0, 0u64, None); 256];
    let mut room = [entry(0, 0u8, None); 255];
    let mut heads = Chains::new(&mut entries);
    let mut variables = Chains::new(&mut room);
    assert_eq!(rt;
        book.check_with(&mut heads, &mut variables),
        [99, 39, 3, 255, 0]
    );
    assert_eq!(rt; book.type_at(1, 1), 3);
    Ok(())
}

// Post reads, forms and puts, in this order.
#[test]
fn posts(rt: HostRuntime) -> Result<(), Fail> {
    let mut book = TestBook::new(rt.alloc())?;
    assert_eq!(rt; book.post(200, b"zz"), [11, 1, 200, 0]);
    assert_eq!(rt; book.post(200, b"0105000100000000\n"), [25, 2, 200, 1]);
    assert_eq!(rt;
        book.post(200, b"0105000100000000\n0300000000000000\n"),
        [31, 3, 200, 0]
    );
    assert_eq!(rt; book.post(7, b"0105000100000000\n0300000000000000\n"), DONE);
    assert_eq!(rt; book.check(), [1, 0, 0, 0, 0]);
    Ok(())
}

// An area of another length refuses fresh, check and the reader, which name no sheet.
#[test]
fn areas_of_another_length(rt: HostRuntime) -> Result<(), Fail> {
    let mut book = checked_pair(&rt, rt.alloc())?;
    assert_eq!(rt; book.fresh_short(), [32, 3, 255, 0]);
    assert_eq!(rt; book.check_short(), [99, 32, 3, 255, 0]);
    assert_eq!(rt; book.type_short(1, 1), 232);
    assert_eq!(rt; book.type_at(1, 1), 3);
    Ok(())
}
