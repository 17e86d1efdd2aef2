// What a check leaves in its two stores, of any kind and whatever stood in them.
use crate::sheets::*;
use crate::test_book::{TestBook, entry};
use crate::tests::{DONE, checked_pair};
use crate::watched::watched_check;
use levels::chains::Chains;
use levels::pile::Pile;
use levels::store::{Declaring, Looking};
use std::test::*;
use syntax::Type;

// Fills a store with levels, each with the name 0, and the top one with 9 too.
fn fill<V: Copy, S: Declaring<V>>(store: &mut S, value: V) {
    for _ in 0..33 {
        let _ = store.enter();
        let _ = store.declare(0, value);
    }
    let _ = store.declare(9, value);
}

// Takes the top level away, if there is one; which of the names 0 to 9 stood on it.
fn take_level<V, S: Declaring<V>>(store: &mut S) -> Option<[bool; 10]> {
    let mut standing = [false; 10];
    for (stands, name) in standing.iter_mut().zip(0..) {
        *stands = store.here(name);
    }
    store.leave().ok()?;
    Some(standing)
}

// A level with these names, and no other.
fn level(names: &[usize]) -> Option<[bool; 10]> {
    let mut standing = [false; 10];
    for name in names {
        *standing.get_mut(*name)? = true;
    }
    Some(standing)
}

// A fault inside two blocks leaves the levels as they stood: the parameters, the names of the outer block, and none in the inner one.
// The heads stand on one level.
#[test]
fn left_at_a_fault(rt: HostRuntime) -> Result<(), Fail> {
    let mut book = TestBook::new(rt.alloc())?;
    assert_eq!(rt; book.put(0, &takes(Type::Double, 8)), DONE);
    assert_eq!(rt; book.put(2, &deep_fault()), DONE);
    let mut entries = [entry(0, 0u64, None); 256];
    let mut room = [entry(0, 0u8, None); 256];
    let mut heads = Chains::new(&mut entries);
    let mut variables = Pile::new(&mut room);
    assert_eq!(rt;
        book.check_with(&mut heads, &mut variables),
        [2, 51, 4, 2, 6]
    );
    assert_eq!(rt; take_level(&mut heads), level(&[1, 4]));
    assert_eq!(rt; take_level(&mut heads), None);
    assert_eq!(rt; take_level(&mut variables), level(&[]));
    assert_eq!(rt; take_level(&mut variables), level(&[7]));
    assert_eq!(rt; take_level(&mut variables), level(&[8]));
    assert_eq!(rt; take_level(&mut variables), None);
    Ok(())
}

// A valid walk leaves one level, with the parameters and the names of the body.
#[test]
fn left_at_the_end(rt: HostRuntime) -> Result<(), Fail> {
    let mut book = TestBook::new(rt.alloc())?;
    assert_eq!(rt; book.put(9, &declares()), DONE);
    let mut entries = [entry(0, 0u64, None); 256];
    let mut room = [entry(0, 0u8, None); 256];
    let mut heads = Pile::new(&mut entries);
    let mut variables = Chains::new(&mut room);
    assert_eq!(rt;
        book.check_with(&mut heads, &mut variables),
        [1, 0, 0, 0, 0]
    );
    assert_eq!(rt; take_level(&mut variables), level(&[5, 6, 7]));
    assert_eq!(rt; take_level(&mut variables), None);
    Ok(())
}

// Stores that hold levels and names: the heads are written anew, also with nothing due; with no walk the variables stay.
#[test]
fn stores_in_use(rt: HostRuntime) -> Result<(), Fail> {
    let mut book = TestBook::new(rt.alloc())?;
    assert_eq!(rt; book.put(0, &takes(Type::Double, 8)), DONE);
    assert_eq!(rt; book.put(1, &calls(2)), DONE);
    let mut entries = [entry(0, 0u64, None); 256];
    let mut room = [entry(0, 0u8, None); 256];
    let mut heads = Pile::new(&mut entries);
    let mut variables = Chains::new(&mut room);
    for (walked, variables_left) in [(2, level(&[])), (0, level(&[0, 9]))] {
        fill(&mut heads, 5);
        fill(&mut variables, 3);
        assert_eq!(rt;
            book.check_with(&mut heads, &mut variables),
            [walked, 0, 0, 0, 0]
        );
        assert_eq!(rt; take_level(&mut heads), level(&[1, 2]));
        assert_eq!(rt; take_level(&mut heads), None);
        assert_eq!(rt; take_level(&mut variables), variables_left);
    }
    Ok(())
}

// Of two sheets due the higher one was altered: the variables are those of the lower one's walk.
#[test]
fn altered_after_a_walk(rt: HostRuntime) -> Result<(), Fail> {
    let mut book = TestBook::new(rt.alloc())?;
    assert_eq!(rt; book.put(0, &takes(Type::Double, 8)), DONE);
    assert_eq!(rt; book.put(3, &two(6, 7)), DONE);
    book.alter(3, 5, frame(0x14, 0, 0, 0));
    let mut entries = [entry(0, 0u64, None); 256];
    let mut room = [entry(0, 0u8, None); 256];
    let mut heads = Pile::new(&mut entries);
    let mut variables = Pile::new(&mut room);
    assert_eq!(rt;
        book.check_with(&mut heads, &mut variables),
        [2, 38, 3, 3, 0]
    );
    assert_eq!(rt; variables.look(8), Some(3));
    assert!(rt; variables.look(6).is_none());
    Ok(())
}

// A third kind of store serves as well; a check with nothing due, or with nothing but an altered sheet, leaves the variables alone.
#[test]
fn a_third_store(rt: HostRuntime) -> Result<(), Fail> {
    let mut book = checked_pair(&rt, rt.alloc())?;
    let mut entries = [entry(0, 0u64, None); 256];
    let mut room = [entry(0, 0u8, None); 256];
    let mut heads = Pile::new(&mut entries);
    let mut variables = Chains::new(&mut room);
    assert_eq!(rt;
        watched_check(&mut book, &mut heads, &mut variables),
        [0, 0, 0, 0, 0, 4, 0]
    );
    assert_eq!(rt; book.put(3, &two(6, 7)), DONE);
    book.alter(3, 5, frame(0x14, 0, 0, 0));
    assert_eq!(rt;
        watched_check(&mut book, &mut heads, &mut variables),
        [1, 38, 3, 3, 0, 5, 0]
    );
    Ok(())
}
