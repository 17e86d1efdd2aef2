// A store of names that hands each call on to another and counts the alterations: a third kind of store.
use crate::test_book::TestBook;
use levels::refusal::Refusal;
use levels::store::{Declaring, Looking};

// The store that is watched, and how many alterations it was asked for.
#[derive(Drop)]
pub struct Watched<'a, S> {
    pub inner: &'a mut S,
    pub alterations: usize,
}

impl<'a, V, S: Looking<V>> Looking<V> for Watched<'a, S> {
    ghost meaning = { λ w. S.Looking.meaning w.inner.now };

    fn capacity(&self) -> usize {
        self.inner.capacity()
    }

    fn look(&self, name: u16) -> Option<V> {
        self.inner.look(name)
    }

    fn here(&self, name: u16) -> bool {
        self.inner.here(name)
    }
}

impl<'a, V, S: Declaring<V>> Declaring<V> for Watched<'a, S> {
    fn wipe(&mut self) {
        self.alterations = self.alterations.saturating_add(1);
        self.inner.wipe();
    }

    fn enter(&mut self) -> Result<(), Refusal> {
        self.alterations = self.alterations.saturating_add(1);
        self.inner.enter()
    }

    fn leave(&mut self) -> Result<(), Refusal> {
        self.alterations = self.alterations.saturating_add(1);
        self.inner.leave()
    }

    fn declare(&mut self, name: u16, value: V) -> Result<(), Refusal> {
        self.alterations = self.alterations.saturating_add(1);
        self.inner.declare(name, value)
    }
}

// A check with both stores watched: its answer, and how often each store was altered.
pub fn watched_check<H: Declaring<u64>, S: Declaring<u8>>(
    test: &mut TestBook,
    heads: &mut H,
    variables: &mut S,
) -> [usize; 7] {
    let mut first = Watched {
        inner: heads,
        alterations: 0,
    };
    let mut second = Watched {
        inner: variables,
        alterations: 0,
    };
    let [walked, number, layer, sheet, place] = test.check_with(&mut first, &mut second);
    [
        walked,
        number,
        layer,
        sheet,
        place,
        first.alterations,
        second.alterations,
    ]
}
