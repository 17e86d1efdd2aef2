// One name with its value, in memory that a store is lent.
use crate::search::Named;

// What stands in one place of that memory. A host that lends it may leave anything in it.
#[derive(Clone, Copy)]
pub struct Entry<V> {
    pub name: u16,
    pub value: V,
    // the place of the entry before it in its chain, if there is one; only chains go by it (a place and no Box: entries are lent, and there is no heap)
    pub next: Option<usize>,
}

impl<V> Named for Entry<V> {
    ghost label = { λ e. e.name };

    fn name(&self) -> u16 {
        self.name
    }
}
