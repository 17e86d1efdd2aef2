// A store that is searched from its newest entry.
ghost use Rattle.std.specs.Prelude.{◌≡◌, ◌≤◌, min, [], length, take};
ghost use Rattle.levels.specs.Search.{newest_of};
ghost use Rattle.levels.specs.Entries.{names};
ghost use Rattle.levels.specs.Layout.{layout, store_of};

use crate::entry::Entry;
use crate::refusal::Refusal;
use crate::search::newest;
use crate::slices::{usable, value_at};
use crate::store::{Declaring, Looking};
use crate::table::LevelTable;

// Entries in the order in which they were declared, and the table of the levels that they stand on. (The entries are lent, so their
// count stands beside them, in the table.)
#[derive(Drop)]
pub struct Pile<'a, V> {
    entries: &'a mut [Entry<V>],
    levels: LevelTable,
    ghost within: { levels.count ≤ length entries.now },
}

impl<'a, V: Copy> Pile<'a, V> {
    // A store with no level, whatever the entries hold. It keeps no entry past the first 256.
    #[tactic(auto, using(crate::proofs::Storing::store_new))]
    pub fn new(entries: &'a mut [Entry<V>]) -> Self
        ensures result { ⟦<Pile<'a, V> as Looking<V>>⟧.meaning result ≡ record { capacity = min 256 (length entries.old); levels = [] } }
        ensures bound { result.entries.now ≡ take 256 entries.old }
    {
        Pile {
            entries: usable(entries),
            levels: LevelTable::new(),
        }
    }

    // The place of the newest standing entry with the name.
    #[tactic(auto, using(crate::proofs::Storing::place_by))]
    fn place_of(&self, name: u16) -> Option<usize>
        ensures result { result ≡ newest_of (names (take (layout self.now.levels).count self.now.entries.now)) name }
    {
        newest(&self.entries[..self.levels.count()], name)
    }
}

impl<'a, V: Copy> Looking<V> for Pile<'a, V> {
    ghost meaning = { λ p. store_of (layout p.levels) p.entries.now };

    fn capacity(&self) -> usize {
        self.entries.len()
    }

    #[tactic(auto, using(crate::proofs::Storing::look_by))]
    fn look(&self, name: u16) -> Option<V> {
        value_at(self.entries, self.place_of(name))
    }

    #[tactic(auto, using(crate::proofs::Storing::here_by))]
    fn here(&self, name: u16) -> bool {
        self.levels.on_top(self.place_of(name))
    }
}

impl<'a, V: Copy> Declaring<V> for Pile<'a, V> {
    fn wipe(&mut self) {
        self.levels.wipe();
    }

    #[tactic(auto, using(crate::proofs::Storing::entering))]
    fn enter(&mut self) -> Result<(), Refusal> {
        self.levels.enter()
    }

    fn leave(&mut self) -> Result<(), Refusal> {
        self.levels.leave()
    }

    #[tactic(auto, using(crate::proofs::Declaring::declaring))]
    fn declare(&mut self, name: u16, value: V) -> Result<(), Refusal> {
        let place = self.levels.place(self.here(name), self.capacity())?;
        self.entries[place] = Entry {
            name,
            value,
            next: None,
        };
        self.levels.grow();
        Ok(())
    }
}
