// A store whose entries hang in chains by their name modulo 64.
ghost use Rattle.std.specs.Prelude.{◌≡◌, ◌<◌, ◌≤◌, min, [], length, take};
ghost use Rattle.levels.specs.Search.{newest_of};
ghost use Rattle.levels.specs.Entries.{names, nexts};
ghost use Rattle.levels.specs.Layout.{layout, store_of, grown, top_or};
ghost use Rattle.levels.specs.Linked.{bucket, last_in, Threaded, Headed};

use crate::buckets::Buckets;
use crate::entry::Entry;
use crate::refusal::Refusal;
use crate::slices::{usable, value_at};
use crate::store::{Declaring, Looking};
use crate::table::LevelTable;

// Entries in the order in which they were declared, each linked to the one before it in its bucket.
#[derive(Drop)]
pub struct Chains<'a, V> {
    entries: &'a mut [Entry<V>],
    levels: LevelTable,
    buckets: Buckets,
    ghost within: { levels.count ≤ length entries.now },
    ghost threaded: { Threaded (names entries.now) (nexts entries.now) levels.count },
    ghost headed: { Headed (names entries.now) buckets.heads levels.count },
}

impl<'a, V: Copy> Chains<'a, V> {
    // A store with no level, whatever the entries hold. It keeps no entry past the first 256.
    #[tactic(auto, using(crate::proofs::Storing::store_new, crate::proofs::Linking::unlinked))]
    pub fn new(entries: &'a mut [Entry<V>]) -> Self
        ensures result { ⟦<Chains<'a, V> as Looking<V>>⟧.meaning result ≡ record { capacity = min 256 (length entries.old); levels = [] } }
        ensures bound { result.entries.now ≡ take 256 entries.old }
    {
        Chains {
            entries: usable(entries),
            levels: LevelTable::new(),
            buckets: Buckets::new(),
        }
    }

    // The place of the newest standing entry with the name.
    fn place_of(&self, name: u16) -> Option<usize>
        ensures result { result ≡ newest_of (names (take (layout self.now.levels).count self.now.entries.now)) name }
    {
        walk(
            self.entries,
            self.levels.count(),
            self.buckets.head(name),
            name,
        )
    }

    // The newest entry goes out of its chain; it is on the top level.
    fn unlink(&mut self)
        requires entry { top_or (layout self.old.levels).starts self.old.levels.count < self.old.levels.count }
        ensures levels { layout self.old.levels ≡ grown (layout self.new.levels) }
        ensures entries { self.new.entries.now ≡ self.old.entries.now }
    {
        let newest = self.entries[self.levels.count() - 1];
        self.buckets.set_head(newest.name, newest.next);
        self.levels.shrink();
    }
}

// What reads as in `Pile` (capacity, look, here, enter) is one call of what both share; an inner struct of the two would only put its name before each call.
impl<'a, V: Copy> Looking<V> for Chains<'a, V> {
    ghost meaning = { λ p. store_of (layout p.levels) p.entries.now };

    fn capacity(&self) -> usize {
        self.entries.len()
    }

    #[tactic(auto, using(crate::proofs::Storing::look_by))]
    fn look(&self, name: u16) -> Option<V> {
        value_at(self.entries, self.place_of(name))
    }

    #[tactic(auto, using(crate::proofs::Storing::here_by))]
    fn here(&self, name: u16) -> bool {
        self.levels.on_top(self.place_of(name))
    }
}

impl<'a, V: Copy> Declaring<V> for Chains<'a, V> {
    #[tactic(auto, using(crate::proofs::Linking::unlinked))]
    fn wipe(&mut self) {
        self.levels.wipe();
        self.buckets = Buckets::new();
    }

    #[tactic(auto, using(crate::proofs::Storing::entering))]
    fn enter(&mut self) -> Result<(), Refusal> {
        self.levels.enter()
    }

    fn leave(&mut self) -> Result<(), Refusal> {
        let start = self.levels.top().ok_or(Refusal::NoneToLeave)?;
        // Until the level is gone: `unlink` itself counts down.
        while self.levels.count() > start {
            self.unlink();
        }
        self.levels.leave()
    }

    #[tactic(auto, using(crate::proofs::Declaring::declaring))]
    fn declare(&mut self, name: u16, value: V) -> Result<(), Refusal> {
        let place = self.levels.place(self.here(name), self.capacity())?;
        self.entries[place] = Entry {
            name,
            value,
            next: self.buckets.head(name),
        };
        self.buckets.set_head(name, Some(place));
        self.levels.grow();
        Ok(())
    }
}

// The newest place of the name among the first `count` entries, along its chain.
// (A loop and not `successors(..).find(..)`: the closures index the entries, and the bound of each place, `find-requires-clause-can`, is
// known along the chain alone.)
fn walk<V>(entries: &[Entry<V>], count: usize, head: Option<usize>, name: u16) -> Option<usize>
    requires within { count ≤ length entries.now }
    requires threaded { Threaded (names entries.now) (nexts entries.now) count }
    requires headed { head ≡ last_in (names entries.now) count (bucket name) }
    ensures result { result ≡ newest_of (names (take count entries.now)) name }
{
    let mut next = head;
    while let Some(i) = next {
        if entries[i].name == name {
            return Some(i);
        }
        next = entries[i].next;
    }
    None
}
