// Where the levels of a store start in its entries, and how many entries stand.
ghost use Rattle.std.specs.Prelude.{◌≡◌, ◌+◌, ◌^◌, ◌<◌, true, reverse, length};
ghost use Rattle.levels.specs.Starts.{ordered};
ghost use Rattle.levels.specs.Refusals.{answer, answer_with, too_deep, none_to_leave, no_place};

use crate::refusal::Refusal;
use arrayvec::ArrayVec;

// No store has more levels.
const MOST_LEVELS: usize = 33;

// The starts of the levels, the oldest first, and how many entries stand.
#[derive(Drop)]
pub(crate) struct LevelTable {
    starts: ArrayVec<usize, MOST_LEVELS>,
    count: usize,
    ghost sound: { ordered (reverse starts.items) count ≡ true },
}

impl LevelTable {
    ghost use Rattle.levels.specs.Layout.{layout, no_levels, opened, closed, grown, top_of, top_or, on_top};

    pub(crate) fn new() -> Self
        ensures result { layout result ≡ no_levels }
    {
        LevelTable {
            starts: ArrayVec::new(),
            count: 0,
        }
    }

    // How many entries stand.
    pub(crate) fn count(&self) -> usize
        ensures result { result ≡ (layout self.now).count }
    {
        self.count
    }

    // Where the top level starts.
    pub(crate) fn top(&self) -> Option<usize>
        ensures result { result ≡ top_of (layout self.now).starts }
    {
        self.starts.last().copied()
    }

    // Whether a place is on the top level.
    pub(crate) fn on_top(&self, place: Option<usize>) -> bool
        ensures result { result ≡ on_top (layout self.now).starts place }
    {
        matches!((self.top(), place), (Some(start), Some(i)) if i >= start)
    }

    // No level is left.
    pub(crate) fn wipe(&mut self)
        ensures leaves { layout self.new ≡ no_levels }
    {
        self.starts.clear();
        self.count = 0;
    }

    // A level more, which starts at the count.
    pub(crate) fn enter(&mut self) -> Result<(), Refusal>
        ensures result { result ≡ answer (too_deep (layout self.old).starts) }
        ensures leaves { layout self.new ≡ opened (layout self.old) }
    {
        if self.starts.is_full() {
            return Err(Refusal::TooDeep);
        }
        self.starts.push(self.count);
        Ok(())
    }

    // The top level goes with its entries.
    pub(crate) fn leave(&mut self) -> Result<(), Refusal>
        ensures result { result ≡ answer (none_to_leave (layout self.old).starts) }
        ensures leaves { layout self.new ≡ closed (layout self.old) }
    {
        self.count = self.starts.pop().ok_or(Refusal::NoneToLeave)?;
        Ok(())
    }

    // The place for one more entry on the top level, unless its name is repeated there or the entries are used up.
    pub(crate) fn place(&self, repeated: bool, capacity: usize) -> Result<usize, Refusal>
        ensures result { result ≡ answer_with (no_place (layout self.now).starts repeated (layout self.now).count capacity) (layout self.now).count }
    {
        if self.starts.is_empty() {
            return Err(Refusal::NoLevel);
        }
        if repeated {
            return Err(Refusal::Repeated);
        }
        if self.count >= capacity {
            return Err(Refusal::Full);
        }
        Ok(self.count)
    }

    // An entry more on the top level.
    pub(crate) fn grow(&mut self)
        requires level { 0 < length (layout self.old).starts }
        requires room { self.old.count + 1 < 2 ^ 64 }
        ensures leaves { layout self.new ≡ grown (layout self.old) }
    {
        self.count += 1;
    }

    // The newest entry of the top level goes.
    pub(crate) fn shrink(&mut self)
        requires entry { top_or (layout self.old).starts self.old.count < self.old.count }
        ensures leaves { layout self.old ≡ grown (layout self.new) }
    {
        self.count -= 1;
    }
}
