// What both stores do with the slice that they are lent.
ghost use Rattle.std.specs.Prelude.{◌≡◌, take};
ghost use Rattle.levels.specs.Entries.{value_at};

use crate::entry::Entry;

// No store holds more entries.
const CAPACITY: usize = 256;

// The entries that a store may use: the first 256, or all if there are fewer.
#[tactic(auto, using(std::proofs::lemmas::List::take_min))]
pub(crate) fn usable<V>(entries: &mut [Entry<V>]) -> &mut [Entry<V>]
    ensures result { result.now ≡ take 256 entries.old }
{
    let count = CAPACITY.min(entries.len());
    &mut entries[..count]
}

// The value of the entry at a place, if there is one.
pub(crate) fn value_at<V: Copy>(entries: &[Entry<V>], place: Option<usize>) -> Option<V>
    ensures result { result ≡ value_at entries.now place }
{
    Some(entries.get(place?)?.value)
}
