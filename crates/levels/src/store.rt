// The interface of a store of names: looking alone, and declaring on top of it.
ghost use Rattle.std.specs.Prelude.{◌≡◌};
ghost use Rattle.levels.specs.Store.{Store, wiped, enter_refused, entered, leave_refused, left, declare_refused, declared, looked, stands};
ghost use Rattle.levels.specs.Refusals.{answer};

use crate::refusal::Refusal;

// A store that can be asked. It carries the whole meaning, capacity and levels, and no call here alters it.
pub trait Looking<V> {
    ghost meaning: { Self → Store V };

    // How many entries may stand.
    fn capacity(&self) -> usize
        ensures result { result ≡ (meaning self.now).capacity };

    // The value from the level nearest the top that has the name.
    fn look(&self, name: u16) -> Option<V>
        ensures result { result ≡ looked (meaning self.now).levels name };

    // Whether the top level has the name.
    fn here(&self, name: u16) -> bool
        ensures result { result ≡ stands (meaning self.now).levels name };
}

// A store that can be altered too.
pub trait Declaring<V>: Looking<V> {
    // No level is left.
    fn wipe(&mut self)
        ensures leaves { Self.Looking.meaning self.new ≡ wiped (Self.Looking.meaning self.old) };

    // An empty level goes on top.
    fn enter(&mut self) -> Result<(), Refusal>
        ensures result { result ≡ answer (enter_refused (Self.Looking.meaning self.old)) }
        ensures leaves { Self.Looking.meaning self.new ≡ entered (Self.Looking.meaning self.old) };

    // The top level goes, with all its names.
    fn leave(&mut self) -> Result<(), Refusal>
        ensures result { result ≡ answer (leave_refused (Self.Looking.meaning self.old)) }
        ensures leaves { Self.Looking.meaning self.new ≡ left (Self.Looking.meaning self.old) };

    // The top level gets the name with the value.
    fn declare(&mut self, name: u16, value: V) -> Result<(), Refusal>
        ensures result { result ≡ answer (declare_refused (Self.Looking.meaning self.old) name) }
        ensures leaves { Self.Looking.meaning self.new ≡ declared (Self.Looking.meaning self.old) name value };
}
