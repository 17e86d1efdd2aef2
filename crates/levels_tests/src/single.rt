// A store with room for one entry, and no memory lent.
ghost use Rattle.std.specs.Prelude.{◌≡◌, ◌≤◌, []};
ghost use Rattle.levels_tests.specs.Single.{single, depth_of};

use levels::refusal::Refusal;
use levels::store::{Declaring, Looking};

// The empty levels above the entry's, those below it, and the entry.
#[derive(Drop)]
pub struct Single<V> {
    upper: usize,
    lower: usize,
    held: Option<(u16, V)>,
    ghost shallow: { depth_of upper lower held ≤ 33 },
}

impl<V: Copy> Single<V> {
    pub fn new() -> Self
        ensures result { ⟦<Single<V> as Looking<V>>⟧.meaning result ≡ record { capacity = 1; levels = [] } }
    {
        Single {
            upper: 0,
            lower: 0,
            held: None,
        }
    }

    fn depth(&self) -> usize
        ensures result { result ≡ depth_of self.now.upper self.now.lower self.now.held }
    {
        match self.held {
            Some(_) => self.upper + self.lower + 1,
            None => self.upper,
        }
    }
}

impl<V: Copy> Looking<V> for Single<V> {
    ghost meaning = { λ p. single p.upper p.lower p.held };

    fn capacity(&self) -> usize {
        1
    }

    fn look(&self, name: u16) -> Option<V> {
        let (n, value) = self.held?;
        (n == name).then_some(value)
    }

    fn here(&self, name: u16) -> bool {
        matches!(self.held, Some((n, _)) if self.upper == 0 && n == name)
    }
}

impl<V: Copy> Declaring<V> for Single<V> {
    fn wipe(&mut self) {
        self.upper = 0;
        self.held = None;
    }

    fn enter(&mut self) -> Result<(), Refusal> {
        if self.depth() >= 33 {
            return Err(Refusal::TooDeep);
        }
        self.upper += 1;
        Ok(())
    }

    fn leave(&mut self) -> Result<(), Refusal> {
        if self.upper > 0 {
            self.upper -= 1;
            return Ok(());
        }
        self.held.take().ok_or(Refusal::NoneToLeave)?;
        self.upper = self.lower;
        Ok(())
    }

    fn declare(&mut self, name: u16, value: V) -> Result<(), Refusal> {
        if self.here(name) {
            return Err(Refusal::Repeated);
        }
        if self.held.is_some() {
            return Err(Refusal::Full);
        }
        if self.upper == 0 {
            return Err(Refusal::NoLevel);
        }
        self.lower = self.upper - 1;
        self.upper = 0;
        self.held = Some((name, value));
        Ok(())
    }
}
