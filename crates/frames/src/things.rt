// The unfinished things that a statement stands in.
ghost use Rattle.std.specs.Prelude.{◌≡◌, ◌<◌, ◌↔◌, [], ◌∷◌, length, drop, IsOk, OnOk, OnErr, IsTrue, slice_get};
ghost use Rattle.syntax.specs.Form.{finish};

use arrayvec::ArrayVec;
use std::marker::Model;
use syntax::Unfinished;

// So many things may be unfinished together.
const DEEPEST: usize = 32;

// A thing too many was to begin.
#[derive(Clone, Copy, PartialEq, Eq, Debug)]
pub struct TooDeep;

// The unfinished things, the innermost last; contracts see them with the innermost first.
#[derive(Drop)]
pub struct Things {
    stack: ArrayVec<Unfinished, DEEPEST>,
}

impl Model for Things {
    ghost use Rattle.std.specs.Prelude.{◌≤◌, List, length, reverse};
    ghost use Rattle.syntax.specs.declared.stages.Unfinished.{Unfinished};

    ghost Value = { List Unfinished };

    ghost view = { λ things. reverse things.stack.items };

    ghost invariant = { λ things. length things.stack.items ≤ 32 };
}

impl Things {
    // At first nothing is unfinished.
    pub fn new() -> Self
        ensures { result ≡ [] }
    {
        Things {
            stack: ArrayVec::new(),
        }
    }

    // Whether nothing is unfinished.
    pub fn is_empty(&self) -> bool
        ensures { IsTrue result ↔ (self.now ≡ []) }
    {
        self.stack.is_empty()
    }

    // The innermost thing, if one is unfinished.
    pub fn innermost(&self) -> Option<Unfinished>
        ensures { result ≡ slice_get self.now 0 }
    {
        self.stack.last().copied()
    }

    // Begins one more, if fewer than 32 are unfinished.
    pub fn begin(&mut self, thing: Unfinished) -> Result<(), TooDeep>
        ensures variant { IsOk result ↔ (length self.old < 32) }
        ensures ok { OnOk result (self.new ≡ thing ∷ self.old) }
        ensures err { OnErr result (self.new ≡ self.old) }
    {
        self.stack.try_push(thing).map_err(|_| TooDeep)
    }

    // Finishes a statement, and what is finished with it upward.
    pub fn finish(&mut self)
        ensures { self.new ≡ finish self.old }
    {
        while let Some(thing) = self.innermost() {
            match thing {
                Unfinished::Block => return,
                Unfinished::Choice(n) if n > 1 => {
                    return self.replace_innermost(Unfinished::Choice(n - 1));
                }
                Unfinished::Loop | Unfinished::Choice(_) => self.leave(),
            }
        }
    }

    // Closes the innermost thing, if there is one, and finishes a statement.
    pub fn close(&mut self)
        ensures { self.new ≡ finish (drop 1 self.old) }
    {
        self.leave();
        self.finish();
    }

    // Takes the innermost thing away, if there is one.
    fn leave(&mut self)
        ensures { self.new ≡ drop 1 self.old }
    {
        let _ = self.stack.pop();
    }

    // Puts the thing in place of the innermost one.
    fn replace_innermost(&mut self, thing: Unfinished)
        requires { 0 < length self.old }
        ensures { self.new ≡ thing ∷ drop 1 self.old }
    {
        let _ = self.stack.pop();
        self.stack.push(thing);
    }
}
