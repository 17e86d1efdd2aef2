// The types of the operands that are ready, by their codes.
ghost use Rattle.std.specs.Prelude.{◌≡◌, ◌+◌, ◌<◌, ◌≤◌, [], ◌∷◌, length, drop, slice_index_or};
ghost use Rattle.heads.specs.Heads.{parameters_of};
ghost use Rattle.walk.specs.Judge.{fitting};

use arrayvec::ArrayVec;
use std::marker::Model;

// The newest stands last; contracts see the codes with the newest first.
#[derive(Drop)]
pub struct Operands {
    types: ArrayVec<u8, 256>,
}

impl Model for Operands {
    ghost use Rattle.std.specs.Prelude.{ℕ, ◌≤◌, List, length, reverse};

    ghost Value = { List ℕ };

    ghost view = { λ operands. reverse operands.types.items };

    ghost invariant = { λ operands. length operands.types.items ≤ 256 };
}

impl Operands {
    // None is ready.
    pub(crate) fn new() -> Self
        ensures { result ≡ [] }
    {
        Operands {
            types: ArrayVec::new(),
        }
    }

    // The type of the operand that so many stand above.
    pub(crate) fn at(&self, above: usize) -> u8
        requires { above < length self.now }
        ensures { result ≡ slice_index_or self.now above 5 }
    {
        self.types[self.types.len() - 1 - above]
    }

    // So many away, and one more.
    #[tactic(auto, using(crate::proofs::Fits::settled))]
    pub(crate) fn settle(&mut self, taken: usize, t: u8)
        requires ready { taken ≤ length self.old }
        requires room { length self.old < 256 + taken }
        ensures { self.new ≡ t ∷ drop taken self.old }
    {
        self.types.truncate(self.types.len() - taken);
        self.types.push(t);
    }

    // The newest away.
    pub(crate) fn pop(&mut self)
        requires { 0 < length self.old }
        ensures { self.new ≡ drop 1 self.old }
    {
        self.types.pop();
    }

    // Whether the newest, as many as the head has parameters, have the types of those, in order.
    pub(crate) fn fit(&self, head: u64) -> bool
        requires { length (parameters_of head) ≤ length self.now }
        ensures { result ≡ fitting (parameters_of head) self.now }
    {
        let newest = &self.types[self.types.len() - heads::count(head)..];
        newest
            .iter()
            .enumerate()
            .all(|(i, &t)| heads::parameter(head, i) == Some(t))
    }
}
