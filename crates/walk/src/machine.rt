// The state of a walk besides the levels of variables.
ghost use Rattle.std.specs.Prelude.{◌≡◌, ◌+◌, ◌<◌, length, drop};
ghost use Rattle.syntax.specs.Form.{finish};
ghost use Rattle.rules.specs.Walk.{alone};

use crate::operands::Operands;
use crate::place::Place;
use frames::Things;
use syntax::Unfinished;

// The names of a declaration that are to come: the code of their type, how many, and where the first stands.
#[derive(Clone, Copy)]
pub struct Declaration {
    t: u8,
    left: u32,
    first: usize,
}

impl Declaration {
    // The names that DECL announces: the first of them stands at the next place.
    fn announced(place: &Place<'_>) -> Self
        ensures t { result.t ≡ place.now.frame.t }
        ensures left { result.left ≡ place.now.frame.load }
        ensures first { result.first ≡ place.now.i + 1 }
    {
        Declaration {
            t: place.frame.t,
            left: place.frame.load,
            first: place.i + 1,
        }
    }
}

// What is ready, what is unfinished, and what is to come. Heads and levels are lent to each call, since a `&mut` store in a struct would lose the value that its lender gets back.
#[derive(Drop)]
pub struct Machine {
    operands: Operands,
    things: Things,
    pending: Option<Declaration>,
}

impl Machine {
    // Whether the next statement stands directly under a loop or a choice.
    fn alone(&self) -> bool
        ensures { result ≡ alone self.now.things }
    {
        !matches!(self.things.innermost(), None | Some(Unfinished::Block))
    }

    // Takes the newest operand, and finishes the statement that it belongs to.
    fn finish_with_operand(&mut self)
        requires { 0 < length self.old.operands }
        ensures operands { self.new.operands ≡ drop 1 self.old.operands }
        ensures things { self.new.things ≡ finish self.old.things }
        ensures pending { self.new.pending ≡ self.old.pending }
    {
        self.operands.pop();
        self.things.finish();
    }
}

pub mod naming;
pub mod steps;
