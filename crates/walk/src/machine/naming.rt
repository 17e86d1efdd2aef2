// What a walk does with a name that is declared.
ghost use Rattle.std.specs.Prelude.{◌≡◌, ◌<◌, false, ◌||◌, length, drop};
ghost use Rattle.syntax.specs.Form.{finish};
ghost use Rattle.levels.specs.Store.{stands, with_levels};
ghost use Rattle.rules.specs.Judge.{among};
ghost use Rattle.rules.specs.Walk.{alone};
ghost use Rattle.walk.specs.Step.{kept, repeating, taken};
ghost use Rattle.walk.specs.Machines.{awaited, pending_of, coming_at, after, unkept, Room, Awaits, Onward};

use super::{Declaration, Machine};
use crate::place::Place;
use crate::variables;
use levels::search::{Named, newest};
use levels::store::{Declaring, Looking};
use syntax::Frame;

impl Machine {
    // So many names are to come of a declaration.
    pub(crate) fn await_names(&mut self, declaration: Declaration)
        ensures operands { self.new.operands ≡ self.old.operands }
        ensures things { self.new.things ≡ awaited declaration.left self.old.things }
        ensures pending { self.new.pending ≡ pending_of declaration.t declaration.left declaration.first }
    {
        if declaration.left == 0 {
            self.pending = None;
            self.things.finish();
        } else {
            self.pending = Some(declaration);
        }
    }

    // Whether a name stands on the top level or, in a statement that stands alone, earlier in its declaration.
    fn repeated<S: Looking<u8>>(&self, name: u16, earlier: &[Frame], variables: &S) -> bool
        ensures { result ≡ (stands (S.Looking.meaning variables.now).levels name || among (unkept self.now.things earlier.now) name) }
    {
        variables.here(name) || (self.alone() && newest(earlier, name).is_some())
    }

    // Declares a name, unless the statement stands alone.
    fn keep<S: Declaring<u8>>(&self, name: u16, t: u8, variables: &mut S)
        requires room { Room (S.Looking.meaning variables.old) }
        requires fresh { alone self.now.things ≡ false → stands (S.Looking.meaning variables.old).levels name ≡ false }
        ensures { S.Looking.meaning variables.new ≡ with_levels (S.Looking.meaning variables.old) (kept self.now.things (S.Looking.meaning variables.old).levels name t) }
    {
        if !self.alone() {
            variables::add(variables, name, t);
        }
    }

    // Whether the name that comes next of a declaration repeats one.
    pub(crate) fn name_repeats<S: Looking<u8>>(&self, place: &Place<'_>, variables: &S) -> bool
        requires awaits { Awaits place.now.i self.now.pending }
        ensures { result ≡ repeating (S.Looking.meaning variables.now).levels place.now.frame.name (coming_at place.now.i self.now.things self.now.pending place.now.frames.now) }
    {
        let Some(declaration) = self.pending else {
            unreachable();
        };
        self.repeated(place.frame.name, place.since(declaration.first), variables)
    }

    // Takes one name more of a declaration.
    pub(crate) fn name<S: Declaring<u8>>(&mut self, place: &Place<'_>, variables: &mut S)
        requires awaits { Awaits place.now.i self.old.pending }
        requires room { Room (S.Looking.meaning variables.old) }
        requires fresh { repeating (S.Looking.meaning variables.old).levels place.now.frame.name (coming_at place.now.i self.old.things self.old.pending place.now.frames.now) ≡ false }
        ensures does { taken self.old.operands (S.Looking.meaning variables.old).levels self.old.things place.now.frame.name (coming_at place.now.i self.old.things self.old.pending place.now.frames.now) ≡ after place.now self.new (S.Looking.meaning variables.new) }
        ensures onward { Onward place.now (S.Looking.meaning variables.old) (S.Looking.meaning variables.new) self.new }
    {
        let Some(declaration) = self.pending else {
            unreachable();
        };
        self.keep(place.frame.name, declaration.t, variables);
        self.await_names(Declaration {
            left: declaration.left - 1,
            ..declaration
        });
    }

    // Declares a name with its first value.
    pub(crate) fn init<S: Declaring<u8>>(&mut self, frame: Frame, variables: &mut S)
        requires value { 0 < length self.old.operands }
        requires room { Room (S.Looking.meaning variables.old) }
        requires fresh { stands (S.Looking.meaning variables.old).levels frame.name ≡ false }
        ensures operands { self.new.operands ≡ drop 1 self.old.operands }
        ensures things { self.new.things ≡ finish self.old.things }
        ensures pending { self.new.pending ≡ self.old.pending }
        ensures variables { S.Looking.meaning variables.new ≡ with_levels (S.Looking.meaning variables.old) (kept self.old.things (S.Looking.meaning variables.old).levels frame.name frame.t) }
    {
        self.keep(frame.name, frame.t, variables);
        self.finish_with_operand();
    }
}
