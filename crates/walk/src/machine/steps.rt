// What a walk does with a frame.
ghost use Rattle.std.specs.Prelude.{◌≡◌, ◌<◌, [], None};
ghost use Rattle.syntax.specs.Heads.{head};
ghost use Rattle.walk.specs.Step.{stated, governed, stepped};
ghost use Rattle.walk.specs.Machines.{before, after, Does, Onward, Steps, IsReady};

use super::{Declaration, Machine};
use crate::codes::{BOOL, VOID};
use crate::expression::{parts, type_of};
use crate::operands::Operands;
use crate::place::Place;
use crate::variables;
use frames::Things;
use levels::store::{Declaring, Looking};
use rules::Violation;
use syntax::Unfinished;

impl Machine {
    // Before the first frame.
    pub(crate) fn new() -> Self
        ensures operands { result.operands ≡ [] }
        ensures things { result.things ≡ [] }
        ensures pending { result.pending ≡ None }
    {
        Machine {
            operands: Operands::new(),
            things: Things::new(),
            pending: None,
        }
    }

    // Takes one frame: the number for the column, or the rule that is broken.
    pub(crate) fn step<H: Looking<u64>, S: Declaring<u8>>(
        &mut self,
        place: &Place<'_>,
        heads: &H,
        variables: &mut S,
    ) -> Result<u8, Violation>
        requires ready { IsReady place.now self.old (S.Looking.meaning variables.old) }
        ensures does { Steps (stepped (H.Looking.meaning heads.now).levels (head place.now.frames.now).t place.now.frame (before place.now self.old (S.Looking.meaning variables.old))) (S.Looking.meaning variables.old).levels (after place.now self.new (S.Looking.meaning variables.new)) result }
        ensures onward { Onward place.now (S.Looking.meaning variables.old) (S.Looking.meaning variables.new) self.new }
    {
        if place.frame.kind < 0x20 {
            self.statement(place, variables)?;
            return Ok(0);
        }
        let t = type_of(place.frame, &self.operands, heads, variables)?;
        self.operands.settle(parts(place.frame), t);
        Ok(t)
    }

    // Takes a frame that is no expression. Kinds are told apart by ranges with guards, the form that the project asks for in the walk.
    fn statement<S: Declaring<u8>>(
        &mut self,
        place: &Place<'_>,
        variables: &mut S,
    ) -> Result<(), Violation>
        requires kind { place.now.frame.kind < 0x20 }
        requires ready { IsReady place.now self.old (S.Looking.meaning variables.old) }
        ensures does { Does (stated (head place.now.frames.now).t place.now.frame (before place.now self.old (S.Looking.meaning variables.old))) (S.Looking.meaning variables.old).levels (after place.now self.new (S.Looking.meaning variables.new)) result }
        ensures onward { Onward place.now (S.Looking.meaning variables.old) (S.Looking.meaning variables.new) self.new }
    {
        let frame = place.frame;
        match frame.kind {
            0..=0x01 => variables::enter(variables),
            0x02 => variables::add(variables, frame.name, frame.t),
            0x03..=0x0F => {}
            0x10 => self.finish_with_operand(),
            0x11 => self.await_names(Declaration::announced(place)),
            0x12 if self.name_repeats(place, variables) => return Err(Violation::Repeated),
            0x12 => self.name(place, variables),
            0x13 if frame.t != self.operands.at(0) => return Err(Violation::OtherInitial),
            0x13 if variables.here(frame.name) => return Err(Violation::Repeated),
            0x13 => self.init(frame, variables),
            0x14 if place.returns() == VOID => self.things.finish(),
            0x15 if place.returns() == self.operands.at(0) => self.finish_with_operand(),
            0x14 | 0x15 => return Err(Violation::OtherReturn),
            0x16 => {
                variables::enter(variables);
                self.things.begin(Unfinished::Block).unwrap();
            }
            0x17 => {
                variables::leave(variables);
                self.things.close();
            }
            0x18..=0xFF if self.operands.at(0) == BOOL => {
                self.operands.pop();
                self.things.begin(governing(frame.kind)).unwrap();
            }
            _ => return Err(Violation::NoCondition),
        }
        Ok(())
    }
}

// What a condition of WHILE or IF governs.
fn governing(kind: u8) -> Unfinished
    ensures { result ≡ governed kind }
{
    if kind <= 0x18 {
        Unfinished::Loop
    } else {
        Unfinished::Choice(2)
    }
}
