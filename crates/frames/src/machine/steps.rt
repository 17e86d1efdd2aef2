// What the machine does with each frame.
ghost use Rattle.std.specs.Prelude.{◌≡◌, ℕ, ◌+◌, ◌<◌, OnOk};
ghost use Rattle.syntax.specs.Form.{at, start, await_params, await_names, begin, allow, step, ending};
ghost use Rattle.frames.specs.States.{state_of, Allows, Does, Judged};

use super::Machine;
use crate::kinds::row_of;
use crate::things::Things;
use syntax::{Fault, Frame, Role, Stage, Unfinished};

// What comes next where so many parameters are to come.
fn await_params(n: u32) -> Stage
    ensures { (u : _) (r : ℕ) → at result u r ≡ await_params n u r }
{
    if n == 0 {
        Stage::Body
    } else {
        Stage::Params(n)
    }
}

// What comes next where so many names of a declaration are to come; with none it is finished.
fn await_names(n: u32, things: &mut Things) -> Stage
    ensures { (r : ℕ) → at result things.new r ≡ await_names n things.old r }
{
    if n > 0 {
        return Stage::Names(n);
    }
    things.finish();
    Stage::Body
}

impl Machine {
    pub(crate) fn new() -> Self
        ensures state { state_of result ≡ start }
        ensures place { result.place ≡ 0 }
    {
        Machine {
            stage: Stage::Start,
            things: Things::new(),
            ready: 0,
            place: 0,
        }
    }

    // Begins an unfinished thing, and answers what comes next.
    fn begin(&mut self, thing: Unfinished) -> Result<(Stage, usize), Fault>
        ensures { Allows (begin self.old.place thing self.old.things) self.old self.new result }
    {
        self.things
            .begin(thing)
            .map_err(|_| Fault::TooDeep(self.place))?;
        Ok((Stage::Body, 0))
    }

    // What comes next after a frame of that role and load, and how many operands are ready then.
    fn allow_role(&mut self, role: Role, load: u32) -> Result<(Stage, usize), Fault>
        ensures { Allows (allow self.old.place role load self.old.stage self.old.things self.old.ready) self.old self.new result }
    {
        match (role, self.stage, self.ready) {
            (Role::Head, Stage::Start, k) => Ok((await_params(load), k)),
            (Role::Param, Stage::Params(n), k) => Ok((await_params(n.saturating_sub(1)), k)),
            (Role::Name, Stage::Names(n), k) => {
                Ok((await_names(n.saturating_sub(1), &mut self.things), k))
            }
            (Role::Operand(n), Stage::Body, k) if k >= n as usize => {
                Ok((Stage::Body, k - n as usize + 1))
            }
            (Role::Call, Stage::Body, k) if k >= load as usize => {
                Ok((Stage::Body, k - load as usize + 1))
            }
            (Role::Statement(n), Stage::Body, k) if k == n as usize => {
                self.things.finish();
                Ok((Stage::Body, 0))
            }
            (Role::Decl, Stage::Body, 0) => Ok((await_names(load, &mut self.things), 0)),
            (Role::While, Stage::Body, 1) => self.begin(Unfinished::Loop),
            (Role::If, Stage::Body, 1) => self.begin(Unfinished::Choice(2)),
            (Role::Open, Stage::Body, 0) => self.begin(Unfinished::Block),
            (Role::Close, Stage::Body, 0) if self.things.innermost() == Some(Unfinished::Block) => {
                self.things.close();
                Ok((Stage::Body, 0))
            }
            (Role::End, Stage::Body, 0) if self.things.is_empty() => Ok((Stage::Ended, 0)),
            _ => Err(Fault::NotAllowed(self.place)),
        }
    }

    // Takes one frame more.
    #[tactic(auto, using(syntax::proofs::Turns::not_ended), unfolding(syntax::specs::Form::step))]
    pub(crate) fn take_frame(&mut self, f: Frame) -> Result<(), Fault>
        requires { self.old.place < 256 }
        ensures result { Does (step self.old.place (state_of self.old) f) self.old self.new result }
        ensures place { OnOk result (self.new.place ≡ self.old.place + 1) }
    {
        if self.stage == Stage::Ended {
            return Err(Fault::AfterEnd(self.place));
        }
        let row = row_of(f.kind).ok_or(Fault::UnknownKind(self.place))?;
        if !row.suits(f) {
            return Err(Fault::BadField(self.place));
        }
        let (stage, ready) = self.allow_role(row.role, f.load)?;
        self.stage = stage;
        self.ready = ready;
        self.place += 1;
        Ok(())
    }

    // Whether the sheet has ended with the frames that were taken.
    pub(crate) fn ended(&self) -> Result<(), Fault>
        ensures { Judged (ending self.now.place self.now.stage) result }
    {
        match self.stage {
            Stage::Ended => Ok(()),
            _ => Err(Fault::NoEnd(self.place)),
        }
    }
}
