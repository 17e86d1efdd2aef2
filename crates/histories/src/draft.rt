// Sheets grown at random: mostly valid by the usual heads, now and then with a slip. What is still to be written waits on a stack, so that
// growing is a loop and no recursion.
use crate::head::Known;
use crate::random::Random;
use arrayvec::ArrayVec;
use syntax::Frame;

// Frames of a sheet, or some more than it may have.
pub type Frames = ArrayVec<Frame, 258>;

// Past so many frames nothing large is begun.
const LONG: usize = 100;

const VOID: u8 = 5;

// A variable in scope.
#[derive(Clone, Copy, Default)]
struct Variable {
    name: u16,
    t: u8,
}

// What is to be written.
#[derive(Clone, Copy, Default)]
enum Task {
    #[default]
    Nothing,
    Put(Frame),
    // an expression of that type, so deep
    Expression(u8, u8),
    // a statement, so deep; alone under a loop or a choice or not
    Statement(u8, bool),
    Block(u8),
    Declare(Variable),
    // a block's end: where the top level started before, and how many variables stood
    Forget(usize, usize),
}

// A sheet that grows.
#[derive(Drop)]
pub struct Draft {
    frames: Frames,
    tasks: ArrayVec<Task, 128>,
    variables: ArrayVec<Variable, 64>,
    top: usize,
    returns: u8,
    known: Known,
    // a slip once in so many expressions; 0 for none
    slips: usize,
    random: Random,
}

// A frame of these four fields.
pub fn frame(kind: u8, t: u8, name: u16, load: u32) -> Frame {
    Frame {
        kind,
        t,
        name,
        load,
    }
}

impl Draft {
    // Nothing is written yet.
    fn new(returns: u8, known: Known, random: &mut Random) -> Draft {
        let slips = if random.once_in(8) { 12 } else { 0 };
        Draft {
            frames: ArrayVec::new(),
            tasks: ArrayVec::new(),
            variables: ArrayVec::new(),
            top: 0,
            returns,
            known,
            slips,
            random: random.branch(),
        }
    }

    // One frame more.
    fn put(&mut self, frame: Frame) {
        let _ = self.frames.try_push(frame);
    }

    // These things are to be written next, in this order.
    fn then(&mut self, tasks: &[Task]) {
        for task in tasks.iter().rev() {
            let _ = self.tasks.try_push(*task);
        }
    }

    // Whether to slip here.
    fn slip(&mut self) -> bool {
        self.slips > 0 && self.random.once_in(self.slips)
    }

    // Whether nothing large is begun any more.
    fn is_long(&self) -> bool {
        self.frames.len() > LONG || self.tasks.len() > 40
    }

    // Writes all that waits.
    fn grow(&mut self) {
        for _ in 0..4000 {
            let Some(task) = self.tasks.pop() else {
                return;
            };
            self.perform(task);
        }
    }

    // Writes one thing, or what it is made of.
    fn perform(&mut self, task: Task) {
        match task {
            Task::Nothing => {}
            Task::Put(frame) => self.put(frame),
            Task::Expression(t, depth) => self.expression(t, depth),
            Task::Statement(depth, alone) => self.statement(depth, alone),
            Task::Block(depth) => self.block(depth),
            Task::Declare(variable) => self.declare(variable),
            Task::Forget(top, count) => {
                self.top = top;
                self.variables.truncate(count);
            }
        }
    }

    // A variable more on the top level.
    fn declare(&mut self, variable: Variable) {
        let _ = self.variables.try_push(variable);
    }

    // Whether the name is the newest of its kind at that place.
    fn is_newest(&self, place: usize, name: u16) -> bool {
        self.variables
            .as_slice()
            .iter()
            .rposition(|v| v.name == name)
            == Some(place)
    }

    // The name of a variable of the type that no newer one hides, at this place or below it.
    fn newest_of(&self, t: u8, last: usize) -> Option<u16> {
        for back in 0..=last.min(64) {
            let place = last.saturating_sub(back);
            let found = self.variables.as_slice().get(place).copied();
            if let Some(Variable { name, t: other }) = found {
                if other == t && self.is_newest(place, name) {
                    return Some(name);
                }
            }
        }
        None
    }

    // The name of a variable of the type, if one is found.
    fn variable(&mut self, t: u8) -> Option<u16> {
        let last = self.random.below(self.variables.len());
        self.newest_of(t, last)
    }

    // Whether the top level has the name.
    fn is_here(&self, name: u16) -> bool {
        let top = self.variables.as_slice().get(self.top..).unwrap_or(&[]);
        top.iter().any(|v| v.name == name)
    }

    // A name that the top level has not, or by a slip any.
    fn new_name(&mut self) -> u16 {
        let name = self.random.name(12);
        if self.slip() {
            return name;
        }
        for more in 0..12 {
            let other = name.saturating_add(more) % 12;
            if !self.is_here(other) {
                return other;
            }
        }
        50u16.saturating_add(name)
    }
}

pub mod expressions;
pub mod sheets;
pub mod statements;
