// How statements are written.
use super::{Draft, Task, VOID, Variable, frame};

impl Draft {
    // A statement.
    pub(crate) fn statement(&mut self, depth: u8, alone: bool) {
        if self.is_long() {
            return self.then(&[Task::Block(0)]);
        }
        match self.random.below(11) {
            0 => self.declaration(alone),
            1 | 2 => self.initialised(depth, alone),
            3 if depth > 0 => self.governing(0x18, depth, 1),
            4 | 5 if depth > 0 => self.governing(0x19, depth, 2),
            6 if depth > 0 => self.then(&[Task::Block(depth.saturating_sub(1))]),
            7 => self.returning(),
            8 => {
                self.then(&[Task::Put(frame(0x10, 0, 0, 0))]);
                let name = self.random.name(8);
                self.call(name, 1);
            }
            _ => {
                let t = self.random.code(4);
                self.then(&[Task::Expression(t, 2), Task::Put(frame(0x10, 0, 0, 0))]);
            }
        }
    }

    // Variables without a value.
    fn declaration(&mut self, alone: bool) {
        let t = self.random.code(4);
        let count = if alone { 1 } else { self.random.code(3) };
        self.put(frame(0x11, t, 0, u32::from(count)));
        for _ in 0..count {
            let name = self.new_name();
            self.put(frame(0x12, 0, name, 0));
            if !alone {
                self.declare(Variable { name, t });
            }
        }
    }

    // A variable with its value.
    fn initialised(&mut self, depth: u8, alone: bool) {
        let t = self.random.code(4);
        let name = self.new_name();
        let added = if alone {
            Task::Nothing
        } else {
            Task::Declare(Variable { name, t })
        };
        self.then(&[
            Task::Expression(t, depth),
            Task::Put(frame(0x13, t, name, 0)),
            added,
        ]);
    }

    // A loop or a choice, with so many statements under it.
    fn governing(&mut self, kind: u8, depth: u8, count: u8) {
        let below = depth.saturating_sub(1);
        for _ in 0..count {
            let under = if self.random.once_in(3) {
                Task::Statement(below, true)
            } else {
                Task::Block(below)
            };
            self.then(&[under]);
        }
        self.then(&[Task::Expression(1, 2), Task::Put(frame(kind, 0, 0, 0))]);
    }

    // A return of what the function returns.
    fn returning(&mut self) {
        if (self.returns == VOID && !self.random.once_in(6)) || self.slip() {
            return self.put(frame(0x14, 0, 0, 0));
        }
        self.then(&[
            Task::Expression(self.returns, 2),
            Task::Put(frame(0x15, 0, 0, 0)),
        ]);
    }

    // A block of a few statements.
    pub(crate) fn block(&mut self, depth: u8) {
        self.put(frame(0x16, 0, 0, 0));
        let (top, count) = (self.top, self.variables.len());
        self.top = count;
        self.then(&[Task::Put(frame(0x17, 0, 0, 0)), Task::Forget(top, count)]);
        if !self.is_long() {
            for _ in 0..self.random.below(3) {
                self.then(&[Task::Statement(depth, false)]);
            }
        }
    }
}
