// How expressions are written.
use super::{Draft, Task, frame};
use crate::head::{Head, known_head};

impl Draft {
    // The shortest expression of the type.
    pub(crate) fn leaf(&mut self, t: u8) {
        if self.slip() {
            return self.put(frame(0x25, 0, 90, 0));
        }
        let found = if self.random.once_in(3) {
            None
        } else {
            self.variable(t)
        };
        let frame = match (found, t) {
            (Some(name), _) => frame(0x25, 0, name, 0),
            (None, 1) => frame(0x20, 0, 0, 0),
            (None, 2) => frame(0x22, 0, 0, 7),
            (None, 3) => frame(0x23, 0, 0, 0x4000_0000),
            (None, 4) => frame(0x24, 0, 0, 9),
            (None, _) => frame(0x26, 0, 0, 0),
        };
        self.put(frame);
    }

    // An expression of the type, or by a slip of any.
    pub(crate) fn expression(&mut self, wanted: u8, depth: u8) {
        let t = if self.slip() {
            self.random.code(4)
        } else {
            wanted
        };
        if depth == 0 || self.is_long() {
            return self.leaf(t);
        }
        match self.random.below(7) {
            0 | 1 => self.call_for(t, depth),
            2 => self.update(t),
            3 => self.assignment(t, depth),
            4 | 5 => self.operation(t, depth),
            _ => self.leaf(t),
        }
    }

    // A call of a function that returns the type, if one is known.
    fn call_for(&mut self, t: u8, depth: u8) {
        let first = self.random.name(8);
        for more in 0..8 {
            let name = first.saturating_add(more) % 8;
            if known_head(&self.known, name).is_some_and(|h| h.returns == t) {
                return self.call(name, depth);
            }
        }
        self.leaf(t);
    }

    // A call of a function, if it is known, or of none.
    pub(crate) fn call(&mut self, name: u16, depth: u8) {
        match known_head(&self.known, name) {
            Some(head) => self.call_of(name, &head, depth),
            None if self.slip() => self.put(frame(0x26, 0, name, 0)),
            None => self.leaf(2),
        }
    }

    // A call with the arguments that the head asks for, or by a slip of another function or with one more.
    fn call_of(&mut self, name: u16, head: &Head, depth: u8) {
        let called = if self.slip() { 200 } else { name };
        let more = u32::from(self.slip());
        let count = u32::try_from(head.params().len()).unwrap_or(0);
        let load = count.saturating_add(more);
        if load > 16 {
            return self.leaf(head.returns);
        }
        self.then(&[Task::Put(frame(0x26, 0, called, load))]);
        if more > 0 {
            self.then(&[Task::Expression(1, 0)]);
        }
        for t in head.params().iter().rev() {
            self.then(&[Task::Expression(*t, depth.saturating_sub(1))]);
        }
    }

    // x++ or its like.
    fn update(&mut self, t: u8) {
        let kind = self.random.code(4).saturating_add(0x26);
        match self.variable(t) {
            Some(name) if t == 2 || t == 3 => self.put(frame(kind, 0, name, 0)),
            _ => self.leaf(t),
        }
    }

    // x = e.
    fn assignment(&mut self, t: u8, depth: u8) {
        match self.variable(t) {
            Some(name) => self.then(&[
                Task::Expression(t, depth.saturating_sub(1)),
                Task::Put(frame(0x3C, 0, name, 0)),
            ]),
            None => self.leaf(t),
        }
    }

    // An operator between two operands of one type.
    fn operation(&mut self, t: u8, depth: u8) {
        let (kind, of) = match (t, self.random.below(3)) {
            (1, 0) => (0x34, self.random.code(2).saturating_add(1)),
            (1, 1) => (0x36, self.random.code(3)),
            (1, _) => (0x3A, 1),
            (2..=4, _) => (0x30, t),
            _ => return self.leaf(t),
        };
        let other = self.kind_beside(kind, t);
        let below = depth.saturating_sub(1);
        self.then(&[
            Task::Expression(of, below),
            Task::Expression(of, below),
            Task::Put(frame(other, 0, 0, 0)),
        ]);
    }

    // This operator or one that takes the same operands.
    fn kind_beside(&mut self, kind: u8, t: u8) -> u8 {
        let more = match (kind, t) {
            (0x34, _) => [0, 1, 4, 5],
            (0x36, _) | (0x3A, _) => [0, 1, 0, 1],
            (_, 4) => [0, 0, 0, 0],
            _ => [0, 1, 2, 3],
        };
        let chosen = more.get(self.random.below(4)).copied().unwrap_or(0);
        kind.saturating_add(chosen)
    }
}
