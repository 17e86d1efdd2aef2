// What functions take and return, as a reader of the rules would note it: the codes of the types, one by one.
ghost use Rattle.std.specs.Prelude.{◌≤◌, length};

use crate::random::Random;

// A head has at most so many parameters.
pub const MOST: usize = 16;

#[derive(Clone, Copy, PartialEq, Eq)]
pub struct Head {
    params: [u8; MOST],
    count: usize,
    pub returns: u8,
}

impl Head {
    // The head with these parameters, the first 16 of them.
    pub fn new(params: &[u8], returns: u8) -> Head {
        let mut head = Head {
            params: [0; MOST],
            count: params.len().min(MOST),
            returns,
        };
        for (place, t) in head.params.iter_mut().zip(params) {
            *place = *t;
        }
        head
    }

    // The types of the parameters.
    pub fn params(&self) -> &[u8]
        ensures { length result.now ≤ 16 }
    {
        self.params.get(..self.count).unwrap_or(&[])
    }

    // The head with one parameter less, or one of int where there is none.
    fn shorter(&self) -> Head {
        match self.params() {
            [] => Head::new(&[2], self.returns),
            [_, others @ ..] => Head::new(others, self.returns),
        }
    }

    // The head with another type first.
    fn other_first(&self) -> Head {
        let mut head = *self;
        if let Some(t) = head.params.first_mut() {
            *t = *t % 4 + 1;
        }
        head
    }
}

// The head that a function of that name mostly has.
pub fn usual(name: u16) -> Head {
    match name % 8 {
        0 => Head::new(&[], 5),
        1 => Head::new(&[2], 2),
        2 => Head::new(&[3, 4], 1),
        3 => Head::new(&[], 3),
        4 => Head::new(&[1, 1, 2], 4),
        5 => Head::new(&[2; MOST], 2),
        6 => Head::new(&[4], 5),
        _ => Head::new(&[], 2),
    }
}

// Which functions a writer of sheets knows, of the names below 8, and what they take and return.
pub type Known = [Option<Head>; 8];

// The head that the writer knows of a name.
pub fn known_head(known: &Known, name: u16) -> Option<Head> {
    known.get(usize::from(name)).copied().flatten()
}

// The usual head, or now and then another.
pub fn some_head(name: u16, random: &mut Random) -> Head {
    let head = usual(name);
    match random.below(16) {
        0 => head.shorter(),
        1 => head.other_first(),
        2 => Head::new(head.params(), random.code(5)),
        _ => head,
    }
}
