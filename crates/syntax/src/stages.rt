// Where the reader of a sheet stands.

// A block, a loop, or a choice with so many statements to come.
#[derive(Clone, Copy, PartialEq, Eq, Debug, Default)]
pub enum Unfinished {
    #[default]
    Block,
    Loop,
    Choice(u8),
}

// What comes next: HEAD, so many PARAM, so many NAME, a frame of the body, or nothing more.
#[derive(Clone, Copy, PartialEq, Eq, Debug)]
pub enum Stage {
    Start,
    Params(u32),
    Names(u32),
    Body,
    Ended,
}
