// The machine that reads a sheet's frames.
ghost use Rattle.std.specs.Prelude.{◌≤◌};

use crate::things::Things;
use syntax::Stage;

// What comes next, the unfinished things, the operands ready, and how many frames were taken: every refusal and the end tell that place.
#[derive(Drop)]
pub struct Machine {
    stage: Stage,
    things: Things,
    ready: usize,
    place: usize,
    ghost short: { place ≤ 256 },
    ghost few: { ready ≤ place },
}

pub mod steps;
