// Random histories of calls on the compiled library: posts, puts, clears, checks, questions, refused calls, and alterations of the lent areas
// from outside. Each answer, and what each call leaves, is foretold by a plain book that is kept from the calls' arguments; a checked book is
// compared with a fresh one, and both kinds of stores with each other. It prints what happened, and the first call that differs, if one does.

#![tactic(auto)]

mod counts;
mod draft;
mod head;
mod judge;
mod lent;
mod letter;
mod plain;
mod random;
mod stores;
mod trial;

use counts::Counts;
use std::io;
use trial::Trial;

const HISTORIES: u64 = 100;

const CALLS: usize = 250;

// Runs the histories; in every other one the host alters its areas from outside.
fn main(rt: HostRuntime) -> io::Result<()> {
    let mut counts = Counts::new();
    for seed in 1..=HISTORIES {
        let mut trial = Trial::new(rt.alloc(), seed, seed % 2 == 0)?;
        match trial.run(CALLS, &mut counts) {
            None => {}
            Some(call) => println!(rt; "history {seed} differs at call {call}")?,
        }
    }
    println!(rt; "{HISTORIES} histories of {CALLS} calls")?;
    counts.print(&rt)
}
