// Compares a program's cases with what they should give.

#![tactic(auto)]

ghost use Rattle.std.specs.Prelude.{ℕ, Bool, List, Result, IfOk, IfErr};
ghost use Rattle.std.specs.declared.io.Error.{Error};
ghost use Rattle.cases.specs.Agreed.{Agreed, Stopped};

use std::io;
use std::io::Print;

// What is tried at cases.
pub trait Tried {
    // what it may answer at a case, and how it may be left
    ghost tries: { Self → List ℕ → Result Bool Error → Self → Type 0 };

    // Whether it gives what it should at the case.
    fn agrees(&mut self, case: &str) -> io::Result<bool>
        ensures answers { tries self.old case.now result self.new };
}

// How many of the cases agree, each asked once and in order; prints those that differ.
pub fn count_agreeing<P: Print, T: Tried>(
    rt: &P,
    cases: &[&str],
    tried: &mut T,
) -> io::Result<usize>
    ensures ok { IfOk result (λ n. Agreed (λ t case answer left. T.Tried.tries t case.now answer left) tried.old cases.now n tried.new) }
    ensures err { IfErr result (λ e. Stopped (λ t case answer left. T.Tried.tries t case.now answer left) tried.old cases.now e) }
{
    let mut agreed = 0;
    for &case in cases {
        if tried.agrees(case)? {
            agreed += 1;
        } else {
            println!(rt; "{case} differs")?;
        }
    }
    Ok(agreed)
}
