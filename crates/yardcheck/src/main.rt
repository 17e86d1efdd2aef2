// Prints the report on a book's text from standard input.

#![tactic(auto)]

use driver::report_from;
use std::io;

fn main(rt: HostRuntime) -> io::Result<()> {
    let text = report_from(rt.alloc(), &mut rt.stdin())?;
    print!(rt; "{text}")
}
