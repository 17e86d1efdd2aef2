// Runs the checker on the cases of data/ and compares its report with the one it should give.

#![tactic(auto)]

ghost use Rattle.std.specs.Prelude.{⊤};

use cases::{Tried, count_agreeing};
use driver::report_from;
use std::fs::File;
use std::io::Read;
use std::{fs, io};

// A reader that hands on at most one byte at a time.
#[derive(Drop)]
struct Slowly<R> {
    inner: R,
}

impl<R: Read> Read for Slowly<R> {
    fn read(&mut self, buf: &mut [u8]) -> io::Result<usize> {
        let end = buf.len().min(1);
        self.inner.read(&mut buf[..end])
    }
}

// The report on each case, read at once and byte by byte.
#[derive(Drop)]
struct Reports<'a> {
    rt: &'a HostRuntime,
}

impl Tried for Reports<'_> {
    // no contract says what a file holds
    ghost tries = { λ _ _ _ _. ⊤ };

    fn agrees(&mut self, case: &str) -> io::Result<bool> {
        let heap = self.rt.alloc();
        let input = format!(in heap; "{case}.in")?;
        let wanted = fs::read(self.rt, format!(in heap; "{case}.out")?.as_str())?;
        let said = report_from(heap, &mut File::open(self.rt, input.as_str())?)?;
        let mut slowly = Slowly {
            inner: File::open(self.rt, input.as_str())?,
        };
        let said_slowly = report_from(heap, &mut slowly)?;
        Ok(said.as_bytes() == wanted.as_slice() && said_slowly.as_bytes() == wanted.as_slice())
    }
}

// Compares the report on each case with the one it should give.
fn main(rt: HostRuntime) -> io::Result<()> {
    let names = fs::read_to_string(&rt, "cases")?;
    let cases: Vec<&str> = names.as_str().lines().collect(rt.alloc())?;
    let agreed = count_agreeing(&rt, &cases, &mut Reports { rt: &rt })?;
    println!(rt; "{agreed} cases agree")
}
