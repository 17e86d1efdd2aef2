// The whole report on an input.
ghost use Rattle.std.specs.Prelude.{◌≡◌, ◌≢◌, IfOk, IfErr, IfSome, take, string_bytes};
ghost use Rattle.std.specs.IoError.{error_kind};
ghost use Rattle.driver.specs.Texts.{Reported, ReportedOfSome};

use crate::workspace::Workspace;
use input::read_input;
use std::alloc::Global;
use std::io;
use std::io::{ErrorKind, Read};

// What the program prints of an input, from a new book over areas and stores of its own.
pub fn report(heap: Global, input: &[u8]) -> io::Result<String>
    ensures text { IfOk result (λ t. Reported input.now 8192 8192 256 256 (string_bytes t)) }
    ensures memory { IfErr result (λ e. error_kind e ≡ ErrorKind.OutOfMemory) }
{
    let mut text = String::new(heap);
    Workspace::new(heap)?.write_report(input, &mut text)?;
    Ok(text)
}

// What the program prints of what the reader gives, up to its end or to one byte more than an input may have.
pub fn report_from<R: Read>(heap: Global, input: &mut R) -> io::Result<String>
    ensures text { IfOk result (λ t. ReportedOfSome (string_bytes t)) }
    ensures known { IfOk result (λ t. IfSome (R.remaining input.old) (λ xs. Reported (take 65537 xs) 8192 8192 256 256 (string_bytes t))) }
    ensures retried { IfErr result (λ e. error_kind e ≢ ErrorKind.Interrupted) }
{
    let bytes = read_input(heap, input)?;
    report(heap, &bytes)
}
