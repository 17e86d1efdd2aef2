// The input of a program, read as far as an input may go.
ghost use Rattle.std.specs.Prelude.{◌≡◌, ◌≢◌, ◌+◌, ◌≤◌, ◌<◌, take, drop, length, IfOk, IfErr, IfSome, vec_len, vec_items};
ghost use Rattle.std.specs.Io.{ReadsAtMost};
ghost use Rattle.std.specs.Io.KnownBytes.{Consumes, IsAtEnd};
ghost use Rattle.std.specs.IoError.{error_kind};

use std::alloc::Global;
use std::io;
use std::io::{ErrorKind, Read};

// So many bytes may an input have.
pub const LONGEST: usize = 65536;

// One byte more than an input may have, so that a longer one is seen.
const ROOM: usize = LONGEST + 1;

// So often in a row is a read tried that the system interrupts: a reader that is interrupted for ever must not keep the program for ever.
const TRIES: usize = 1 << 24;

// One read, tried again where the system interrupts it.
fn read_retrying<R: Read>(input: &mut R, buffer: &mut [u8]) -> io::Result<usize>
    ensures bound { ReadsAtMost result buffer.new }
    ensures ok { IfOk result (λ n. Consumes (R.remaining input.old) (R.remaining input.new) (take n buffer.new)) }
    ensures end { IfOk result (λ n. n ≡ 0 → 0 < length buffer.old → IsAtEnd (R.remaining input.new)) }
    ensures retried { IfErr result (λ e. error_kind e ≢ ErrorKind.Interrupted) }
{
    for _ in 0..TRIES {
        match input.read(buffer) {
            Ok(n) => return Ok(n),
            Err(e) => {
                if e.kind() != ErrorKind::Interrupted {
                    return Err(e);
                }
            }
        }
    }
    Err(io::Error::from(ErrorKind::TimedOut))
}

// One read after a place of the buffer, tried again where the system interrupts it.
fn read_at<R: Read>(input: &mut R, buffer: &mut [u8], at: usize) -> io::Result<usize>
    requires { at < length buffer.old }
    ensures length { length buffer.new ≡ length buffer.old }
    ensures front { take at buffer.new ≡ take at buffer.old }
    ensures fits { IfOk result (λ n. at + n ≤ length buffer.new) }
    ensures ok { IfOk result (λ n. Consumes (R.remaining input.old) (R.remaining input.new) (take n (drop at buffer.new))) }
    ensures end { IfOk result (λ n. n ≡ 0 → IsAtEnd (R.remaining input.new)) }
    ensures retried { IfErr result (λ e. error_kind e ≢ ErrorKind.Interrupted) }
{
    read_retrying(input, &mut buffer[at..])
}

// Fills the buffer from its front as far as there is input, and answers how far that is. Each read asks for all that is left of the
// buffer, since an input that keeps packets drops what of a packet was not asked for.
fn fill<R: Read>(input: &mut R, buffer: &mut [u8]) -> io::Result<usize>
    ensures length { length buffer.new ≡ length buffer.old }
    ensures bound { IfOk result (λ n. n ≤ length buffer.new) }
    ensures known { IfOk result (λ n. IfSome (R.remaining input.old) (λ xs. take n buffer.new ≡ take (length buffer.old) xs)) }
    ensures retried { IfErr result (λ e. error_kind e ≢ ErrorKind.Interrupted) }
{
    let mut n = 0;
    while n < buffer.len() {
        let more = read_at(input, buffer, n)?;
        if more == 0 {
            break;
        }
        n += more;
    }
    Ok(n)
}

// What the reader gives, up to its end or to one byte more than an input may have.
pub fn read_input<R: Read>(heap: Global, mut input: R) -> io::Result<Vec<u8>>
where
    R: Drop,
    ensures bound { IfOk result (λ bytes. vec_len bytes ≤ 65537) }
    ensures known { IfOk result (λ bytes. IfSome (R.remaining input) (λ xs. vec_items bytes ≡ take 65537 xs)) }
    ensures retried { IfErr result (λ e. error_kind e ≢ ErrorKind.Interrupted) }
{
    let mut bytes = vec![in heap; 0u8; ROOM]?;
    let count = fill(&mut input, &mut bytes)?;
    bytes.truncate(count);
    Ok(bytes)
}
