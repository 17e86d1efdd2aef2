// Reports of texts and of readers, and the reading of an input.
use driver::{report, report_from};
use input::{LONGEST, read_input};
use std::io;
use std::io::{ErrorKind, Read};
use std::test::*;

const EMPTY_FUNCTION: &[u8] = b"0105000100000000\n0300000000000000\n";

// A text is reported.
#[test]
fn a_text_is_reported(rt: HostRuntime) -> Result<(), Fail> {
    let text = report(rt.alloc(), EMPTY_FUNCTION)?;
    assert_eq!(rt; text.as_str(), "valid 1\n");
    Ok(())
}

// So is what a reader gives.
#[test]
fn what_a_reader_gives_is_reported(rt: HostRuntime) -> Result<(), Fail> {
    let text = report_from(rt.alloc(), &mut EMPTY_FUNCTION)?;
    assert_eq!(rt; text.as_str(), "valid 1\n");
    Ok(())
}

// A reader is read to its end, and no further than to one byte more than an input may have.
#[test]
fn a_reader_is_read(rt: HostRuntime) -> Result<(), Fail> {
    let short = read_input(rt.alloc(), EMPTY_FUNCTION)?;
    assert!(rt; short.as_slice() == EMPTY_FUNCTION);
    let long = vec![in rt.alloc(); 48u8; 70000]?;
    let read = read_input(rt.alloc(), long.as_slice())?;
    assert_eq!(rt; read.len(), LONGEST + 1);
    Ok(())
}

// Gives its bytes one at a time, and an error of that kind before each; of another kind only where half of them are left.
#[derive(Drop)]
struct Failing {
    left: &'static [u8],
    kind: ErrorKind,
    fails: bool,
}

impl Failing {
    fn new(kind: ErrorKind) -> Self {
        Failing {
            left: EMPTY_FUNCTION,
            kind,
            fails: true,
        }
    }
}

impl Read for Failing {
    fn read(&mut self, buf: &mut [u8]) -> io::Result<usize> {
        let now = self.kind == ErrorKind::Interrupted || self.left.len() == 17;
        if self.fails && now {
            self.fails = false;
            return Err(io::Error::new(self.kind, "no byte now"));
        }
        self.fails = true;
        let Some((first, rest)) = self.left.split_first() else {
            return Ok(0);
        };
        let Some(place) = buf.first_mut() else {
            return Ok(0);
        };
        *place = *first;
        self.left = rest;
        Ok(1)
    }
}

// Reading that is interrupted is tried again.
#[test]
fn interrupted_reading_goes_on(rt: HostRuntime) -> Result<(), Fail> {
    let text = report_from(rt.alloc(), &mut Failing::new(ErrorKind::Interrupted))?;
    assert_eq!(rt; text.as_str(), "valid 1\n");
    Ok(())
}

// Is interrupted at every read.
#[derive(Drop)]
struct Interrupted;

impl Read for Interrupted {
    fn read(&mut self, _buf: &mut [u8]) -> io::Result<usize> {
        Err(io::Error::from(ErrorKind::Interrupted))
    }
}

// Reading that is interrupted for ever ends.
#[test]
fn endless_interruption_ends(rt: HostRuntime) {
    let said = read_input(rt.alloc(), Interrupted);
    assert!(rt; said.is_err_and(|e| e.kind() == ErrorKind::TimedOut));
}

// Gives its bytes to the first read, and drops those that it did not ask for, as a socket that keeps packets does.
#[derive(Drop)]
struct Packet<'a> {
    bytes: &'a [u8],
}

impl Read for Packet<'_> {
    fn read(&mut self, buf: &mut [u8]) -> io::Result<usize> {
        let count = self.bytes.len().min(buf.len());
        buf[..count].copy_from_slice(&self.bytes[..count]);
        self.bytes = &[];
        Ok(count)
    }
}

// The first read asks for all that an input may have.
#[test]
fn a_packet_is_read_whole(rt: HostRuntime) -> Result<(), Fail> {
    let bytes = vec![in rt.alloc(); 48u8; LONGEST]?;
    let read = read_input(rt.alloc(), Packet { bytes: &bytes })?;
    assert_eq!(rt; read.len(), LONGEST);
    Ok(())
}

// Where reading fails after the first line, nothing is reported of that line.
#[test]
fn failed_reading_is_not_reported(rt: HostRuntime) {
    let said = report_from(rt.alloc(), &mut Failing::new(ErrorKind::TimedOut));
    assert!(rt; said.is_err_and(|e| e.kind() == ErrorKind::TimedOut));
}
