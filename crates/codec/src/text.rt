// The text of frames.
ghost use Rattle.std.specs.Prelude.{◌≡◌, ℕ, ◌^◌, ◌<◌, ◌≤◌, length, MatchOption, ◌≢◌};
ghost use Rattle.syntax.specs.declared.frame.Frame.{Frame};
ghost use Rattle.codec.specs.Text.{digit, hexes, line_of, Fit};
ghost use Rattle.codec.specs.Codec.{Reads, Only, Writes, Inverse};

use syntax::{Fault, Frame};

// A line has two digits of kind, two of t, four of name and eight of load, and the byte that ends it.
const LINE: usize = 17;

const NEWLINE: u8 = b'\n';

// The digits, each at its value.
static DIGITS: [u8; 16] = *b"0123456789ABCDEF";

// The digit of each byte; 16 for one that is no digit.
#[rattlefmt::skip]
static VALUES: [u8; 256] = [
    16, 16, 16, 16, 16, 16, 16, 16, 16, 16, 16, 16, 16, 16, 16, 16, // 0x00
    16, 16, 16, 16, 16, 16, 16, 16, 16, 16, 16, 16, 16, 16, 16, 16, // 0x10
    16, 16, 16, 16, 16, 16, 16, 16, 16, 16, 16, 16, 16, 16, 16, 16, // 0x20
     0,  1,  2,  3,  4,  5,  6,  7,  8,  9, 16, 16, 16, 16, 16, 16, // 0x30
    16, 10, 11, 12, 13, 14, 15, 16, 16, 16, 16, 16, 16, 16, 16, 16, // 0x40
    16, 16, 16, 16, 16, 16, 16, 16, 16, 16, 16, 16, 16, 16, 16, 16, // 0x50
    16, 16, 16, 16, 16, 16, 16, 16, 16, 16, 16, 16, 16, 16, 16, 16, // 0x60
    16, 16, 16, 16, 16, 16, 16, 16, 16, 16, 16, 16, 16, 16, 16, 16, // 0x70
    16, 16, 16, 16, 16, 16, 16, 16, 16, 16, 16, 16, 16, 16, 16, 16, // 0x80
    16, 16, 16, 16, 16, 16, 16, 16, 16, 16, 16, 16, 16, 16, 16, 16, // 0x90
    16, 16, 16, 16, 16, 16, 16, 16, 16, 16, 16, 16, 16, 16, 16, 16, // 0xA0
    16, 16, 16, 16, 16, 16, 16, 16, 16, 16, 16, 16, 16, 16, 16, 16, // 0xB0
    16, 16, 16, 16, 16, 16, 16, 16, 16, 16, 16, 16, 16, 16, 16, 16, // 0xC0
    16, 16, 16, 16, 16, 16, 16, 16, 16, 16, 16, 16, 16, 16, 16, 16, // 0xD0
    16, 16, 16, 16, 16, 16, 16, 16, 16, 16, 16, 16, 16, 16, 16, 16, // 0xE0
    16, 16, 16, 16, 16, 16, 16, 16, 16, 16, 16, 16, 16, 16, 16, 16, // 0xF0
];

// Digits are read and written by hand, since a line goes into lent bytes and its theorems are about digits.

// The byte of a digit below 16.
fn digit_byte(d: u8) -> u8
    requires { d < 16 }
    ensures { result ≡ digit d }
{
    DIGITS[d as usize]
}

// The digit of a byte, or 16 if it is none.
fn digit_or_16(b: u8) -> u8
    ensures digit { result < 16 → b ≡ digit result }
    ensures none { 16 ≤ result → (d : ℕ) → d < 16 → b ≢ digit d }
{
    VALUES[b as usize]
}

// The digit of a byte, if it is one.
fn digit_value(b: u8) -> Option<u8>
    ensures { MatchOption result ((d : ℕ) → d < 16 → b ≢ digit d) (λ d. (d < 16) × (b ≡ digit d)) }
{
    let d = digit_or_16(b);
    (d < 16).then_some(d)
}

// The number that the digits spell, highest first.
fn hex_value(digits: &[u8]) -> Option<u32>
    requires { length digits.now ≤ 8 }
    ensures { MatchOption result ((n : ℕ) → digits.now ≢ hexes (length digits.now) n) (λ n. (n < 16 ^ length digits.now) × (digits.now ≡ hexes (length digits.now) n)) }
{
    let mut n = 0;
    for b in digits {
        n = n * 16 + u32::from(digit_value(*b)?);
    }
    Some(n)
}

// The frame that has the line, if one has.
fn read_line(line: &[u8]) -> Option<Frame>
    ensures { MatchOption result ((f : Frame) → line.now ≢ line_of f) (λ f. Fit f × (line.now ≡ line_of f)) }
{
    if line.len() != LINE || line[LINE - 1] != NEWLINE {
        return None;
    }
    let kind = hex_value(&line[0..2])?;
    let t = hex_value(&line[2..4])?;
    let name = hex_value(&line[4..8])?;
    let load = hex_value(&line[8..16])?;
    Some(Frame {
        kind: kind as u8,
        t: t as u8,
        name: name as u16,
        load,
    })
}

// Reads line by line; answers the count of frames, and keeps those read before a fault.
#[tactic(auto, using(crate::proofs::TextLaw::reads_once, crate::proofs::TextLaw::inverse, crate::proofs::Lines::no_line))]
pub fn read(text: &[u8], frames: &mut [Frame]) -> Result<usize, Fault>
    ensures does { Reads text.now frames.old frames.new result }
    ensures only { Only text.now frames.old frames.new result }
    ensures law { Inverse }
{
    for (n, line) in text.chunks(LINE).enumerate() {
        if n >= frames.len() {
            return Err(Fault::FramesFull(n));
        }
        let Some(frame) = read_line(line) else {
            return Err(Fault::BadLine(n));
        };
        frames[n] = frame;
    }
    Ok(text.len() / LINE)
}

// The lowest digits of the number, as many as there are places.
fn put_hex(digits: &mut [u8], n: u32)
    ensures { digits.new ≡ hexes (length digits.old) n }
{
    let mut left = n;
    // By index: with `iter_mut().rev()` the proof doesn't close, as its goal's list, `digits-1.given.0`, has only a known length.
    for k in (0..digits.len()).rev() {
        digits[k] = digit_byte((left % 16) as u8);
        left /= 16;
    }
}

// The line of a frame.
fn put_line(line: &mut [u8], f: Frame)
    requires { length line.old ≡ 17 }
    ensures { line.new ≡ line_of f }
{
    put_hex(&mut line[0..2], u32::from(f.kind));
    put_hex(&mut line[2..4], u32::from(f.t));
    put_hex(&mut line[4..8], u32::from(f.name));
    put_hex(&mut line[8..16], f.load);
    line[LINE - 1] = NEWLINE;
}

// Writes a line for each frame; answers the count of bytes.
pub fn write(frames: &[Frame], text: &mut [u8]) -> Result<usize, Fault>
    ensures does { Writes frames.now text.old text.new result }
{
    if text.len() / LINE < frames.len() {
        return Err(Fault::TextShort);
    }
    // By index: with `chunks_exact_mut(LINE).zip(frames)` the proof doesn't close, as the area's bytes after the loop aren't known.
    for (i, f) in frames.iter().enumerate() {
        put_line(&mut text[LINE * i..LINE * i + LINE], *f);
    }
    Ok(LINE * frames.len())
}
