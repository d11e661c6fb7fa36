ghost use Rattle.std.specs.Prelude.{◌<◌, IfSome};
ghost use Rattle.paxos_wire.specs.Fits.{Fits};

use crate::verdicts::Verdicts;
use paxos_wire::{FrameFault, Message, MessageRoom, decode, encode};
use std::alloc::{AllocError, Global};
use std::io;

/// Reads lines of a frame's bytes in hexadecimal, and behind them the frame as which its message is written, or the fault.
/// Prints for how many of them it comes to that.
pub fn print_checked(rt: &(impl Input + Print + AllocGlobal)) -> io::Result<()> {
    let mut verdicts = Verdicts::none();
    for line in rt.lines(rt.alloc()) {
        verdicts.count(is_right_or_told(rt, line?.as_str())?);
    }
    verdicts.print(rt, "frames")
}

/// Whether a line's frame reads as the line says. A line that is wrong is printed.
fn is_right_or_told(rt: &(impl Print + AllocGlobal), line: &str) -> io::Result<bool> {
    let is_right = is_right(rt.alloc(), line)?;
    if !is_right {
        println!(rt; "wrong: {line}")?;
    }
    Ok(is_right)
}

/// Whether a line's frame reads as the line says.
fn is_right(alloc: Global, line: &str) -> Result<bool, AllocError> {
    let Some((digits, answer)) = line.split_once(' ') else {
        return Ok(false);
    };
    let Some(bytes) = from_hexadecimal(alloc, digits.as_bytes())? else {
        return Ok(false);
    };
    reads_as(alloc, bytes.as_slice(), answer)
}

/// Whether bytes read as a message that is written as the answer says, or as the fault that it names.
fn reads_as(alloc: Global, bytes: &[u8], answer: &str) -> Result<bool, AllocError> {
    let mut room = MessageRoom::new();
    match decode(bytes, &mut room) {
        Ok(message) => is_written_so(alloc, &message, answer),
        Err(fault) => is_named_so(alloc, fault, answer),
    }
}

/// Whether a message is written as the bytes that these digits say.
fn is_written_so(alloc: Global, message: &Message, digits: &str) -> Result<bool, AllocError>
    requires { Fits message.now }
{
    let Some(wanted) = from_hexadecimal(alloc, digits.as_bytes())? else {
        return Ok(false);
    };
    let mut written = Vec::new(alloc);
    encode(&mut written, message)?;
    Ok(written.as_slice() == wanted.as_slice())
}

/// Whether a fault is printed so.
fn is_named_so(alloc: Global, fault: FrameFault, answer: &str) -> Result<bool, AllocError> {
    let text = format!(in alloc; "{fault}")?;
    Ok(text.as_str() == answer)
}

/// The bytes that pairs of digits write; none where there are other characters, or a digit alone.
pub fn from_hexadecimal(alloc: Global, digits: &[u8]) -> Result<Option<Vec<u8>>, AllocError> {
    if digits.len() % 2 == 1 {
        return Ok(None);
    }
    let mut bytes = Vec::new(alloc);
    for pair in digits.chunks_exact(2) {
        match byte_of(pair) {
            Some(byte) => bytes.push(byte)?,
            None => return Ok(None),
        }
    }
    Ok(Some(bytes))
}

/// The byte that two digits write.
fn byte_of(pair: &[u8]) -> Option<u8> {
    match pair {
        [high, low] => Some(16 * digit(*high)? + digit(*low)?),
        _ => None,
    }
}

/// The value of a digit.
fn digit(letter: u8) -> Option<u8>
    ensures { IfSome result (λ value. value < 16) }
{
    match letter {
        b'0'..=b'9' => Some(letter - b'0'),
        b'a'..=b'f' => Some(letter - b'a' + 10),
        _ => None,
    }
}
