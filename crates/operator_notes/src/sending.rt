//! How bytes are written, all of them or a beginning.

ghost use Rattle.std.specs.Prelude.{◌≡◌, ◌≤◌, ℕ, List, ◌++◌, length, take, OnOk, OnErr, IfOk};
ghost use Rattle.std.specs.Io.KnownBytes.{Appends, Keeps};
ghost use Rattle.operator_notes.specs.Notes.{IsNoted};

use crate::stop::Stop;
use std::io::{ErrorKind, Write};

/// Writes all bytes, and flushes. Where it fails, a beginning of them was written.
pub fn send<W: Write>(writer: &mut W, bytes: &[u8]) -> Result<(), Stop>
    ensures ok { OnOk result (Appends (W.contents writer.old) (W.contents writer.new) bytes.now) }
    ensures err { OnErr result ((shown missing : List ℕ) × (bytes.now ≡ shown ++ missing) × Appends (W.contents writer.old) (W.contents writer.new) shown) }
{
    let mut sent = 0;
    for _ in 0..u64::MAX {
        if sent >= bytes.len() {
            return flush(writer);
        }
        sent += write_piece(writer, &bytes[sent..])?;
    }
    Err(Stop::StreamFailed)
}

/// One write: how many of the bytes were taken, none of them where it was interrupted.
fn write_piece<W: Write>(writer: &mut W, bytes: &[u8]) -> Result<usize, Stop>
    ensures within { IfOk result (λ count. count ≤ length bytes.now) }
    ensures ok { IfOk result (λ count. Appends (W.contents writer.old) (W.contents writer.new) (take count bytes.now)) }
    ensures err { OnErr result (Keeps (W.contents writer.old) (W.contents writer.new)) }
{
    match writer.write(bytes) {
        Ok(0) => Err(Stop::StreamFailed),
        Ok(count) => Ok(count),
        Err(error) if error.kind() == ErrorKind::Interrupted => Ok(0),
        Err(_) => Err(Stop::StreamFailed),
    }
}

/// Flushes, which writes nothing more to what the writer holds.
fn flush<W: Write>(writer: &mut W) -> Result<(), Stop>
    ensures { Keeps (W.contents writer.old) (W.contents writer.new) }
{
    match writer.flush() {
        Ok(()) => Ok(()),
        Err(_) => Err(Stop::StreamFailed),
    }
}

/// Writes a line as far as it goes.
pub fn write_line<W: Write>(notes: &mut W, line: &[u8])
    ensures { IsNoted line.now (W.contents notes.old) (W.contents notes.new) }
{
    let _ = send(notes, line);
}
