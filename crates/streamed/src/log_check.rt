ghost use Rattle.std.specs.Prelude.{◌≡◌, ℕ, List, ◌++◌, OnOk, OnErr, IfOk, codes};
ghost use Rattle.std.specs.Io.KnownBytes.{Appends, Consumes, IsAtEnd, Keeps};
ghost use Rattle.streamed.specs.Verdict.{EndsCheck, EndsLog, EndsVerdict, verdict_text};

use crate::ending::Ending;
use crate::pieces::Pieces;
use crate::stream::MOST_READS;
use game_def::GameDef;
use match_log::LogFault;
use operator_notes::{Stop, send};
use std::alloc::{AllocError, Global};
use std::io::{Read, Write};

/// Checks the log of a match, which the reader gives in any pieces, against the rules of the game that the
/// game file defines.
///
/// `Done` comes exactly where all that was read is the log of a match of this game which is over, whatever the
/// names in it; then `yes` and LF was written. `SaidNo` comes with the first line at fault, from 1; then
/// `no LINE CODE Name` and LF was written. `Refused` comes where the game file is refused; then nothing was
/// read or written. `Unreadable` (104) comes where the reader failed, or the log wasn't at its end after
/// 16,777,216 reads; then nothing was written, nor where memory was refused (92, `OutOfMemory`).
/// `StreamFailed` (107) comes where the writer failed; then a beginning of the verdict was written.
pub fn check_run<R: Read, W: Write>(
    alloc: Global,
    game: &[u8],
    reader: &mut R,
    writer: &mut W,
) -> Ending
    ensures { EndsCheck game.now (R.remaining reader.old) (R.remaining reader.new) (W.contents writer.old) (W.contents writer.new) result }
{
    match game_def::read(game) {
        Ok(game) => check_log(alloc, &game, reader, writer),
        Err(fault) => Ending::Refused(fault),
    }
}

/// Reads all of the log, and writes what is said of it.
fn check_log<R: Read, W: Write>(
    alloc: Global,
    game: &GameDef,
    reader: &mut R,
    writer: &mut W,
) -> Ending
    ensures { EndsLog game.now (R.remaining reader.old) (R.remaining reader.new) (W.contents writer.old) (W.contents writer.new) result }
{
    match read_all(alloc, MOST_READS, reader) {
        Ok(log) => say(alloc, match_log::check(&log, game), writer),
        Err(Stop::OutOfMemory) => Ending::OutOfMemory,
        Err(Stop::StreamFailed) => Ending::Unreadable,
    }
}

/// Reads to the end, by at most so many reads.
pub fn read_all<R: Read>(alloc: Global, most_reads: u32, reader: &mut R) -> Result<Vec<u8>, Stop>
    ensures ok { IfOk result (λ bytes. Consumes (R.remaining reader.old) (R.remaining reader.new) bytes.items) }
    ensures end { OnOk result (IsAtEnd (R.remaining reader.new)) }
    ensures err { OnErr result ((bytes : List ℕ) × Consumes (R.remaining reader.old) (R.remaining reader.new) bytes) }
{
    let mut bytes = Vec::new(alloc);
    let mut pieces = Pieces::new(most_reads);
    while pieces.read(reader)? {
        bytes.extend_from_slice(pieces.bytes())?;
    }
    Ok(bytes)
}

/// Writes what is said of a log.
fn say<W: Write>(alloc: Global, verdict: Result<(), LogFault>, writer: &mut W) -> Ending
    ensures { EndsVerdict verdict (W.contents writer.old) (W.contents writer.new) result }
{
    let mut text = Vec::new(alloc);
    if put_verdict(&mut text, verdict).is_err() {
        return Ending::OutOfMemory;
    }
    if send(writer, &text).is_err() {
        return Ending::StreamFailed;
    }
    match verdict {
        Ok(()) => Ending::Done,
        Err(fault) => Ending::SaidNo(fault),
    }
}

/// Appends what is said of a log: `yes`, or `no` with the line and its fault.
fn put_verdict(out: &mut Vec<u8>, verdict: Result<(), LogFault>) -> Result<(), AllocError>
    ensures { OnOk result (out.new.items ≡ out.old.items ++ verdict_text verdict) }
{
    match verdict {
        Ok(()) => out.extend_from_slice(b"yes\n"),
        Err(fault) => put_fault(out, fault),
    }
}

/// Appends which line is at fault, and how.
fn put_fault(out: &mut Vec<u8>, fault: LogFault) -> Result<(), AllocError>
    ensures { OnOk result (out.new.items ≡ out.old.items ++ verdict_text (Err fault)) }
{
    let line = fault.line;
    let kind = fault.kind;
    match writeln!(out, "no {line} {kind}") {
        Ok(()) => Ok(()),
        Err(_) => Err(AllocError),
    }
}
