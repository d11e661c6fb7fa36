ghost use Rattle.std.specs.Prelude.{Err};
ghost use Rattle.streamed.specs.Verdict.{EndsVerdict};
ghost use Rattle.holdem_table.specs.LuckEnding.{EndsLuck};

use crate::arguments::LogArguments;
use crate::whole_file::read_file;
use game_def::GameDef;
use luck::{LuckFault, lucks_of_log};
use match_log::LogFault;
use operator_notes::send;
use std::alloc::Global;
use std::io::{self, Write};
use streamed::Ending;

/// Runs `luck` over a log file and standard output. The log is opened once the game is read.
pub(crate) fn luck(rt: &HostRuntime, arguments: LogArguments<'_>) -> Ending {
    match read_file(rt, arguments.game) {
        Ok(game) => match game_def::read(&game) {
            Ok(game) => luck_of(rt, &game, arguments.log),
            Err(fault) => Ending::Refused(fault),
        },
        Err(ending) => ending,
    }
}

/// Reads the log that a word names, and writes what is told of it.
fn luck_of(rt: &HostRuntime, game: &GameDef, path: &str) -> Ending {
    match read_file(rt, path) {
        Ok(log) => put_lucks(rt.alloc(), &log, game, &mut io::writer(rt)),
        Err(ending) => ending,
    }
}

/// Writes the lines of a log of this game: the payoff and the luck of each position in each hand.
///
/// `Done` comes where all were written. `SaidNo` comes where the log isn't right; then what `check` says was written.
/// Where memory was refused (92, `OutOfMemory`) nothing was written. `StreamFailed` (107) comes where the writer failed;
/// then a beginning was written.
fn put_lucks<W: Write>(alloc: Global, log: &[u8], game: &GameDef, writer: &mut W) -> Ending
    ensures { EndsLuck game.now log.now (W.contents writer.old) (W.contents writer.new) result }
{
    match lucks_of_log(alloc, log, game) {
        Ok(lines) => {
            if send(writer, &lines).is_err() {
                return Ending::StreamFailed;
            }
            Ending::Done
        }
        Err(LuckFault::Log(fault)) => put_fault(alloc, fault, writer),
        Err(LuckFault::OutOfMemory) => Ending::OutOfMemory,
    }
}

/// Writes what `check` says of a log with this fault.
fn put_fault<W: Write>(alloc: Global, fault: LogFault, writer: &mut W) -> Ending
    ensures { EndsVerdict (Err fault) (W.contents writer.old) (W.contents writer.new) result }
{
    let line = fault.line;
    let kind = fault.kind;
    let Ok(text) = format!(in alloc; "no {line} {kind}\n") else {
        return Ending::OutOfMemory;
    };
    if send(writer, text.as_bytes()).is_err() {
        return Ending::StreamFailed;
    }
    Ending::SaidNo(fault)
}
