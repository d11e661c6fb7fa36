ghost use Rattle.std.specs.Prelude.{◌≤◌, OnOk, OnErr};
ghost use Rattle.streamed.specs.Outcome.{Ends, Answers, Stops};

use crate::ending::Ending;
use crate::game_word::GameWord;
use crate::pieces::Pieces;
use crate::running::Running;
use crate::stream::MOST_READS;
use game_def::GameDef;
use operator_notes::Stop;
use std::alloc::Global;
use std::io::{Read, Write};

/// Runs one dealer over a script, which the reader gives in any pieces: a match of 1 to 10000 hands of the
/// game that the game file defines. Where `log` has a word for the game, the log is printed too.
///
/// For each line of the script that ends with LF the answer is written and flushed before the next line is
/// awaited: for a command that takes effect each seat's line (ACPC dealer protocol 2.0.0) behind the seat's
/// number, for any other line but the one that names the seats `E CODE Name`, for 24 and 25 with the amount.
/// The log's lines come behind `L `: its header once the seats are named, the line of a finished hand behind
/// the seats' lines of the action that ends it, and the score behind the last of these. `Done` comes once all
/// of the reader has been read; then just that was written. `Refused` comes where the game file is refused;
/// then nothing was read or written. `OutOfMemory` (92, also where the reader was refused memory) and
/// `StreamFailed` (107: the reader or the writer failed, or the script wasn't at its end after 16,777,216
/// reads) may come at any moment; then a beginning of that was written.
pub fn hand_run<R: Read, W: Write>(
    alloc: Global,
    game: &[u8],
    log: Option<GameWord<'_>>,
    hands: u32,
    reader: &mut R,
    writer: &mut W,
) -> Ending
    requires least { 1 ≤ hands }
    requires most { hands ≤ 10000 }
    ensures { Ends game.now hands log.entry (R.remaining reader.old) (R.remaining reader.new) (W.contents writer.old) (W.contents writer.new) result }
{
    match game_def::read(game) {
        Ok(game) => match run_script(alloc, game, log, hands, MOST_READS, reader, writer) {
            Ok(()) => Ending::Done,
            Err(stop) => Ending::from(stop),
        },
        Err(fault) => Ending::Refused(fault),
    }
}

/// Reads the script to its end, by at most so many reads, and writes the answers.
pub fn run_script<R: Read, W: Write>(
    alloc: Global,
    game: GameDef,
    log: Option<GameWord<'_>>,
    hands: u32,
    most_reads: u32,
    reader: &mut R,
    writer: &mut W,
) -> Result<(), Stop>
    requires least { 1 ≤ hands }
    requires most { hands ≤ 10000 }
    ensures ok { OnOk result (Answers game hands log.entry (R.remaining reader.old) (R.remaining reader.new) (W.contents writer.old) (W.contents writer.new)) }
    ensures err { OnErr result (Stops game hands log.entry (R.remaining reader.old) (R.remaining reader.new) (W.contents writer.old) (W.contents writer.new)) }
{
    let mut running = Running::new(alloc, game, log, hands);
    let mut pieces = Pieces::new(most_reads);
    while pieces.read(reader)? {
        running.take_piece(pieces.bytes(), writer)?;
    }
    Ok(())
}
