ghost use Rattle.std.specs.Prelude.{MatchResult, OnOk, OnErr};
ghost use Rattle.std.specs.Option.{option_copied};
ghost use Rattle.match_runs.specs.PlayOutcome.{SaysPlan, IsNoPlan, AnswersPlay, StopsPlay, EndsPlay};

use crate::scripted::Scripted;
use dealer_kind::Config;
use match_file::{MatchFault, MatchFile};
use operator_notes::Stop;
use std::alloc::Global;
use std::io::{Read, Write};
use streamed::{Ending, MOST_READS, Pieces};

/// Runs all nodes of a match over a network in memory, driven by a script, which the reader gives in any pieces.
///
/// `file` is the match file, and `game` the game file that it names, none where that can't be read. The nodes start
/// over new stores in memory, and the headers of their logs are written. Then for each line of the script that ends
/// with LF the answer is written and flushed before the next line is awaited: of the event that the line says each
/// frame `frame K I>J HEX`, each line of a seat `I S LINE` and of a log `I L LINE`, and faults `I S E CODE Name` and
/// `I E CODE Name`; or `E 110 BadScript`.
///
/// `Done` comes once all of the reader has been read; then just that was written. `Match` comes where the match
/// file or its game is refused (100, 101, 102, 104, or 92); then nothing was read or written. `OutOfMemory` (92, also
/// where the reader was refused memory) and `StreamFailed` (107: the reader or the writer failed, or the script wasn't
/// at its end after 16,777,216 reads) may come at any moment; then a beginning of that was written.
pub fn play_run<R: Read, W: Write>(
    alloc: Global,
    file: &[u8],
    game: Option<&[u8]>,
    reader: &mut R,
    writer: &mut W,
) -> Ending
    ensures { EndsPlay file.now (option_copied game.entry) (R.remaining reader.old) (R.remaining reader.new) (W.contents writer.old) (W.contents writer.new) result }
{
    match read_match(alloc, file, game) {
        Ok(config) => match play_match(alloc, config, MOST_READS, reader, writer) {
            Ok(()) => Ending::Done,
            Err(stop) => Ending::from(stop),
        },
        Err(fault) => Ending::Match(fault),
    }
}

/// The match that a match file and its game file say.
fn read_match(alloc: Global, file: &[u8], game: Option<&[u8]>) -> Result<Config, MatchFault>
    ensures { MatchResult result (SaysPlan file.now (option_copied game.entry)) (IsNoPlan file.now (option_copied game.entry)) }
{
    match MatchFile::read(alloc, file) {
        Ok(file) => file.config(alloc, game),
        Err(fault) => Err(fault),
    }
}

/// Reads the script to its end, by at most so many reads, and writes the answers of a new cluster. `StreamFailed` also
/// comes where the script isn't at its end then.
pub fn play_match<R: Read, W: Write>(
    alloc: Global,
    config: Config,
    most_reads: u32,
    reader: &mut R,
    writer: &mut W,
) -> Result<(), Stop>
    ensures ok { OnOk result (AnswersPlay config (R.remaining reader.old) (R.remaining reader.new) (W.contents writer.old) (W.contents writer.new)) }
    ensures err { OnErr result (StopsPlay config (R.remaining reader.old) (R.remaining reader.new) (W.contents writer.old) (W.contents writer.new)) }
{
    let mut scripted = Scripted::begin(alloc, config, writer)?;
    let mut pieces = Pieces::new(most_reads);
    while pieces.read(reader)? {
        scripted.take_piece(pieces.bytes(), writer)?;
    }
    Ok(())
}
