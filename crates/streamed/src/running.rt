ghost use Rattle.std.specs.Prelude.{◌≤◌, ℕ, List, [], ◌∷◌, OnOk, OnErr, Option as Maybe};
ghost use Rattle.streamed.specs.Running.{Shows, GoesOn, BreaksOff};

use crate::dealing::Dealing;
use crate::game_word::GameWord;
use crate::line::{LineFront, keep};
use game_def::GameDef;
use operator_notes::{Stop, send};
use std::alloc::Global;
use std::io::Write;

/// A script on its way: the match as the lines so far have made it, the front of the line that has begun,
/// and room for an answer.
#[derive(Drop)]
pub(crate) struct Running<'a> {
    pub(crate) dealing: Dealing<'a>,
    pub(crate) line: LineFront,
    pub(crate) answer: Vec<u8>,
}

impl<'a> Running<'a> {
    /// A script before its first byte, of a match of 1 to 10000 hands. With a word for its game the log is
    /// printed.
    pub(crate) fn new(
        alloc: Global,
        game: GameDef,
        log: Option<GameWord<'a>>,
        hands: u32,
    ) -> Running<'a>
        requires least { 1 ≤ hands }
        requires most { hands ≤ 10000 }
        ensures { (now : Maybe (List ℕ)) → Shows game hands log.entry now [] result now }
    {
        Running {
            dealing: Dealing::new(alloc, game, log, hands),
            line: LineFront::new(),
            answer: Vec::new(alloc),
        }
    }

    /// Takes the next piece of the script, and writes the answer to each line that it ends.
    pub(crate) fn take_piece<W: Write>(&mut self, piece: &[u8], writer: &mut W) -> Result<(), Stop>
        ensures ok { OnOk result (GoesOn piece.now self.old self.new (W.contents writer.old) (W.contents writer.new)) }
        ensures err { OnErr result (BreaksOff piece.now self.old (W.contents writer.old) (W.contents writer.new)) }
    {
        for byte in piece {
            self.take_byte(*byte, writer)?;
        }
        Ok(())
    }

    /// Takes the next byte.
    fn take_byte<W: Write>(&mut self, byte: u8, writer: &mut W) -> Result<(), Stop>
        ensures ok { OnOk result (GoesOn (byte ∷ []) self.old self.new (W.contents writer.old) (W.contents writer.new)) }
        ensures err { OnErr result (BreaksOff (byte ∷ []) self.old (W.contents writer.old) (W.contents writer.new)) }
    {
        if byte == b'\n' {
            self.end_line(writer)
        } else {
            keep(&mut self.line, byte);
            Ok(())
        }
    }

    /// Takes a line feed: writes the answer to the line that it ends.
    fn end_line<W: Write>(&mut self, writer: &mut W) -> Result<(), Stop>
        ensures ok { OnOk result (GoesOn (10 ∷ []) self.old self.new (W.contents writer.old) (W.contents writer.new)) }
        ensures err { OnErr result (BreaksOff (10 ∷ []) self.old (W.contents writer.old) (W.contents writer.new)) }
    {
        let said = self.dealing.read(&self.line);
        self.line.clear();
        self.answer.clear();
        self.dealing.take_line(said, &mut self.answer)?;
        send(writer, &self.answer)
    }
}
