ghost use Rattle.std.specs.Prelude.{◌≡◌, [], ◌∷◌, ◌++◌, IfOk, OnOk, OnErr, ◌⊎◌};
ghost use Rattle.std.specs.Io.KnownBytes.{Keeps};
ghost use Rattle.match_runs.specs.Scripted.{Reaches, ReachesOn, BeginsPlay, BreaksPlay};

use dealer_kind::Config;
use operator_notes::{Stop, send};
use playing::Playing;
use std::alloc::{AllocError, Global};
use std::io::Write;

/// A script of `play` on its way: the cluster as the lines so far have made it, what has come of the next line, and
/// room for an answer.
pub(crate) struct Scripted {
    pub(crate) playing: Playing,
    pub(crate) line: Vec<u8>,
    pub(crate) answer: Vec<u8>,
}

/// By hand, so that letting one go is one call for whoever owns it (docs/ARCHITECTURE.md, Habits).
impl Drop for Scripted {
    fn drop(self) {
        let Scripted {
            playing: _,
            line: _,
            answer: _,
        } = self;
    }
}

/// Keeps a further byte of a line.
fn keep(line: &mut Vec<u8>, byte: u8) -> Result<(), AllocError>
    ensures { OnOk result (line.new.items ≡ line.old.items ++ byte ∷ []) }
{
    line.push(byte)?;
    Ok(())
}

impl Scripted {
    /// A script before its first byte. The headers of a new cluster's logs are written.
    pub(crate) fn begin<W: Write>(
        alloc: Global,
        config: Config,
        writer: &mut W,
    ) -> Result<Scripted, Stop>
        ensures ok { IfOk result (λ made. Reaches config (W.contents writer.old) [] made (W.contents writer.new)) }
        ensures err { OnErr result (Keeps (W.contents writer.old) (W.contents writer.new) ⊎ BeginsPlay config (W.contents writer.old) [] (W.contents writer.new)) }
    {
        let mut answer = Vec::new(alloc);
        let playing = Playing::new(alloc, config, &mut answer)?;
        send(writer, &answer)?;
        Ok(Scripted {
            playing,
            line: Vec::new(alloc),
            answer,
        })
    }

    /// Takes the next piece of the script, and writes the answer to each line that it ends.
    pub(crate) fn take_piece<W: Write>(&mut self, piece: &[u8], writer: &mut W) -> Result<(), Stop>
        ensures ok { OnOk result (ReachesOn piece.now self.old self.new (W.contents writer.old) (W.contents writer.new)) }
        ensures err { OnErr result (BreaksPlay piece.now self.old (W.contents writer.old) (W.contents writer.new)) }
    {
        for byte in piece {
            self.take_byte(*byte, writer)?;
        }
        Ok(())
    }

    /// Takes the next byte.
    fn take_byte<W: Write>(&mut self, byte: u8, writer: &mut W) -> Result<(), Stop>
        ensures ok { OnOk result (ReachesOn (byte ∷ []) self.old self.new (W.contents writer.old) (W.contents writer.new)) }
        ensures err { OnErr result (BreaksPlay (byte ∷ []) self.old (W.contents writer.old) (W.contents writer.new)) }
    {
        if byte == b'\n' {
            self.end_line(writer)
        } else {
            keep(&mut self.line, byte)?;
            Ok(())
        }
    }

    /// Takes a line feed: writes the answer to the line that it ends.
    fn end_line<W: Write>(&mut self, writer: &mut W) -> Result<(), Stop>
        ensures ok { OnOk result (ReachesOn (10 ∷ []) self.old self.new (W.contents writer.old) (W.contents writer.new)) }
        ensures err { OnErr result (BreaksPlay (10 ∷ []) self.old (W.contents writer.old) (W.contents writer.new)) }
    {
        self.answer.clear();
        self.playing.answer(&self.line, &mut self.answer)?;
        self.line.clear();
        send(writer, &self.answer)
    }
}
