ghost use Rattle.std.specs.Prelude.{◌≡◌, ◌<◌, ◌≤◌, [], false, length, IfOk, OnOk, OnErr};
ghost use Rattle.std.specs.Io.KnownBytes.{Consumes, IsAtEnd, Keeps};

use crate::stream::{PIECE, read_piece};
use operator_notes::Stop;
use std::io::Read;

/// The pieces in which a reader gives its bytes, one after another, by so many reads at most.
#[derive(Drop)]
pub struct Pieces {
    room: [u8; PIECE],
    /// How many bytes the last piece has.
    count: usize,
    /// How many reads may still be made.
    left: u32,
    ghost within: { count ≤ length room },
}

impl Pieces {
    ghost use Rattle.streamed.specs.Pieces.{bytes_of};

    /// Before the first piece. So many reads are made at most, the one that meets the end counted.
    pub fn new(most_reads: u32) -> Pieces
        ensures none { bytes_of result ≡ [] }
        ensures left { result.left ≡ most_reads }
    {
        Pieces {
            room: [0; PIECE],
            count: 0,
            left: most_reads,
        }
    }

    /// Reads the next piece: whether one came, else the reader is at its end. A read that was
    /// interrupted is made again. `StreamFailed` also comes where no more reads may be made. With an `Err` nothing was
    /// read.
    pub fn read<R: Read>(&mut self, reader: &mut R) -> Result<bool, Stop>
        ensures fewer { OnOk result (self.new.left < self.old.left) }
        ensures read { OnOk result (Consumes (R.remaining reader.old) (R.remaining reader.new) (bytes_of self.new)) }
        ensures end { IfOk result (λ came. came ≡ false → (bytes_of self.new ≡ []) × IsAtEnd (R.remaining reader.new)) }
        ensures err { OnErr result (Keeps (R.remaining reader.old) (R.remaining reader.new)) }
    {
        while self.left > 0 {
            self.left -= 1;
            if let Some(count) = read_piece(reader, &mut self.room)? {
                self.count = count;
                return Ok(count > 0);
            }
        }
        Err(Stop::StreamFailed)
    }

    /// The bytes of the last piece; none before the first.
    pub fn bytes(&self) -> &[u8]
        ensures { result.now ≡ bytes_of self.now }
    {
        &self.room[..self.count]
    }
}
