ghost use Rattle.std.specs.Prelude.{◌≡◌, ◌≤◌, ◌<◌, length, take, OnErr, IfOk, IfSome, MatchOption};
ghost use Rattle.std.specs.Io.KnownBytes.{Consumes, IsAtEnd, Keeps};

use operator_notes::Stop;
use std::io::{ErrorKind, Read};

/// The most calls of a reader's `read`, the one that meets the end counted.
pub const MOST_READS: u32 = 16_777_216;

/// The most bytes that one call of `read` gives.
pub const PIECE: usize = 4096;

/// One read of a piece: how many bytes came, 0 at the end, and none where the read was interrupted. Where it
/// failed, nothing was read.
pub fn read_piece<R: Read>(reader: &mut R, piece: &mut [u8]) -> Result<Option<usize>, Stop>
    requires { 0 < length piece.old }
    ensures within { IfOk result (λ got. IfSome got (λ count. count ≤ length piece.new)) }
    ensures read { IfOk result (λ got. MatchOption got (Keeps (R.remaining reader.old) (R.remaining reader.new))
        (λ count. Consumes (R.remaining reader.old) (R.remaining reader.new) (take count piece.new))) }
    ensures end { IfOk result (λ got. IfSome got (λ count. count ≡ 0 → IsAtEnd (R.remaining reader.new))) }
    ensures err { OnErr result (Keeps (R.remaining reader.old) (R.remaining reader.new)) }
{
    match reader.read(piece) {
        Ok(count) => Ok(Some(count)),
        Err(error) => match error.kind() {
            ErrorKind::Interrupted => Ok(None),
            ErrorKind::OutOfMemory => Err(Stop::OutOfMemory),
            _ => Err(Stop::StreamFailed),
        },
    }
}
