ghost use Rattle.std.specs.Prelude.{◌≡◌, ◌≤◌, length, IfOk};

use crate::deadline::Deadline;
use crate::input::Input;
use crate::limits::PATIENCE_SECONDS;
use crate::links::LinkFault;
use std::io;
use std::io::{Read, Write};
use std::net::{Shutdown, TcpStream};
use std::time::Duration;

/// How many pieces of what a seat sends behind its last line are dropped, of so many bytes at most.
const LAST_PIECES: usize = 256;

const DROPPED: usize = 4096;

/// The connection of a seat that sits at a node.
#[derive(Drop)]
pub(crate) struct Seated {
    stream: TcpStream,
    /// What came and isn't read yet.
    input: Input,
}

impl Seated {
    /// Prepares a connection of which this came so far: a line goes out at once, and a read or a write waits.
    pub(crate) fn new(stream: TcpStream, input: Input) -> io::Result<Seated> {
        stream.set_nonblocking(false)?;
        stream.set_nodelay(true)?;
        stream.set_write_timeout(Some(Duration::from_secs(PATIENCE_SECONDS)))?;
        Ok(Seated { stream, input })
    }

    /// Waits for the next piece, so long at most, and reads it. Where it is slow, what came of it is kept for the next
    /// read.
    pub(crate) fn read(
        &mut self,
        rt: &HostRuntime,
        most: Duration,
        piece: &mut [u8],
    ) -> Result<usize, LinkFault>
        ensures { IfOk result (λ count. count ≤ length piece.new) }
    {
        let Ok(deadline) = Deadline::after(rt, most) else {
            return Err(LinkFault::Failed);
        };
        for _ in 0..u64::MAX {
            if self.input.is_whole() {
                break;
            }
            match self.fill_until(rt, deadline) {
                Ok(0) => break,
                Ok(_) => {}
                Err(fault) => after(fault.kind())?,
            }
        }
        Ok(self.input.take_piece(piece))
    }

    /// Waits until then for more bytes, and says how many came: none at the end.
    fn fill_until(&mut self, rt: &HostRuntime, deadline: Deadline) -> io::Result<usize> {
        let left = deadline.left(rt)?;
        if left.is_zero() {
            return Err(io::Error::from(io::ErrorKind::WouldBlock));
        }
        self.stream.set_read_timeout(Some(left))?;
        self.input.fill(&mut self.stream)
    }

    /// Sends a line in one piece where there is memory for it, and its end apart where there is none.
    pub(crate) fn send_line(&mut self, buffer: &mut Vec<u8>, line: &[u8]) -> io::Result<()> {
        buffer.clear();
        if buffer.reserve(line.len()).is_ok()
            && buffer.extend_from_slice(line).is_ok()
            && buffer.extend_from_slice(b"\r\n").is_ok()
        {
            return self.stream.write_all(buffer);
        }
        self.stream.write_all(line)?;
        self.stream.write_all(b"\r\n")
    }

    /// Ends the connection behind the last line: the seat reads that the lines are over, and ends its side. What it sent
    /// meanwhile is dropped, since a socket that is closed over bytes that nobody read takes back what it hasn't sent yet.
    pub(crate) fn take_leave(&mut self) -> io::Result<()> {
        self.stream.shutdown(Shutdown::Write)?;
        self.stream
            .set_read_timeout(Some(Duration::from_secs(PATIENCE_SECONDS)))?;
        drop_what_came(&mut self.stream)
    }
}

/// What a read that gave nothing leaves to do: the next one, where a signal ended it before its time.
fn after(kind: io::ErrorKind) -> Result<(), LinkFault> {
    match kind {
        io::ErrorKind::Interrupted => Ok(()),
        io::ErrorKind::WouldBlock => Err(LinkFault::Slow),
        _ => Err(LinkFault::Failed),
    }
}

/// Reads what a connection sends up to its end, and drops it, up to a megabyte.
pub(crate) fn drop_what_came<R: Read>(from: &mut R) -> io::Result<()> {
    let mut dropped = [0; DROPPED];
    for _ in 0..LAST_PIECES {
        if from.read(&mut dropped)? == 0 {
            return Ok(());
        }
    }
    Ok(())
}
