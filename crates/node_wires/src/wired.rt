ghost use Rattle.std.specs.Prelude.{◌≡◌, ◌≤◌, length, IfOk, true, false};

use crate::coming::Stander;
use crate::halt::Halt;
use crate::limits::GATHERED;
use byte_queue::ByteQueue;
use mio::event::Source;
use mio::net::TcpStream;
use mio::{Interest, Poll, Token};
use std::alloc::Global;
use std::io;
use std::io::{Read, Write};

/// A connection over TCP, and whether there may be something to read of it, and room to write into. What isn't asked of
/// the system until it has told of it costs no call.
///
/// The system tells by edges: once of what came since it told last. A read that brings less than was asked for has emptied
/// what the system keeps for the connection, so what comes later is told anew, and nothing is to be read before. The same
/// holds of a write and of room. One thing may come without an edge of its own: the end, where the system told of it together
/// with the bytes before it. So once an end was told, reads go on until one finds it.
#[derive(Drop)]
pub(crate) struct Wired {
    stream: TcpStream,
    may_read: bool,
    may_write: bool,
    /// The system told that the other end sends no more, or that the connection failed.
    has_closed: bool,
    /// The system took something for the other end, so the connection is there.
    has_written: bool,
    /// It took no more for it, since the connection ended.
    has_failed: bool,
    /// What was written and waits for the next `flush`.
    gathered: ByteQueue,
    /// Who is at the other end.
    who: Stander,
}

/// What a failed read or write leaves: one that a signal broke off, or for which nothing is there, may be made later.
fn halted(kind: io::ErrorKind) -> Halt {
    match kind {
        io::ErrorKind::WouldBlock => Halt::Later,
        io::ErrorKind::Interrupted => Halt::Later,
        io::ErrorKind::NotConnected => Halt::Later,
        _ => Halt::Ended,
    }
}

impl Wired {
    ghost use Rattle.node_wires.specs.Sending.{IsSent};

    /// Has a stream watched under a token, and sends what is written at once. Reading and writing are tried once each.
    pub(crate) fn watch(
        alloc: Global,
        poll: &Poll,
        mut stream: TcpStream,
        token: usize,
        who: Stander,
    ) -> io::Result<Wired>
        ensures { IfOk result (λ wired. wired.who ≡ who) }
    {
        stream.set_nodelay(true)?;
        poll.registry().register(
            &mut stream,
            Token(token),
            Interest::READABLE | Interest::WRITABLE,
        )?;
        Ok(Wired {
            stream,
            may_read: true,
            may_write: true,
            has_closed: false,
            has_written: false,
            has_failed: false,
            gathered: ByteQueue::new(alloc),
            who,
        })
    }

    /// It is watched under another token from now on, and it is known who he is. False where that failed: then all is as it
    /// was.
    pub(crate) fn watch_as(&mut self, poll: &Poll, token: usize) -> bool {
        let both = Interest::READABLE | Interest::WRITABLE;
        if poll
            .registry()
            .reregister(&mut self.stream, Token(token), both)
            .is_err()
        {
            return false;
        }
        self.wake(false);
        self.know();
        true
    }

    /// Who is at the other end.
    pub(crate) fn who(&self) -> Stander
        ensures { result ≡ self.now.who }
    {
        self.who
    }

    /// It is known who is at the other end.
    pub(crate) fn know(&mut self) {
        self.who.turn = None;
    }

    /// The system told of it, perhaps that nothing comes behind what is there.
    pub(crate) fn wake(&mut self, has_closed: bool) {
        self.may_read = true;
        self.may_write = true;
        self.has_closed = self.has_closed || has_closed;
    }

    /// Reads what came, no more than the buffer holds; one that holds nothing would tell of an end that there isn't.
    pub(crate) fn read(&mut self, piece: &mut [u8]) -> Result<usize, Halt>
        ensures { IfOk result (λ count. count ≤ length piece.new) }
    {
        if !self.may_read {
            return Err(Halt::Later);
        }
        match self.stream.read(piece) {
            Ok(0) => Err(Halt::Ended),
            Ok(count) => {
                self.may_read = self.has_closed || count == piece.len();
                Ok(count)
            }
            Err(fault) => {
                self.may_read = fault.kind() == io::ErrorKind::Interrupted;
                Err(halted(fault.kind()))
            }
        }
    }

    /// Writes as many of these bytes as there is room for.
    pub(crate) fn write(&mut self, bytes: &[u8]) -> Result<usize, Halt>
        ensures { IfOk result (λ count. count ≤ length bytes.now) }
    {
        if !self.may_write {
            return Err(Halt::Later);
        }
        match self.stream.write(bytes) {
            Ok(count) => {
                self.may_write = count == bytes.len();
                self.has_written = true;
                Ok(count)
            }
            Err(fault) => {
                self.may_write = fault.kind() == io::ErrorKind::Interrupted;
                Err(halted(fault.kind()))
            }
        }
    }

    /// Gathers these bytes, to be sent with those behind them by the next `flush`. What is written first over a connection is
    /// sent at once, since it tells whether the connection is there; so is what there is no memory to gather. What doesn't fit
    /// is gathered once the system took what was there.
    pub(crate) fn gather(&mut self, bytes: &[u8]) -> Result<usize, Halt>
        ensures { IfOk result (λ count. count ≤ length bytes.now) }
    {
        if self.has_failed {
            return Err(Halt::Ended);
        }
        if self.gathered.waiting().len().saturating_add(bytes.len()) > GATHERED {
            self.flush();
        }
        if !self.may_write {
            return Err(Halt::Later);
        }
        if self.has_written && self.gathered.push(bytes).is_ok() {
            return Ok(bytes.len());
        }
        self.flush();
        if self.gathered.waiting().is_empty() {
            self.write(bytes)
        } else {
            Err(Halt::Later)
        }
    }

    /// Sends what was gathered, as much of it as there is room for: none of it waits then, or there is no more room, or the
    /// connection has failed.
    pub(crate) fn flush(&mut self)
        ensures sent { IsSent self.new }
        ensures who { self.new.who ≡ self.old.who }
    {
        for _ in 0..u64::MAX {
            if !self.send() {
                return;
            }
        }
        self.has_failed = true;
    }

    /// Has the system take what was gathered, as much of it as there is room for. It says whether a signal broke that off, so
    /// that it is to be tried again.
    fn send(&mut self) -> bool
        ensures sent { result ≡ false → IsSent self.new }
        ensures who { self.new.who ≡ self.old.who }
    {
        let gathered = self.gathered.waiting();
        if gathered.is_empty() || !self.may_write {
            return false;
        }
        match self.stream.write(gathered) {
            Ok(count) => {
                self.may_write = count == gathered.len();
                if count <= gathered.len() {
                    self.gathered.skip(count);
                }
                false
            }
            Err(fault) => {
                self.may_write = fault.kind() == io::ErrorKind::Interrupted;
                self.has_failed = halted(fault.kind()) == Halt::Ended;
                self.may_write
            }
        }
    }
}
