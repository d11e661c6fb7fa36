//! The end of a connection at a process, and what the process did there.

ghost use Rattle.std.specs.Prelude.{◌≡◌, ◌≤◌, length, IfOk};

use byte_queue::ByteQueue;
use node_wires::Halt;
use std::alloc::{AllocError, Global};

/// The end of a connection at a process.
#[derive(Drop)]
pub(crate) struct Pipe {
    /// The connection's number; none where there is no connection.
    pub(crate) connection: Option<u32>,
    /// Where its other end is.
    pub(crate) address: u16,
    /// It came as the one of this number, as long as it isn't known who is there.
    pub(crate) turn: Option<u64>,
    /// When it came.
    pub(crate) since: u64,
    /// Nothing more will come. What is written still goes to the other end, which may have closed its own half alone.
    pub(crate) has_ended: bool,
    /// The connection is gone: nothing more comes, and nothing can be written.
    pub(crate) is_gone: bool,
    /// What came and isn't read yet.
    pub(crate) came: ByteQueue,
    /// How many bytes may be written; none before a dial is answered.
    pub(crate) room: usize,
    /// The turn in which it was last read, by its number, and how many bytes were read in it.
    read_in: u64,
    pub(crate) read: usize,
}

impl Pipe {
    /// No connection.
    pub(crate) fn none(alloc: Global) -> Pipe {
        Pipe {
            connection: None,
            address: 0,
            turn: None,
            since: 0,
            has_ended: false,
            is_gone: false,
            came: ByteQueue::new(alloc),
            room: 0,
            read_in: 0,
            read: 0,
        }
    }

    /// The end of this connection.
    pub(crate) fn new(alloc: Global, connection: u32, address: u16, room: usize) -> Pipe {
        let mut pipe = Pipe::none(alloc);
        pipe.connection = Some(connection);
        pipe.address = address;
        pipe.room = room;
        pipe
    }

    /// What comes.
    pub(crate) fn come(&mut self, bytes: &[u8]) -> Result<(), AllocError> {
        self.came.push(bytes)
    }

    /// Reads what came, no more than the buffer holds.
    pub(crate) fn read(&mut self, piece: &mut [u8]) -> Result<usize, Halt>
        ensures { IfOk result (λ count. count ≤ length piece.new) }
    {
        if self.connection.is_none() {
            return Err(Halt::Ended);
        }
        let waiting = self.came.waiting();
        let count = waiting.len().min(piece.len());
        if count == 0 {
            return Err(if self.has_ended || self.is_gone {
                Halt::Ended
            } else {
                Halt::Later
            });
        }
        piece[..count].copy_from_slice(&waiting[..count]);
        self.came.skip(count);
        Ok(count)
    }

    /// Counts so many bytes that are read in a turn, by its number, and answers how many were read in it so far.
    pub(crate) fn count_read(&mut self, turn: u64, count: usize) -> usize {
        if self.read_in != turn {
            self.read_in = turn;
            self.read = 0;
        }
        self.read = self.read.saturating_add(count);
        self.read
    }

    /// How many of so many bytes there is room for.
    pub(crate) fn take_room(&mut self, count: usize) -> Result<usize, Halt>
        ensures { IfOk result (λ taken. taken ≤ count) }
    {
        if self.connection.is_none() || self.is_gone {
            return Err(Halt::Ended);
        }
        let taken = self.room.min(count);
        if taken == 0 {
            return Err(Halt::Later);
        }
        self.room -= taken;
        Ok(taken)
    }
}
