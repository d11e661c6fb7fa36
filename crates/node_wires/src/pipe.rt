//! A connection in memory.

ghost use Rattle.std.specs.Prelude.{◌≡◌, ◌≤◌, ◌<◌, length, IfOk, OnErr};

use crate::halt::Halt;
use byte_queue::ByteQueue;
use std::alloc::{AllocError, Global};

/// A connection in memory: what came and isn't read yet, and what was written.
#[derive(Drop)]
pub(crate) struct Pipe {
    is_open: bool,
    /// Nothing more will come.
    has_ended: bool,
    /// The other side takes nothing.
    is_deaf: bool,
    came: ByteQueue,
    wrote: ByteQueue,
}

impl Pipe {
    /// There is no connection. It takes no memory.
    pub(crate) fn new(alloc: Global) -> Pipe {
        Pipe {
            is_open: false,
            has_ended: false,
            is_deaf: false,
            came: ByteQueue::new(alloc),
            wrote: ByteQueue::new(alloc),
        }
    }

    /// A connection begins.
    pub(crate) fn begin(&mut self) {
        self.is_open = true;
        self.has_ended = false;
        self.is_deaf = false;
        self.came.clear();
        self.wrote.clear();
    }

    /// The connection is closed on this side. What was written stays to be seen.
    pub(crate) fn close(&mut self) {
        self.is_open = false;
    }

    /// The connection is ended on the other side.
    pub(crate) fn end(&mut self) {
        self.has_ended = true;
    }

    /// Whether the other side takes nothing from now on.
    pub(crate) fn set_deaf(&mut self, is_deaf: bool) {
        self.is_deaf = is_deaf;
    }

    pub(crate) fn is_open(&self) -> bool {
        self.is_open
    }

    /// What the other side sends.
    pub(crate) fn come(&mut self, bytes: &[u8]) -> Result<(), AllocError> {
        self.came.push(bytes)
    }

    /// What was written and isn't taken yet.
    pub(crate) fn written(&self) -> &[u8] {
        self.wrote.waiting()
    }

    /// All that was written is taken.
    pub(crate) fn take_written(&mut self) {
        self.wrote.clear();
    }

    /// Reads what came, as much of it as the buffer holds.
    pub(crate) fn read(&mut self, piece: &mut [u8]) -> Result<usize, Halt>
        ensures within { IfOk result (λ count. count ≤ length piece.new) }
        ensures room { OnErr result (0 < length piece.new) }
    {
        if piece.is_empty() {
            return Ok(0);
        }
        if !self.is_open {
            return Err(Halt::Ended);
        }
        let waiting = self.came.waiting();
        let count = waiting.len().min(piece.len());
        if count == 0 {
            return Err(if self.has_ended {
                Halt::Ended
            } else {
                Halt::Later
            });
        }
        piece[..count].copy_from_slice(&waiting[..count]);
        self.came.skip(count);
        Ok(count)
    }

    /// Writes these bytes, all of them.
    pub(crate) fn write(&mut self, bytes: &[u8]) -> Result<usize, Halt>
        ensures { IfOk result (λ count. count ≤ length bytes.now) }
    {
        if !self.is_open || self.has_ended {
            return Err(Halt::Ended);
        }
        if self.is_deaf {
            return Err(Halt::Later);
        }
        match self.wrote.push(bytes) {
            Ok(()) => Ok(bytes.len()),
            Err(_) => Err(Halt::Later),
        }
    }
}
