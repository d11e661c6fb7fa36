ghost use Rattle.std.specs.Prelude.{◌≡◌, ◌+◌, ◌<◌, ◌≤◌, ◌++◌, [], length, drop, OnOk, OnErr};

use crate::removal::remove_front;
use std::alloc::{AllocError, Global};
use std::marker::Model;

/// How many bytes that were taken may stay in front of the others: past that they are removed.
const KEPT: usize = 4096;

/// Bytes of a stream that come in any pieces and are taken from the front.
///
/// Contracts see the bytes that weren't taken yet, in order, and how many more may come without taking memory.
#[derive(Drop)]
pub struct ByteQueue {
    bytes: Vec<u8>,
    taken: usize,
}

impl Model for ByteQueue {
    ghost use Rattle.std.specs.Prelude.{◌-◌, ◌≤◌, drop, vec_len, vec_capacity};
    ghost use Rattle.byte_queue.specs.Queued.{Queued};

    ghost Value = { Queued };

    ghost view = { λ q. record { waiting = drop q.taken q.bytes.items; room = vec_capacity q.bytes - (vec_len q.bytes - q.taken) } };

    ghost invariant = { λ q. q.taken ≤ vec_len q.bytes };
}

impl ByteQueue {
    /// A queue that nothing came to. It takes no memory; what `push` and `reserve` take comes from this allocator.
    pub fn new(alloc: Global) -> ByteQueue
        ensures { result.waiting ≡ [] }
    {
        ByteQueue {
            bytes: Vec::new(alloc),
            taken: 0,
        }
    }

    /// The bytes that came and weren't taken yet.
    pub fn waiting(&self) -> &[u8]
        ensures { result.now ≡ self.now.waiting }
    {
        &self.bytes[self.taken..]
    }

    /// Takes the next piece of the stream, of any length. An `Err` changes nothing; it comes only where `reserve` would
    /// have to take memory.
    pub fn push(&mut self, piece: &[u8]) -> Result<(), AllocError>
        ensures ok { OnOk result (self.new.waiting ≡ self.old.waiting ++ piece.now) }
        ensures room { self.old.room ≤ self.new.room + length piece.now }
        ensures err { OnErr result (self.new ≡ self.old) }
        // It fails only where the room is missing.
        ensures full { OnErr result (self.old.room < length piece.now) }
    {
        self.reserve(piece.len())?;
        self.push_reserved(piece);
        Ok(())
    }

    /// Makes room for so many bytes more, so that `push_reserved` takes no memory for them. An `Err` changes nothing.
    pub fn reserve(&mut self, more: usize) -> Result<(), AllocError>
        ensures ok { OnOk result (more ≤ self.new.room) }
        ensures waiting { self.new.waiting ≡ self.old.waiting }
        ensures room { self.old.room ≤ self.new.room }
        ensures err { OnErr result (self.new ≡ self.old) }
        // It fails only where the room is missing.
        ensures full { OnErr result (self.old.room < more) }
    {
        remove_front(&mut self.bytes, self.taken);
        self.taken = 0;
        self.bytes.reserve(more)
    }

    /// Takes the next piece of the stream into room that was reserved for it.
    pub fn push_reserved(&mut self, piece: &[u8])
        requires { length piece.now ≤ self.old.room }
        ensures waiting { self.new.waiting ≡ self.old.waiting ++ piece.now }
        ensures room { self.old.room ≤ self.new.room + length piece.now }
    {
        remove_front(&mut self.bytes, self.taken);
        self.taken = 0;
        self.bytes.extend_from_slice(piece).unwrap();
    }

    /// Takes so many bytes from the front.
    pub fn skip(&mut self, count: usize)
        requires { count ≤ length self.old.waiting }
        ensures waiting { self.new.waiting ≡ drop count self.old.waiting }
        ensures room { self.old.room ≤ self.new.room }
    {
        self.taken += count;
        if self.taken > KEPT {
            remove_front(&mut self.bytes, self.taken);
            self.taken = 0;
        }
    }

    /// Takes all bytes.
    pub fn clear(&mut self)
        ensures waiting { self.new.waiting ≡ [] }
        ensures room { self.old.room ≤ self.new.room }
    {
        self.bytes.clear();
        self.taken = 0;
    }
}
