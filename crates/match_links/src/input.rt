ghost use Rattle.std.specs.Prelude.{◌≡◌, ◌≤◌, ◌+◌, ◌-◌, [], length, take, drop, IfOk, OnErr};
ghost use Rattle.match_links.specs.Pieces.{part_len, is_empty, is_whole};

use crate::limits::PIECE;
use crate::piece::{first_line_feed, piece_len};
use std::alloc::{AllocError, Global};
use std::io;
use std::io::Read;
use std::marker::Model;

/// What came of a connection and isn't read yet. It is read into the room where it waits.
///
/// Contracts see its bytes.
#[derive(Drop)]
pub(crate) struct Input {
    /// As many bytes as a piece may have, of which the first so many came.
    room: Vec<u8>,
    len: usize,
}

impl Model for Input {
    ghost use Rattle.std.specs.Prelude.{◌≡◌, ◌≤◌, ℕ, List, take, vec_len};

    ghost Value = { List ℕ };

    ghost view = { λ d. take d.len d.room.items };

    ghost invariant = { λ d. (vec_len d.room ≡ 4097) × (d.len ≤ 4097) };
}

impl Input {
    /// Nothing came. All the room that it takes is made now.
    pub(crate) fn new(alloc: Global) -> Result<Input, AllocError>
        ensures { IfOk result (λ input. input ≡ []) }
    {
        Ok(Input {
            room: vec![in alloc; 0u8; PIECE]?,
            len: 0,
        })
    }

    /// Whether a whole piece came: a line with its line feed, or as many bytes as a piece may have.
    pub(crate) fn is_whole(&self) -> bool
        ensures { result ≡ is_whole self.now }
    {
        self.len >= PIECE || first_line_feed(&self.room[..self.len]).is_some()
    }

    /// Whether nothing came that isn't read yet. It keeps the bytes to this file.
    pub(crate) fn is_empty(&self) -> bool
        ensures { result ≡ is_empty self.now }
    {
        self.len == 0
    }

    /// Reads more bytes, and says how many came: none at the end. They stand behind those that came before.
    pub(crate) fn fill<R: Read>(&mut self, from: &mut R) -> io::Result<usize>
        ensures count { IfOk result (λ count. length self.new ≡ length self.old + count) }
        ensures kept { take (length self.old) self.new ≡ self.old }
        ensures failed { OnErr result (self.new ≡ self.old) }
    {
        let count = from.read(&mut self.room[self.len..])?;
        self.len += count;
        Ok(count)
    }

    /// Reads the next piece into a buffer, as much of it as fits, and says how long that is.
    pub(crate) fn take_piece(&mut self, piece: &mut [u8]) -> usize
        ensures count { result ≡ part_len (length piece.old) self.old }
        ensures piece { take result piece.new ≡ take result self.old }
        ensures rest { self.new ≡ drop result self.old }
        ensures within { result ≤ length piece.new }
    {
        let count = give(&self.room[..self.len], piece);
        move_up(&mut self.room, self.len, count);
        self.len -= count;
        count
    }
}

/// Of the first so many bytes of a room, those behind so many move to its front.
fn move_up(room: &mut [u8], len: usize, count: usize)
    requires room { len ≤ length room.old }
    requires within { count ≤ len }
    ensures moved { take (len - count) room.new ≡ drop count (take len room.old) }
    ensures room { length room.new ≡ length room.old }
{
    room[..len].rotate_left(count);
}

/// Copies the next piece of these bytes into a buffer, as much of it as fits, and says how long that is.
pub(crate) fn give(bytes: &[u8], piece: &mut [u8]) -> usize
    ensures count { result ≡ part_len (length piece.old) bytes.now }
    ensures piece { take result piece.new ≡ take result bytes.now }
    ensures within { result ≤ length piece.new }
    ensures there { result ≤ length bytes.now }
{
    let count = piece_len(bytes).min(piece.len());
    piece[..count].copy_from_slice(&bytes[..count]);
    count
}
