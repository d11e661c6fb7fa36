//! Connections of seats in memory.

ghost use Rattle.std.specs.Prelude.{◌≡◌, ◌+◌, ◌≤◌, ◌<◌, [], length, take, drop, position, is_some, vec_len, IfOk, IfSome, IfErr, OnErr};
ghost use Rattle.match_links.specs.Pieces.{part_len};
ghost use Rattle.match_links.specs.declared.links.LinkFault.TheVariants.{Failed};

use crate::input::give;
use crate::links::LinkFault;
use std::alloc::{AllocError, Global};

/// A connection of a seat to a node, and what it sends before it ends.
#[derive(Drop)]
pub(crate) struct Caller {
    node: u8,
    seat: u8,
    bytes: Vec<u8>,
    /// How many bytes were read.
    read: usize,
    state: State,
    ghost within: { read ≤ vec_len bytes },
}

impl Caller {
    /// Reads the next piece of what it sends, as much of it as fits into the buffer, and says how long that is.
    fn read(&mut self, piece: &mut [u8]) -> usize
        ensures count { result ≡ part_len (length piece.old) (drop self.old.read self.old.bytes.items) }
        ensures piece { take result piece.new ≡ take result (drop self.old.read self.old.bytes.items) }
        ensures read { self.new.read ≡ self.old.read + result }
        ensures same { self.new.bytes ≡ self.old.bytes }
        ensures within { result ≤ length piece.new }
    {
        let count = give(&self.bytes[self.read..], piece);
        self.read += count;
        count
    }
}

#[derive(Clone, Copy, PartialEq, Eq)]
pub(crate) enum State {
    Waiting,
    Open,
    Closed,
}

/// All connections, in the order in which they were made.
#[derive(Drop)]
pub(crate) struct Callers {
    all: Vec<Caller>,
}

impl Callers {
    ghost use Rattle.match_links.specs.Callers.{is_open_for, can_be_opened, opening, IsOpened, to_read, IsNextPiece};

    /// There are none.
    pub(crate) fn new(alloc: Global) -> Callers
        ensures { result.all.items ≡ [] }
    {
        Callers {
            all: Vec::new(alloc),
        }
    }

    /// Puts one behind the others, which waits. It sends these bytes, and ends.
    pub(crate) fn add(
        &mut self,
        alloc: Global,
        node: u8,
        seat: u8,
        bytes: &[u8],
    ) -> Result<(), AllocError> {
        let caller = Caller {
            node,
            seat,
            bytes: Vec::from_slice(alloc, bytes)?,
            read: 0,
            state: State::Waiting,
        };
        self.all.push(caller)?;
        Ok(())
    }

    /// Opens the first connection of a seat to a node that waits and sends something; fails where there is none. Each has
    /// ended behind what it sends: one that sends nothing is passed over.
    pub(crate) fn open_next(&mut self, node: u8, seat: u8) -> Result<(), LinkFault>
        ensures value { result ≡ opening (position (can_be_opened node seat) self.old.all.items) }
        ensures opened { IsOpened self.old.all.items self.new.all.items (position (can_be_opened node seat) self.old.all.items) }
    {
        match self.next_at(node, seat) {
            Some(at) => {
                self.all[at].state = State::Open;
                Ok(())
            }
            None => Err(LinkFault::Failed),
        }
    }

    /// The number of the first connection of a seat to a node that waits and sends something.
    fn next_at(&self, node: u8, seat: u8) -> Option<usize>
        ensures value { result ≡ position (can_be_opened node seat) self.now.all.items }
        ensures within { IfSome result (λ at. at < length self.now.all.items) }
    {
        self.all.iter().position(|caller| caller.node == node
            && caller.seat == seat
            && caller.state == State::Waiting
            && !caller.bytes.is_empty())
    }

    /// Reads the next piece from a seat's connection to a node; fails where it has none.
    pub(crate) fn read(&mut self, node: u8, seat: u8, piece: &mut [u8]) -> Result<usize, LinkFault>
        ensures within { IfOk result (λ count. count ≤ length piece.new) }
        ensures failed { OnErr result (self.new.all.items ≡ self.old.all.items) }
        ensures missing { IfErr result (λ why. why ≡ Failed) }
        ensures given { IfOk result (λ count. IsNextPiece (length piece.old) count piece.new (to_read node seat self.old.all.items)) }
    {
        match self.open_at(node, seat) {
            Some(at) => Ok(self.all[at].read(piece)),
            None => Err(LinkFault::Failed),
        }
    }

    /// Whether a seat has a connection to a node.
    pub(crate) fn is_open(&self, node: u8, seat: u8) -> bool
        ensures { result ≡ is_some (position (is_open_for node seat) self.now.all.items) }
    {
        self.open_at(node, seat).is_some()
    }

    /// The number of a seat's first open connection to a node.
    fn open_at(&self, node: u8, seat: u8) -> Option<usize>
        ensures value { result ≡ position (is_open_for node seat) self.now.all.items }
        ensures within { IfSome result (λ at. at < length self.now.all.items) }
    {
        self.all.iter().position(|caller| caller.node == node
            && caller.seat == seat
            && caller.state == State::Open)
    }

    /// Closes a seat's connection to a node.
    pub(crate) fn close_seat(&mut self, node: u8, seat: u8) {
        for caller in &mut self.all {
            if caller.node == node && caller.seat == seat && caller.state == State::Open {
                caller.state = State::Closed;
            }
        }
    }

    /// Closes all connections to a node.
    pub(crate) fn close_node(&mut self, node: u8) {
        for caller in &mut self.all {
            if caller.node == node && caller.state == State::Open {
                caller.state = State::Closed;
            }
        }
    }
}
