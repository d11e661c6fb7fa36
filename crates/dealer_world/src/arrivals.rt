ghost use Rattle.std.specs.Prelude.{◌≡◌, ◌+◌, ◌≤◌, ◌++◌, ◌∷◌, [], length, slice_get, Some, OnOk, IfSome, IsNone, ◌↔◌};
ghost use Rattle.dealer_world.specs.KeptArrivals.{arrival_of};

use crate::shared_rows::SharedRows;
use std::alloc::{AllocError, Global};
use std::marker::Model;

/// What reached a running node from outside, but for its bytes. Nodes and seats are counted from 0.
#[derive(Clone, Copy, Debug, Drop)]
pub enum What {
    /// A frame, whose bytes these are.
    Frame { from: u8, to: u8 },
    /// Bytes that a seat sent to the node.
    Line { node: u8, seat: u8 },
    /// The seat connected to the node; it has no bytes.
    Connect { node: u8, seat: u8 },
    /// The seat was dropped there; it has no bytes.
    Drop { node: u8, seat: u8 },
    /// It was ordered there that the player to act is played for, when the node knew so many commands below the first slot
    /// that it didn't know; it has no bytes.
    Away { node: u8, front: u32 },
}

/// What reached a node, and how many frames had been sent before.
#[derive(Clone, Copy, Drop)]
pub(crate) struct Came {
    pub(crate) what: What,
    pub(crate) sent_before: usize,
}

/// What reached a running node from outside: its bytes, and how many frames had been sent before.
#[derive(Clone, Copy, Debug)]
pub struct Arrival<'a> {
    pub what: What,
    pub bytes: &'a [u8],
    pub sent_before: usize,
}

/// All that reached running nodes from outside, in order, in one buffer. Bytes that reach several nodes are kept once.
///
/// The rows that it is kept in stay private, as does their mark: so what it does is what they do, said of arrivals.
#[derive(Drop)]
pub struct Arrivals {
    rows: SharedRows<Came>,
}

impl Model for Arrivals {
    ghost use Rattle.dealer_world.specs.KeptArrivals.{Kept, arrivals_of};

    ghost Value = { Kept };

    ghost view = { λ a. record { arrivals = arrivals_of a.rows.rows; arrival_room = a.rows.row_room; byte_room = a.rows.byte_room } };
}

impl Arrivals {
    /// Nothing. It takes no memory; what `reserve` takes comes from this allocator.
    pub fn new(alloc: Global) -> Arrivals
        ensures { result.arrivals ≡ [] }
    {
        Arrivals {
            rows: SharedRows::new(alloc),
        }
    }

    /// How many there are.
    pub fn len(&self) -> usize
        ensures { result ≡ length self.now.arrivals }
    {
        self.rows.len()
    }

    /// The arrival of this number, counted from 0; `None` where there are no more.
    pub fn get(&self, number: usize) -> Option<Arrival<'_>>
        ensures found { IfSome result (λ arrival. slice_get self.now.arrivals number ≡ Some (arrival_of arrival.what arrival.sent_before arrival.bytes.now)) }
        ensures none { IsNone result ↔ (length self.now.arrivals ≤ number) }
    {
        match self.rows.get(number) {
            Some((came, bytes)) => Some(Arrival {
                what: came.what,
                bytes,
                sent_before: came.sent_before,
            }),
            None => None,
        }
    }

    /// Makes room for so many arrivals more, of so many bytes in all. An `Err` changes nothing that came.
    pub fn reserve(&mut self, arrivals: usize, bytes: usize) -> Result<(), AllocError>
        ensures same { self.new.arrivals ≡ self.old.arrivals }
        ensures arrival_room { OnOk result (arrivals ≤ self.new.arrival_room) }
        ensures byte_room { OnOk result (bytes ≤ self.new.byte_room) }
    {
        self.rows.reserve(arrivals, bytes)
    }

    /// Puts an arrival behind the last, into room that was reserved for it.
    pub fn push_reserved(&mut self, what: What, bytes: &[u8], sent_before: usize)
        requires arrival { 1 ≤ self.old.arrival_room }
        requires bytes { length bytes.now ≤ self.old.byte_room }
        ensures arrivals { self.new.arrivals ≡ self.old.arrivals ++ arrival_of what sent_before bytes.now ∷ [] }
        ensures arrival_room { self.old.arrival_room ≤ self.new.arrival_room + 1 }
        ensures byte_room { self.old.byte_room ≤ self.new.byte_room + length bytes.now }
    {
        self.rows.push_reserved(Came { what, sent_before }, bytes);
    }
}
