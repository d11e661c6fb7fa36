//! The starts of all nodes, counted.

ghost use Rattle.std.specs.Prelude.{◌≡◌, ◌≤◌, map, [], true, OnOk};
ghost use Rattle.dealer_world.specs.Records.{last_start};
ghost use Rattle.dealer_world.specs.Views.{starts_after};
ghost use Rattle.dealer_world.specs.Recordings.{start_by};

use crate::begun::Begun;
use std::alloc::{AllocError, Global};
use std::marker::Model;

/// All starts, in order. How many a node has is kept beside them, so that no call counts them.
#[derive(Drop)]
pub(crate) struct Starts {
    begun: Vec<Begun>,
    /// By the node's number.
    counts: [usize; 256],
}

impl Model for Starts {
    ghost use Rattle.std.specs.Prelude.{◌-◌, vec_len, vec_capacity};
    ghost use Rattle.dealer_world.specs.KeptStarts.{Kept, AreCounted};

    ghost Value = { Kept };

    ghost view = { λ s. record { begun = s.begun.items; room = vec_capacity s.begun - vec_len s.begun } };

    ghost invariant = { λ s. AreCounted s.begun.items s.counts };
}

impl Starts {
    /// No start. It takes no memory; what `reserve` takes comes from this allocator.
    pub(crate) fn new(alloc: Global) -> Starts
        ensures { result.begun ≡ [] }
    {
        Starts {
            begun: Vec::new(alloc),
            counts: [0; 256],
        }
    }

    /// Makes room for so many starts more. An `Err` changes no start.
    pub(crate) fn reserve(&mut self, starts: usize) -> Result<(), AllocError>
        ensures same { self.new.begun ≡ self.old.begun }
        ensures room { OnOk result (starts ≤ self.new.room) }
    {
        self.begun.reserve(starts)
    }

    /// Puts a node's next start behind the last, into room that was reserved for it.
    pub(crate) fn push_reserved(&mut self, node: u8)
        requires { 1 ≤ self.old.room }
        ensures { map start_by self.new.begun ≡ starts_after (map start_by self.old.begun) node true }
    {
        let start = self.counts[node as usize];
        self.begun.push_reserved(Begun { node, start });
        self.counts[node as usize] = start + 1;
    }

    /// The number of a node's last start, counted from 0; 0 also where it has none.
    pub(crate) fn last_of(&self, node: u8) -> usize
        ensures { result ≡ last_start (map start_by self.now.begun) node }
    {
        self.counts[node as usize].saturating_sub(1)
    }

    /// All starts, in order.
    pub(crate) fn all(&self) -> &[Begun]
        ensures { result.now ≡ self.now.begun }
    {
        &self.begun
    }
}
