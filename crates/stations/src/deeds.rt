//! What a node did, for clauses alone: it takes no memory.

ghost use Rattle.std.specs.Prelude.{◌≡◌, List, [], ◌∷◌};
ghost use Rattle.std.specs.Borrow.{ftrue};
ghost use Rattle.stations.specs.Deeds.{Deed};
ghost use Rattle.stations.specs.Codes.{deeds_code};

use dealer_node::{NodeFault, Out, is_out_of_memory};
use dealer_world::Event;
use std::marker::Model;

/// All that a node did, newest first. It has no bytes, and clauses alone read it.
#[derive(Drop)]
pub(crate) struct Deeds {
    ghost items: { List Deed } by { deeds_code },
}

impl Model for Deeds {
    ghost also_owns = { λ _. ftrue };
}

/// An event that was given to a node, which ran or not and had this front, and what the node made of it and answered.
#[derive(Clone, Copy, Drop)]
pub(crate) struct Given<'a> {
    pub(crate) event: &'a Event,
    pub(crate) was_up: bool,
    pub(crate) front: u32,
    pub(crate) made: &'a Out,
    pub(crate) answer: Result<(), NodeFault>,
}

impl Deeds {
    ghost use Rattle.stations.specs.Giving.{deed_of, GainsDeedBy};

    /// Nothing yet.
    pub(crate) fn new() -> Deeds
        ensures { result.items ≡ [] }
    {
        Deeds {}
    }

    /// What was done so far, and this.
    fn and(&self, _given: &Given<'_>) -> Deeds
        ensures { result.items ≡ deed_of _given.now ∷ self.now.items }
    {
        Deeds {}
    }

    /// An event was given to the node: one deed more, but where there was no memory.
    pub(crate) fn add_call(&mut self, given: &Given<'_>)
        ensures { GainsDeedBy given.now self.old.items self.new.items }
    {
        if !is_out_of_memory(given.answer) {
            *self = self.and(given);
        }
    }
}
