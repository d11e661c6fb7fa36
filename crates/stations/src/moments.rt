//! The tables that a node had, for clauses alone: they take no memory.

ghost use Rattle.std.specs.Prelude.{◌≡◌, List, [], ◌∷◌};
ghost use Rattle.std.specs.Borrow.{ftrue};
ghost use Rattle.stations.specs.Moments.{Moment};
ghost use Rattle.stations.specs.Codes.{moments_code};

use crate::deeds::Deeds;
use slot_log::Table;
use std::marker::Model;

/// The tables that a node had, each with what it had done by then, newest first. They have no bytes, and clauses alone read
/// them.
#[derive(Drop)]
pub(crate) struct Moments {
    ghost items: { List Moment } by { moments_code },
}

impl Model for Moments {
    ghost also_owns = { λ _. ftrue };
}

/// A table of a node, and what the node had done by then.
#[derive(Clone, Copy, Drop)]
pub(crate) struct AtMoment<'a> {
    pub(crate) table: &'a Table,
    pub(crate) deeds: &'a Deeds,
}

impl Moments {
    ghost use Rattle.stations.specs.Giving.{moment_of};

    /// None yet.
    pub(crate) fn new() -> Moments
        ensures { result.items ≡ [] }
    {
        Moments {}
    }

    /// Those so far, and this one.
    fn and(&self, _moment: &AtMoment<'_>) -> Moments
        ensures { result.items ≡ moment_of _moment.now ∷ self.now.items }
    {
        Moments {}
    }

    /// The node has this table, and has done this.
    pub(crate) fn add(&mut self, table: &Table, deeds: &Deeds)
        ensures { self.new.items ≡ record { table = table.now; deeds = deeds.now.items } ∷ self.old.items }
    {
        *self = self.and(&AtMoment { table, deeds });
    }
}
