//! What happened to a relay, for clauses alone: it takes no memory.

ghost use Rattle.std.specs.Prelude.{◌≡◌, List, [], ◌∷◌, ◌++◌};
ghost use Rattle.std.specs.Borrow.{ftrue};
ghost use Rattle.seat_relay.specs.Relaying.{Event};
ghost use Rattle.seat_relay.specs.EventsCode.{events_code};

use crate::place::Place;
use std::marker::Model;

/// All that happened to a relay, in order. It has no bytes, and clauses alone read it.
#[derive(Drop)]
pub(crate) struct Events {
    ghost items: { List Event } by { events_code },
}

impl Model for Events {
    ghost also_owns = { λ _. ftrue };
}

/// What happens by one call of a relay.
#[derive(Clone, Copy, Drop)]
pub(crate) enum Happening<'a> {
    Begins {
        node: usize,
    },
    Ends {
        node: usize,
    },
    Tells {
        node: usize,
        text: &'a [u8],
        place: Place,
    },
    Closes {
        node: usize,
    },
    Says {
        text: &'a [u8],
    },
    Pushes {
        node: usize,
    },
}

impl Events {
    ghost use Rattle.seat_relay.specs.Events.{event_of};

    /// Nothing happened yet.
    pub(crate) fn new() -> Events
        ensures { result.items ≡ [] }
    {
        Events {}
    }

    /// What happened so far, and behind it this.
    pub(crate) fn and(&self, _what: &Happening<'_>) -> Events
        ensures { result.items ≡ self.now.items ++ event_of _what.now ∷ [] }
    {
        Events {}
    }
}
