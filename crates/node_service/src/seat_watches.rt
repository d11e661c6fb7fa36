//! What is kept of each seat: where it sits, since when it is waited for, and whether it is given up.

ghost use Rattle.std.specs.Prelude.{◌≡◌, ◌<◌, ℕ, false};
ghost use Rattle.clockwork.specs.SeatWatches.{seat_of, looked_at};
ghost use Rattle.node_service.specs.declared.limits.TheConstants.{SEATS as COUNT};
ghost use Rattle.node_service.specs.Watching.{watch_at, was_taken, here_of, there_of, seen_at_node, IsOfSeat, IsTakenAt, have_come_below};

use crate::limits::{PLACES, SEATS};
use clockwork::{Acts, At, SeatLook, SeatWatch};

/// How a seat is seen at its own node, by whether a bot took it since the last look, and whether one sits there.
pub(crate) fn here_of(taken: bool, sits: bool) -> At
    ensures { result ≡ here_of taken sits }
{
    if !sits {
        At::Empty
    } else if taken {
        At::Taken
    } else {
        At::Sits
    }
}

/// How a seat is seen at another node, by whether that is present, and whether it told that a bot sits there.
pub(crate) fn there_of(present: bool, sits: bool) -> At
    ensures { result ≡ there_of present sits }
{
    if !present {
        At::Gone
    } else if sits {
        At::Sits
    } else {
        At::Empty
    }
}

/// What is kept of each seat, by its number.
#[derive(Clone, Copy)]
pub(crate) struct SeatWatches {
    pub(crate) all: [SeatWatch; PLACES],
    /// A bot took the seat here since it was last looked at.
    pub(crate) taken: [bool; PLACES],
}

impl SeatWatches {
    /// The process begins.
    pub(crate) fn new() -> SeatWatches
        ensures { (seat : ℕ) → watch_at result seat ≡ seat_of }
    {
        SeatWatches {
            all: [SeatWatch::new(); PLACES],
            taken: [false; PLACES],
        }
    }

    /// What is kept of a seat; what is kept of one of which nothing is known where there is no such seat.
    pub(crate) fn at(&self, seat: u8) -> SeatWatch
        ensures { result ≡ watch_at self.now seat }
    {
        match self.all.get(seat as usize) {
            Some(watch) => *watch,
            None => SeatWatch::new(),
        }
    }

    /// A bot took a seat here.
    pub(crate) fn take(&mut self, seat: u8)
        ensures { IsTakenAt seat self.old self.new }
    {
        if seat < SEATS {
            self.taken[seat as usize] = true;
        }
    }

    /// Whether a bot took a seat here since it was last looked at.
    pub(crate) fn was_taken(&self, seat: u8) -> bool
        ensures { result ≡ was_taken self.now seat }
    {
        match self.taken.get(seat as usize) {
            Some(taken) => *taken,
            None => false,
        }
    }

    /// A seat is seen so at a node now, where this node's front last moved at that moment.
    pub(crate) fn look_at(&mut self, seat: u8, node: u8, at: At, moved: u64, now: u64)
        requires { seat < COUNT }
        ensures { IsOfSeat seat (seen_at_node (watch_at self.old seat) node at moved now) self.old self.new }
    {
        let mut watch = self.at(seat);
        watch.look_at(node, at, moved, now);
        self.all[seat as usize] = watch;
    }

    /// A seat was seen at all nodes at this look, and the list says that of its acts.
    pub(crate) fn look(&mut self, seat: u8, acts: Acts, seen: SeatLook)
        requires { seat < COUNT }
        ensures { IsOfSeat seat (looked_at (watch_at self.old seat) acts seen) self.old self.new }
    {
        let mut watch = self.at(seat);
        watch.look(acts, seen);
        self.all[seat as usize] = watch;
    }

    /// Who took a seat before was looked at.
    pub(crate) fn end_look(&mut self)
        ensures same { self.new ≡ record self.old { taken = self.new.taken } }
        ensures taken { (seat : ℕ) → was_taken self.new seat ≡ false }
    {
        self.taken = [false; PLACES];
    }

    /// Whether each seat of so many has come.
    #[tactic(auto, using(crate::proofs::Coming::one_came))]
    pub(crate) fn have_come(&self, seats: u8) -> bool
        ensures { result ≡ have_come_below self.now seats }
    {
        let mut all = true;
        for seat in 0..seats {
            all = all && self.at(seat).has_come;
        }
        all
    }
}
