//! How the bots of seats are at this node.

ghost use Rattle.std.specs.Prelude.{◌≡◌, ◌<◌, ℕ, true};
ghost use Rattle.node_service.specs.declared.limits.TheConstants.{SEATS as COUNT};
ghost use Rattle.node_service.specs.Sittings.{sitting_at, Frees, Sets, IsSeated, Admits, Settles};
ghost use Rattle.node_service.specs.declared.sitting.Sitting.TheVariants.{Away as IsAway};

use crate::limits::{PLACES, SEATS};
use dealer_world::Event;

/// How the bot of a seat is at this node.
#[derive(Clone, Copy)]
pub(crate) enum Sitting {
    /// The node has no session of the seat.
    Away,
    /// It has one, which was given all that came of the bot.
    Here,
    /// It has one, but the bot is let go of, or gone, and the node wasn't told yet.
    LetGo,
}

/// The same of each seat, by its number.
#[derive(Clone, Copy)]
pub(crate) struct Sittings {
    all: [Sitting; PLACES],
}

impl Sittings {
    /// Nobody is here.
    pub(crate) fn new() -> Sittings
        ensures { (seat : ℕ) → sitting_at result seat ≡ IsAway }
    {
        Sittings {
            all: [Sitting::Away; PLACES],
        }
    }

    /// How the bot of a seat is; away where there is no such seat.
    pub(crate) fn at(&self, seat: u8) -> Sitting
        ensures { result ≡ sitting_at self.now seat }
    {
        match self.all.get(seat as usize) {
            Some(sitting) => *sitting,
            None => Sitting::Away,
        }
    }

    /// From now on the bot of a seat is so.
    fn set(&mut self, seat: u8, sitting: Sitting)
        requires { seat < COUNT }
        ensures { Sets seat sitting self.old self.new }
    {
        self.all[seat as usize] = sitting;
    }

    /// The bot of a seat is let go of, if it was here.
    pub(crate) fn let_go(&mut self, seat: u8)
        ensures { Frees seat self.old self.new }
    {
        if seat >= SEATS {
            return;
        }
        match self.at(seat) {
            Sitting::Here => self.set(seat, Sitting::LetGo),
            Sitting::Away | Sitting::LetGo => (),
        }
    }

    /// The node has no session of a seat any more.
    fn leave(&mut self, seat: u8)
        ensures { Sets seat IsAway self.old self.new }
    {
        if seat < SEATS {
            self.set(seat, Sitting::Away);
        }
    }

    /// Whether a node that runs, or doesn't, may be given this.
    pub(crate) fn admits(&self, event: &Event, runs: bool) -> bool
        ensures { result ≡ true → Admits runs event.now self.now }
    {
        match event {
            Event::Line {
                node: _,
                seat,
                bytes: _,
            } => runs && matches!(self.at(*seat), Sitting::Here),
            Event::Connect { node: _, seat } => {
                runs && *seat < SEATS && matches!(self.at(*seat), Sitting::Away)
            }
            Event::Drop { node: _, seat: _ } => runs,
            Event::Frame { .. }
            | Event::Tick { .. }
            | Event::Away { .. }
            | Event::Stop { .. }
            | Event::Start { .. } => true,
        }
    }

    /// The node was given this.
    pub(crate) fn settle(&mut self, event: &Event)
        requires { IsSeated event.now }
        ensures { Settles event.now self.old self.new }
    {
        match event {
            Event::Connect { node: _, seat } => self.set(*seat, Sitting::Here),
            Event::Drop { node: _, seat } => self.leave(*seat),
            Event::Frame { .. }
            | Event::Line { .. }
            | Event::Tick { .. }
            | Event::Away { .. }
            | Event::Stop { .. }
            | Event::Start { .. } => (),
        }
    }

    /// The first seat whose bot is let go of.
    pub(crate) fn first_let_go(&self) -> Option<u8> {
        for seat in 0..SEATS {
            if matches!(self.at(seat), Sitting::LetGo) {
                return Some(seat);
            }
        }
        None
    }
}
