ghost use Rattle.std.specs.Prelude.{◌≡◌, ◌<◌};
ghost use Rattle.node_wires.specs.Lines.{within, place_of};

use crate::limits::{ASKERS, CALLERS, DIALLED, GUESTS, SEATS};

/// A connection of a node's process, by whom it is with. A line has one connection at a time, or none.
#[derive(Clone, Copy, Debug, PartialEq, Eq)]
pub enum Line {
    /// With the peer of this number, which this node dialled; a number from `NODES` on is that of a second line to the node whose
    /// number is so much less.
    Peer(u8),
    /// With one who dialled this node, by its place among those.
    Caller(u8),
    /// With the bot of this seat.
    Seat(u8),
    /// With one who came to a seat's port and hasn't shown a token yet, by its place among those.
    Guest(u8),
    /// With one who came to the status port, by its place among those.
    Asker(u8),
}

impl Line {
    /// Whether it is with a bot, or with one who may become one.
    pub(crate) fn is_of_bot(self) -> bool {
        match self {
            Line::Seat(_) | Line::Guest(_) => true,
            Line::Peer(_) | Line::Caller(_) | Line::Asker(_) => false,
        }
    }

    /// Whether it is with another node, or with one who may become one.
    pub(crate) fn is_of_node(self) -> bool {
        match self {
            Line::Peer(_) | Line::Caller(_) => true,
            Line::Seat(_) | Line::Guest(_) | Line::Asker(_) => false,
        }
    }

    /// The place of a line among all; none of a number that no node, place or seat has.
    pub(crate) fn place(self) -> Option<usize>
        ensures { result ≡ place_of self }
    {
        match self {
            Line::Peer(number) => within(number, DIALLED, 0),
            Line::Caller(place) => within(place, CALLERS, DIALLED),
            Line::Seat(number) => within(number, SEATS, DIALLED + CALLERS),
            Line::Guest(place) => within(place, GUESTS, DIALLED + CALLERS + SEATS),
            Line::Asker(place) => within(place, ASKERS, DIALLED + CALLERS + SEATS + GUESTS),
        }
    }
}

/// The place of the one of this number among so many, of which the first stands there.
fn within(number: u8, count: usize, first: usize) -> Option<usize>
    requires { first < 1000 }
    ensures { result ≡ within number count first }
{
    let number = number as usize;
    if number < count {
        Some(first + number)
    } else {
        None
    }
}
