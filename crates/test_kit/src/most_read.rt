//! How much a process reads in a turn.

use node_wires::Line;

/// The most bytes that a process read over one connection in one turn, by who is at its other end.
#[derive(Clone, Copy, Debug)]
pub struct MostRead {
    /// Another node, or one who dialled as nodes do.
    pub nodes: usize,
    /// The bot of a seat.
    pub seats: usize,
    /// One who came to a seat and hasn't shown its token.
    pub guests: usize,
    /// One who asks for the status.
    pub askers: usize,
}

impl MostRead {
    /// Nothing was read.
    pub(crate) fn none() -> MostRead {
        MostRead {
            nodes: 0,
            seats: 0,
            guests: 0,
            askers: 0,
        }
    }

    /// In one turn so many bytes were read over the connection of a line.
    pub(crate) fn note(&mut self, line: Line, count: usize) {
        match line {
            Line::Peer(_) | Line::Caller(_) => self.nodes = self.nodes.max(count),
            Line::Seat(_) => self.seats = self.seats.max(count),
            Line::Guest(_) => self.guests = self.guests.max(count),
            Line::Asker(_) => self.askers = self.askers.max(count),
        }
    }
}
