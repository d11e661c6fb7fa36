//! What goes between the processes of a match: dials, what is said, and the ends of connections.

use crate::world::World;
use node_wires::Line;
use std::alloc::AllocError;

impl World {
    /// Nothing comes through between a node and the others any more, or all does again.
    pub(crate) fn cut_off(&mut self, node: u8, is_cut: bool) {
        for other in 0..self.nodes {
            self.cut(node, other, is_cut);
            self.cut(other, node, is_cut);
        }
    }

    /// Nothing of a node comes through to the others any more, or all does again.
    pub(crate) fn silence(&mut self, node: u8, is_silent: bool) {
        for other in 0..self.nodes {
            self.cut(node, other, is_silent);
        }
    }

    /// Nothing comes through to a node any more, or all does again: what was said meanwhile too.
    pub(crate) fn hold_back(&mut self, node: u8, is_held: bool) {
        for other in 0..self.nodes {
            self.cut(other, node, is_held);
        }
    }

    /// Nothing comes through from one node to another any more, or all does again.
    fn cut(&mut self, from: u8, to: u8, is_cut: bool) {
        if let Some(row) = self.cuts.get_mut(from as usize) {
            if let Some(cut) = row.get_mut(to as usize) {
                *cut = is_cut;
            }
        }
    }

    fn is_cut(&self, from: u8, to: u8) -> bool {
        match self.cuts.get(from as usize) {
            Some(row) => row.get(to as usize).copied() == Some(true),
            None => false,
        }
    }

    /// The process of a node ends, and with it its connections.
    pub(crate) fn kill(&mut self, node: u8) -> Result<(), AllocError> {
        self.carry_all()?;
        for other in 0..self.nodes {
            if other < node {
                self.end_caller(other, node);
            } else if other > node {
                self.end_line(other, Line::Peer(node));
            }
        }
        let nodes = self.nodes;
        for bot in self.bots.iter_mut() {
            if bot.at == node {
                bot.go_on(nodes);
            }
        }
        match self.places.get_mut(node as usize) {
            Some(place) => place.die(self.alloc),
            None => Ok(()),
        }
    }

    /// The connection of a line of a node ends.
    fn end_line(&mut self, node: u8, line: Line) {
        if let Some(place) = self.places.get_mut(node as usize) {
            place.end(line);
        }
    }

    /// At a node the place of the connection of another that dialled it.
    fn caller_place(&self, node: u8, other: u8) -> Option<u8> {
        self.places.get(node as usize)?.caller(other)
    }

    fn set_caller(&mut self, node: u8, other: u8, found: Option<u8>) {
        if let Some(place) = self.places.get_mut(node as usize) {
            place.set_caller(other, found);
        }
    }

    /// The connection at a node of one that dialled it ends, if there is one.
    fn end_caller(&mut self, node: u8, other: u8) {
        if let Some(caller) = self.caller_place(node, other) {
            self.end_line(node, Line::Caller(caller));
        }
        self.set_caller(node, other, None);
    }

    fn is_open(&mut self, node: u8, line: Line) -> bool {
        match self.places.get_mut(node as usize) {
            Some(place) => place.is_open(line),
            None => false,
        }
    }

    /// What was written to a line of one node comes over that of another.
    fn carry(&mut self, from: u8, line: Line, to: u8, other: Line) -> Result<(), AllocError> {
        if self.is_cut(from, to) {
            return Ok(());
        }
        let alloc = self.alloc;
        let bytes = match self.places.get_mut(from as usize) {
            Some(place) => place.take_written(alloc, line)?,
            None => return Ok(()),
        };
        match self.places.get_mut(to as usize) {
            Some(place) => place.come(other, bytes.as_slice()),
            None => Ok(()),
        }
    }

    /// Node `high` dials node `low`: it is taken in, or refused where there is no process.
    fn dial(&mut self, low: u8, high: u8) {
        match self.places.get_mut(low as usize) {
            Some(place) if place.server.is_some() => place.be_dialled(high),
            _ => self.end_line(high, Line::Peer(low)),
        }
    }

    /// Node `high` dials node `low`, or has given that up.
    fn meet(&mut self, low: u8, high: u8, is_dialled: bool) {
        if is_dialled {
            self.dial(low, high);
        } else if let Some(place) = self.places.get_mut(low as usize) {
            place.set_dialling(high, false);
        }
    }

    /// Carries what a pair wrote to each other, and the ends of their connection.
    fn carry_pair(&mut self, low: u8, high: u8) -> Result<(), AllocError> {
        let is_dialled = self.is_open(high, Line::Peer(low));
        let Some(caller) = self.caller_place(low, high) else {
            self.meet(low, high, is_dialled);
            return Ok(());
        };
        self.carry(high, Line::Peer(low), low, Line::Caller(caller))?;
        self.carry(low, Line::Caller(caller), high, Line::Peer(low))?;
        if !is_dialled {
            self.end_caller(low, high);
        } else if !self.is_open(low, Line::Caller(caller)) {
            self.set_caller(low, high, None);
            self.end_line(high, Line::Peer(low));
        }
        Ok(())
    }

    /// Carries what all wrote to each other.
    pub(crate) fn carry_all(&mut self) -> Result<(), AllocError> {
        for low in 0..self.nodes {
            for high in 0..self.nodes {
                if low < high {
                    self.carry_pair(low, high)?;
                }
            }
        }
        Ok(())
    }
}
