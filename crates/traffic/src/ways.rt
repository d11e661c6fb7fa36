//! All connections, and what is on its way over them.

use crate::connection::{Connection, Flight, Load, Party};
use std::alloc::{AllocError, Global};

/// The most nodes.
pub const NODES: usize = 7;

/// Between bots and nodes it takes so long.
const BOT_WAY: u64 = 150;

/// Between two nodes it takes so long, where nothing else is said.
const WAY: u64 = 100;

/// All connections, and what is on its way. What is sent over one arrives in order, after the delay of its way, and waits as
/// long as the way is cut.
#[derive(Drop)]
pub struct Ways {
    connections: Vec<Connection>,
    flights: Vec<Flight>,
    /// How many were put on their way so far.
    sent: u64,
    delays: [[u64; NODES]; NODES],
    cuts: [[bool; NODES]; NODES],
}

impl Ways {
    /// No connections, and no way is cut.
    pub fn new(alloc: Global) -> Ways {
        Ways {
            connections: Vec::new(alloc),
            flights: Vec::new(alloc),
            sent: 0,
            delays: [[WAY; NODES]; NODES],
            cuts: [[false; NODES]; NODES],
        }
    }

    /// How long it takes from one to another.
    fn delay(&self, from: Party, to: Party) -> u64 {
        match (from, to) {
            (Party::Node(from), Party::Node(to)) => self.delay_between(from, to),
            _ => BOT_WAY,
        }
    }

    fn delay_between(&self, from: u8, to: u8) -> u64 {
        let (from, to) = (from as usize, to as usize);
        if from < NODES && to < NODES {
            self.delays[from][to]
        } else {
            WAY
        }
    }

    /// Whether nothing comes through from one to another.
    fn is_cut(&self, from: Party, to: Party) -> bool {
        match (from, to) {
            (Party::Node(from), Party::Node(to)) => self.is_cut_between(from, to),
            _ => false,
        }
    }

    fn is_cut_between(&self, from: u8, to: u8) -> bool {
        let (from, to) = (from as usize, to as usize);
        from < NODES && to < NODES && self.cuts[from][to]
    }

    /// From one node to another nothing comes through from now on, or it does again.
    pub fn set_cut(&mut self, from: u8, to: u8, is_cut: bool) {
        let (from, to) = (from as usize, to as usize);
        if from < NODES && to < NODES {
            self.cuts[from][to] = is_cut;
        }
    }

    /// From one node to another it takes so long from now on.
    pub fn set_delay(&mut self, from: u8, to: u8, delay: u64) {
        let (from, to) = (from as usize, to as usize);
        if from < NODES && to < NODES {
            self.delays[from][to] = delay;
        }
    }

    /// The connection of this number.
    pub fn connection(&self, number: u32) -> Option<Connection> {
        self.connections.get(number as usize).copied()
    }

    /// The number of the next connection.
    pub fn next(&self) -> u32 {
        self.connections.len().min(u32::MAX as usize) as u32
    }

    /// A new connection, whose number is the next.
    pub fn connect(&mut self, from: Party, to: Party) -> Result<u32, AllocError> {
        let number = self.next();
        self.connections.push(Connection::new(from, to))?;
        Ok(number)
    }

    /// Puts something on its way at this moment: to the listener of a connection, or back to who dialled.
    pub fn send(
        &mut self,
        number: u32,
        is_back: bool,
        moment: u64,
        load: Load,
    ) -> Result<(), AllocError> {
        let Some(connection) = self.connection(number) else {
            return Ok(());
        };
        if connection.is_lost(is_back) && matches!(load, Load::Bytes { bytes: _ }) {
            return Ok(());
        }
        let delay = self.delay(connection.sender(is_back), connection.receiver(is_back));
        let place = self.sent;
        let moment = self.arrival(number, is_back, moment, delay);
        self.sent = self.sent.saturating_add(1);
        self.flights.push(Flight {
            moment,
            place,
            connection: number,
            is_back,
            load,
        })?;
        Ok(())
    }

    /// When what is sent at this moment arrives.
    fn arrival(&mut self, number: u32, is_back: bool, moment: u64, delay: u64) -> u64 {
        match self.connections.get_mut(number as usize) {
            Some(connection) => connection.arrive(is_back, moment, delay),
            None => moment,
        }
    }

    /// Puts on its way what this party sends.
    pub fn send_of(
        &mut self,
        number: u32,
        sender: Party,
        moment: u64,
        load: Load,
    ) -> Result<(), AllocError> {
        match self.connection(number) {
            Some(connection) => self.send(number, connection.is_back_of(sender), moment, load),
            None => Ok(()),
        }
    }

    /// This party's end is closed, and the other is told.
    pub fn close_of(&mut self, number: u32, party: Party, moment: u64) -> Result<(), AllocError> {
        let Some(connection) = self.connection(number) else {
            return Ok(());
        };
        let is_back = connection.is_back_of(party);
        if self.close(number, !is_back) {
            self.send(number, is_back, moment, Load::End)
        } else {
            Ok(())
        }
    }

    /// Whether the listener of a connection has closed it.
    pub fn is_closed_there(&self, number: u32) -> bool {
        match self.connection(number) {
            Some(connection) => connection.is_closed_there(),
            None => true,
        }
    }

    /// One end is closed; false where it was before.
    fn close(&mut self, number: u32, is_dialler: bool) -> bool {
        match self.connections.get_mut(number as usize) {
            Some(connection) => connection.close(is_dialler),
            None => false,
        }
    }

    /// The connections between two nodes are broken off, and both are told.
    pub fn end_between(&mut self, one: u8, other: u8, moment: u64) -> Result<(), AllocError> {
        let (one, other) = (Party::Node(one), Party::Node(other));
        for number in 0..self.next() {
            if self.is_between(number, one, other) {
                self.send(number, false, moment, Load::Break)?;
                self.send(number, true, moment, Load::Break)?;
            }
        }
        Ok(())
    }

    /// Of the connections between two nodes the half ends by which the one sends to the other: that one is told that nothing
    /// more comes, and what is sent there from now on is lost. Back all goes on.
    pub fn end_half(&mut self, from: u8, to: u8, moment: u64) -> Result<(), AllocError> {
        let (from, to) = (Party::Node(from), Party::Node(to));
        for number in 0..self.next() {
            if self.is_between(number, from, to) {
                self.end_half_of(number, from, moment)?;
            }
        }
        Ok(())
    }

    /// The half of a connection ends by which this party sends.
    pub fn end_half_of(
        &mut self,
        number: u32,
        sender: Party,
        moment: u64,
    ) -> Result<(), AllocError> {
        let Some(connection) = self.connection(number) else {
            return Ok(());
        };
        let is_back = connection.is_back_of(sender);
        self.send(number, is_back, moment, Load::End)?;
        self.lose(number, is_back);
        Ok(())
    }

    /// What goes one way over a connection is lost from now on.
    fn lose(&mut self, number: u32, is_back: bool) {
        if let Some(connection) = self.connections.get_mut(number as usize) {
            connection.lose(is_back);
        }
    }

    fn is_between(&self, number: u32, one: Party, other: Party) -> bool {
        match self.connection(number) {
            Some(connection) => connection.is_between(one, other),
            None => false,
        }
    }

    /// Whether a party has an end of a connection.
    fn has(&self, number: u32, party: Party) -> bool {
        match self.connection(number) {
            Some(connection) => connection.dialler == party || connection.listener == party,
            None => false,
        }
    }

    /// All connections of a party end, and the others are told.
    pub fn close_all(&mut self, party: Party, moment: u64) -> Result<(), AllocError> {
        for number in 0..self.next() {
            if self.has(number, party) {
                self.close_of(number, party, moment)?;
            }
        }
        Ok(())
    }

    /// All connections of a party end, and nobody is told.
    pub fn forget_all(&mut self, party: Party) {
        for connection in self.connections.iter_mut() {
            if connection.dialler == party {
                let _ = connection.close(true);
            } else if connection.listener == party {
                let _ = connection.close(false);
            }
        }
    }

    /// Whether it waits since its way is cut.
    fn is_held(&self, flight: &Flight) -> bool {
        match self.connection(flight.connection) {
            Some(connection) => self.is_cut(
                connection.sender(flight.is_back),
                connection.receiver(flight.is_back),
            ),
            None => false,
        }
    }

    /// What arrives first, and when; of two at one moment what was sent first.
    pub fn first(&self) -> Option<(u64, usize)> {
        let mut best: Option<(u64, u64, usize)> = None;
        for (at, flight) in self.flights.iter().enumerate() {
            let is_sooner = match best {
                Some((moment, place, _)) => (flight.moment, flight.place) < (moment, place),
                None => true,
            };
            if is_sooner && !self.is_held(flight) {
                best = Some((flight.moment, flight.place, at));
            }
        }
        let (moment, _, at) = best?;
        Some((moment, at))
    }

    /// Takes out what is at this place.
    pub fn take(&mut self, at: usize) -> Option<Flight> {
        if at < self.flights.len() {
            Some(self.flights.swap_remove(at))
        } else {
            None
        }
    }
}
