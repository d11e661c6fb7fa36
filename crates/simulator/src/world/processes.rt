//! The processes of nodes: how they begin, take turns and end, and what they do over wires.

use super::{World, end_of};
use crate::place::Refusal;
use crate::telling::{put_calls, put_line_with};
use node_service::{Outcome, ServerNotice};
use std::alloc::AllocError;
use test_kit::{Act, MostRead, What};
use traffic::{Load, Party};

/// A process that ended by a fault begins again after so long.
const BEGINS_AGAIN: u64 = 200_000;

/// The most notes that are asked for behind a turn.
const NOTES: u32 = 2_000;

impl<'p, 'c> World<'p, 'c> {
    /// The process of a node begins.
    pub(super) fn begin(&mut self, node: usize) -> Result<(), AllocError> {
        let (alloc, plan, now) = (self.alloc, self.plan, self.now);
        let next = self.ways.next();
        let Some(place) = self.places.get_mut(node) else {
            return Ok(());
        };
        place.begins = u64::MAX;
        if place.server.is_some() || place.is_over {
            return Ok(());
        }
        let party = Party::Node(place.number);
        put_line_with(alloc, &mut self.text, (now, party), "begin", &place.image)?;
        place.clock.set(now, place.dies);
        match place.begin(alloc, plan, next)? {
            Ok(outcome) => self.tell_turn(node, outcome),
            Err(refusal) => self.tell_refusal(node, refusal),
        }
    }

    /// A process that can't begin is tried again later.
    fn tell_refusal(&mut self, node: usize, refusal: Refusal) -> Result<(), AllocError> {
        let (alloc, now) = (self.alloc, self.now);
        let Some(place) = self.places.get_mut(node) else {
            return Ok(());
        };
        if place.clock.is_dead() {
            return Ok(());
        }
        place.clock.set_left(u64::MAX);
        place.begin_at(now.saturating_add(BEGINS_AGAIN));
        let party = Party::Node(place.number);
        let line = match refusal {
            Refusal::NoMatch => format!(in alloc; "refused no-match")?,
            Refusal::Fault(fault) => format!(in alloc; "refused {fault}")?,
        };
        self.tell(now, party, line.as_str())
    }

    /// One turn of a node's process.
    pub(super) fn turn(&mut self, node: usize) -> Result<(), AllocError> {
        let (alloc, now) = (self.alloc, self.now);
        let next = self.ways.next();
        let Some(place) = self.places.get_mut(node) else {
            return Ok(());
        };
        place.clock.set(now, place.dies);
        let outcome = place.turn(alloc, next);
        self.tell_turn(node, outcome)
    }

    /// Tells what a process did in a turn, and has it carried.
    fn tell_turn(&mut self, node: usize, outcome: Outcome) -> Result<(), AllocError> {
        let alloc = self.alloc;
        if let Some(place) = self.places.get_mut(node) {
            let (number, told) = (place.number, place.told_calls);
            if let Some(disk) = place.disk() {
                put_calls(alloc, &mut self.text, number, disk, told)?;
                place.told_calls = disk.calls().len();
            }
        }
        self.carry(node)?;
        self.tell_notices(node)?;
        self.tell_end(node, outcome)
    }

    /// Tells what a process did over its wires, and has it carried.
    fn carry(&mut self, node: usize) -> Result<(), AllocError> {
        let Some(place) = self.places.get_mut(node) else {
            return Ok(());
        };
        let party = Party::Node(place.number);
        let Some(server) = &mut place.server else {
            return Ok(());
        };
        let acts = server.wire_mut().ends.take_acts()?;
        for act in acts {
            self.carry_act(party, act)?;
        }
        Ok(())
    }

    /// Tells one act over wires, and has it carried.
    fn carry_act(&mut self, party: Party, act: Act) -> Result<(), AllocError> {
        let alloc = self.alloc;
        let Act { moment, what } = act;
        match what {
            What::Dialled { connection, peer } => self.carry_dial(
                (moment, party),
                connection,
                peer,
            ),
            What::Taken { connection, place } => {
                let line = format!(in alloc; "take {connection} {place}")?;
                self.tell(moment, party, line.as_str())
            }
            What::Read { connection, bytes } => {
                self.carry_read((moment, party), connection, &bytes)
            }
            What::Wrote { connection, bytes } => {
                self.carry_bytes((moment, party), connection, bytes)
            }
            What::Closed { connection } => {
                let line = format!(in alloc; "shut {connection}")?;
                self.tell(moment, party, line.as_str())?;
                self.ways.close_of(connection, party, moment)
            }
            What::Logged { text } => {
                put_line_with(alloc, &mut self.text, (moment, party), "log", &text)
            }
        }
    }

    /// Tells that a process dialled a peer, and has its dial carried.
    fn carry_dial(
        &mut self,
        by: (u64, Party),
        connection: u32,
        peer: u8,
    ) -> Result<(), AllocError> {
        let alloc = self.alloc;
        let (moment, party) = by;
        let number = self.ways.connect(party, Party::Node(peer))?;
        let line = format!(in alloc; "dial {connection} {peer}")?;
        self.tell(moment, party, line.as_str())?;
        self.ways
            .send(number, false, moment, Load::Dial { seat: None })
    }

    /// What a process read makes room; it is told where the other end isn't a node's.
    fn carry_read(
        &mut self,
        by: (u64, Party),
        connection: u32,
        bytes: &[u8],
    ) -> Result<(), AllocError> {
        let alloc = self.alloc;
        self.make_room(connection, by.1, bytes.len());
        if self.is_of_nodes(connection) {
            return Ok(());
        }
        let line = format!(in alloc; "read {connection}")?;
        put_line_with(alloc, &mut self.text, by, line.as_str(), bytes)
    }

    /// Tells what a process wrote, and has it carried.
    fn carry_bytes(
        &mut self,
        by: (u64, Party),
        connection: u32,
        bytes: Vec<u8>,
    ) -> Result<(), AllocError> {
        let alloc = self.alloc;
        let (moment, party) = by;
        let line = format!(in alloc; "say {connection}")?;
        put_line_with(alloc, &mut self.text, by, line.as_str(), &bytes)?;
        self.ways
            .send_of(connection, party, moment, Load::Bytes { bytes })
    }

    /// Whether both ends of a connection are nodes'.
    fn is_of_nodes(&self, number: u32) -> bool {
        match self.ways.connection(number) {
            Some(connection) => matches!(
                (connection.dialler, connection.listener),
                (Party::Node(_), Party::Node(_))
            ),
            None => false,
        }
    }

    /// Tells what a process has to tell, and keeps lives.
    fn tell_notices(&mut self, node: usize) -> Result<(), AllocError> {
        let alloc = self.alloc;
        for _ in 0..NOTES {
            let Some(place) = self.places.get_mut(node) else {
                return Ok(());
            };
            let party = Party::Node(place.number);
            let Some((moment, told)) = place.notice() else {
                return Ok(());
            };
            let line = format!(in alloc; "note {told:?}")?;
            self.tell(moment, party, line.as_str())?;
        }
        Ok(())
    }

    /// When a process ended by its last turn; none where it goes on, or died.
    fn end_of_turn(&self, node: usize, outcome: Outcome) -> Option<u64> {
        let place = self.places.get(node)?;
        if outcome == Outcome::GoesOn || place.clock.is_dead() {
            return None;
        }
        Some(place.clock.now())
    }

    /// Tells how much the process of a node read over one connection in one turn at most, if it has one.
    fn tell_read(&mut self, node: usize, moment: u64) -> Result<(), AllocError> {
        let alloc = self.alloc;
        let Some(place) = self.places.get(node) else {
            return Ok(());
        };
        let Some(most) = place.most_read() else {
            return Ok(());
        };
        let party = Party::Node(place.number);
        let MostRead {
            nodes,
            seats,
            guests,
            askers,
        } = most;
        let line = format!(in alloc; "most {nodes} {seats} {guests} {askers}")?;
        self.tell(moment, party, line.as_str())
    }

    /// The same of all nodes.
    pub(super) fn tell_all_read(&mut self) -> Result<(), AllocError> {
        let now = self.now;
        for node in 0..self.places.len() {
            self.tell_read(node, now)?;
        }
        Ok(())
    }

    /// Tells how a process ended, if it did.
    fn tell_end(&mut self, node: usize, outcome: Outcome) -> Result<(), AllocError> {
        let alloc = self.alloc;
        let Some(moment) = self.end_of_turn(node, outcome) else {
            return Ok(());
        };
        self.tell_read(node, moment)?;
        let Some(place) = self.places.get_mut(node) else {
            return Ok(());
        };
        let party = Party::Node(place.number);
        place.is_over = outcome == Outcome::Over;
        place.die(alloc, None)?;
        place.clock.set_left(u64::MAX);
        if !matches!(outcome, Outcome::StoreReplaced | Outcome::StoreOlder) {
            place.begin_at(moment.saturating_add(BEGINS_AGAIN));
        }
        self.ways.close_all(party, moment)?;
        let line = format!(in alloc; "ended {outcome:?}")?;
        self.tell(moment, party, line.as_str())
    }

    /// The process of a node dies: its disk keeps what the number picks, and the others are told or not.
    pub(super) fn kill(&mut self, node: usize, pick: u64, is_told: bool) -> Result<(), AllocError> {
        let (alloc, now) = (self.alloc, self.now);
        self.tell_read(node, now)?;
        let orders = &self.orders[self.at.min(self.orders.len())..];
        let Some(place) = self.places.get_mut(node) else {
            return Ok(());
        };
        place.dies = end_of(orders, place.number);
        place.begins = u64::MAX;
        if !is_told {
            place.is_gone = true;
        }
        if place.server.is_none() {
            return Ok(());
        }
        let party = Party::Node(place.number);
        place.die(alloc, Some(pick))?;
        if is_told {
            self.ways.close_all(party, now)?;
        } else {
            self.ways.forget_all(party);
        }
        self.tell(now, party, "died")
    }
}
