//! The wires of a simulated process.

ghost use Rattle.std.specs.Prelude.{◌≡◌, []};
ghost use Rattle.node_wires.specs.Moments.{IsTimely, timely_prop};

use crate::act::Act;
use crate::clock::Clock;
use crate::ends::{Ends, Port};
use node_wires::{Halt, Line, Passages, Way, Wire, WireFault};
use std::alloc::{AllocError, Global};
use std::net::{IpAddr, Ipv4Addr};

/// The wires of a process in simulated time: what it does is noted, and carried by the world.
#[derive(Drop)]
pub struct SimWire<'a> {
    pub ends: Ends<'a>,
    /// The moment that was seen last.
    seen: u64,
    /// What passed, for clauses alone.
    passed: Passages,
    ghost timely: { IsTimely seen passed.items } by { timely_prop seen passed.items },
}

impl<'a> SimWire<'a> {
    /// Wires without connections.
    pub fn new(alloc: Global, clock: &'a Clock, seed: u64) -> Result<SimWire<'a>, AllocError> {
        Ok(SimWire {
            ends: Ends::new(alloc, clock, seed)?,
            seen: 0,
            passed: Passages::new(),
        })
    }
}

impl Wire for SimWire<'_> {
    ghost passed = { λ wire. wire.passed.items };

    /// No moment is below the one that was seen last.
    #[tactic(auto, using(node_wires::proofs::Moments::timely_seen, node_wires::proofs::Moments::timely_later, node_wires::proofs::Moments::reached))]
    fn now(&mut self) -> u64 {
        self.seen = self.seen.max(self.ends.now());
        self.passed.saw(self.seen);
        self.seen
    }

    /// The world has let the time go by.
    #[tactic(auto, using(node_wires::proofs::Moments::order_waited, node_wires::proofs::Moments::latest_waited))]
    fn wait(&mut self, most: u64) {
        self.passed.waited(most);
    }

    #[tactic(auto, using(node_wires::proofs::Moments::order_called, node_wires::proofs::Moments::latest_called))]
    fn called(&mut self) {
        self.passed.called();
    }

    fn draw(&mut self) -> Option<[u8; 32]> {
        self.ends.draw()
    }

    /// Nodes are at 10.0.0.0 and on, all others behind 10.0.1.0.
    fn source(&mut self, line: Line) -> Option<IpAddr> {
        let address = self.ends.address(line)?;
        let [high, low] = address.to_be_bytes();
        Some(IpAddr::V4(Ipv4Addr::new(10, 0, high, low)))
    }

    #[tactic(auto, using(node_wires::proofs::Moments::order_began, node_wires::proofs::Moments::latest_began))]
    fn dial(&mut self, peer: u8) -> Result<(), WireFault> {
        if !self.ends.dial(peer) {
            return Err(WireFault::Failed);
        }
        self.passed.began(Line::Peer(peer));
        Ok(())
    }

    #[tactic(auto, using(node_wires::proofs::Moments::order_began, node_wires::proofs::Moments::latest_began))]
    fn accept(&mut self) -> Option<u8> {
        let place = self.ends.accept()?;
        self.passed.began(Line::Caller(place));
        Some(place)
    }

    fn turned_away(&self) -> u64 {
        self.ends.turned_away()
    }

    #[tactic(auto, using(node_wires::proofs::Moments::order_began, node_wires::proofs::Moments::latest_began))]
    fn accept_seat(&mut self, seat: u8) -> bool {
        if !self.ends.accept_seat(seat) {
            return false;
        }
        self.passed.began(Line::Seat(seat));
        true
    }

    #[tactic(auto, using(node_wires::proofs::Moments::order_began, node_wires::proofs::Moments::latest_began))]
    fn accept_guest(&mut self, seat: u8) -> Option<u8> {
        let place = self.ends.accept_guest(seat)?;
        self.passed.began(Line::Guest(place));
        Some(place)
    }

    #[tactic(auto, using(node_wires::proofs::Moments::order_gave, node_wires::proofs::Moments::latest_gave))]
    fn seat_guest(&mut self, place: u8, seat: u8) -> bool {
        if !self.ends.seat_guest(place, seat) {
            return false;
        }
        self.passed.gave(place, seat);
        true
    }

    #[tactic(auto, using(node_wires::proofs::Moments::order_began, node_wires::proofs::Moments::latest_began))]
    fn accept_asker(&mut self) -> Option<u8> {
        let place = self.ends.accept_asker()?;
        self.passed.began(Line::Asker(place));
        Some(place)
    }

    #[tactic(auto, using(node_wires::proofs::Moments::order_came, node_wires::proofs::Moments::latest_came, node_wires::proofs::Moments::order_halted, node_wires::proofs::Moments::latest_halted))]
    fn read(&mut self, line: Line, piece: &mut [u8]) -> Result<usize, Halt> {
        match self.ends.read(line, piece) {
            Ok(count) => {
                self.passed.came(line, &piece[..count]);
                Ok(count)
            }
            Err(halt) => {
                self.passed.halted(line, Way::Reading, halt);
                Err(halt)
            }
        }
    }

    #[tactic(auto, using(node_wires::proofs::Moments::order_wrote, node_wires::proofs::Moments::latest_wrote, node_wires::proofs::Moments::order_halted, node_wires::proofs::Moments::latest_halted))]
    fn write(&mut self, line: Line, bytes: &[u8]) -> Result<usize, Halt> {
        match self.ends.write(line, bytes) {
            Ok(count) => {
                self.passed.wrote(line, &bytes[..count]);
                Ok(count)
            }
            Err(halt) => {
                self.passed.halted(line, Way::Writing, halt);
                Err(halt)
            }
        }
    }

    /// What is written is sent at once.
    fn flush(&mut self) {}

    fn know(&mut self, line: Line) {
        self.ends.know(line);
    }

    #[tactic(auto, using(node_wires::proofs::Moments::order_closed, node_wires::proofs::Moments::latest_closed))]
    fn close(&mut self, line: Line) {
        self.ends.close(line);
        self.passed.closed(line);
    }

    #[tactic(auto, using(node_wires::proofs::Moments::order_logged, node_wires::proofs::Moments::latest_logged))]
    fn add_to_log(&mut self, text: &[u8]) -> Result<(), WireFault> {
        if !self.ends.log(text) {
            return Err(WireFault::Failed);
        }
        self.passed.logged(text);
        Ok(())
    }

    ghost in_order = { λ wire. wire.timely.0 };
}
