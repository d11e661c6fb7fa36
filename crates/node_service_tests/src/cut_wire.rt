//! Wires that are cut: from some moment on no call of them does anything, but that of the clock and a wait.

ghost use Rattle.std.specs.Prelude.{◌≡◌, ◌≤◌, ◌<◌, length, IfOk, OnErr};
ghost use Rattle.node_wires.specs.Moments.{IsTimely, timely_prop};

use crate::calls_left::CallsLeft;
use node_wires::{Halt, Line, Passages, Way, Wire, WireFault};
use std::net::IpAddr;

/// Wires of which no call is made any more once the process has made its last: nothing comes then, nothing is written and no
/// connection begins. A turn waits before all else, so no wait of it is behind the cut.
///
/// A process that is killed at that moment has written the same as one whose wires are cut there, and that goes on to the end of
/// its turn. Nothing is known of the wires but their contract, and the cut ones meet it too. So what is said of a turn over any
/// wires holds behind a turn in which they were cut.
#[derive(Drop)]
pub(crate) struct CutWire<W: Wire + Drop> {
    wire: W,
    calls: CallsLeft,
    /// So long each look at the clock takes, in microseconds, and all looks took so far.
    look: u64,
    late: u64,
    /// The moment that was seen last.
    seen: u64,
    /// What passed, for clauses alone: what a call behind the cut answers is put down too.
    passed: Passages,
    ghost timely: { IsTimely seen passed.items } by { timely_prop seen passed.items },
}

impl<W: Wire + Drop> CutWire<W> {
    /// These wires, which are cut behind so many calls.
    pub(crate) fn new(wire: W, calls: CallsLeft) -> CutWire<W> {
        CutWire {
            wire,
            calls,
            look: 0,
            late: 0,
            seen: 0,
            passed: Passages::new(),
        }
    }

    /// The process gets little of a processor from now on: each look at the clock takes so many microseconds.
    pub(crate) fn set_look(&mut self, look: u64) {
        self.look = look;
    }

    /// The wires themselves.
    pub(crate) fn whole(&self) -> &W {
        &self.wire
    }

    /// The same, for whoever is at their other ends.
    pub(crate) fn whole_mut(&mut self) -> &mut W {
        &mut self.wire
    }

    /// What a read gives. Behind the cut it is the end, but of one for which there is no room.
    fn read_whole(&mut self, line: Line, piece: &mut [u8]) -> Result<usize, Halt>
        ensures passed { self.new.passed ≡ self.old.passed }
        ensures within { IfOk result (λ count. count ≤ length piece.new) }
        ensures room { OnErr result (0 < length piece.new) }
    {
        if piece.is_empty() {
            return Ok(0);
        }
        if !self.calls.spend() {
            return Err(Halt::Ended);
        }
        self.wire.read(line, piece)
    }

    /// What a write takes: nothing behind the cut.
    fn write_whole(&mut self, line: Line, bytes: &[u8]) -> Result<usize, Halt>
        ensures passed { self.new.passed ≡ self.old.passed }
        ensures within { IfOk result (λ count. count ≤ length bytes.now) }
    {
        if !self.calls.spend() {
            return Err(Halt::Ended);
        }
        self.wire.write(line, bytes)
    }

    /// Whether no call is made any more.
    pub(crate) fn is_cut(&self) -> bool {
        self.calls.is_over()
    }
}

impl<W: Wire + Drop> Wire for CutWire<W> {
    ghost passed = { λ cut. cut.passed.items };

    #[tactic(auto, using(node_wires::proofs::Moments::timely_seen, node_wires::proofs::Moments::timely_later, node_wires::proofs::Moments::reached))]
    fn now(&mut self) -> u64 {
        self.late = self.late.saturating_add(self.look);
        self.seen = self.seen.max(self.wire.now().saturating_add(self.late));
        self.passed.saw(self.seen);
        self.seen
    }

    #[tactic(auto, using(node_wires::proofs::Moments::order_waited, node_wires::proofs::Moments::latest_waited))]
    fn wait(&mut self, most: u64) {
        self.wire.wait(most);
        self.passed.waited(most);
    }

    #[tactic(auto, using(node_wires::proofs::Moments::order_called, node_wires::proofs::Moments::latest_called))]
    fn called(&mut self) {
        self.wire.called();
        self.passed.called();
    }

    fn draw(&mut self) -> Option<[u8; 32]> {
        if !self.calls.spend() {
            return None;
        }
        self.wire.draw()
    }

    fn source(&mut self, line: Line) -> Option<IpAddr> {
        self.wire.source(line)
    }

    #[tactic(auto, using(node_wires::proofs::Moments::order_began, node_wires::proofs::Moments::latest_began))]
    fn dial(&mut self, peer: u8) -> Result<(), WireFault> {
        if !self.calls.spend() {
            return Err(WireFault::Failed);
        }
        self.wire.dial(peer)?;
        self.passed.began(Line::Peer(peer));
        Ok(())
    }

    #[tactic(auto, using(node_wires::proofs::Moments::order_began, node_wires::proofs::Moments::latest_began))]
    fn accept(&mut self) -> Option<u8> {
        if !self.calls.spend() {
            return None;
        }
        let place = self.wire.accept()?;
        self.passed.began(Line::Caller(place));
        Some(place)
    }

    fn turned_away(&self) -> u64 {
        self.wire.turned_away()
    }

    #[tactic(auto, using(node_wires::proofs::Moments::order_began, node_wires::proofs::Moments::latest_began))]
    fn accept_seat(&mut self, seat: u8) -> bool {
        if !self.calls.spend() || !self.wire.accept_seat(seat) {
            return false;
        }
        self.passed.began(Line::Seat(seat));
        true
    }

    #[tactic(auto, using(node_wires::proofs::Moments::order_began, node_wires::proofs::Moments::latest_began))]
    fn accept_guest(&mut self, seat: u8) -> Option<u8> {
        if !self.calls.spend() {
            return None;
        }
        let place = self.wire.accept_guest(seat)?;
        self.passed.began(Line::Guest(place));
        Some(place)
    }

    #[tactic(auto, using(node_wires::proofs::Moments::order_gave, node_wires::proofs::Moments::latest_gave))]
    fn seat_guest(&mut self, place: u8, seat: u8) -> bool {
        if !self.calls.spend() || !self.wire.seat_guest(place, seat) {
            return false;
        }
        self.passed.gave(place, seat);
        true
    }

    #[tactic(auto, using(node_wires::proofs::Moments::order_began, node_wires::proofs::Moments::latest_began))]
    fn accept_asker(&mut self) -> Option<u8> {
        if !self.calls.spend() {
            return None;
        }
        let place = self.wire.accept_asker()?;
        self.passed.began(Line::Asker(place));
        Some(place)
    }

    #[tactic(auto, using(node_wires::proofs::Moments::order_came, node_wires::proofs::Moments::latest_came, node_wires::proofs::Moments::order_halted, node_wires::proofs::Moments::latest_halted))]
    fn read(&mut self, line: Line, piece: &mut [u8]) -> Result<usize, Halt> {
        match self.read_whole(line, piece) {
            Ok(count) => {
                self.passed.came(line, &piece[..count]);
                Ok(count)
            }
            Err(halt) => {
                self.passed.halted(line, Way::Reading, halt);
                Err(halt)
            }
        }
    }

    #[tactic(auto, using(node_wires::proofs::Moments::order_wrote, node_wires::proofs::Moments::latest_wrote, node_wires::proofs::Moments::order_halted, node_wires::proofs::Moments::latest_halted))]
    fn write(&mut self, line: Line, bytes: &[u8]) -> Result<usize, Halt> {
        match self.write_whole(line, bytes) {
            Ok(count) => {
                self.passed.wrote(line, &bytes[..count]);
                Ok(count)
            }
            Err(halt) => {
                self.passed.halted(line, Way::Writing, halt);
                Err(halt)
            }
        }
    }

    fn flush(&mut self) {
        if self.calls.spend() {
            self.wire.flush();
        }
    }

    fn know(&mut self, line: Line) {
        if self.calls.spend() {
            self.wire.know(line);
        }
    }

    #[tactic(auto, using(node_wires::proofs::Moments::order_closed, node_wires::proofs::Moments::latest_closed))]
    fn close(&mut self, line: Line) {
        if self.calls.spend() {
            self.wire.close(line);
        }
        self.passed.closed(line);
    }

    #[tactic(auto, using(node_wires::proofs::Moments::order_logged, node_wires::proofs::Moments::latest_logged))]
    fn add_to_log(&mut self, text: &[u8]) -> Result<(), WireFault> {
        if !self.calls.spend() {
            return Err(WireFault::Failed);
        }
        self.wire.add_to_log(text)?;
        self.passed.logged(text);
        Ok(())
    }

    ghost in_order = { λ cut. cut.timely.0 };
}
