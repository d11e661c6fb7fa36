//! Wires in memory whose bot may be deaf, and whose nodes may be down.

ghost use Rattle.node_wires.specs.MemoryPassed.{passed_of, moments_in_order};

use node_wires::{Halt, Line, MemoryWire, Wire, WireFault};
use std::net::IpAddr;

/// Wires in memory whose bot may be deaf, and whose nodes may be down.
pub(crate) struct TestWire {
    pub(crate) inner: MemoryWire,
    /// The bot takes nothing.
    pub(crate) is_deaf: bool,
    /// Nodes refuse connections.
    pub(crate) are_down: bool,
}

/// By hand, so that letting one go is one call for whoever owns it (docs/ARCHITECTURE.md, Habits).
impl Drop for TestWire {
    fn drop(self) {
        let TestWire {
            inner: _,
            is_deaf: _,
            are_down: _,
        } = self;
    }
}

impl Wire for TestWire {
    ghost passed = { λ wire. passed_of wire.inner };

    fn now(&mut self) -> u64 {
        self.inner.now()
    }

    fn wait(&mut self, most: u64) {
        self.inner.wait(most);
    }

    fn called(&mut self) {
        self.inner.called();
    }

    fn draw(&mut self) -> Option<[u8; 32]> {
        self.inner.draw()
    }

    fn source(&mut self, line: Line) -> Option<IpAddr> {
        self.inner.source(line)
    }

    fn dial(&mut self, peer: u8) -> Result<(), WireFault> {
        if self.are_down {
            return Err(WireFault::Failed);
        }
        self.inner.dial(peer)
    }

    fn accept(&mut self) -> Option<u8> {
        self.inner.accept()
    }

    fn accept_seat(&mut self, seat: u8) -> bool {
        self.inner.accept_seat(seat)
    }

    fn accept_guest(&mut self, seat: u8) -> Option<u8> {
        self.inner.accept_guest(seat)
    }

    fn seat_guest(&mut self, place: u8, seat: u8) -> bool {
        self.inner.seat_guest(place, seat)
    }

    fn accept_asker(&mut self) -> Option<u8> {
        self.inner.accept_asker()
    }

    fn read(&mut self, line: Line, piece: &mut [u8]) -> Result<usize, Halt> {
        self.inner.read(line, piece)
    }

    fn write(&mut self, line: Line, bytes: &[u8]) -> Result<usize, Halt> {
        if line == Line::Seat(0) {
            self.inner.set_deaf(line, self.is_deaf);
        }
        self.inner.write(line, bytes)
    }

    fn flush(&mut self) {
        self.inner.flush();
    }

    fn know(&mut self, line: Line) {
        self.inner.know(line);
    }

    fn close(&mut self, line: Line) {
        self.inner.close(line);
    }

    fn add_to_log(&mut self, text: &[u8]) -> Result<(), WireFault> {
        self.inner.add_to_log(text)
    }

    ghost in_order = { λ wire. moments_in_order wire.inner };
}
