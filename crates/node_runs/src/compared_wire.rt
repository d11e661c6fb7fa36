//! Wires whose log must not contradict one that was kept.

ghost use Rattle.std.specs.Prelude.{◌≡◌, true};
ghost use Rattle.node_runs.specs.KeptLogs.{GoesOn};

use crate::kept_log::KeptLog;
use node_wires::{Halt, Line, Wire, WireFault};
use std::net::IpAddr;

/// Wires that put text into their log only where the log then goes on as a kept one does, as far as that counts. Text that
/// differs isn't written: the call fails, and so does each later one that has text.
#[derive(Drop)]
pub struct ComparedWire<'a, W: Wire + Drop> {
    wire: W,
    kept: KeptLog<'a>,
    /// How many whole lines the log has.
    lines: u32,
    /// Which line, from 0, would have differed.
    differing: Option<u32>,
}

impl<'a, W: Wire + Drop> ComparedWire<'a, W> {
    /// These wires, whose log is empty and is compared with this kept one.
    pub fn new(wire: W, kept: KeptLog<'a>) -> ComparedWire<'a, W>
        ensures wire { result.wire ≡ wire }
        ensures kept { result.kept ≡ kept.entry }
    {
        ComparedWire {
            wire,
            kept,
            lines: 0,
            differing: None,
        }
    }

    /// The wires themselves.
    pub fn wire(&self) -> &W
        ensures { result.now ≡ self.now.wire }
    {
        &self.wire
    }

    /// The hand, from 0, whose line would have differed from that of the kept log; of the score the count of hands. None where
    /// none would have.
    pub fn differing_hand(&self) -> Option<u32> {
        match self.differing {
            Some(line) => Some(line.saturating_sub(1)),
            None => None,
        }
    }

    /// Whether the log may have this text: it goes on then as the kept one does.
    fn takes(&mut self, text: &[u8]) -> bool
        ensures wire { self.new.wire ≡ self.old.wire }
        ensures goes { result ≡ true → GoesOn text.now self.old.kept.rest.now self.new.kept.rest.now }
    {
        if self.differing.is_some() {
            return false;
        }
        let same = self.kept.count_same_lines(text);
        if self.kept.goes_on(text) {
            self.lines = self.lines.saturating_add(count_lines(text));
            return true;
        }
        self.differing = Some(self.lines.saturating_add(same));
        false
    }
}

/// How many lines end in a text.
fn count_lines(text: &[u8]) -> u32 {
    let mut count: u32 = 0;
    for byte in text {
        if *byte == b'\n' {
            count = count.saturating_add(1);
        }
    }
    count
}

impl<W: Wire + Drop> Wire for ComparedWire<'_, W> {
    ghost passed = { λ compared. W.passed compared.wire };

    fn now(&mut self) -> u64 {
        self.wire.now()
    }

    fn wait(&mut self, most: u64) {
        self.wire.wait(most);
    }

    fn called(&mut self) {
        self.wire.called();
    }

    fn draw(&mut self) -> Option<[u8; 32]> {
        self.wire.draw()
    }

    fn source(&mut self, line: Line) -> Option<IpAddr> {
        self.wire.source(line)
    }

    fn dial(&mut self, peer: u8) -> Result<(), WireFault> {
        self.wire.dial(peer)
    }

    fn accept(&mut self) -> Option<u8> {
        self.wire.accept()
    }

    fn turned_away(&self) -> u64 {
        self.wire.turned_away()
    }

    fn accept_seat(&mut self, seat: u8) -> bool {
        self.wire.accept_seat(seat)
    }

    fn accept_guest(&mut self, seat: u8) -> Option<u8> {
        self.wire.accept_guest(seat)
    }

    fn seat_guest(&mut self, place: u8, seat: u8) -> bool {
        self.wire.seat_guest(place, seat)
    }

    fn accept_asker(&mut self) -> Option<u8> {
        self.wire.accept_asker()
    }

    fn read(&mut self, line: Line, piece: &mut [u8]) -> Result<usize, Halt> {
        self.wire.read(line, piece)
    }

    fn write(&mut self, line: Line, bytes: &[u8]) -> Result<usize, Halt> {
        self.wire.write(line, bytes)
    }

    fn flush(&mut self) {
        self.wire.flush();
    }

    fn know(&mut self, line: Line) {
        self.wire.know(line);
    }

    fn close(&mut self, line: Line) {
        self.wire.close(line);
    }

    fn add_to_log(&mut self, text: &[u8]) -> Result<(), WireFault> {
        if self.takes(text) {
            self.wire.add_to_log(text)
        } else {
            Err(WireFault::Failed)
        }
    }

    ghost in_order = { λ compared. W.in_order compared.wire };
}
