//! The bot of a seat.

use node_wires::{Line, MemoryWire, Wire};
use std::alloc::{AllocError, Global};

/// What a bot sends last before it is told lines.
const VERSION: &[u8] = b"VERSION:2.0.0\r\n";

/// What a node without a quorum tells it.
const WAIT: &[u8] = b"#WAIT\r\n";

/// A bot: it dials one node after another until one keeps it, and answers each line by one action, whether it is to act or
/// not.
#[derive(Drop)]
pub(crate) struct Bot {
    seat: u8,
    /// The node that it dialled.
    pub(crate) at: u8,
    /// It sits there, as far as it knows.
    sits: bool,
    /// It dialled, and wasn't taken in yet.
    has_dialled: bool,
    /// For so many more turns of the world it doesn't dial.
    pause: u64,
    /// What was told to it and isn't answered yet.
    told: Vec<u8>,
    /// What it does.
    action: u8,
    /// What it says before the version; where it goes on from the last line it says that in place of this, once it has one.
    pub(crate) asks: Vec<u8>,
    pub(crate) goes_on_from_last: bool,
    /// All lines that it was told, but not again the one that it named.
    pub(crate) heard: Vec<u8>,
    last: Vec<u8>,
    /// It named its last line, and wasn't told it again yet.
    is_again: bool,
    /// How often it was told to come again later.
    pub(crate) waits: u64,
    /// It was told that the match is over: it does nothing more.
    is_over: bool,
}

/// The last whole line of a text, without its end.
fn last_line(text: &[u8]) -> Option<&[u8]> {
    let mut end = None;
    for (place, byte) in text.iter().enumerate() {
        if *byte == b'\r' {
            end = Some(place);
        }
    }
    let end = end?;
    let mut start = 0;
    for (place, byte) in text.iter().enumerate() {
        if place < end && *byte == b'\n' {
            start = place + 1;
        }
    }
    text.get(start..end)
}

impl Bot {
    pub(crate) fn new(alloc: Global, seat: u8, at: u8, action: u8) -> Bot {
        Bot {
            seat,
            at,
            sits: false,
            has_dialled: false,
            pause: 0,
            told: Vec::new(alloc),
            action,
            asks: Vec::new(alloc),
            goes_on_from_last: false,
            heard: Vec::new(alloc),
            last: Vec::new(alloc),
            is_again: false,
            waits: 0,
            is_over: false,
        }
    }

    /// Its node is gone, or has let it go: it dials the next after a while.
    pub(crate) fn go_on(&mut self, nodes: u8) {
        self.sits = false;
        self.has_dialled = false;
        self.pause = 20;
        self.told.clear();
        self.at = if self.at.saturating_add(1) < nodes {
            self.at.saturating_add(1)
        } else {
            0
        };
    }

    /// What it does at the wires of its node.
    pub(crate) fn act(&mut self, wire: &mut MemoryWire, nodes: u8) -> Result<(), AllocError> {
        let line = Line::Seat(self.seat);
        if self.is_over {
            return Ok(());
        }
        if !self.sits {
            return self.dial(wire);
        }
        self.told.extend_from_slice(wire.written(line))?;
        wire.take_written(line);
        self.answer(wire)?;
        if !wire.is_open(line) {
            self.go_on(nodes);
        }
        Ok(())
    }

    /// Comes to the seat's port, and says its version once it is taken in.
    fn dial(&mut self, wire: &mut MemoryWire) -> Result<(), AllocError> {
        if self.pause > 0 {
            self.pause -= 1;
            return Ok(());
        }
        let line = Line::Seat(self.seat);
        if wire.is_open(line) {
            self.sits = true;
            self.has_dialled = false;
            self.ask(wire)?;
            return wire.come(line, VERSION);
        }
        if !self.has_dialled {
            self.has_dialled = true;
            wire.come_to_seat(self.seat);
        }
        Ok(())
    }

    /// Says what it asks for before it names the version.
    fn ask(&mut self, wire: &mut MemoryWire) -> Result<(), AllocError> {
        let line = Line::Seat(self.seat);
        self.is_again = self.goes_on_from_last && !self.last.is_empty();
        if self.is_again {
            wire.come(line, b"#RESUME ")?;
            wire.come(line, &self.last)?;
            return wire.come(line, b"\r\n");
        }
        wire.come(line, &self.asks)
    }

    /// It is told to come again later, behind its lines: that isn't kept.
    fn note_wait(&mut self) {
        if self.told.ends_with(WAIT) {
            self.waits = self.waits.saturating_add(1);
            self.told.truncate(self.told.len() - WAIT.len());
        }
    }

    /// Keeps what was told, up to the end of its last whole line.
    fn keep(&mut self) -> Result<(), AllocError> {
        self.note_wait();
        let Some(last) = last_line(&self.told) else {
            return Ok(());
        };
        let skip = if self.is_again {
            self.last.len() + 2
        } else {
            0
        };
        self.is_again = false;
        self.heard
            .extend_from_slice(self.told.get(skip..).unwrap_or(b"? "))?;
        self.is_over = last == b"#OVER".as_slice();
        let is_line = last.starts_with(b"MATCHSTATE");
        if is_line {
            self.last.clear();
            self.last.extend_from_slice(last)?;
        }
        Ok(())
    }

    /// Answers the last line that came.
    fn answer(&mut self, wire: &mut MemoryWire) -> Result<(), AllocError> {
        if !self.told.ends_with(b"\n") {
            return Ok(());
        }
        self.keep()?;
        let Some(last) = last_line(&self.told) else {
            return Ok(());
        };
        let line = Line::Seat(self.seat);
        wire.come(line, last)?;
        wire.come(line, &[b':', self.action, b'\r', b'\n'])?;
        self.told.clear();
        Ok(())
    }
}
