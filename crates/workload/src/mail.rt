//! What the nodes of a match sent and showed: frames on their way, in order of sending, and the newest line of each seat.

use dealer_node::{Out, Reader};
use std::alloc::{AllocError, Global};

/// A frame on its way: whence, whereto, and where its bytes stand.
#[derive(Clone, Copy, Drop)]
pub struct Sent {
    pub from: u8,
    pub to: u8,
    start: usize,
    end: usize,
}

/// Frames and lines.
pub struct Mail {
    /// Whether no frame comes to node 1 or from there.
    is_parted: bool,
    /// The frames that weren't delivered yet, and those before them.
    sent: Vec<Sent>,
    bytes: Vec<u8>,
    /// The newest line of each seat.
    lines: [Vec<u8>; 2],
}

/// By hand, so that letting one go is one call for whoever owns it (docs/ARCHITECTURE.md, Habits).
impl Drop for Mail {
    fn drop(self) {
        let Mail {
            is_parted: _,
            sent: _,
            bytes: _,
            lines: _,
        } = self;
    }
}

impl Mail {
    /// Nothing yet.
    pub fn new(alloc: Global, is_parted: bool) -> Mail {
        Mail {
            is_parted,
            sent: Vec::new(alloc),
            bytes: Vec::new(alloc),
            lines: [Vec::new(alloc), Vec::new(alloc)],
        }
    }

    /// Makes room for all that waits at once in a match.
    pub fn make_room(&mut self) -> Result<(), AllocError> {
        self.sent.reserve(4096)?;
        self.bytes.reserve(1 << 20)?;
        for line in &mut self.lines {
            line.reserve(8192)?;
        }
        Ok(())
    }

    /// Whether a frame between these nodes is lost.
    fn is_lost(&self, from: u8, to: u8) -> bool {
        self.is_parted && (from == 1 || to == 1)
    }

    /// Keeps the frames that a node sent, but for those that are lost, and the newest lines of its seats.
    pub fn keep(&mut self, node: u8, out: &Out) -> Result<(), AllocError> {
        for (to, bytes) in out.frames() {
            if !self.is_lost(node, to) {
                self.keep_frame(node, to, bytes)?;
            }
        }
        for (reader, text) in out.shown() {
            if let Reader::Seat(seat) = reader {
                self.keep_line(seat, text)?;
            }
        }
        Ok(())
    }

    /// Keeps a frame that was sent.
    fn keep_frame(&mut self, from: u8, to: u8, bytes: &[u8]) -> Result<(), AllocError> {
        let start = self.bytes.len();
        self.bytes.extend_from_slice(bytes)?;
        let end = self.bytes.len();
        self.sent.push(Sent {
            from,
            to,
            start,
            end,
        })?;
        Ok(())
    }

    /// Keeps the newest line of a seat.
    fn keep_line(&mut self, seat: usize, text: &[u8]) -> Result<(), AllocError> {
        if let Some(line) = self.lines.get_mut(seat) {
            line.clear();
            line.extend_from_slice(text)?;
        }
        Ok(())
    }

    /// The frame of this number, and its bytes.
    pub fn frame(&self, number: usize) -> Option<(Sent, &[u8])> {
        let sent = self.sent.get(number).copied()?;
        let bytes = self.bytes.get(sent.start..sent.end)?;
        Some((sent, bytes))
    }

    /// Whether no frame waits.
    pub fn is_empty(&self) -> bool {
        self.sent.is_empty()
    }

    /// Forgets the frames that wait.
    pub fn forget_frames(&mut self) {
        self.sent.clear();
        self.bytes.clear();
    }

    /// A seat's newest line with an action behind it.
    pub fn answer(&self, alloc: Global, seat: u8, action: &[u8]) -> Result<Vec<u8>, AllocError> {
        let mut line = Vec::new(alloc);
        if let Some(newest) = self.lines.get(usize::from(seat)) {
            line.extend_from_slice(newest)?;
        }
        line.extend_from_slice(action)?;
        Ok(line)
    }
}
