//! One who asks how the node is.

ghost use Rattle.std.specs.Prelude.{◌≡◌, ◌≤◌, vec_len, OnOk, OnErr};

use crate::limits::REPLY_LIMIT;
use node_wires::{Halt, Line, Wire};
use std::alloc::{AllocError, Global};

/// The place of one who asks: whether somebody stands there and since when, the line that he was given, which is empty as
/// long as he waits for it, and how many of its bytes are written. Its number is given to calls that have a wire.
#[derive(Drop)]
pub(crate) struct Asker {
    pub(crate) is_here: bool,
    pub(crate) since: u64,
    pub(crate) line: Vec<u8>,
    pub(crate) written: usize,
    ghost within: { written ≤ vec_len line },
}

impl Asker {
    ghost use Rattle.node_status.specs.Given.{given_of, nobody, come_at, with_line, waits, has_all, IsServed};
    ghost use Rattle.node_status.specs.Asking.{Writes};

    /// Nobody stands there. It takes no memory.
    pub(crate) fn new(alloc: Global) -> Asker
        ensures { given_of result ≡ nobody }
    {
        Asker {
            is_here: false,
            since: 0,
            line: Vec::new(alloc),
            written: 0,
        }
    }

    /// Somebody came there at this moment.
    pub(crate) fn come(&mut self, now: u64)
        ensures { given_of self.new ≡ come_at now }
    {
        self.line.clear();
        self.written = 0;
        self.since = now;
        self.is_here = true;
    }

    /// Whether somebody there waits for a line.
    pub(crate) fn waits(&self) -> bool
        ensures { result ≡ waits (given_of self.now) }
    {
        self.is_here && self.line.is_empty()
    }

    /// Gives him this line, if he waits for one. An `Err`, for want of memory, changes nothing.
    pub(crate) fn give(&mut self, line: &[u8]) -> Result<(), AllocError>
        ensures given { OnOk result (given_of self.new ≡ with_line line.now (given_of self.old)) }
        ensures failed { OnErr result (given_of self.new ≡ given_of self.old) }
    {
        if !self.waits() {
            return Ok(());
        }
        self.line.extend_from_slice(line)
    }

    /// Writes what there is room for of his line. False where the connection ended.
    #[tactic(auto, using(crate::proofs::Passing::nothing_written))]
    fn write_some<W: Wire>(&mut self, wire: &mut W, place: u8) -> bool
        ensures { Writes place (given_of self.old) (given_of self.new) (W.passed wire.old) (W.passed wire.new) }
    {
        let rest = &self.line[self.written..];
        if rest.is_empty() {
            return true;
        }
        match wire.write(Line::Asker(place), rest) {
            Ok(count) => {
                self.written += count;
                true
            }
            Err(Halt::Later) => true,
            Err(Halt::Ended) => false,
        }
    }

    /// Whether he has all of his line.
    fn has_all(&self) -> bool
        ensures { result ≡ has_all (given_of self.now) }
    {
        !self.line.is_empty() && self.written == self.line.len()
    }

    /// Writes what there is room for of his line, and lets go of him where he has all of it, or takes too long.
    #[tactic(auto, using(crate::proofs::Passing::nothing_written))]
    pub(crate) fn serve<W: Wire>(&mut self, wire: &mut W, place: u8, now: u64)
        ensures wrote { Writes place (given_of self.old) (given_of self.new) (W.passed wire.old) (W.passed wire.new) }
        ensures served { IsServed now (given_of self.new) }
    {
        if !self.is_here {
            return;
        }
        let goes_on = self.write_some(wire, place);
        if !goes_on || self.has_all() || now.saturating_sub(self.since) >= REPLY_LIMIT {
            self.is_here = false;
            wire.close(Line::Asker(place));
        }
    }
}
