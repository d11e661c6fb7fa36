//! Where the notes of `init`, `serve` and `node` go.

use crate::utc::Utc;
use operator_notes::{
    Cause, NodeNote, tell_file, tell_made, tell_no_such_node, tell_node_note, tell_not_kept,
    tell_open, tell_port, tell_short_seeds, tell_unlocked, tell_unused, tell_unused_in_node,
};
use std::io;
use std::io::Write;
use std::time::{SystemTime, UNIX_EPOCH};

/// Standard error, to which notes are written, one a line; with the time before each where that is asked for. One that
/// can't be written is left out.
#[derive(Drop)]
pub(crate) struct Notes<'a> {
    rt: &'a HostRuntime,
    has_times: bool,
}

impl<'a> Notes<'a> {
    pub(crate) fn new(rt: &'a HostRuntime, has_times: bool) -> Notes<'a> {
        Notes { rt, has_times }
    }

    /// Tells the file or folder where the fault of the next line was found, and why.
    pub(crate) fn tell_file(&mut self, path: &str, cause: Cause) {
        tell_file(self.rt.alloc(), path, cause, self);
    }

    /// Tells the port where the fault of the next line was found, and why.
    pub(crate) fn tell_port(&mut self, port: u16, cause: Cause) {
        tell_port(self.rt.alloc(), port, cause, self);
    }

    /// Tells that the system gives no lock of a file.
    pub(crate) fn tell_unlocked(&mut self, path: &str) {
        tell_unlocked(self.rt.alloc(), path, self);
    }

    /// Tells a key of the match file that no command reads.
    pub(crate) fn tell_unused(&mut self, key: &str) {
        tell_unused(self.rt.alloc(), key, self);
    }

    /// Tells a key in the table of a node that no command reads.
    pub(crate) fn tell_unused_in_node(&mut self, node: u8, key: &str) {
        tell_unused_in_node(self.rt.alloc(), node, key, self);
    }

    /// Tells a file that others than its owner may use, though it has what they may not see.
    pub(crate) fn tell_open(&mut self, path: &str) {
        tell_open(self.rt.alloc(), path, self);
    }

    /// Tells the nodes whose seeds are so small that each can be tried.
    pub(crate) fn tell_short_seeds(&mut self, nodes: &[u8]) {
        tell_short_seeds(self.rt.alloc(), nodes, self);
    }

    /// Tells that the match has no node of this number, but so many.
    pub(crate) fn tell_no_such_node(&mut self, node: u8, nodes: u8) {
        tell_no_such_node(self.rt.alloc(), node, nodes, self);
    }

    /// Tells a file that was made.
    pub(crate) fn tell_made(&mut self, path: &str) {
        tell_made(self.rt.alloc(), path, self);
    }

    /// Tells a note of a node's process.
    pub(crate) fn tell_node(&mut self, note: &NodeNote<'_>) {
        tell_node_note(self.rt.alloc(), self, note);
    }

    /// Tells that nothing beside the stores says of which match they are.
    pub(crate) fn tell_not_kept(&mut self) {
        tell_not_kept(self.rt.alloc(), self);
    }
}

/// Takes a whole line at each call.
impl Write for Notes<'_> {
    fn write(&mut self, line: &[u8]) -> io::Result<usize> {
        if !self.has_times {
            return self.rt.stderr().write(line);
        }
        let mut stamped = stamp(self.rt)?;
        stamped.extend_from_slice(line)?;
        self.rt.stderr().write_all(&stamped)?;
        Ok(line.len())
    }

    fn flush(&mut self) -> io::Result<()> {
        self.rt.stderr().flush()
    }
}

/// The time in UTC with a space behind it, as `2026-11-26T01:02:03.456Z `.
fn stamp(rt: &HostRuntime) -> io::Result<Vec<u8>> {
    let milliseconds = match SystemTime::now(rt)?.duration_since(UNIX_EPOCH) {
        Ok(since) => {
            let seconds = since.as_secs().saturating_mul(1000);
            seconds.saturating_add(since.subsec_millis() as u64)
        }
        Err(_) => 0,
    };
    let text = format!(in rt.alloc(); "{} ", Utc::new(milliseconds))?;
    Ok(text.into_bytes())
}
