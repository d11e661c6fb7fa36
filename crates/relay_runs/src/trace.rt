//! The lines to and from the bot, with their times.

use crate::limits::TRACE_BACKLOG;
use byte_queue::ByteQueue;
use matchstate::put_number;
use std::alloc::{AllocError, Global};

/// The trace: a line each, `SECONDS.MICROS TO LINE` or `SECONDS.MICROS FROM LINE`, that wait to be written.
#[derive(Drop)]
pub(crate) struct Trace {
    alloc: Global,
    lines: ByteQueue,
    /// How many microseconds after the beginning of 1970 moment 0 was.
    epoch: u64,
    /// How many lines were left out: they couldn't be written, too much waited, or memory was refused.
    left_out: u64,
}

/// Appends the time in seconds since the beginning of 1970, with six digits behind the point.
fn put_time(alloc: Global, line: &mut Vec<u8>, time: u64) -> Result<(), AllocError> {
    line.reserve(10)?;
    put_number(line, (time / 1_000_000).min(u32::MAX as u64) as u32);
    line.push(b'.')?;
    // A one in front of the six digits keeps their zeros.
    let mut digits = Vec::with_capacity(alloc, 10)?;
    put_number(&mut digits, (1_000_000 + time % 1_000_000) as u32);
    match digits.as_slice() {
        [_, micros @ ..] => line.extend_from_slice(micros),
        _ => Ok(()),
    }
}

impl Trace {
    /// Nothing is traced yet. It takes no memory.
    pub(crate) fn new(alloc: Global, epoch: u64) -> Trace {
        Trace {
            alloc,
            lines: ByteQueue::new(alloc),
            epoch,
            left_out: 0,
        }
    }

    /// A line goes to the bot, or comes from it.
    pub(crate) fn add(&mut self, now: u64, way: &[u8], text: &[u8]) {
        if self.lines.waiting().len() >= TRACE_BACKLOG || self.try_add(now, way, text).is_err() {
            self.left_out = self.left_out.saturating_add(1);
        }
    }

    fn try_add(&mut self, now: u64, way: &[u8], text: &[u8]) -> Result<(), AllocError> {
        let mut line = Vec::new(self.alloc);
        put_time(self.alloc, &mut line, self.epoch.saturating_add(now))?;
        line.extend_from_slice(way)?;
        line.extend_from_slice(text)?;
        line.push(b'\n')?;
        self.lines.push(&line)
    }

    /// What waits to be written.
    pub(crate) fn waiting(&self) -> &[u8] {
        self.lines.waiting()
    }

    /// So many bytes of it were written.
    pub(crate) fn skip(&mut self, count: usize) {
        let count = count.min(self.lines.waiting().len());
        self.lines.skip(count);
    }

    /// What waits can't be written: it is left out.
    pub(crate) fn drop_waiting(&mut self) {
        let mut count = 0u64;
        for byte in self.lines.waiting() {
            if *byte == b'\n' {
                count = count.saturating_add(1);
            }
        }
        self.left_out = self.left_out.saturating_add(count);
        self.lines.clear();
    }

    /// How many lines were left out.
    pub(crate) fn left_out(&self) -> u64 {
        self.left_out
    }
}
