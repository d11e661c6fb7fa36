//! What the tests of all commands read from and write to: readers and writers that trickle, are interrupted,
//! fail, or talk to each other; the match that they play; and how a run ended.

use dealer_kind::Config;
use match_file::MatchFile;
use operator_notes::Stop;
use sample_games::L2;
use std::alloc::{AllocError, Global};
use std::cell::Cell;
use std::fmt::{Debug, Display};
use std::io::{Error, ErrorKind, Read, Result as IoResult, Write};
use std::process::Abort;
use std::test::Fail;
use streamed::Ending;

/// A match of one hand, whose three nodes have a deal each.
pub(crate) const MATCH: &[u8] = b"name = \"m1\"
game = \"l2.game\"
hands = 1
names = [\"alice\", \"bob\"]
[[node]]
deals = [\"TdAs|8hTc/2c8c3h/9c/Kh\"]
[[node]]
deals = [\"2d2h|3d3s/4c5c6c/7c/8d\"]
[[node]]
deals = [\"QcQd|JcJd/2s3c4d/9s/Th\"]
";

/// The match, as its file and its game's have it.
pub(crate) fn config(alloc: Global) -> Result<Config, Fail> {
    Ok(MatchFile::read(alloc, MATCH)?.config(alloc, Some(L2))?)
}

/// How a reader gives its bytes.
#[derive(Clone, Copy)]
pub(crate) enum Gives {
    /// As many as are asked for.
    Whole,
    OneByOne,
    /// One by one, and every second read is interrupted, the first one too.
    InPieces,
    /// One by one, until so many are left; then reads fail so.
    Until(usize, ErrorKind),
}

/// Gives these bytes so.
#[derive(Drop)]
pub(crate) struct Reading<'a> {
    rest: &'a [u8],
    gives: Gives,
    /// Whether the read before was interrupted.
    interrupted: bool,
}

impl<'a> Reading<'a> {
    pub(crate) fn new(rest: &'a [u8], gives: Gives) -> Reading<'a> {
        Reading {
            rest,
            gives,
            interrupted: false,
        }
    }

    /// How the next read fails, if it does.
    fn failure(&mut self) -> Option<ErrorKind> {
        match self.gives {
            Gives::InPieces => {
                self.interrupted = !self.interrupted;
                self.interrupted.then_some(ErrorKind::Interrupted)
            }
            Gives::Until(left, kind) => (self.rest.len() <= left).then_some(kind),
            Gives::Whole | Gives::OneByOne => None,
        }
    }

    /// How many bytes a read gives at most.
    fn most(&self) -> usize {
        match self.gives {
            Gives::Whole => usize::MAX,
            _ => 1,
        }
    }
}

impl Read for Reading<'_> {
    fn read(&mut self, buf: &mut [u8]) -> IoResult<usize> {
        if let Some(kind) = self.failure() {
            return Err(Error::from(kind));
        }
        let count = buf.len().min(self.most());
        self.rest.read(&mut buf[..count])
    }
}

/// How a writer takes bytes, up to three at a time.
#[derive(Clone, Copy)]
pub(crate) enum Takes {
    All,
    /// All, and every second write is interrupted, the first one too.
    InPieces,
    /// Once so many were taken, writes fail so.
    Until(usize, ErrorKind),
    /// All, and once so many flushes were made, flushes fail.
    Flushes(u32),
}

/// Takes bytes so.
#[derive(Drop)]
pub(crate) struct Writing {
    pub(crate) taken: Vec<u8>,
    takes: Takes,
    /// Whether the write before was interrupted.
    interrupted: bool,
    /// Whether a write failed for good.
    pub(crate) has_failed: bool,
}

impl Writing {
    pub(crate) fn new(alloc: Global, takes: Takes) -> Writing {
        Writing {
            taken: Vec::new(alloc),
            takes,
            interrupted: false,
            has_failed: false,
        }
    }

    /// How the next write fails, if it does.
    fn failure(&mut self) -> Option<ErrorKind> {
        match self.takes {
            Takes::InPieces => {
                self.interrupted = !self.interrupted;
                self.interrupted.then_some(ErrorKind::Interrupted)
            }
            Takes::Until(most, kind) => {
                self.has_failed = self.taken.len() >= most;
                self.has_failed.then_some(kind)
            }
            Takes::All | Takes::Flushes(_) => None,
        }
    }
}

impl Write for Writing {
    fn write(&mut self, buf: &[u8]) -> IoResult<usize> {
        if let Some(kind) = self.failure() {
            return Err(Error::from(kind));
        }
        let count = buf.len().min(3);
        self.taken.extend_from_slice(&buf[..count])?;
        Ok(count)
    }

    fn flush(&mut self) -> IoResult<()> {
        match self.takes {
            Takes::Flushes(0) => Err(Error::from(ErrorKind::StorageFull)),
            Takes::Flushes(left) => {
                self.takes = Takes::Flushes(left.saturating_sub(1));
                Ok(())
            }
            _ => Ok(()),
        }
    }
}

/// One end of a pipe: the next line comes only once the answer to the one before it was flushed.
#[derive(Drop)]
pub(crate) struct Talker<'a> {
    pub(crate) rest: &'a [u8],
    pub(crate) flushed: &'a Cell<bool>,
}

impl Read for Talker<'_> {
    fn read(&mut self, buf: &mut [u8]) -> IoResult<usize> {
        if !self.flushed.get() {
            return Err(Error::from(ErrorKind::WouldBlock));
        }
        self.flushed.set(false);
        let line = match self.rest.iter().position(|byte| *byte == b'\n') {
            Some(place) => place + 1,
            None => self.rest.len(),
        };
        let count = line.min(buf.len());
        buf[..count].copy_from_slice(&self.rest[..count]);
        self.rest = &self.rest[count..];
        Ok(count)
    }
}

/// The other end of the pipe.
#[derive(Drop)]
pub(crate) struct Listener<'a> {
    pub(crate) heard: Vec<u8>,
    pub(crate) flushed: &'a Cell<bool>,
}

impl Write for Listener<'_> {
    fn write(&mut self, buf: &[u8]) -> IoResult<usize> {
        self.heard.extend_from_slice(buf)?;
        Ok(buf.len())
    }

    fn flush(&mut self) -> IoResult<()> {
        self.flushed.set(true);
        Ok(())
    }
}

/// How a run's reader gives and its writer takes, how many bytes of its answers are taken, and what its ending prints.
pub(crate) type Run = (Gives, Takes, usize, &'static str);

// What `assert_eq!` and `format!` make is proved anew wherever they stand, so they stand in the functions below.

/// Sees that the two are equal.
pub(crate) fn is_same<T: Copy + PartialEq + Debug>(rt: &impl Abort, found: T, due: T) {
    assert_eq!(rt; found, due);
}

/// Sees that this was written.
pub(crate) fn is_written(rt: &impl Abort, written: &[u8], text: &[u8]) {
    assert_eq!(rt; written, text);
}

/// Sees what is printed of a value.
pub(crate) fn prints<T: Display>(
    rt: &impl Abort,
    alloc: Global,
    shown: &T,
    text: &str,
) -> Result<(), AllocError> {
    assert_eq!(rt; format!(in alloc; "{shown}")?.as_str(), text);
    Ok(())
}

/// Sees that this holds of the case of this number.
pub(crate) fn holds(rt: &impl Abort, number: u64, is_so: bool) {
    assert!(rt; is_so, "number {number}");
}

/// Sees that so many bytes of the answers were written.
pub(crate) fn is_begun(rt: &impl Abort, written: &[u8], answers: &[u8], count: usize) {
    let begun = answers.get(..count).expect(rt, "answers so long");
    is_written(rt, written, begun);
}

/// Sees that a run ended with this fault and status 2; with no text, that all was done.
pub(crate) fn ends(
    rt: &impl Abort,
    alloc: Global,
    ending: Ending,
    text: &str,
) -> Result<(), AllocError> {
    is_same(rt, ending.status(), if text.is_empty() { 0 } else { 2 });
    prints(rt, alloc, &ending, text)
}

/// Sees that a run read all, or that it stopped before.
pub(crate) fn reads_or_stops(rt: &impl Abort, ran: Result<(), Stop>, is_read: bool) {
    is_same(rt, ran.is_ok(), is_read);
    is_same(rt, matches!(ran, Err(Stop::StreamFailed)), !is_read);
}
