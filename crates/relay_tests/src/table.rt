//! A relay with its nodes and its bot.

use crate::test_wire::TestWire;
use matchstate::cut;
use node_wires::{Line, MemoryWire};
use relay_runs::{RelayEnd, RelayNotice, RelayServer, Terms};
use std::alloc::{AllocError, Global};
use std::process::Abort;

/// The button's line behind his call: the big blind, at position 0, faces nothing.
pub(crate) const LINE: &[u8] = b"MATCHSTATE:0:0:c:5d5c|\r\n";

/// The line before it.
pub(crate) const BEFORE: &[u8] = b"MATCHSTATE:0:0::5d5c|\r\n";

/// An answer to it.
pub(crate) const ANSWER: &[u8] = b"MATCHSTATE:0:0:c:5d5c|:c\r\n";

/// What the bot says first, and what is said last of the first lines to a node.
pub(crate) const HELLO: &[u8] = b"VERSION:2.0.0\r\n";

/// What a node says once the match is over.
pub(crate) const OVER: &[u8] = b"#OVER\r\n";

/// What a node says that has another match.
pub(crate) const OTHER: &[u8] = b"#OTHER\r\n";

/// What a node says that has no quorum.
pub(crate) const NO_QUORUM: &[u8] = b"#WAIT\r\n";

/// When the bot comes.
const START: u64 = 1_000_000_000;

/// So many microseconds later.
pub(crate) fn at(later: u64) -> u64 {
    START.saturating_add(later)
}

/// What notes say of holds.
#[derive(Clone, Copy)]
pub(crate) struct Holds {
    /// How many began.
    pub(crate) count: u64,
    /// For how many seconds no node is dialled by the last one, and 100 more where the seat is another's; 0 where none began.
    pub(crate) seconds: u64,
    /// Of how many nodes it is noted that they have no quorum.
    pub(crate) without_quorum: u64,
}

impl Holds {
    /// One more began.
    fn add(&mut self, seconds: u64) {
        self.count = self.count.saturating_add(1);
        self.seconds = seconds;
    }
}

/// A relay, and its wires.
pub(crate) struct Table {
    pub(crate) wire: TestWire,
    pub(crate) server: RelayServer,
}

/// By hand, so that letting one go is one call for whoever owns it (docs/ARCHITECTURE.md, Habits).
impl Drop for Table {
    fn drop(self) {
        let Table { wire: _, server: _ } = self;
    }
}

/// What a relay of so many nodes goes by: no token, no mending, no trace, all lines, and it gives up after twenty seconds.
pub(crate) fn terms(nodes: u8) -> Terms {
    Terms {
        nodes,
        token: None,
        mended: None,
        newest: false,
        stays: false,
        give_up: 20_000_000,
        traces: false,
        epoch: 0,
    }
}

impl Table {
    /// A relay for so many nodes, to which nobody came. The call of this number of its wires fails, counted from 1.
    pub(crate) fn new(alloc: Global, nodes: u8, call: u64) -> Result<Table, AllocError> {
        Table::by(alloc, terms(nodes), call)
    }

    /// The same of a relay that goes by these terms.
    pub(crate) fn by(alloc: Global, terms: Terms, call: u64) -> Result<Table, AllocError> {
        Ok(Table {
            wire: TestWire {
                inner: MemoryWire::new(alloc, call)?,
                is_deaf: false,
                are_down: false,
            },
            server: RelayServer::new(alloc, terms)?,
        })
    }

    /// The same with a bot, which has named the version, and nodes that were dialled.
    pub(crate) fn with_bot(alloc: Global, nodes: u8) -> Result<Table, AllocError> {
        let mut table = Table::new(alloc, nodes, 0)?;
        table.bot_comes()?;
        Ok(table)
    }

    /// A bot comes and names the version.
    pub(crate) fn bot_comes(&mut self) -> Result<(), AllocError> {
        self.wire.inner.come_to_seat(0);
        let _ = self.turn(at(0));
        self.wire.inner.come(Line::Seat(0), HELLO)?;
        let _ = self.turn(at(0));
        Ok(())
    }

    /// A turn at this moment.
    pub(crate) fn turn(&mut self, now: u64) -> Option<RelayEnd> {
        self.wire.inner.set_now(now);
        self.server.turn(&mut self.wire)
    }

    /// The bot says something.
    pub(crate) fn says(&mut self, text: &[u8]) -> Result<(), AllocError> {
        self.wire.inner.come(Line::Seat(0), text)
    }

    /// A node sends something.
    pub(crate) fn tells(&mut self, node: u8, text: &[u8]) -> Result<(), AllocError> {
        self.wire.inner.come(Line::Peer(node), text)
    }

    /// A node ends its connection.
    pub(crate) fn ends(&mut self, node: u8) {
        self.wire.inner.end(Line::Peer(node));
    }

    /// What a node was asked for over its connection, and what it got behind the first lines.
    pub(crate) fn asked(&self, node: u8) -> Option<(&[u8], &[u8])> {
        let written = self.wire.inner.written(Line::Peer(node));
        let (asked, rest) = cut(written.strip_prefix(b"#RESUME ")?, b'\n')?;
        Some((asked.strip_suffix(b"\r")?, rest.strip_prefix(HELLO)?))
    }

    /// Whether a node was asked for this over its connection.
    pub(crate) fn was_asked(&self, node: u8, text: &[u8]) -> bool {
        match self.asked(node) {
            Some((asked, _)) => asked == text,
            None => false,
        }
    }

    /// Whether a node got the first lines, and this behind them.
    pub(crate) fn has_got(&self, node: u8, behind: &[u8]) -> bool {
        match self.asked(node) {
            Some((_, rest)) => rest == behind,
            None => false,
        }
    }

    /// All nodes of so many tell this.
    pub(crate) fn all_tell(&mut self, nodes: u8, text: &[u8]) -> Result<(), AllocError> {
        for node in 0..nodes {
            self.tells(node, text)?;
        }
        Ok(())
    }

    /// How many nodes of so many got this behind the first lines.
    pub(crate) fn count_got(&self, nodes: u8, behind: &[u8]) -> u64 {
        let mut count = 0u64;
        for node in 0..nodes {
            if self.has_got(node, behind) {
                count = count.saturating_add(1);
            }
        }
        count
    }

    /// What the bot got.
    pub(crate) fn at_bot(&self) -> &[u8] {
        self.wire.inner.written(Line::Seat(0))
    }

    /// Whether there is a connection to a node.
    pub(crate) fn is_up(&self, node: u8) -> bool {
        self.wire.inner.is_open(Line::Peer(node))
    }

    /// What the notes since they were taken say of holds.
    pub(crate) fn holds(&mut self) -> Holds {
        let mut found = Holds {
            count: 0,
            seconds: 0,
            without_quorum: 0,
        };
        for notice in self.server.take_notices() {
            match notice {
                RelayNotice::AnotherClient { seconds } => found.add(seconds.saturating_add(100)),
                RelayNotice::TurnedAway { seconds } => found.add(seconds),
                RelayNotice::NoQuorum { .. } => {
                    found.without_quorum = found.without_quorum.saturating_add(1);
                }
                _ => {}
            }
        }
        found
    }
}

/// The two are equal.
pub(crate) fn assert_number(rt: &impl Abort, found: u64, expected: u64) {
    assert_eq!(rt; found, expected);
}

/// The two are equal; where they aren't, both are printed.
pub(crate) fn assert_bytes(rt: &impl Abort, found: &[u8], expected: &[u8]) {
    assert_eq!(rt; found, expected);
}

/// This holds.
pub(crate) fn assert_that(rt: &impl Abort, holds: bool) {
    assert!(rt; holds);
}
