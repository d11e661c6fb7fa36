use crate::deadline::Deadline;
use crate::limits::{HELD, TURNED_AWAY_MILLISECONDS};
use crate::seated::drop_what_came;
use mio::net::TcpStream;
use std::alloc::Global;
use std::time::Duration;

/// A connection that is turned away, and when.
#[derive(Drop)]
struct Leaving {
    stream: TcpStream,
    due: Deadline,
}

impl Leaving {
    /// Ends it. What it sent is read before: a socket that is closed over bytes that nobody read breaks its connection.
    fn end(self) {
        let Leaving { mut stream, due: _ } = self;
        // One that has failed has nothing more to give.
        let _ = drop_what_came(&mut stream);
    }
}

/// How long a connection stays open that is turned away.
fn stay() -> Duration {
    Duration::from_millis(TURNED_AWAY_MILLISECONDS)
}

/// Connections that are turned away, in order of arrival.
#[derive(Drop)]
pub(crate) struct TurnedAway {
    all: Vec<Leaving>,
}

impl TurnedAway {
    /// There are none.
    pub(crate) fn new(alloc: Global) -> TurnedAway {
        TurnedAway {
            all: Vec::new(alloc),
        }
    }

    /// Whether one more can be turned away now.
    pub(crate) fn has_room(&mut self) -> bool {
        self.all.len() < HELD && self.all.reserve(1).is_ok()
    }

    /// Turns a connection away: it is closed when its time has come.
    pub(crate) fn add(&mut self, rt: &HostRuntime, stream: TcpStream) {
        if let Ok(due) = Deadline::after(rt, stay()) {
            // Without room it is closed at once.
            let _ = self.all.push(Leaving { stream, due });
        }
    }

    /// How long it is till the next one is to be closed; the time that a new one stays, where there is none.
    pub(crate) fn next_due(&self, rt: &HostRuntime) -> Duration {
        match self.all.first() {
            Some(first) => first.due.left(rt).unwrap_or(Duration::ZERO),
            None => stay(),
        }
    }

    /// Closes those whose time has come.
    pub(crate) fn close_due(&mut self, rt: &HostRuntime) {
        for _ in 0..HELD {
            if self.all.is_empty() || !self.next_due(rt).is_zero() {
                return;
            }
            self.all.remove(0).end();
        }
    }

    /// Closes all.
    pub(crate) fn close_all(&mut self) {
        for _ in 0..HELD {
            match self.all.pop() {
                Some(leaving) => leaving.end(),
                None => return,
            }
        }
    }
}
