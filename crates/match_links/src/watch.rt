use mio::event::Source;
use mio::{Events, Interest, Poll, Token};
use std::io;
use std::time::Duration;

/// How many sockets may be told to be ready at once; those behind them are told at the next wait.
const TOLD_AT_ONCE: usize = 16;

/// The sockets that are watched have one name, since nobody asks which is ready: after each wait all are looked at that
/// the wait is for.
const ANY: Token = Token(0);

/// Several sockets that are waited for at once.
#[derive(Drop)]
pub(crate) struct Watch {
    poll: Poll,
    events: Events,
}

impl Watch {
    /// Watches nothing yet.
    pub(crate) fn new(rt: &HostRuntime) -> io::Result<Watch> {
        Ok(Watch {
            poll: Poll::new(rt)?,
            events: Events::with_capacity(rt.alloc(), TOLD_AT_ONCE)?,
        })
    }

    /// Watches a socket too. It is watched no longer when it is closed.
    pub(crate) fn add<S: Source>(&self, socket: &mut S) -> io::Result<()> {
        self.poll
            .registry()
            .register(socket, ANY, Interest::READABLE)
    }

    /// Watches a socket no longer.
    pub(crate) fn remove<S: Source>(&self, socket: &mut S) -> io::Result<()> {
        self.poll.registry().deregister(socket)
    }

    /// Waits until anything comes at one of the sockets that are watched, so long at most. What came before counts only
    /// where no wait told it yet: so a socket is first read, and waited for where it has nothing.
    pub(crate) fn wait(&mut self, most: Duration) -> io::Result<()> {
        self.poll.poll(&mut self.events, Some(most))
    }
}
