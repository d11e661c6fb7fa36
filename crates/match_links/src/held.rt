ghost use Rattle.std.specs.Prelude.{◌≡◌};

use crate::input::Input;
use crate::limits::PIECE;
use crate::seated::Seated;
use crate::watch::Watch;
use mio::net::TcpStream;
use std::{io, net};

/// A connection that waits to be seated.
#[derive(Drop)]
pub(crate) struct Held {
    stream: TcpStream,
    /// What came of it.
    input: Input,
    /// Whether nothing more will come.
    ended: bool,
}

impl Held {
    ghost use Rattle.match_links.specs.Waiting.{can_sit, is_over};

    /// A connection of which nothing was read yet.
    pub(crate) fn new(stream: TcpStream, input: Input) -> Held {
        Held {
            stream,
            input,
            ended: false,
        }
    }

    /// Reads what came meanwhile, up to a whole piece. A connection that has failed has ended.
    pub(crate) fn look(&mut self) {
        for _ in 0..PIECE {
            if self.ended || self.input.is_whole() {
                return;
            }
            match self.input.fill(&mut self.stream) {
                Ok(count) => self.ended = count == 0,
                Err(fault) => {
                    self.ended = !is_for_now(fault.kind());
                    return;
                }
            }
        }
    }

    /// Whether it can be seated: it has a whole piece, or has ended behind some bytes.
    pub(crate) fn can_sit(&self) -> bool
        ensures { result ≡ can_sit self.now.input self.now.ended }
    {
        self.input.is_whole() || self.ended && !self.input.is_empty()
    }

    /// Whether it has ended and sent nothing.
    pub(crate) fn is_over(&self) -> bool
        ensures { result ≡ is_over self.now.input self.now.ended }
    {
        self.ended && self.input.is_empty()
    }

    /// Seats it.
    pub(crate) fn seat(self, watch: &Watch) -> io::Result<Seated> {
        let Held {
            mut stream,
            input,
            ended: _,
        } = self;
        // It is no matter where it wasn't watched.
        let _ = watch.remove(&mut stream);
        Seated::new(net::TcpStream::from(stream), input)
    }

    /// Gives up what came of it.
    pub(crate) fn into_stream(self) -> TcpStream {
        let Held {
            stream,
            input: _,
            ended: _,
        } = self;
        stream
    }
}

/// Whether an error says that nothing is there now, and not that nothing will come.
fn is_for_now(kind: io::ErrorKind) -> bool {
    matches!(kind, io::ErrorKind::WouldBlock | io::ErrorKind::Interrupted)
}
