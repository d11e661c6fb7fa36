ghost use Rattle.std.specs.Prelude.{◌≡◌};
ghost use Rattle.node_links.specs.declared.dial.Dial.TheVariants as dials;
ghost use Rattle.node_links.specs.Dialling.{connect_wait, due_of, answered_dial, opened_dial, ended_dial};

use crate::limits::{CONNECT, DIALS, GREET, LONG_CONNECT, LOOK, REDIAL};

/// How far the connection to a peer is that this process dials. Moments are whole microseconds since one that stays the
/// same; one that lies ahead counts as the present.
#[derive(Clone, Copy, Debug, PartialEq, Eq)]
pub enum Dial {
    /// There is none. The peer is dialled once so long has passed since then.
    Waits { since: u64, pause: u64 },
    /// It was dialled then, and that isn't answered yet; after `most` it is given up.
    Dialled { since: u64, most: u64 },
    /// It was dialled then, and that was answered at `at`: its Hello is awaited.
    Answered { since: u64, at: u64 },
    /// It was dialled then, and is open.
    Open { since: u64 },
}

/// What is due of a connection that this process dials.
#[derive(Clone, Copy, Debug, PartialEq, Eq)]
pub enum DialDue {
    /// The peer is dialled now.
    Dial,
    /// The connection isn't open yet, and is given up: it is closed.
    GiveUp,
    /// Nothing, for so long.
    Nothing { wait: u64 },
}

/// How long a dial of a peer waits for an answer behind so many that weren't answered, in whole microseconds.
pub fn connect_wait(unanswered: u8) -> u64
    ensures { result ≡ connect_wait unanswered }
{
    if unanswered % DIALS == DIALS - 1 {
        LONG_CONNECT
    } else {
        CONNECT
    }
}

impl Dial {
    /// Nobody was dialled yet: the peer is dialled at once.
    pub fn new() -> Dial
        ensures { result ≡ dials.Waits 0 0 }
    {
        Dial::Waits { since: 0, pause: 0 }
    }

    /// What is due at this moment.
    pub fn due(self, now: u64) -> DialDue
        ensures { result ≡ due_of self now }
    {
        match self {
            Dial::Waits { since, pause } => {
                let passed = now.saturating_sub(since);
                if pause <= passed {
                    DialDue::Dial
                } else {
                    DialDue::Nothing {
                        wait: pause - passed,
                    }
                }
            }
            Dial::Dialled { since, most } => {
                let passed = now.saturating_sub(since);
                if most <= passed {
                    DialDue::GiveUp
                } else {
                    DialDue::Nothing {
                        wait: most - passed,
                    }
                }
            }
            Dial::Answered { since: _, at } => {
                let passed = now.saturating_sub(at);
                if GREET <= passed {
                    DialDue::GiveUp
                } else {
                    DialDue::Nothing {
                        wait: GREET - passed,
                    }
                }
            }
            Dial::Open { since: _ } => DialDue::Nothing { wait: LOOK },
        }
    }

    /// The system at the other end has answered the dial, as is known by now: something could be written, or was read.
    pub fn answered(self, now: u64) -> Dial
        ensures { result ≡ answered_dial self now }
    {
        match self {
            Dial::Dialled { since, most: _ } => Dial::Answered { since, at: now },
            Dial::Waits { since, pause } => Dial::Waits { since, pause },
            Dial::Answered { since, at } => Dial::Answered { since, at },
            Dial::Open { since } => Dial::Open { since },
        }
    }

    /// The connection that was dialled is open.
    pub fn opened(self) -> Dial
        ensures { result ≡ opened_dial self }
    {
        match self {
            Dial::Dialled { since, most: _ } => Dial::Open { since },
            Dial::Answered { since, at: _ } => Dial::Open { since },
            Dial::Waits { since, pause } => Dial::Waits { since, pause },
            Dial::Open { since } => Dial::Open { since },
        }
    }

    /// The connection ended at this moment: the peer is dialled again after this pause, where one is given, and else as soon
    /// as two dials may follow each other.
    pub fn ended(self, now: u64, pause: Option<u64>) -> Dial
        ensures { result ≡ ended_dial self now pause }
    {
        if let Some(pause) = pause {
            return Dial::Waits { since: now, pause };
        }
        match self {
            Dial::Waits { since, pause } => Dial::Waits { since, pause },
            Dial::Dialled { since, most: _ } => Dial::Waits {
                since,
                pause: REDIAL,
            },
            Dial::Answered { since, at: _ } => Dial::Waits {
                since,
                pause: REDIAL,
            },
            Dial::Open { since } => Dial::Waits {
                since,
                pause: REDIAL,
            },
        }
    }
}
