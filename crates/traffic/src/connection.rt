//! A connection, and what is on its way between its ends.

/// Who has an end of a connection.
#[derive(Clone, Copy, Debug, PartialEq, Eq)]
pub enum Party {
    Node(u8),
    Bot(usize),
    Stranger(u8),
}

/// A connection, by its two ends.
#[derive(Clone, Copy, Debug)]
pub struct Connection {
    pub dialler: Party,
    pub listener: Party,
    /// When what was sent last arrives: at the listener, and at who dialled.
    last_there: u64,
    last_back: u64,
    /// Who dialled has closed it, and the listener has.
    is_closed_here: bool,
    is_closed_there: bool,
    /// What is sent to the listener is lost, and what is sent to who dialled.
    is_lost_there: bool,
    is_lost_back: bool,
}

/// What is on its way.
#[derive(Drop)]
pub struct Flight {
    /// When it arrives, unless its way is cut then.
    pub moment: u64,
    /// Its place among all that were sent.
    pub place: u64,
    pub connection: u32,
    /// It goes to who dialled.
    pub is_back: bool,
    pub load: Load,
}

/// What it is.
#[derive(Drop)]
pub enum Load {
    /// Somebody dials: a seat's port, or that of peers without one.
    Dial { seat: Option<u8> },
    /// His dial is answered.
    Answer,
    Bytes { bytes: Vec<u8> },
    /// Nothing more comes from the other end.
    End,
    /// The connection is gone: nobody is at the other end, or something between them broke it off.
    Break,
}

impl Connection {
    /// One that is open at both ends.
    pub fn new(dialler: Party, listener: Party) -> Connection {
        Connection {
            dialler,
            listener,
            last_there: 0,
            last_back: 0,
            is_closed_here: false,
            is_closed_there: false,
            is_lost_there: false,
            is_lost_back: false,
        }
    }

    /// Who has the end to which something goes.
    pub fn receiver(&self, is_back: bool) -> Party {
        if is_back { self.dialler } else { self.listener }
    }

    /// Who has the other end.
    pub fn sender(&self, is_back: bool) -> Party {
        if is_back { self.listener } else { self.dialler }
    }

    /// Whether what this one sends goes back to who dialled.
    pub fn is_back_of(&self, sender: Party) -> bool {
        self.dialler != sender
    }

    /// Whether it is between these two.
    pub fn is_between(&self, one: Party, other: Party) -> bool {
        (self.dialler == one && self.listener == other)
            || (self.dialler == other && self.listener == one)
    }

    /// When what is sent now arrives, which takes so long: not before what was sent before it.
    pub(crate) fn arrive(&mut self, is_back: bool, moment: u64, delay: u64) -> u64 {
        let then = moment.saturating_add(delay);
        if is_back {
            self.last_back = self.last_back.max(then);
            self.last_back
        } else {
            self.last_there = self.last_there.max(then);
            self.last_there
        }
    }

    /// What goes one way over it is lost from now on.
    pub(crate) fn lose(&mut self, is_back: bool) {
        if is_back {
            self.is_lost_back = true;
        } else {
            self.is_lost_there = true;
        }
    }

    /// Whether what goes this way over it is lost.
    pub(crate) fn is_lost(&self, is_back: bool) -> bool {
        if is_back {
            self.is_lost_back
        } else {
            self.is_lost_there
        }
    }

    /// Whether the listener has closed it.
    pub(crate) fn is_closed_there(&self) -> bool {
        self.is_closed_there
    }

    /// An end has closed it; false where it had before.
    pub(crate) fn close(&mut self, is_dialler: bool) -> bool {
        if is_dialler {
            let was = self.is_closed_here;
            self.is_closed_here = true;
            !was
        } else {
            let was = self.is_closed_there;
            self.is_closed_there = true;
            !was
        }
    }
}
