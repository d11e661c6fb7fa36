//! Who came to seats without their tokens, for notes: of each seat one a second at most, which says how many it were.

ghost use Rattle.std.specs.Prelude.{◌≡◌, ◌<◌, ℕ};
ghost use Rattle.node_links.specs.Refusing.{is_noted};
ghost use Rattle.node_service.specs.declared.limits.TheConstants.{SEATS as COUNT};
ghost use Rattle.node_service.specs.WrongTokens.{nobody, untold_at, and_one, due_of, told_at, Becomes};

use crate::limits::{PLACES, SEATS};
use node_links::limits::NOTED;
use std::net::IpAddr;

/// So many came to a seat without its token since the last note of it, when that was, in whole microseconds, and from where the
/// last one came.
#[derive(Clone, Copy)]
pub(crate) struct Untold {
    count: u32,
    noted: Option<u64>,
    /// The address of the last of them, where it is known.
    source: Option<IpAddr>,
}

/// The same of each seat, by its number.
#[derive(Clone, Copy)]
pub(crate) struct WrongTokens {
    all: [Untold; PLACES],
}

/// Nobody came, and no note was made.
const NOBODY: Untold = Untold {
    count: 0,
    noted: None,
    source: None,
};

/// Whether a note may follow the one that was made at that moment.
pub(crate) fn is_noted(noted: Option<u64>, now: u64) -> bool
    ensures { result ≡ is_noted noted now }
{
    match noted {
        Some(at) => NOTED <= now.saturating_sub(at),
        None => true,
    }
}

impl WrongTokens {
    /// Nobody came to any seat.
    pub(crate) fn new() -> WrongTokens
        ensures { (seat : ℕ) → untold_at result seat ≡ nobody }
    {
        WrongTokens {
            all: [NOBODY; PLACES],
        }
    }

    /// Who came to a seat; nobody where there is no such seat.
    fn at(&self, seat: u8) -> Untold
        ensures { result ≡ untold_at self.now seat }
    {
        match self.all.get(seat as usize) {
            Some(untold) => *untold,
            None => NOBODY,
        }
    }

    /// One more came to a seat, from this address, where it is known.
    pub(crate) fn count(&mut self, seat: u8, source: Option<IpAddr>)
        ensures { seat < COUNT → Becomes seat (and_one source (untold_at self.old seat)) self.old self.new }
    {
        if seat >= SEATS {
            return;
        }
        let Untold { count, noted, .. } = self.at(seat);
        let untold = Untold {
            count: count.saturating_add(1),
            noted,
            source,
        };
        self.all[seat as usize] = untold;
    }

    /// From where the last one came, where that is known.
    pub(crate) fn source(&self, seat: u8) -> Option<IpAddr>
        ensures { result ≡ (untold_at self.now seat).source }
    {
        self.at(seat).source
    }

    /// How many are to be told now of a seat; 0 where nobody came, or where the last note is too new.
    pub(crate) fn due(&self, seat: u8, now: u64) -> u32
        ensures { result ≡ due_of (untold_at self.now seat) now }
    {
        let Untold { count, noted, .. } = self.at(seat);
        if is_noted(noted, now) { count } else { 0 }
    }

    /// All who came to a seat are told now.
    pub(crate) fn tell(&mut self, seat: u8, now: u64)
        requires { seat < COUNT }
        ensures { Becomes seat (told_at now) self.old self.new }
    {
        self.all[seat as usize] = Untold {
            count: 0,
            noted: Some(now),
            source: None,
        };
    }
}
