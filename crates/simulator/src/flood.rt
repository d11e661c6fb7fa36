//! Strangers who come to one port of a node, one after another.

use std::alloc::{AllocError, Global};
use traffic::{Order, Party};

/// A second, and how long a stranger stays who is silent or said something wrong.
const SECOND: u64 = 1_000_000;

/// From so many addresses they come.
const ADDRESSES: u64 = 64;

/// What a stranger of a flood does.
#[derive(Clone, Copy, Debug, PartialEq, Eq)]
pub(crate) enum Kind {
    /// He closes his connection at once.
    Closes,
    /// He breaks it off at once.
    Resets,
    /// He says nothing for a second.
    Silent,
    /// He says what isn't right: at a seat's port a token that no seat has, at that of peers an empty record.
    Wrong,
}

impl Kind {
    /// Whether he keeps his connection for a second.
    pub(crate) fn stays(self) -> bool {
        matches!(self, Kind::Silent | Kind::Wrong)
    }
}

/// Strangers who come to one port of a node, one after another.
#[derive(Drop)]
pub(crate) struct Flood {
    pub(crate) node: u8,
    /// A seat's number, 254 for the port of peers, 255 for that of the status.
    pub(crate) port: u8,
    pub(crate) kind: Kind,
    /// One comes each so often.
    period: u64,
    /// When the next one comes, and when no more come.
    next: u64,
    until: u64,
    /// How many of them stay at once, and the connections of all of them.
    stay: usize,
    came: Vec<u32>,
    is_told: bool,
}

/// Which kind a number is of.
fn kind_of(number: u64) -> Kind {
    match number {
        0 => Kind::Closes,
        1 => Kind::Resets,
        2 => Kind::Silent,
        _ => Kind::Wrong,
    }
}

impl Flood {
    /// The strangers of an order NODE PORT RATE KIND MICROSECONDS: so many a second, of kind 0 who close their connections at once, of
    /// 1 who break them off, of 2 who are silent, of 3 who say what isn't right.
    pub(crate) fn new(alloc: Global, order: &Order) -> Flood {
        let rate = order.number(2).max(1);
        Flood {
            node: order.byte(0),
            port: order.byte(1),
            kind: kind_of(order.number(3)),
            period: (SECOND / rate).max(1),
            next: order.moment,
            until: order.moment.saturating_add(order.number(4)),
            stay: rate.min(SECOND) as usize,
            came: Vec::new(alloc),
            is_told: false,
        }
    }

    /// When something of it happens next.
    pub(crate) fn next(&self) -> u64 {
        if self.is_told { u64::MAX } else { self.next }
    }

    /// Whether no more of them come; how many came in all.
    pub(crate) fn end(&mut self) -> Option<usize> {
        if self.next < self.until {
            return None;
        }
        self.is_told = true;
        Some(self.came.len())
    }

    /// Who comes next.
    pub(crate) fn comer(&self) -> Party {
        Party::Stranger((self.came.len() as u64 % ADDRESSES) as u8)
    }

    /// One came by this connection: the connection of the one who goes now, if one does.
    pub(crate) fn come(&mut self, connection: u32) -> Result<Option<u32>, AllocError> {
        let place = self.came.len();
        self.came.push(connection)?;
        self.next = self.next.saturating_add(self.period);
        match place.checked_sub(self.stay) {
            Some(place) => Ok(self.came.get(place).copied()),
            None => Ok(None),
        }
    }

    /// The port as a dial says it.
    pub(crate) fn seat(&self) -> Option<u8> {
        match self.port {
            254 => None,
            seat => Some(seat),
        }
    }
}
