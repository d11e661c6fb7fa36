ghost use Rattle.std.specs.Prelude.{◌≡◌};
ghost use Rattle.node_seats.specs.Pieces.{may_have_more};

use crate::limits::PIECE;
use std::net::IpAddr;

/// What came of a seat.
#[derive(Drop)]
pub enum SeatNotice {
    /// A bot was taken in.
    Came { seat: u8 },
    /// It sent these bytes.
    Piece { seat: u8, bytes: Vec<u8> },
    /// Its connection ended, or was closed: it named no version in time, or is to make room for one who showed the seat's token.
    Gone { seat: u8 },
    /// Who came to its port didn't show its token: from this address, where it is known.
    Refused { seat: u8, source: Option<IpAddr> },
    /// Memory was refused, so nothing was read of it.
    Unread { seat: u8 },
}

impl SeatNotice {
    /// Whether more of the same seat may be had at once. Behind a piece that is shorter than it may be there is nothing: that
    /// was all that had come. Where memory was refused nothing is had at once, but later there may be.
    pub fn may_have_more(&self) -> bool
        ensures { result ≡ may_have_more self.now }
    {
        match self {
            SeatNotice::Piece { seat: _, bytes } => bytes.len() == PIECE,
            SeatNotice::Came { .. } | SeatNotice::Gone { .. } | SeatNotice::Refused { .. } => true,
            SeatNotice::Unread { .. } => false,
        }
    }
}
