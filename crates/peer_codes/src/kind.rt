ghost use Rattle.std.specs.Prelude.{◌≡◌};
ghost use Rattle.peer_codes.specs.Mores.{is_more};
ghost use Rattle.peer_codes.specs.Kinds.{kind_byte, kind_told};

use crate::limits::{LEAST_MORE, NO_KIND};

/// Whether a byte tells a kind that has no name here: from 4 on, but not 108, which tells no kind.
pub(crate) fn is_more(byte: u8) -> bool
    ensures { result ≡ is_more byte }
{
    byte >= LEAST_MORE && byte != NO_KIND
}

/// The kinds of records, each with the byte that tells it.
#[derive(Clone, Copy, Debug, PartialEq, Eq)]
pub enum Kind {
    /// 0: who speaks, first of all.
    Hello,
    /// 1: that the speaker has the key.
    Proof,
    /// 2: a frame of a node.
    Frame,
    /// 3: how the speaker is.
    Beat,
    /// 4 to 255 without 108, by this byte: what may come behind Hellos of the second version alone.
    More(u8),
}

impl Kind {
    /// The kind that a byte tells; `None` for 108 alone.
    pub fn of_byte(byte: u8) -> Option<Kind>
        ensures { result ≡ kind_told byte }
    {
        match byte {
            0 => Some(Kind::Hello),
            1 => Some(Kind::Proof),
            2 => Some(Kind::Frame),
            3 => Some(Kind::Beat),
            _ => {
                if is_more(byte) {
                    Some(Kind::More(byte))
                } else {
                    None
                }
            }
        }
    }

    /// The byte that tells it.
    pub fn byte(self) -> u8
        ensures { result ≡ kind_byte self }
    {
        match self {
            Kind::Hello => 0,
            Kind::Proof => 1,
            Kind::Frame => 2,
            Kind::Beat => 3,
            Kind::More(byte) => byte,
        }
    }
}
