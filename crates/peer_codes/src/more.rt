ghost use Rattle.std.specs.Prelude.{◌≡◌, ◌≤◌, ◌↔◌, true, length, IsSome, IfSome};
ghost use Rattle.peer_codes.specs.declared.limits.TheConstants.{MOST_FRAME as MOST};
ghost use Rattle.peer_codes.specs.Mores.{is_more};

use crate::kind::is_more;
use crate::limits::MOST_FRAME;
use arrayvec::ArrayVec;
use paxos_wire::push_all;

/// A record of a kind without a name here. What its bytes mean is for whoever knows the kind to judge; who doesn't passes
/// it over.
#[derive(Drop)]
pub struct More {
    /// The byte of its kind: 4 to 255 without 108.
    pub kind: u8,
    /// As many bytes as a frame may have at most, and none at least.
    pub bytes: ArrayVec<u8, MOST_FRAME>,
}

impl More {
    /// A record of this kind with these bytes; `None` where its byte is below 4 or 108, or more than 4100 bytes are there.
    pub fn new(kind: u8, bytes: &[u8]) -> Option<More>
        ensures fits { IsSome result ↔ ((is_more kind ≡ true) × (length bytes.now ≤ MOST)) }
        ensures kind { IfSome result (λ more. more.kind ≡ kind) }
        ensures bytes { IfSome result (λ more. more.bytes.items ≡ bytes.now) }
    {
        if !is_more(kind) || bytes.len() > MOST_FRAME {
            return None;
        }
        let mut kept = ArrayVec::new();
        push_all(&mut kept, bytes);
        Some(More { kind, bytes: kept })
    }
}
