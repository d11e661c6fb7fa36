//! Who stands at a place, who comes, and who makes room for whom.

ghost use Rattle.std.specs.Prelude.{◌≡◌};
ghost use Rattle.node_wires.specs.Places.{is_door, stay_of, is_stranger_of, may_go, free_rank, rank_of, better};

use crate::comer::Comer;
use crate::limits::{LAST, ORDINARY, OTHERS, STANDS};
use crate::nodes::is_same;
use std::net::IpAddr;

/// Who is at the other end of a connection.
#[derive(Clone, Copy)]
pub(crate) struct Stander {
    pub(crate) address: IpAddr,
    /// He came as the one of this number, as long as it isn't known who he is; none of one who is known.
    pub(crate) turn: Option<u64>,
    /// When he came, in microseconds.
    pub(crate) since: u64,
}

/// One who comes by himself.
#[derive(Clone, Copy)]
pub(crate) struct Coming {
    pub(crate) comer: Comer,
    pub(crate) address: IpAddr,
    /// The present moment, in microseconds.
    pub(crate) now: u64,
    /// Too many of his address stand there of whom it isn't known who they are.
    pub(crate) is_crowded: bool,
}

/// A place, and how soon it is to be taken: the less the sooner.
#[derive(Clone, Copy)]
pub(crate) struct Best {
    pub(crate) place: u8,
    pub(crate) rank: u64,
}

/// Whether this place is one of those that are of one seat alone.
fn is_door(comer: Comer, place: u8) -> bool
    ensures { result ≡ is_door comer place }
{
    match comer {
        Comer::Caller => false,
        Comer::Guest(_) => place as usize >= ORDINARY,
        Comer::Asker => false,
    }
}

/// For how long at least one stands at this place before he makes room.
fn stay_of(comer: Comer, place: u8) -> u64
    ensures { result ≡ stay_of comer place }
{
    match comer {
        Comer::Caller => { if (place as usize) < OTHERS { STANDS } else { 0 } }
        Comer::Guest(_) => STANDS,
        Comer::Asker => 0,
    }
}

impl Stander {
    /// Whether it isn't known who he is, and he came from this address.
    pub(crate) fn is_stranger_of(self, address: IpAddr) -> bool
        ensures { result ≡ is_stranger_of address self }
    {
        self.turn.is_some() && is_same(self.address, address)
    }
}

impl Coming {
    /// Whether one who has stood there makes room for him, where he stays there for so long at least.
    fn may_go(self, who: Stander, stay: u64) -> bool
        ensures { result ≡ may_go self stay who }
    {
        stay <= self.now.saturating_sub(who.since)
            && (!self.is_crowded || is_same(who.address, self.address))
    }

    /// How soon he is to take this place where nobody stands there: none where too many of his address stand, but one of his
    /// seat alone after all others.
    fn free_rank(self, place: u8) -> Option<u64>
        ensures { result ≡ free_rank self place }
    {
        if is_door(self.comer, place) {
            return Some(LAST);
        }
        if self.is_crowded { None } else { Some(0) }
    }

    /// How soon he is to take this place, at which this one stands or nobody.
    pub(crate) fn rank(self, place: u8, standing: Option<Stander>) -> Option<u64>
        ensures { result ≡ rank_of self place standing }
    {
        match standing {
            Some(who) => {
                if self.may_go(who, stay_of(self.comer, place)) {
                    who.turn
                } else {
                    None
                }
            }
            None => self.free_rank(place),
        }
    }
}

/// The place that is to be taken sooner: the best of those before, or this one.
pub(crate) fn better(best: Option<Best>, place: u8, rank: Option<u64>) -> Option<Best>
    ensures { result ≡ better best place rank }
{
    match (best, rank) {
        (None, Some(rank)) => Some(Best { place, rank }),
        (Some(before), Some(rank)) => {
            if rank < before.rank {
                Some(Best { place, rank })
            } else {
                best
            }
        }
        (_, None) => best,
    }
}
