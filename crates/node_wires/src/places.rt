//! Which place one who comes by himself is given.

ghost use Rattle.std.specs.Prelude.{◌≡◌, MatchOption};
ghost use Rattle.node_wires.specs.Places.{places_of, is_open_to_guest};

use crate::comer::Comer;
use crate::coming::{Best, Coming, Stander, better};
use crate::connections::Connections;
use crate::limits::{DOORS, KEPT, ORDINARY, OTHERS, STRANGERS};
use std::net::IpAddr;

/// Whether a guest of a seat may have this place: one of those of any seat, or of its own.
pub(crate) fn is_open_to_guest(seat: u8, place: u8) -> bool
    ensures { result ≡ is_open_to_guest seat place }
{
    let place = place as usize;
    if place < ORDINARY {
        true
    } else {
        (place - ORDINARY) / DOORS == seat as usize
    }
}

impl Connections {
    ghost use Rattle.node_wires.specs.Places.{standing_at, is_stranger_at, strangers_below, is_kept_for, is_open_to, is_crowded, coming_by, rank, IsBest, IsFor, IsForNobody};

    /// Who stands at a place.
    fn standing(&self, comer: Comer, place: u8) -> Option<Stander>
        ensures { result ≡ standing_at self.now.lines.items comer place }
    {
        match self.lines.get(comer.first() + place as usize) {
            Some(Some(wired)) => Some(wired.who()),
            Some(None) => None,
            None => None,
        }
    }

    /// Whether a stranger of this address stands at a place.
    fn is_stranger_at(&self, comer: Comer, address: IpAddr, place: u8) -> bool
        ensures { result ≡ is_stranger_at self.now.lines.items comer address place }
    {
        match self.standing(comer, place) {
            Some(who) => who.is_stranger_of(address),
            None => false,
        }
    }

    /// How many strangers of an address stand there.
    fn strangers(&self, comer: Comer, address: IpAddr) -> usize
        ensures { result ≡ strangers_below self.now.lines.items comer address (places_of comer) }
    {
        let mut count = 0usize;
        for place in 0..comer.places() {
            if self.is_stranger_at(comer, address, place) {
                count += 1;
            }
        }
        count
    }

    /// Whether places are kept for one who comes from this address.
    fn is_kept_for(&self, comer: Comer, address: IpAddr) -> bool
        ensures { result ≡ is_kept_for comer self.now.nodes address }
    {
        match comer {
            Comer::Caller => self.nodes.is_home(address),
            Comer::Guest(_) => false,
            Comer::Asker => false,
        }
    }

    /// Whether one who comes from this address may have this place.
    fn is_open_to(&self, comer: Comer, address: IpAddr, place: u8) -> bool
        ensures { result ≡ is_open_to comer self.now.nodes address place }
    {
        match comer {
            Comer::Caller => {
                let place = place as usize;
                if place < OTHERS {
                    !self.nodes.is_home(address)
                } else {
                    let node = (place - OTHERS) / KEPT;
                    self.nodes.dials_from(node as u8, address)
                }
            }
            Comer::Guest(seat) => is_open_to_guest(seat, place),
            Comer::Asker => true,
        }
    }

    /// Whether too many strangers of this address stand there, and no place is kept for it.
    fn is_crowded(&self, comer: Comer, address: IpAddr) -> bool
        ensures { result ≡ is_crowded self.now.lines.items comer self.now.nodes address }
    {
        !self.is_kept_for(comer, address) && STRANGERS <= self.strangers(comer, address)
    }

    /// One who comes from an address at this moment.
    fn coming(&self, comer: Comer, address: IpAddr, now: u64) -> Coming
        ensures { result ≡ coming_by self.now.lines.items comer self.now.nodes address now }
    {
        let is_crowded = self.is_crowded(comer, address);
        Coming {
            comer,
            address,
            now,
            is_crowded,
        }
    }

    /// How soon one who comes takes a place; none of one that he doesn't take.
    fn rank(&self, coming: Coming, place: u8) -> Option<u64>
        ensures { result ≡ rank self.now.nodes self.now.lines.items coming place }
    {
        if self.is_open_to(coming.comer, coming.address, place) {
            coming.rank(place, self.standing(coming.comer, place))
        } else {
            None
        }
    }

    /// The place that one who comes takes, if there is one.
    fn best_for(&self, coming: Coming) -> Option<Best>
        ensures { IsBest (rank self.now.nodes self.now.lines.items coming) (places_of coming.comer) result }
    {
        let mut best = None;
        for place in 0..coming.comer.places() {
            let rank = self.rank(coming, place);
            best = better(best, place, rank);
        }
        best
    }

    /// The place for one who comes from an address at this moment, if there is one: of those that are open to him a free one,
    /// else that of the stranger who came first; where too many of his address stand there, that of the first of them. No
    /// stranger makes room before his time. A guest for whom there is none has a free one of his seat alone.
    #[tactic(auto, using(crate::proofs::Choosing::is_for))]
    pub(crate) fn place_for(&self, comer: Comer, address: IpAddr, now: u64) -> Option<u8>
        ensures { MatchOption result (IsForNobody self.now.nodes self.now.lines.items comer address now) (IsFor self.now.nodes self.now.lines.items comer address now) }
    {
        match self.best_for(self.coming(comer, address, now)) {
            Some(best) => Some(best.place),
            None => None,
        }
    }
}
