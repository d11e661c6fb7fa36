//! How connections end: by the wire, by a fault, or because they are stale.

ghost use Rattle.std.specs.Prelude.{◌≡◌, ◌≢◌, Some, None};
ghost use Rattle.node_peers.specs.Handing.{GoBack};
ghost use Rattle.node_peers.specs.Replacing.{AllFade, IsLeft, open_at};

use crate::dialling::end_dial;
use crate::limits::{LINKS, STRANGER};
use crate::link::dialled_at;
use crate::peer::{Outcome, Peer, shows_older};
use crate::peers::Peers;
use node_links::limits::NODES;
use node_links::{PeerFault, Refused};
use node_wires::Wire;
use peer_codes::Version;
use std::net::IpAddr;

/// The dial of a peer is closed by this fault, and a Hello of this version came first, if one did.
#[tactic(auto, using(crate::proofs::Handing::back_at, crate::proofs::Handing::back_same, crate::proofs::Fading::fade_at, crate::proofs::Fading::fade_same))]
pub(crate) fn refuse_dial(
    peers: &mut Vec<Peer>,
    number: u8,
    fault: PeerFault,
    said: Option<Version>,
    now: u64,
)
    ensures back { GoBack peers.old.items peers.new.items }
    ensures fade { AllFade peers.old.items peers.new.items }
{
    if let Some(peer) = peers.get_mut(number as usize) {
        peer.refuse_dial(fault, said, now);
    }
}

/// The connection to a peer ended at this moment.
#[tactic(auto, using(crate::proofs::Handing::back_at, crate::proofs::Handing::back_same, crate::proofs::Fading::fade_at, crate::proofs::Fading::fade_same, crate::proofs::Fading::open_there, crate::proofs::Fading::nobody_there))]
fn part(peers: &mut Vec<Peer>, number: u8, now: u64)
    ensures back { GoBack peers.old.items peers.new.items }
    ensures fade { AllFade peers.old.items peers.new.items }
    ensures gone { open_at peers.new.items number ≡ None }
{
    if let Some(peer) = peers.get_mut(number as usize) {
        peer.part(now);
    }
}

/// Whether this fault of a peer is told now.
#[tactic(auto, using(crate::proofs::Handing::back_at, crate::proofs::Handing::back_same, crate::proofs::Fading::fade_at, crate::proofs::Fading::fade_same))]
pub(crate) fn tells(peers: &mut Vec<Peer>, number: u8, fault: PeerFault, now: u64) -> bool
    ensures back { GoBack peers.old.items peers.new.items }
    ensures fade { AllFade peers.old.items peers.new.items }
{
    match peers.get_mut(number as usize) {
        Some(peer) => peer.tells(fault, now),
        None => false,
    }
}

/// One more is refused from an address of a peer.
#[tactic(auto, using(crate::proofs::Handing::back_at, crate::proofs::Handing::back_same, crate::proofs::Handing::goes_same, crate::proofs::Fading::fade_at, crate::proofs::Fading::fade_same, crate::proofs::Fading::fades_same))]
fn count_refused(peers: &mut Vec<Peer>, number: u8, fault: PeerFault)
    ensures back { GoBack peers.old.items peers.new.items }
    ensures fade { AllFade peers.old.items peers.new.items }
{
    if let Some(peer) = peers.get_mut(number as usize) {
        peer.refusals.refuse(fault);
    }
}

/// What is told next of those who were refused from addresses of a peer, if anything is.
#[tactic(auto, using(crate::proofs::Handing::back_at, crate::proofs::Handing::back_same, crate::proofs::Handing::goes_same))]
fn next_refused(peers: &mut Vec<Peer>, number: u8, now: u64) -> Option<Refused>
    ensures { GoBack peers.old.items peers.new.items }
{
    match peers.get_mut(number as usize) {
        Some(peer) => peer.refusals.note(now),
        None => None,
    }
}

impl Peers {
    ghost use Rattle.node_peers.specs.Peering.{Grew, Stays};

    /// The peer that was dialled by the connection at a place.
    pub(crate) fn dialled_at(&self, place: usize) -> Option<u8> {
        let _ = self.lines.at(place)?;
        dialled_at(place)
    }

    /// The peer whose last dial is the connection at a place.
    pub(crate) fn last_dialled_at(&self, place: usize) -> Option<u8> {
        let number = self.dialled_at(place)?;
        if self.peers.get(number as usize)?.dialled == place {
            Some(number)
        } else {
            None
        }
    }

    /// The peer that is there by the connection at a place.
    pub(crate) fn joined_at(&self, place: usize) -> Option<u8> {
        for number in 0..NODES {
            if self.open_at(number as u8) == Some(place) {
                return Some(number as u8);
            }
        }
        None
    }

    /// Whether a peer is there by the connection at a place, and nothing came of it yet but its Hello: so the other side may
    /// have refused this one's.
    pub(crate) fn is_fruitless(&self, place: usize) -> bool {
        let Some(number) = self.joined_at(place) else {
            return false;
        };
        match self.peers.get(number as usize) {
            Some(peer) => peer.beat.is_none(),
            None => false,
        }
    }

    /// What came of the connection at a place.
    fn outcome(&self, place: usize) -> Outcome {
        let is_fruitless = self.is_fruitless(place);
        match self.lines.at(place) {
            Some(link) => Outcome {
                is_fruitless,
                has_come: link.has_come,
                said: link.heading.version(),
            },
            None => Outcome {
                is_fruitless,
                has_come: false,
                said: None,
            },
        }
    }

    /// Whoever is there by the connection at a place is gone.
    #[tactic(auto, using(crate::proofs::Growing::stays_on, crate::proofs::Handing::handed_on, crate::proofs::Handing::handed_stays, crate::proofs::Fading::fade_same, crate::proofs::Fading::fade_on, crate::proofs::Fading::left_next))]
    pub(crate) fn leave(&mut self, place: usize, now: u64)
        ensures stays { Stays self.old self.new }
        ensures fade { AllFade self.old.peers.items self.new.peers.items }
        ensures left { IsLeft place self.new.peers.items }
    {
        for number in 0..NODES {
            self.leave_by(number as u8, place, now);
        }
    }

    /// A peer is gone, where it is there by the connection at a place.
    #[tactic(auto, using(crate::proofs::Handing::handed_on, crate::proofs::Handing::handed_stays, crate::proofs::Fading::fade_same))]
    fn leave_by(&mut self, number: u8, place: usize, now: u64)
        ensures stays { Stays self.old self.new }
        ensures fade { AllFade self.old.peers.items self.new.peers.items }
        ensures left { open_at self.new.peers.items number ≢ Some place }
    {
        if self.open_at(number) != Some(place) {
            return;
        }
        part(&mut self.peers, number, now);
        self.lines.note_gone(number);
    }

    /// Ends the connection at a place, if one is there.
    #[tactic(auto, using(crate::proofs::Growing::grew_on, crate::proofs::Growing::stayed, crate::proofs::Growing::stays_on, crate::proofs::Handing::handed_on, crate::proofs::Handing::handed_stays, crate::proofs::Handing::handed_grew, crate::proofs::Fading::fade_on, crate::proofs::Fading::left_on))]
    pub(crate) fn end<W: Wire>(&mut self, wire: &mut W, place: usize, now: u64)
        ensures grew { Grew self.old self.new (W.passed wire.old) (W.passed wire.new) }
        ensures fade { AllFade self.old.peers.items self.new.peers.items }
        ensures left { IsLeft place self.new.peers.items }
    {
        let outcome = self.outcome(place);
        self.leave(place, now);
        self.end_dialled(place, now, outcome);
        if place < LINKS {
            self.lines.close(wire, place);
        }
    }

    /// The connection at a place ends: where that is the last dial of a peer, it ended.
    #[tactic(auto, using(crate::proofs::Handing::handed_on, crate::proofs::Handing::handed_stays, crate::proofs::Handing::handed_grew, crate::proofs::Fading::fade_same))]
    fn end_dialled(&mut self, place: usize, now: u64, outcome: Outcome)
        ensures stays { Stays self.old self.new }
        ensures fade { AllFade self.old.peers.items self.new.peers.items }
    {
        if let Some(number) = self.last_dialled_at(place) {
            end_dial(&mut self.peers, number, now, outcome);
        }
    }

    /// The place by which a peer is there.
    pub(crate) fn open_at(&self, number: u8) -> Option<usize>
        ensures { result ≡ open_at self.now.peers.items number }
    {
        self.peers.get(number as usize)?.open
    }

    /// This fault of a peer, at whose connection's other end this address is, is told, where it is time for that.
    #[tactic(auto, using(crate::proofs::Handing::handed_on, crate::proofs::Handing::handed_stays, crate::proofs::Handing::handed_grew, crate::proofs::Fading::fade_same))]
    pub(crate) fn note_refused(
        &mut self,
        peer: u8,
        fault: PeerFault,
        source: Option<IpAddr>,
        now: u64,
    )
        ensures stays { Stays self.old self.new }
        ensures fade { AllFade self.old.peers.items self.new.peers.items }
    {
        if tells(&mut self.peers, peer, fault, now) {
            self.lines.note_refused(peer, fault, source);
        }
    }

    /// The connection at a place, at whose other end this address is, is closed by a fault, which is told once: of the peer
    /// that is known, or counted among the callers who aren't. Where the fault shows that the peer is an older node, which is
    /// dialled in its version next, it isn't told.
    #[tactic(auto, using(crate::proofs::Handing::handed_on, crate::proofs::Handing::handed_stays, crate::proofs::Handing::handed_grew, crate::proofs::Fading::fade_same, crate::proofs::Fading::fade_on))]
    pub(crate) fn refuse(
        &mut self,
        place: usize,
        fault: PeerFault,
        source: Option<IpAddr>,
        now: u64,
    )
        ensures stays { Stays self.old self.new }
        ensures fade { AllFade self.old.peers.items self.new.peers.items }
    {
        let Some(link) = self.lines.at(place) else {
            return;
        };
        let dialled = dialled_at(place);
        let known = link.known(dialled, self.joined_at(place), fault);
        let said = link.heading.version();
        let is_older = self.is_older(dialled, said);
        let last_dialled = self.last_dialled_at(place);
        self.leave(place, now);
        if !self.lines.refuse(place) {
            return;
        }
        self.refuse_dialled(last_dialled, fault, said, now);
        if is_older {
            return;
        }
        self.tell_refused(known, fault, source, now);
    }

    /// Whether the Hello of this version that came first, if one did, shows that the peer that was dialled is an older node.
    fn is_older(&self, dialled: Option<u8>, said: Option<Version>) -> bool {
        let Some(number) = dialled else {
            return false;
        };
        match self.peers.get(number as usize) {
            Some(peer) => shows_older(peer.turn, said),
            None => false,
        }
    }

    /// This fault is told of the peer that is known, or counted among those of callers who aren't.
    #[tactic(auto, using(crate::proofs::Handing::handed_on, crate::proofs::Handing::handed_stays, crate::proofs::Handing::handed_grew, crate::proofs::Fading::fade_same, crate::proofs::Fading::fade_on))]
    fn tell_refused(
        &mut self,
        known: Option<u8>,
        fault: PeerFault,
        source: Option<IpAddr>,
        now: u64,
    )
        ensures stays { Stays self.old self.new }
        ensures fade { AllFade self.old.peers.items self.new.peers.items }
    {
        match known {
            Some(peer) => self.note_refused(peer, fault, source, now),
            None => self.count_refused(source, fault),
        }
    }

    /// One more is refused who isn't known, from an address of a peer or from another.
    #[tactic(auto, using(crate::proofs::Handing::handed_on, crate::proofs::Handing::handed_stays, crate::proofs::Handing::handed_grew, crate::proofs::Fading::fade_same))]
    fn count_refused(&mut self, source: Option<IpAddr>, fault: PeerFault)
        ensures stays { Stays self.old self.new }
        ensures fade { AllFade self.old.peers.items self.new.peers.items }
    {
        match self.peer_at(source) {
            Some(number) => count_refused(&mut self.peers, number, fault),
            None => self.refusals.refuse(fault),
        }
    }

    /// The peer whose address this is, if it is one's.
    fn peer_at(&self, source: Option<IpAddr>) -> Option<u8> {
        let source = source?;
        for address in &self.addresses {
            if address.at == source {
                return Some(address.node);
            }
        }
        None
    }

    /// The peer whose last dial it was, if it was one's, is refused by a fault; a Hello of this version came first, if one did.
    #[tactic(auto, using(crate::proofs::Handing::handed_on, crate::proofs::Handing::handed_stays, crate::proofs::Handing::handed_grew, crate::proofs::Fading::fade_same))]
    fn refuse_dialled(
        &mut self,
        dialled: Option<u8>,
        fault: PeerFault,
        said: Option<Version>,
        now: u64,
    )
        ensures stays { Stays self.old self.new }
        ensures fade { AllFade self.old.peers.items self.new.peers.items }
    {
        if let Some(number) = dialled {
            refuse_dial(&mut self.peers, number, fault, said, now);
        }
    }

    /// Whether nothing more comes over the line at a place.
    pub(crate) fn has_ended(&self, place: usize) -> bool {
        match self.lines.at(place) {
            Some(link) => link.has_ended,
            None => false,
        }
    }

    /// Whether a peer that is there has been silent for so long that its connection is closed.
    fn is_lost(&self, number: u8, now: u64) -> bool {
        match self.peers.get(number as usize) {
            Some(peer) => peer.is_lost(now, self.silence),
            None => true,
        }
    }

    /// The connection at a place is closed because the peer that is there by it, if one is, was silent for too long.
    #[tactic(auto, using(crate::proofs::Handing::handed_on, crate::proofs::Handing::handed_stays, crate::proofs::Handing::handed_grew, crate::proofs::Handing::back_at))]
    fn note_silence(&mut self, place: usize, now: u64)
        ensures { Stays self.old self.new }
    {
        let Some(number) = self.joined_at(place) else {
            return;
        };
        if let Some(peer) = self.peers.get_mut(number as usize) {
            peer.close(now);
        }
    }

    /// Whether the connection at a place has been silent for too long, or isn't open for too long.
    pub(crate) fn is_stale(&self, place: usize, now: u64) -> bool {
        let Some(link) = self.lines.at(place) else {
            return false;
        };
        match self.joined_at(place) {
            Some(number) => self.is_lost(number, now),
            None => dialled_at(place).is_none() && now.saturating_sub(link.began) >= STRANGER,
        }
    }

    /// Ends the connection at a place, where that has ended or is stale.
    #[tactic(auto, using(crate::proofs::Growing::stayed))]
    fn end_if_stale<W: Wire>(&mut self, wire: &mut W, place: usize, now: u64)
        ensures { Grew self.old self.new (W.passed wire.old) (W.passed wire.new) }
    {
        if self.has_ended(place) {
            self.end(wire, place, now);
        } else if self.is_stale(place, now) {
            self.note_silence(place, now);
            self.end(wire, place, now);
        }
    }

    /// Ends the connections that have ended or are stale, and has it known who speaks over the others.
    pub(crate) fn end_stale<W: Wire>(&mut self, wire: &mut W, now: u64)
        ensures { Grew self.old self.new (W.passed wire.old) (W.passed wire.new) }
    {
        for place in 0..LINKS {
            self.end_if_stale(wire, place, now);
            self.know(wire, place);
        }
    }

    /// Tells how many callers were refused, where that is to be told: of those from no peer's address, and of those from
    /// each peer's.
    #[tactic(auto, using(crate::proofs::Growing::stays_on, crate::proofs::Handing::handed_on, crate::proofs::Handing::handed_stays, crate::proofs::Handing::handed_grew))]
    pub(crate) fn note_refusals(&mut self, now: u64)
        ensures { Stays self.old self.new }
    {
        self.note_others(now);
        for number in 0..NODES {
            self.note_callers(number as u8, now);
        }
    }

    /// Tells how many callers from no peer's address were refused, of each number where that is to be told.
    #[tactic(auto, using(crate::proofs::Growing::stays_on, crate::proofs::Handing::handed_on, crate::proofs::Handing::handed_stays, crate::proofs::Handing::handed_grew))]
    fn note_others(&mut self, now: u64)
        ensures { Stays self.old self.new }
    {
        for _ in 0..u64::MAX {
            let Some(refused) = self.refusals.note(now) else {
                return;
            };
            self.lines
                .note_strangers(None, refused.count, refused.fault);
        }
    }

    /// The same of those from addresses of a peer.
    #[tactic(auto, using(crate::proofs::Growing::stays_on, crate::proofs::Handing::handed_on, crate::proofs::Handing::handed_stays, crate::proofs::Handing::handed_grew))]
    fn note_callers(&mut self, number: u8, now: u64)
        ensures { Stays self.old self.new }
    {
        for _ in 0..u64::MAX {
            let Some(refused) = next_refused(&mut self.peers, number, now) else {
                return;
            };
            self.lines
                .note_strangers(Some(number), refused.count, refused.fault);
        }
    }
}
