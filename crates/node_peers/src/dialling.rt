//! Which peers are dialled, and when.

ghost use Rattle.std.specs.Prelude.{◌≡◌, slice_get};
ghost use Rattle.node_peers.specs.Handing.{GoBack};
ghost use Rattle.node_peers.specs.Replacing.{AllFade};
ghost use Rattle.node_peers.specs.Turning.{version_in};

use crate::greeting::drawn;
use crate::limits::LINKS;
use crate::peer::{Outcome, Peer};
use crate::peers::Peers;
use node_links::DialDue;
use node_links::limits::LOOK;
use node_wires::Wire;
use peer_codes::Version;

/// The dial of a peer ended at this moment, of which this came.
#[tactic(auto, using(crate::proofs::Handing::back_at, crate::proofs::Handing::back_same, crate::proofs::Fading::fade_at, crate::proofs::Fading::fade_same))]
pub(crate) fn end_dial(peers: &mut Vec<Peer>, number: u8, now: u64, outcome: Outcome)
    ensures back { GoBack peers.old.items peers.new.items }
    ensures fade { AllFade peers.old.items peers.new.items }
{
    if let Some(peer) = peers.get_mut(number as usize) {
        peer.end_dial(now, outcome);
    }
}

/// Whether it is told now of a peer that its dials come to nothing; then whether the last ended by itself.
#[tactic(auto, using(crate::proofs::Handing::back_at, crate::proofs::Handing::back_same))]
fn tell_missed(peers: &mut Vec<Peer>, number: u8, now: u64) -> Option<bool>
    ensures { GoBack peers.old.items peers.new.items }
{
    match peers.get_mut(number as usize) {
        Some(peer) => peer.tell_missed(now),
        None => None,
    }
}

/// A peer is dialled at this moment over the line at a place.
#[tactic(auto, using(crate::proofs::Handing::back_at, crate::proofs::Handing::back_same))]
fn begin_dial(peers: &mut Vec<Peer>, number: u8, place: usize, now: u64)
    ensures { GoBack peers.old.items peers.new.items }
{
    if let Some(peer) = peers.get_mut(number as usize) {
        peer.begin_dial(place, now);
    }
}

/// The dial of a peer is needless.
#[tactic(auto, using(crate::proofs::Handing::back_at, crate::proofs::Handing::back_same))]
fn quit_dial(peers: &mut Vec<Peer>, number: u8, now: u64)
    ensures { GoBack peers.old.items peers.new.items }
{
    if let Some(peer) = peers.get_mut(number as usize) {
        peer.quit_dial(now);
    }
}

/// Nothing came of a dial that failed.
const NOTHING: Outcome = Outcome {
    is_fruitless: false,
    has_come: false,
    said: None,
};

impl Peers {
    ghost use Rattle.node_peers.specs.Peering.{Grew, Stays};

    /// The place of the line over which a peer is dialled next.
    fn next_place(&self, number: u8) -> usize {
        match self.peers.get(number as usize) {
            Some(peer) => peer.next_place(number),
            None => number as usize,
        }
    }

    /// Calls a peer over the line at a place. False where that failed, or no nonce was drawn.
    #[tactic(auto, using(crate::proofs::Growing::grew_on, crate::proofs::Growing::stayed, crate::proofs::Growing::stays_on, crate::proofs::Handing::handed_on, crate::proofs::Handing::handed_stays, crate::proofs::Handing::handed_grew, crate::proofs::Keyed::of_key))]
    pub(crate) fn call<W: Wire>(&mut self, wire: &mut W, number: u8, place: usize, now: u64) -> bool
        ensures { Grew self.old self.new (W.passed wire.old) (W.passed wire.new) }
    {
        let Some(link) = drawn(self.lines.own.key.is_some(), wire) else {
            return false;
        };
        let own = self.hello_to(number, self.version_of(number), link);
        self.lines.dial(wire, place, own, now)
    }

    /// In which version a peer is dialled.
    fn version_of(&self, number: u8) -> Version
        ensures { result ≡ version_in (slice_get self.now.peers.items number) }
    {
        match self.peers.get(number as usize) {
            Some(peer) => peer.turn.version(),
            None => Version::Second,
        }
    }

    /// Dials a peer.
    #[tactic(auto, using(crate::proofs::Growing::grew_on, crate::proofs::Growing::stayed, crate::proofs::Growing::stays_on, crate::proofs::Handing::handed_on, crate::proofs::Handing::handed_stays, crate::proofs::Handing::handed_grew, crate::proofs::Handing::back_at, crate::proofs::Handing::back_on))]
    pub(crate) fn dial<W: Wire>(&mut self, wire: &mut W, number: u8, now: u64)
        ensures { Grew self.old self.new (W.passed wire.old) (W.passed wire.new) }
    {
        let place = self.next_place(number);
        let has_begun = self.call(wire, number, place, now);
        begin_dial(&mut self.peers, number, place, now);
        if !has_begun {
            end_dial(&mut self.peers, number, now, NOTHING);
        }
    }

    /// What is due of the connection to a peer that this node dials.
    pub(crate) fn due(&self, number: u8, now: u64) -> DialDue {
        match self.peers.get(number as usize) {
            Some(peer) => peer.due(now, self.silence),
            None => DialDue::Nothing { wait: LOOK },
        }
    }

    /// Gives up what was dialled.
    #[tactic(auto, using(crate::proofs::Growing::grew_on, crate::proofs::Growing::stayed, crate::proofs::Growing::stays_on, crate::proofs::Handing::handed_on, crate::proofs::Handing::handed_stays, crate::proofs::Handing::handed_grew, crate::proofs::Handing::back_at))]
    fn give_up<W: Wire>(&mut self, wire: &mut W, number: u8, now: u64)
        ensures { Grew self.old self.new (W.passed wire.old) (W.passed wire.new) }
    {
        let Some(peer) = self.peers.get_mut(number as usize) else {
            return;
        };
        peer.give_up_dial();
        let place = peer.dialled;
        self.end(wire, place, now);
    }

    /// The place at which a peer that is heard again is being dialled anew, where the Hello that answers that didn't open it yet.
    fn needless(&self, number: u8, now: u64) -> Option<usize> {
        let peer = self.peers.get(number as usize)?;
        if peer.is_needless(now, self.silence) && self.lines.taken_at(peer.dialled).is_none() {
            Some(peer.dialled)
        } else {
            None
        }
    }

    /// Ends the dial of a peer at a place, which is needless.
    #[tactic(auto, using(crate::proofs::Growing::grew_on, crate::proofs::Growing::stayed, crate::proofs::Growing::stays_on, crate::proofs::Handing::handed_on, crate::proofs::Handing::handed_stays, crate::proofs::Handing::handed_grew))]
    fn quit<W: Wire>(&mut self, wire: &mut W, number: u8, place: usize, now: u64)
        ensures { Grew self.old self.new (W.passed wire.old) (W.passed wire.new) }
    {
        quit_dial(&mut self.peers, number, now);
        if place < LINKS {
            self.lines.close(wire, place);
        }
    }

    /// Dials a peer that is to be dialled, ends a dial that is needless, or gives up what isn't answered.
    #[tactic(auto, using(crate::proofs::Growing::grew_on, crate::proofs::Growing::stayed, crate::proofs::Growing::stays_on))]
    pub(crate) fn dial_if_due<W: Wire>(&mut self, wire: &mut W, number: u8, now: u64)
        ensures { Grew self.old self.new (W.passed wire.old) (W.passed wire.new) }
    {
        if let Some(place) = self.needless(number, now) {
            self.quit(wire, number, place, now);
            return;
        }
        match self.due(number, now) {
            DialDue::Dial => self.dial(wire, number, now),
            DialDue::GiveUp => self.give_up(wire, number, now),
            DialDue::Nothing { wait: _ } => (),
        }
    }

    /// Tells that dials of a peer come to nothing, where that is to be told.
    #[tactic(auto, using(crate::proofs::Handing::handed_on, crate::proofs::Handing::handed_stays, crate::proofs::Handing::handed_grew))]
    fn note_missed(&mut self, number: u8, now: u64)
        ensures { Stays self.old self.new }
    {
        if let Some(refuses) = tell_missed(&mut self.peers, number, now) {
            self.lines.note_unreached(number, refuses);
        }
    }

    /// Dials all peers of lesser numbers that are to be dialled, ends what is needless, gives up what isn't answered, and tells
    /// what comes to nothing.
    #[tactic(auto, using(crate::proofs::Growing::grew_on, crate::proofs::Growing::stayed, crate::proofs::Growing::stays_on))]
    pub(crate) fn dial_all<W: Wire>(&mut self, wire: &mut W, now: u64)
        ensures { Grew self.old self.new (W.passed wire.old) (W.passed wire.new) }
    {
        for number in 0..self.lines.own.number {
            self.dial_if_due(wire, number, now);
            self.note_missed(number, now);
        }
    }
}
