//! What came over the lines: who dialled, and what peers said.

ghost use Rattle.std.specs.Prelude.{◌≡◌, ◌<◌, true, false};
ghost use Rattle.node_peers.specs.Handing.{GoBack};
ghost use Rattle.node_peers.specs.Replacing.{AreClosed};

use crate::limits::LINKS;
use crate::lines::Came;
use crate::link::line_at;
use crate::peer::Peer;
use crate::peers::Peers;
use node_links::{Further, Lives, Subject};
use node_wires::Wire;
use peer_codes::{Beat, Hello};

/// A frame of a peer came by the connection at a place, which answers this.
#[tactic(auto, using(crate::proofs::Handing::back_at, crate::proofs::Handing::back_same))]
pub(crate) fn take_frame(
    peers: &mut Vec<Peer>,
    from: u8,
    place: usize,
    answered: Option<Subject>,
    now: u64,
)
    ensures { GoBack peers.old.items peers.new.items }
{
    if let Some(peer) = peers.get_mut(from as usize) {
        if peer.open == Some(place) {
            peer.take_frame(answered, now);
        }
    }
}

/// A beat of a peer came by the connection at a place.
#[tactic(auto, using(crate::proofs::Handing::back_at, crate::proofs::Handing::back_same))]
pub(crate) fn take_beat(peers: &mut Vec<Peer>, from: u8, place: usize, beat: Beat, now: u64)
    ensures { GoBack peers.old.items peers.new.items }
{
    if let Some(peer) = peers.get_mut(from as usize) {
        if peer.open == Some(place) {
            peer.take_beat(beat, now);
        }
    }
}

/// A peer told these lives by the connection at a place.
#[tactic(auto, using(crate::proofs::Handing::back_at, crate::proofs::Handing::back_same))]
fn take_lives(peers: &mut Vec<Peer>, from: u8, place: usize, lives: &Lives)
    ensures { GoBack peers.old.items peers.new.items }
{
    if let Some(peer) = peers.get_mut(from as usize) {
        if peer.open == Some(place) {
            peer.take_lives(lives);
        }
    }
}

impl Peers {
    ghost use Rattle.node_peers.specs.Peering.{own_of, is_full, Grew};

    /// Takes in the next one who dialled, unless too much waits to be told, and hears him; then it ends whom a second life of a
    /// store ends. False where nobody was taken in.
    #[tactic(auto, using(crate::proofs::Growing::grew_on, crate::proofs::Growing::stayed, crate::proofs::Growing::stays_on))]
    pub(crate) fn take_one<W: Wire>(&mut self, wire: &mut W, now: u64) -> bool
        ensures grew { Grew self.old self.new (W.passed wire.old) (W.passed wire.new) }
        ensures closed { AreClosed (own_of self.new) self.new.peers.items }
        ensures full { is_full self.old ≡ true → result ≡ false }
    {
        let is_taken = self.accept_unless_full(wire, now);
        self.end_replaced(wire, now);
        is_taken
    }

    /// Takes in the next one who dialled, and hears him, but nobody while too much waits to be told. False where nobody was taken in.
    #[tactic(auto, using(crate::proofs::Growing::stayed))]
    fn accept_unless_full<W: Wire>(&mut self, wire: &mut W, now: u64) -> bool
        ensures grew { Grew self.old self.new (W.passed wire.old) (W.passed wire.new) }
        ensures full { is_full self.old ≡ true → result ≡ false }
    {
        if self.lines.is_full() {
            return false;
        }
        self.accept_next(wire, now)
    }

    /// Takes in the next one who dialled, and hears him. False where there is none.
    #[tactic(auto, using(crate::proofs::Growing::grew_on, crate::proofs::Growing::stayed, crate::proofs::Growing::stays_on, crate::proofs::Handing::handed_grew))]
    fn accept_next<W: Wire>(&mut self, wire: &mut W, now: u64) -> bool
        ensures { Grew self.old self.new (W.passed wire.old) (W.passed wire.new) }
    {
        let Some(place) = self.lines.accept(wire, now) else {
            return false;
        };
        if place < LINKS {
            self.meet_caller(wire, place, now);
        }
        true
    }

    /// Hears what the one who dialled at a place has said already. Who has ended, or said anything wrong, is let go of at once, so
    /// that his place is free for the next.
    #[tactic(auto, using(crate::proofs::Growing::grew_on, crate::proofs::Growing::stayed, crate::proofs::Growing::stays_on, crate::proofs::Handing::handed_grew))]
    fn meet_caller<W: Wire>(&mut self, wire: &mut W, place: usize, now: u64)
        requires { place < LINKS }
        ensures { Grew self.old self.new (W.passed wire.old) (W.passed wire.new) }
    {
        self.lines.read(wire, place);
        self.hear_each(wire, place, now);
        self.end_if_wrong(wire, place, now);
    }

    /// Ends the connection at a place, where it has ended, or a fault closed it and that is said.
    #[tactic(auto, using(crate::proofs::Growing::stayed))]
    fn end_if_wrong<W: Wire>(&mut self, wire: &mut W, place: usize, now: u64)
        requires { place < LINKS }
        ensures { Grew self.old self.new (W.passed wire.old) (W.passed wire.new) }
    {
        if self.has_ended(place) {
            self.end(wire, place, now);
        } else if self.is_closed(place) {
            self.write_or_end(wire, place, now);
        }
    }

    /// Hears what the connection at a place says next. It says whether there may be more.
    #[tactic(auto, using(crate::proofs::Growing::grew_on, crate::proofs::Growing::stayed, crate::proofs::Growing::stays_on, crate::proofs::Handing::handed_on, crate::proofs::Handing::handed_stays, crate::proofs::Handing::handed_grew))]
    pub(crate) fn hear_next<W: Wire>(&mut self, wire: &mut W, place: usize, now: u64) -> bool
        requires { place < LINKS }
        ensures { Grew self.old self.new (W.passed wire.old) (W.passed wire.new) }
    {
        match self.lines.next(place) {
            None => false,
            Some(Ok(Came::Hello(hello))) => {
                self.greet(wire, place, &hello, now);
                true
            }
            Some(Ok(Came::Proved(hello))) => {
                self.judge(wire, place, &hello, now);
                true
            }
            Some(Ok(Came::Frame { from, answered })) => {
                take_frame(&mut self.peers, from, place, answered, now);
                true
            }
            Some(Ok(Came::Beat { from, beat })) => {
                self.hear_beat(wire, from, place, beat, now);
                true
            }
            Some(Ok(Came::Further { from, further })) => {
                self.take_further(wire, from, place, &further, now);
                true
            }
            Some(Ok(Came::Nothing)) => true,
            Some(Err(fault)) => {
                self.answer_unread(wire, place, fault);
                let source = wire.source(line_at(place));
                self.refuse(place, fault, source, now);
                false
            }
        }
    }

    /// A beat of a peer came by the connection at a place. The other side tells beats over one connection alone, so the peer is
    /// there by it.
    #[tactic(auto, using(crate::proofs::Growing::grew_on, crate::proofs::Growing::stayed, crate::proofs::Growing::stays_on, crate::proofs::Handing::handed_on, crate::proofs::Handing::handed_stays, crate::proofs::Handing::handed_grew))]
    fn hear_beat<W: Wire>(&mut self, wire: &mut W, from: u8, place: usize, beat: Beat, now: u64)
        ensures { Grew self.old self.new (W.passed wire.old) (W.passed wire.new) }
    {
        self.go_over(wire, from, place, now);
        take_beat(&mut self.peers, from, place, beat, now);
    }

    /// A peer told this by the connection at a place.
    #[tactic(auto, using(crate::proofs::Growing::grew_on, crate::proofs::Growing::stayed, crate::proofs::Growing::stays_on, crate::proofs::Handing::handed_on, crate::proofs::Handing::handed_stays, crate::proofs::Handing::handed_grew))]
    fn take_further<W: Wire>(
        &mut self,
        wire: &mut W,
        from: u8,
        place: usize,
        further: &Further,
        now: u64,
    )
        ensures { Grew self.old self.new (W.passed wire.old) (W.passed wire.new) }
    {
        match further {
            Further::Lives(lives) => {
                take_lives(&mut self.peers, from, place, lives);
                self.end_replaced(wire, now);
            }
            Further::Settings(settings) => {
                if self.open_at(from) == Some(place) {
                    self.lines.note_settings(from, *settings);
                }
            }
            Further::Promised(ballot) => self.take_promised(wire, place, *ballot, now),
            Further::Unknown => (),
        }
    }

    /// Hears all that came over the line at a place, where a connection is there. Most places have none, and what hears takes
    /// room for a frame at its entry.
    #[tactic(auto, using(crate::proofs::Growing::stayed))]
    pub(crate) fn hear_at<W: Wire>(&mut self, wire: &mut W, place: usize, now: u64)
        requires { place < LINKS }
        ensures { Grew self.old self.new (W.passed wire.old) (W.passed wire.new) }
    {
        if self.lines.at(place).is_some() {
            self.hear_each(wire, place, now);
        }
    }

    /// Hears one after another what came over the line at a place.
    #[tactic(auto, using(crate::proofs::Growing::grew_on, crate::proofs::Growing::stayed, crate::proofs::Growing::stays_on))]
    fn hear_each<W: Wire>(&mut self, wire: &mut W, place: usize, now: u64)
        requires { place < LINKS }
        ensures { Grew self.old self.new (W.passed wire.old) (W.passed wire.new) }
    {
        for _ in 0..u64::MAX {
            if !self.hear_next(wire, place, now) {
                return;
            }
        }
    }

    /// Has it known at the wires who speaks over the line at a place, where a peer is there.
    #[tactic(auto, using(crate::proofs::Growing::grew_on, crate::proofs::Growing::stayed, crate::proofs::Growing::stays_on))]
    pub(crate) fn know<W: Wire>(&self, wire: &mut W, place: usize)
        requires { place < LINKS }
        ensures { W.passed wire.new ≡ W.passed wire.old }
    {
        if self.joined_at(place).is_some() {
            wire.know(line_at(place));
        }
    }

    /// Reads what came over all lines.
    #[tactic(auto, using(crate::proofs::Growing::grew_on, crate::proofs::Growing::stayed, crate::proofs::Growing::stays_on, crate::proofs::Handing::handed_on, crate::proofs::Handing::handed_stays, crate::proofs::Handing::handed_grew))]
    pub(crate) fn read_all<W: Wire>(&mut self, wire: &mut W)
        ensures { Grew self.old self.new (W.passed wire.old) (W.passed wire.new) }
    {
        for place in 0..LINKS {
            self.lines.read(wire, place);
        }
    }

    /// Hears what came of a peer that is there by the connection at a place, and ends it where it has ended.
    #[tactic(auto, using(crate::proofs::Growing::grew_on, crate::proofs::Growing::stayed, crate::proofs::Growing::stays_on))]
    fn hear_joined<W: Wire>(&mut self, wire: &mut W, place: usize, now: u64)
        requires { place < LINKS }
        ensures { Grew self.old self.new (W.passed wire.old) (W.passed wire.new) }
    {
        if self.joined_at(place).is_none() {
            return;
        }
        self.hear_at(wire, place, now);
        self.end_if_ended(wire, place, now);
    }

    /// Ends the connection at a place, where it has ended.
    #[tactic(auto, using(crate::proofs::Growing::stayed))]
    fn end_if_ended<W: Wire>(&mut self, wire: &mut W, place: usize, now: u64)
        ensures { Grew self.old self.new (W.passed wire.old) (W.passed wire.new) }
    {
        if self.has_ended(place) {
            self.end(wire, place, now);
        }
    }

    /// Hears what came of all peers that are there, and ends the connections that have ended.
    #[tactic(auto, using(crate::proofs::Growing::grew_on, crate::proofs::Growing::stayed, crate::proofs::Growing::stays_on))]
    pub(crate) fn hear_peers<W: Wire>(&mut self, wire: &mut W, now: u64)
        ensures { Grew self.old self.new (W.passed wire.old) (W.passed wire.new) }
    {
        for place in 0..LINKS {
            self.hear_joined(wire, place, now);
        }
    }

    /// Hears what came over all lines.
    #[tactic(auto, using(crate::proofs::Growing::grew_on, crate::proofs::Growing::stayed, crate::proofs::Growing::stays_on))]
    pub(crate) fn hear_all<W: Wire>(&mut self, wire: &mut W, now: u64)
        ensures { Grew self.old self.new (W.passed wire.old) (W.passed wire.new) }
    {
        for place in 0..LINKS {
            self.hear_at(wire, place, now);
        }
    }
}
