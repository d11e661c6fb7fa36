//! Hellos of a process and of its peers: what it says, how it answers, and which peer is there by what it said.

ghost use Rattle.std.specs.Prelude.{◌≡◌, true, Some, IfSome};
ghost use Rattle.node_links.specs.Judging.{is_coded};
ghost use Rattle.node_peers.specs.Greeting.{IsOurs, coded_by, first_of};
ghost use Rattle.node_links.specs.declared.limits.TheConstants.{NODES as MOST};
ghost use Rattle.node_peers.specs.Handing.{GoBack};
ghost use Rattle.node_peers.specs.Knowing.{known_of};
ghost use Rattle.node_peers.specs.Meeting.{AreMet};
ghost use Rattle.node_peers.specs.Hearing.{IsOpened};
ghost use Rattle.node_peers.specs.Replacing.{AllFade};
ghost use Rattle.node_peers.specs.Turning.{is_probed};

use crate::knowing::known_of;
use crate::limits::HELLO_AGE;
use crate::link::dialled_at;
use crate::peer::Peer;
use crate::peers::Peers;
use node_links::limits::NODES;
use node_links::{Known, Met, Own, PeerFault, Whose, promises_less};
use node_wires::Wire;
use paxos_wire::Ballot;
use peer_codes::{Ends, Hello, Life, Link as Kind, Nonce, RecordFault, Version};

/// To whom a node that was dialled answers: to who says that he speaks, or where no other node has that number, to the
/// first that is another.
pub(crate) fn answered(own: &Own, ends: Ends) -> u8
    ensures { result ≡ own.now.number → ⊥ }
{
    if ends.from < own.nodes && ends.from != own.number {
        ends.from
    } else if own.number == 0 {
        1
    } else {
        0
    }
}

/// What a node of which this is known says first to another, of which this life is kept, over a connection of this kind.
pub(crate) fn hello(
    own: &Own,
    to: u8,
    kept: Option<Life>,
    promised: Option<Ballot>,
    version: Version,
    link: Kind,
) -> Hello
    ensures version { result.version ≡ version }
    ensures ends { result.ends ≡ record { from = own.now.number; to = to; nodes = own.now.nodes } }
    ensures digest { result.digest ≡ own.now.digest }
    ensures life { result.life ≡ own.now.life }
    ensures kept { result.kept ≡ kept }
    ensures promised { result.promised ≡ promised }
    ensures link { result.link ≡ link }
{
    Hello {
        version,
        ends: Ends {
            from: own.number,
            to,
            nodes: own.nodes,
        },
        digest: own.digest,
        life: own.life,
        kept,
        promised,
        link,
    }
}

/// A connection with codes for which these bytes were drawn, if any were.
fn coded(drawn: Option<[u8; 32]>) -> Option<Kind>
    ensures { result ≡ coded_by drawn }
{
    match drawn {
        Some(bytes) => Some(Kind::Coded(Nonce { bytes })),
        None => None,
    }
}

/// The kind of connections of a node that has a key, or of one that has none: with it a nonce is drawn for each. None where
/// none was drawn. The key isn't known here, so no nonce tells anything of it.
pub(crate) fn drawn<W: Wire>(has_key: bool, wire: &mut W) -> Option<Kind>
    ensures kind { IfSome result (λ link. is_coded link ≡ has_key) }
    ensures passed { W.passed wire.new ≡ W.passed wire.old }
{
    if has_key {
        coded(wire.draw())
    } else {
        Some(Kind::Plain)
    }
}

/// Whether a peer is here by another connection than the one at a place, where a Hello came. Not where this node dialled anew:
/// the other one judges whether the new connection takes the place of the one that is there.
fn is_elsewhere(peer: &Peer, place: usize, now: u64, silence: u64) -> bool {
    dialled_at(place).is_none() && peer.open != Some(place) && peer.is_here(now, silence)
}

/// What is known of a node when a Hello is judged that came over the line at a place.
fn met_of(own: &Own, peers: &[Peer], number: usize, place: usize, now: u64, silence: u64) -> Met
    ensures { result.lives ≡ known_of own.now number peers.now }
{
    Met {
        lives: known_of(own, number, peers),
        is_here: match peers.get(number) {
            Some(peer) => is_elsewhere(peer, place, now, silence),
            None => false,
        },
    }
}

/// The same of each node: which lives of it are known, and whether it is there.
#[tactic(auto, using(crate::proofs::Meeting::met_more))]
pub(crate) fn met(own: &Own, peers: &[Peer], place: usize, now: u64, silence: u64) -> [Met; NODES]
    ensures { AreMet own.now MOST result peers.now }
{
    let mut met = [Met {
        lives: Known::Nothing,
        is_here: false,
    }; NODES];
    for number in 0..NODES {
        met[number] = met_of(own, peers, number, place, now, silence);
    }
    met
}

/// This life, where none is kept yet.
pub(crate) fn first_life(kept: Option<Life>, life: Life) -> Option<Life>
    ensures first { result ≡ first_of kept life }
    ensures life { IfSome result (λ first. first ≡ life) }
{
    match kept {
        Some(_) => None,
        None => Some(life),
    }
}

/// Whether a peer was dialled at a place to learn only whether a node is there.
fn is_probed(peers: &[Peer], place: usize) -> bool
    ensures { result ≡ is_probed place peers.now }
{
    let Some(number) = dialled_at(place) else {
        return false;
    };
    match peers.get(number as usize) {
        Some(peer) => peer.turn.is_probe(),
        None => false,
    }
}

/// The peer with this Hello is there from now on by the connection at a place.
#[tactic(auto, using(crate::proofs::Handing::back_at, crate::proofs::Handing::back_same))]
fn join(peers: &mut Vec<Peer>, hello: &Hello, place: usize, now: u64)
    ensures { GoBack peers.old.items peers.new.items }
{
    if let Some(peer) = peers.get_mut(hello.ends.from as usize) {
        peer.meet(hello, place, now);
    }
}

impl Peers {
    ghost use Rattle.node_peers.specs.Peering.{own_of, passed_of, Grew, Stays};
    ghost use Rattle.node_peers.specs.Promising.{promise_of, IsOlder};

    /// What this node says first to another, in this version and over a connection of this kind.
    pub(crate) fn hello_to(&self, to: u8, version: Version, link: Kind) -> Hello
        ensures ours { IsOurs (own_of self.now) result }
        ensures to { result.ends.to ≡ to }
        ensures promised { result.promised ≡ self.now.promised }
        ensures link { result.link ≡ link }
    {
        let kept = match self.peers.get(to as usize) {
            Some(peer) => peer.kept,
            None => None,
        };
        hello(&self.lines.own, to, kept, self.promised, version, link)
    }

    /// Answers the one who says this of himself and dialled at a place; another isn't answered. False where no nonce was
    /// drawn for that.
    #[tactic(auto, using(crate::proofs::Growing::grew_on, crate::proofs::Growing::stayed, crate::proofs::Growing::stays_on, crate::proofs::Handing::handed_on, crate::proofs::Handing::handed_stays, crate::proofs::Handing::handed_grew))]
    pub(crate) fn answer<W: Wire>(&mut self, wire: &mut W, place: usize, ends: Ends) -> bool
        ensures { Grew self.old self.new (W.passed wire.old) (W.passed wire.new) }
    {
        if self.dialled_at(place).is_some() {
            return true;
        }
        let Some(link) = drawn(self.lines.own.key.is_some(), wire) else {
            return false;
        };
        let to = answered(&self.lines.own, ends);
        // It is said in the version of the Hello that came.
        let own = self.hello_to(to, Version::First, link);
        self.lines.answer(place, own);
        true
    }

    /// The Hello that came over the line at a place is answered, where this node was dialled, and judged; one that answers a
    /// probe ends it, and nobody is there by it.
    #[tactic(auto, using(crate::proofs::Growing::grew_on, crate::proofs::Growing::stayed, crate::proofs::Growing::stays_on))]
    pub(crate) fn greet<W: Wire>(&mut self, wire: &mut W, place: usize, hello: &Hello, now: u64)
        ensures grew { Grew self.old self.new (W.passed wire.old) (W.passed wire.new) }
        ensures probe { is_probed place self.old.peers.items ≡ true → AllFade self.old.peers.items self.new.peers.items }
    {
        if is_probed(&self.peers, place) {
            self.end(wire, place, now);
            return;
        }
        self.take_hello(wire, place, hello, now);
    }

    /// The Hello that came over the line at a place is answered, where this node was dialled, and judged.
    #[tactic(auto, using(crate::proofs::Growing::grew_on, crate::proofs::Growing::stayed, crate::proofs::Growing::stays_on))]
    fn take_hello<W: Wire>(&mut self, wire: &mut W, place: usize, hello: &Hello, now: u64)
        ensures { Grew self.old self.new (W.passed wire.old) (W.passed wire.new) }
    {
        if self.answer(wire, place, hello.ends) {
            self.judge(wire, place, hello, now);
        } else {
            self.end(wire, place, now);
        }
    }

    /// Whether a peer was dialled at a place beside a connection by which it is there.
    fn is_beside(&self, place: usize) -> bool {
        let Some(number) = dialled_at(place) else {
            return false;
        };
        match self.open_at(number) {
            Some(there) => there != place,
            None => false,
        }
    }

    /// The Hello that came over the line at a place is judged, as far as it can be now: where the connection is open then, its
    /// node is there; where it was dialled beside another one only once more comes over it, since the other may have refused it.
    #[tactic(auto, using(crate::proofs::Growing::grew_on, crate::proofs::Growing::stayed, crate::proofs::Growing::stays_on, crate::proofs::Handing::handed_on, crate::proofs::Handing::handed_stays, crate::proofs::Handing::handed_grew))]
    pub(crate) fn judge<W: Wire>(&mut self, wire: &mut W, place: usize, hello: &Hello, now: u64)
        ensures { Grew self.old self.new (W.passed wire.old) (W.passed wire.new) }
    {
        let lines = &self.lines;
        let met = met(&lines.own, &self.peers, place, now, self.silence);
        let Some(taken) = self.lines.settle(place, &met, hello.ends.from) else {
            return;
        };
        match self.older_at(place, &taken) {
            Some(ballot) => self.turn_away(wire, place, &taken, ballot, now),
            None => self.take_in(wire, place, &taken, now),
        }
    }

    /// A node whose Hello opened the connection at a place is there by it, unless that was dialled beside another one.
    #[tactic(auto, using(crate::proofs::Growing::stayed))]
    fn take_in<W: Wire>(&mut self, wire: &mut W, place: usize, hello: &Hello, now: u64)
        requires { IsOpened (own_of self.old) (passed_of self.old) hello.now }
        ensures { Grew self.old self.new (W.passed wire.old) (W.passed wire.new) }
    {
        if !self.is_beside(place) {
            self.join(wire, place, hello, now);
        }
    }

    /// The ballot that the node with this Hello is known to have promised, where it had shown that before it said the Hello over
    /// the connection at a place, and promises less by it: its store is an older copy.
    ///
    /// A Hello says what its node had promised when it dialled, or when it answered. So it is compared only with what was shown
    /// before this node dialled, or `HELLO_AGE` before it took in the one who did, and only where no other connection of it was
    /// there since.
    #[tactic(auto, using(crate::proofs::Promises::older_shown))]
    fn older_at(&self, place: usize, hello: &Hello) -> Option<Ballot>
        ensures { IfSome result (λ ballot. IsOlder self.now hello.now × (promise_of self.now hello.now.ends.from ≡ Some ballot)) }
    {
        let link = self.lines.at(place)?;
        let peer = self.peers.get(hello.ends.from as usize)?;
        let age = match dialled_at(place) {
            Some(_) => 0,
            None => HELLO_AGE,
        };
        if peer.had_shown(age, link.began) {
            peer.older_than(hello.promised)
        } else {
            None
        }
    }

    /// The node whose Hello opened the connection at a place is refused, since its store is an older copy: it is told this ballot, which it
    /// is known to have promised, and then the connection ends.
    #[tactic(auto, using(crate::proofs::Growing::grew_on, crate::proofs::Growing::stayed, crate::proofs::Growing::stays_on, crate::proofs::Handing::handed_on, crate::proofs::Handing::handed_stays, crate::proofs::Handing::handed_grew))]
    fn turn_away<W: Wire>(
        &mut self,
        wire: &mut W,
        place: usize,
        hello: &Hello,
        ballot: Ballot,
        now: u64,
    )
        requires older { IsOlder self.old hello.now }
        requires known { promise_of self.old hello.now.ends.from ≡ Some ballot }
        ensures { Grew self.old self.new (W.passed wire.old) (W.passed wire.new) }
    {
        self.lines.turn_away(place, ballot);
        self.refuse_by(wire, place, PeerFault::StoreOlder(Whose::Other), now);
    }

    /// A node knows this one to have promised this, and told so by the connection at a place. Where this node has promised less, its own
    /// store is an older copy, which is told.
    #[tactic(auto, using(crate::proofs::Growing::stayed))]
    pub(crate) fn take_promised<W: Wire>(
        &mut self,
        wire: &mut W,
        place: usize,
        ballot: Ballot,
        now: u64,
    )
        ensures { Grew self.old self.new (W.passed wire.old) (W.passed wire.new) }
    {
        if self.is_set && promises_less(self.promised, Some(ballot)) {
            self.end_by(wire, place, PeerFault::StoreOlder(Whose::Own), now);
        }
    }

    /// More came of a peer behind its Hello by the connection at a place: where that was dialled, the peer is there by it from
    /// now on, in place of the one beside which it was.
    #[tactic(auto, using(crate::proofs::Growing::grew_on, crate::proofs::Growing::stayed, crate::proofs::Growing::stays_on))]
    pub(crate) fn go_over<W: Wire>(&mut self, wire: &mut W, from: u8, place: usize, now: u64)
        ensures { Grew self.old self.new (W.passed wire.old) (W.passed wire.new) }
    {
        if dialled_at(place) != Some(from) || self.open_at(from) == Some(place) {
            return;
        }
        if let Some(taken) = self.lines.taken_at(place) {
            self.join(wire, place, &taken, now);
        }
    }

    /// Whether one who dialled at a place said no Hello of a connection with codes, and wasn't told of it yet.
    pub(crate) fn is_unread(&self, place: usize, fault: PeerFault) -> bool {
        let Some(link) = self.lines.at(place) else {
            return false;
        };
        self.lines.own.key.is_some()
            && !link.is_refused
            && fault == PeerFault::Record(RecordFault::BadHello)
    }

    /// One who dialled at a place and said no Hello of a connection with codes is answered all the same, so that he sees why.
    #[tactic(auto, using(crate::proofs::Growing::grew_on, crate::proofs::Growing::stayed, crate::proofs::Growing::stays_on))]
    pub(crate) fn answer_unread<W: Wire>(&mut self, wire: &mut W, place: usize, fault: PeerFault)
        ensures { Grew self.old self.new (W.passed wire.old) (W.passed wire.new) }
    {
        if self.is_unread(place, fault) {
            let number = self.lines.own.number;
            let nobody = Ends {
                from: number,
                to: number,
                nodes: self.lines.own.nodes,
            };
            let _ = self.answer(wire, place, nobody);
        }
    }

    /// Ends the connection that a peer has, if it has one.
    #[tactic(auto, using(crate::proofs::Growing::grew_on, crate::proofs::Growing::stayed, crate::proofs::Growing::stays_on))]
    pub(crate) fn end_earlier<W: Wire>(&mut self, wire: &mut W, number: u8, now: u64)
        ensures { Grew self.old self.new (W.passed wire.old) (W.passed wire.new) }
    {
        if let Some(earlier) = self.open_at(number) {
            self.end(wire, earlier, now);
        }
    }

    /// A peer whose Hello opened the connection at a place is there by it, in place of one that it had.
    #[tactic(auto, using(crate::proofs::Growing::grew_on, crate::proofs::Growing::stayed, crate::proofs::Growing::stays_on, crate::proofs::Fitting::opened_through))]
    pub(crate) fn join<W: Wire>(&mut self, wire: &mut W, place: usize, hello: &Hello, now: u64)
        requires { IsOpened (own_of self.old) (passed_of self.old) hello.now }
        ensures { Grew self.old self.new (W.passed wire.old) (W.passed wire.new) }
    {
        self.end_earlier(wire, hello.ends.from, now);
        self.meet(place, hello, now);
    }

    /// A peer whose Hello opened the connection at a place is there by it; not where there is no memory to tell so: then that
    /// connection is let go of as one that doesn't open.
    #[tactic(auto, using(crate::proofs::Handing::handed_on, crate::proofs::Handing::handed_stays, crate::proofs::Handing::handed_grew, crate::proofs::Handing::back_at, crate::proofs::Handing::goes_same, crate::proofs::Handing::goes_on))]
    pub(crate) fn meet(&mut self, place: usize, hello: &Hello, now: u64)
        requires { IsOpened (own_of self.old) (passed_of self.old) hello.now }
        ensures { Stays self.old self.new }
    {
        let life = match self.peers.get(hello.ends.from as usize) {
            Some(peer) => first_life(peer.kept, hello.life),
            None => return,
        };
        if self.lines.note_joined(hello, life) {
            join(&mut self.peers, hello, place, now);
        }
    }
}
