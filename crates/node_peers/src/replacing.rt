//! Nodes whose stores were lost and made anew, as other nodes tell.

ghost use Rattle.std.specs.Prelude.{◌≡◌, ◌≢◌, ◌<◌, None};
ghost use Rattle.node_links.specs.declared.limits.TheConstants.{NODES as MOST};
ghost use Rattle.node_links.specs.declared.own.Known.TheVariants.{Two};
ghost use Rattle.node_peers.specs.Knowing.{known_of};
ghost use Rattle.node_peers.specs.Replacing.{AllFade, AreClosed, IsClosed, IsLeft};

use crate::knowing::{is_other_told, is_replaced};
use crate::limits::LINKS;
use crate::link::line_at;
use crate::peers::Peers;
use node_links::limits::NODES;
use node_links::{PeerFault, Whose};
use node_wires::Wire;

impl Peers {
    ghost use Rattle.node_peers.specs.Peering.{own_of, Grew, Stays};

    /// Ends the connections of all nodes of which two lives are known, and those of peers that tell another life of this one.
    #[tactic(auto, using(crate::proofs::Growing::grew_on, crate::proofs::Growing::stayed, crate::proofs::Growing::stays_on, crate::proofs::Fading::closed_next))]
    pub(crate) fn end_replaced<W: Wire>(&mut self, wire: &mut W, now: u64)
        ensures grew { Grew self.old self.new (W.passed wire.old) (W.passed wire.new) }
        ensures closed { AreClosed (own_of self.new) self.new.peers.items }
    {
        for number in 0..NODES {
            self.end_if_replaced(wire, number as u8, now);
        }
    }

    /// The fault by which the connection of a node is ended, if it is: two lives of it are known, or it tells another life of
    /// this node's store.
    fn replaced(&self, number: u8) -> Option<PeerFault>
        ensures { result ≡ None → number ≢ (own_of self.now).number → known_of (own_of self.now) number self.now.peers.items ≢ Two }
    {
        let lines = &self.lines;
        let own = &lines.own;
        if is_other_told(own, number as usize, &self.peers) {
            return Some(PeerFault::StoreReplaced(Whose::Own));
        }
        if number != own.number && is_replaced(own, number as usize, &self.peers) {
            return Some(PeerFault::StoreReplaced(Whose::Other));
        }
        None
    }

    /// Ends the connection of a node, where one is open and it is to be ended.
    #[tactic(auto, using(crate::proofs::Growing::grew_on, crate::proofs::Growing::stayed, crate::proofs::Growing::stays_on, crate::proofs::Fading::fade_same, crate::proofs::Fading::closed_by_end))]
    fn end_if_replaced<W: Wire>(&mut self, wire: &mut W, number: u8, now: u64)
        requires { number < MOST }
        ensures grew { Grew self.old self.new (W.passed wire.old) (W.passed wire.new) }
        ensures fade { AllFade self.old.peers.items self.new.peers.items }
        ensures closed { IsClosed (own_of self.new) self.new.peers.items number }
    {
        let Some(place) = self.open_at(number) else {
            return;
        };
        if let Some(fault) = self.replaced(number) {
            self.end_by(wire, place, fault, now);
        }
    }

    /// Ends the connection at a place by this fault, which is told.
    #[tactic(auto, using(crate::proofs::Growing::grew_on, crate::proofs::Growing::stayed, crate::proofs::Growing::stays_on, crate::proofs::Fading::fade_on))]
    pub(crate) fn end_by<W: Wire>(&mut self, wire: &mut W, place: usize, fault: PeerFault, now: u64)
        ensures grew { Grew self.old self.new (W.passed wire.old) (W.passed wire.new) }
        ensures fade { AllFade self.old.peers.items self.new.peers.items }
        ensures left { IsLeft place self.new.peers.items }
    {
        self.refuse_by(wire, place, fault, now);
        self.end(wire, place, now);
    }

    /// Refuses who is there by the connection at a place by this fault.
    #[tactic(auto, using(crate::proofs::Growing::stayed, crate::proofs::Fading::fade_same))]
    pub(crate) fn refuse_by<W: Wire>(
        &mut self,
        wire: &mut W,
        place: usize,
        fault: PeerFault,
        now: u64,
    )
        ensures grew { Grew self.old self.new (W.passed wire.old) (W.passed wire.new) }
        ensures fade { AllFade self.old.peers.items self.new.peers.items }
    {
        if place >= LINKS {
            return;
        }
        let source = wire.source(line_at(place));
        self.refuse(place, fault, source, now);
    }
}
