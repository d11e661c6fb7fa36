//! What is written over the lines.

ghost use Rattle.std.specs.Prelude.{◌<◌};

use crate::limits::LINKS;
use crate::link::Written;
use crate::peers::Peers;
use node_wires::Wire;

impl Peers {
    ghost use Rattle.node_peers.specs.Peering.{Grew, Stays};

    /// Begins the next record at a place: of what waits for the peer that is there, or what is said before one is.
    #[tactic(auto, using(crate::proofs::Handing::handed_on, crate::proofs::Handing::handed_stays, crate::proofs::Handing::handed_grew, crate::proofs::Handing::back_at))]
    pub(crate) fn begin(&mut self, place: usize)
        ensures { Stays self.old self.new }
    {
        let Some(number) = self.joined_at(place) else {
            self.lines.say_first(place);
            return;
        };
        if !self.lines.is_at(place, number) {
            return;
        }
        if let Some(peer) = self.peers.get_mut(number as usize) {
            peer.begin(&mut self.lines, place);
        }
    }

    /// Whether a fault closed the connection at a place, or its node is refused.
    pub(crate) fn is_closed(&self, place: usize) -> bool {
        match self.lines.at(place) {
            Some(link) => link.is_closed(),
            None => false,
        }
    }

    /// Something could be written at a place: where that is a dial, it was answered.
    #[tactic(auto, using(crate::proofs::Handing::handed_on, crate::proofs::Handing::handed_stays, crate::proofs::Handing::handed_grew, crate::proofs::Handing::back_at, crate::proofs::Handing::goes_same))]
    pub(crate) fn note_written(&mut self, place: usize, now: u64)
        ensures { Stays self.old self.new }
    {
        if let Some(number) = self.last_dialled_at(place) {
            if let Some(peer) = self.peers.get_mut(number as usize) {
                peer.dial = peer.dial.answered(now);
            }
        }
    }

    /// Begins what waits next at a place, and writes of it what there is room for.
    #[tactic(auto, using(crate::proofs::Growing::grew_on, crate::proofs::Growing::stayed, crate::proofs::Handing::handed_on, crate::proofs::Handing::handed_stays, crate::proofs::Handing::handed_grew))]
    fn write_next<W: Wire>(&mut self, wire: &mut W, place: usize) -> Written
        requires { place < LINKS }
        ensures { Grew self.old self.new (W.passed wire.old) (W.passed wire.new) }
    {
        self.begin(place);
        self.lines.write(wire, place)
    }

    /// Writes what waits over the line at a place. It says whether the connection goes on: not where it ended, and where a
    /// fault closed it and all is written.
    #[tactic(auto, using(crate::proofs::Growing::grew_on, crate::proofs::Growing::stayed))]
    pub(crate) fn write<W: Wire>(&mut self, wire: &mut W, place: usize, now: u64) -> bool
        requires { place < LINKS }
        ensures { Grew self.old self.new (W.passed wire.old) (W.passed wire.new) }
    {
        for _ in 0..u64::MAX {
            match self.write_next(wire, place) {
                Written::Some => self.note_written(place, now),
                Written::Nothing => return !self.is_closed(place),
                Written::Later => return true,
                Written::Ended => return false,
            }
        }
        true
    }

    /// Writes what waits at a place, where a connection is there, and ends it where it doesn't go on.
    #[tactic(auto, using(crate::proofs::Growing::grew_on, crate::proofs::Growing::stayed, crate::proofs::Growing::stays_on))]
    pub(crate) fn write_or_end<W: Wire>(&mut self, wire: &mut W, place: usize, now: u64)
        requires { place < LINKS }
        ensures { Grew self.old self.new (W.passed wire.old) (W.passed wire.new) }
    {
        if self.lines.at(place).is_some() && !self.write(wire, place, now) {
            self.end(wire, place, now);
        }
    }

    /// The same at each place.
    #[tactic(auto, using(crate::proofs::Growing::grew_on, crate::proofs::Growing::stayed, crate::proofs::Growing::stays_on))]
    pub(crate) fn write_all<W: Wire>(&mut self, wire: &mut W, now: u64)
        ensures { Grew self.old self.new (W.passed wire.old) (W.passed wire.new) }
    {
        for place in 0..LINKS {
            self.write_or_end(wire, place, now);
        }
    }
}
