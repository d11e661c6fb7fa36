//! How a peer is dialled: what came of its dials so far, and when and in which version the next one is made.

ghost use Rattle.std.specs.Prelude.{◌≡◌, false};
ghost use Rattle.node_peers.specs.Handing.{GoesBack};
ghost use Rattle.node_peers.specs.Replacing.{Fades};
ghost use Rattle.node_peers.specs.Turning.{turn_after, is_silent, shows_older};

use super::Peer;
use crate::limits::UNREACHED;
use node_links::limits::{CONNECT, DIALS, LOOK, NODES};
use node_links::{
    Dial, DialDue, DialEnd, PeerFault, Turn, closed_end, closed_pause, connect_wait, longer,
    next_turn, pause_after,
};
use peer_codes::Version;

/// Dials of a peer that came to nothing.
#[derive(Clone, Copy)]
pub(super) struct Missed {
    /// When the first of them ended, or when it was told last.
    since: u64,
    /// The last ended by itself before it was given up.
    refuses: bool,
}

/// What came of a connection that ends.
#[derive(Clone, Copy)]
pub(crate) struct Outcome {
    /// A peer was there by it, and nothing came of that but its Hello.
    pub(crate) is_fruitless: bool,
    /// Something came over it.
    pub(crate) has_come: bool,
    /// The version of the Hello that came first, if one did.
    pub(crate) said: Option<Version>,
}

/// How a peer is dialled next, where the dial that is there now, if one is, ends: the other closed it without a byte or
/// didn't, and a Hello of this version came first, if one did.
fn turn_behind(dial: Dial, turn: Turn, is_silent: bool, said: Option<Version>) -> Turn
    ensures { result ≡ turn_after dial turn is_silent said }
{
    match dial {
        Dial::Waits { .. } => turn,
        Dial::Dialled { .. } => next_turn(turn, DialEnd::Failed),
        Dial::Answered { .. } => next_turn(turn, closed_end(is_silent, said)),
        Dial::Open { .. } => next_turn(turn, DialEnd::Failed),
    }
}

/// Whether a Hello of this version, which came first if one did, shows that a peer which is dialled so is an older node.
pub(crate) fn shows_older(turn: Turn, said: Option<Version>) -> bool
    ensures { result ≡ shows_older turn said }
{
    match turn.version() {
        Version::First => false,
        Version::Second => said == Some(Version::First),
    }
}

impl Peer {
    /// The place of the line over which the peer of this number is dialled next: the first of its two, unless it is there by that.
    pub(crate) fn next_place(&self, number: u8) -> usize {
        let first = number as usize;
        if self.open == Some(first) {
            first + NODES
        } else {
            first
        }
    }

    /// What is due of the dial. A peer that is there is dialled anew once it has been silent for so long that it counts as absent.
    pub(crate) fn due(&self, now: u64, silence: u64) -> DialDue {
        if self.open.is_none() {
            return self.dial.due(now);
        }
        match self.dial {
            Dial::Open { .. } => self.due_unless_here(now, silence),
            Dial::Waits { .. } => self.due_unless_here(now, silence),
            Dial::Dialled { .. } => self.dial.due(now),
            Dial::Answered { .. } => self.dial.due(now),
        }
    }

    /// The same of a peer that is there and isn't being dialled anew.
    fn due_unless_here(&self, now: u64, silence: u64) -> DialDue {
        if self.is_here(now, silence) {
            return DialDue::Nothing { wait: LOOK };
        }
        match self.dial {
            Dial::Open { .. } => DialDue::Dial,
            dial => dial.due(now),
        }
    }

    /// Whether the peer, which is there, is heard again while it is being dialled anew.
    pub(crate) fn is_needless(&self, now: u64, silence: u64) -> bool {
        let is_under_way = matches!(self.dial, Dial::Dialled { .. } | Dial::Answered { .. });
        is_under_way && self.open != Some(self.dialled) && self.is_here(now, silence)
    }

    /// The dial that is under way is needless.
    #[tactic(auto, using(crate::proofs::Handing::goes_same))]
    pub(crate) fn quit_dial(&mut self, now: u64)
        ensures { GoesBack self.old self.new }
    {
        self.dial = self.dial.ended(now, None);
    }

    /// The peer is dialled over the line at a place.
    #[tactic(auto, using(crate::proofs::Handing::goes_same, crate::proofs::Handing::goes_on))]
    pub(crate) fn begin_dial(&mut self, place: usize, now: u64)
        ensures { GoesBack self.old self.new }
    {
        self.dialled = place;
        self.dial = Dial::Dialled {
            since: now,
            most: connect_wait(self.unanswered_dials),
        };
    }

    /// What was dialled is given up: the next dial may wait longer, where this one wasn't answered.
    #[tactic(auto, using(crate::proofs::Handing::goes_same, crate::proofs::Handing::goes_on))]
    pub(crate) fn give_up_dial(&mut self)
        ensures { GoesBack self.old self.new }
    {
        if matches!(self.dial, Dial::Dialled { .. }) {
            self.unanswered_dials = (self.unanswered_dials % DIALS + 1) % DIALS;
        }
    }

    /// The connection that was dialled ended, of which this came; where nothing came of it but its Hello that may have been a
    /// refusal.
    #[tactic(auto, using(crate::proofs::Handing::goes_same, crate::proofs::Handing::goes_on, crate::proofs::Fading::fades_same, crate::proofs::Fading::fades_on))]
    pub(crate) fn end_dial(&mut self, now: u64, outcome: Outcome)
        ensures back { GoesBack self.old self.new }
        ensures fades { Fades self.old self.new }
        ensures turn { self.new.turn ≡ turn_after self.old.dial self.old.turn (is_silent self.old.dial now outcome.has_come) outcome.said }
    {
        self.note_missed(now);
        self.turn_down(now, outcome);
        let pause = self.end_pause(outcome);
        self.dial = self.dial.ended(now, pause);
    }

    /// Whether the other ends a dial that was answered, before anything came: it isn't given up here.
    fn is_silent(&self, now: u64, has_come: bool) -> bool
        ensures { result ≡ is_silent self.now.dial now has_come }
    {
        match self.dial {
            Dial::Answered { .. } => match self.dial.due(now) {
                DialDue::GiveUp => false,
                DialDue::Dial => !has_come,
                DialDue::Nothing { .. } => !has_come,
            },
            Dial::Waits { .. } => false,
            Dial::Dialled { .. } => false,
            Dial::Open { .. } => false,
        }
    }

    /// A dial ends, of which this came: how the peer is dialled next, and how many dials were closed without a byte.
    #[tactic(auto, using(crate::proofs::Handing::goes_same, crate::proofs::Fading::fades_same))]
    fn turn_down(&mut self, now: u64, outcome: Outcome)
        ensures back { GoesBack self.old self.new }
        ensures fades { Fades self.old self.new }
        ensures dial { self.new.dial ≡ self.old.dial }
        ensures turn { self.new.turn ≡ turn_after self.old.dial self.old.turn (is_silent self.old.dial now outcome.has_come) outcome.said }
    {
        let is_silent = self.is_silent(now, outcome.has_come);
        self.turn = turn_behind(self.dial, self.turn, is_silent, outcome.said);
        self.closed_dials = self.closed_behind(is_silent);
    }

    /// How many of its last dials were closed without a byte, where the last was or wasn't.
    fn closed_behind(&self, is_closed: bool) -> u8 {
        if is_closed {
            self.closed_dials.saturating_add(1)
        } else {
            0
        }
    }

    /// How long it isn't dialled behind a dial that ended by itself, if for longer than two dials have to be apart. Where it is
    /// there, and something came, it may have refused the new connection, and is dialled again soon.
    #[tactic(auto, using(crate::proofs::Handing::goes_same, crate::proofs::Fading::fades_same))]
    fn end_pause(&mut self, outcome: Outcome) -> Option<u64>
        ensures back { GoesBack self.old self.new }
        ensures fades { Fades self.old self.new }
        ensures turn { self.new.turn ≡ self.old.turn }
    {
        if self.open.is_some() && outcome.has_come {
            return Some(CONNECT);
        }
        if outcome.is_fruitless {
            self.pause = longer(self.pause);
            return Some(self.pause);
        }
        if self.closed_dials > 0 {
            return Some(closed_pause(self.closed_dials));
        }
        None
    }

    /// A dial ends: it came to nothing where it is given up, or wasn't answered, and the peer isn't there all the same.
    #[tactic(auto, using(crate::proofs::Handing::goes_same, crate::proofs::Fading::fades_same))]
    fn note_missed(&mut self, now: u64)
        ensures back { GoesBack self.old self.new }
        ensures fades { Fades self.old self.new }
        ensures dial { self.new.dial ≡ self.old.dial }
        ensures turn { self.new.turn ≡ self.old.turn }
    {
        if self.open.is_some() {
            return;
        }
        let is_given_up = self.dial.due(now) == DialDue::GiveUp;
        if is_given_up || matches!(self.dial, Dial::Dialled { .. }) {
            let since = match self.missed {
                Some(missed) => missed.since,
                None => now,
            };
            self.missed = Some(Missed {
                since,
                refuses: !is_given_up,
            });
        }
    }

    /// Whether it is told now that dials come to nothing; then whether the last ended by itself.
    #[tactic(auto, using(crate::proofs::Handing::goes_same))]
    pub(crate) fn tell_missed(&mut self, now: u64) -> Option<bool>
        ensures { GoesBack self.old self.new }
    {
        let missed = self.missed?;
        if now.saturating_sub(missed.since) < UNREACHED {
            return None;
        }
        self.missed = Some(Missed {
            since: now,
            refuses: missed.refuses,
        });
        Some(missed.refuses)
    }

    /// The connection that was dialled is closed by this fault, and a Hello of this version came first over it, if one did. An
    /// older node is dialled in its version as soon as two dials may follow each other.
    #[tactic(auto, using(crate::proofs::Handing::goes_same, crate::proofs::Handing::goes_on, crate::proofs::Fading::fades_same))]
    pub(crate) fn refuse_dial(&mut self, fault: PeerFault, said: Option<Version>, now: u64)
        ensures back { GoesBack self.old self.new }
        ensures fades { Fades self.old self.new }
        ensures turn { self.new.turn ≡ turn_after self.old.dial self.old.turn false said }
    {
        let is_older = shows_older(self.turn, said);
        self.closed_dials = 0;
        self.turn = turn_behind(self.dial, self.turn, false, said);
        if is_older {
            self.dial = self.dial.ended(now, None);
            return;
        }
        self.pause = pause_after(fault, self.pause);
        self.dial = self.dial.ended(now, Some(self.pause));
    }
}
