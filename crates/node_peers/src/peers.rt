//! A process's connections to its peers.

ghost use Rattle.std.specs.Prelude.{◌≡◌, ◌≤◌, ◌<◌, ◌+◌, true, false, ℕ, List, [], ◌∷◌, ◌++◌, length, get_or, slice_get, None, Some, IfOk, IfSome};
ghost use Rattle.node_peers.specs.declared.limits.TheConstants.{HOLD as LONG};
ghost use Rattle.node_peers.specs.Hearing.{IsTold, talk_over};
ghost use Rattle.node_peers.specs.Lines.{line_at};
ghost use Rattle.node_peers.specs.Speaking.{IsSpoken};
ghost use Rattle.node_peers.specs.Handing.{frames_for, GoBack, AreHanded, are_handed_prop};
ghost use Rattle.node_peers.specs.Knowing.{IsOfOne};
ghost use Rattle.node_peers.specs.Replacing.{AreClosed};
ghost use Rattle.node_links.specs.declared.limits.TheConstants.{NODES as MOST};
ghost use Rattle.node_peers.specs.Knowing.{lives_told};
ghost use Rattle.node_peers.specs.Showing.{promised_in, shown_in};
ghost use Rattle.node_peers.specs.Reporting.{Informed, AreInformed};
ghost use Rattle.node_wires.specs.Passages.{Wrote, seats_in, wrote_over, logged_in};
ghost use Rattle.node_wires.specs.declared.line.Line.TheVariants.{Seat, Peer as ToPeer};

use crate::knowing::lives_told;
use crate::lag::Lag;
use crate::lines::Lines;
use crate::node_address::NodeAddress;
use crate::notice::Notice;
use crate::own_front::OwnFront;
use crate::peer::Peer;
use crate::view::View;
use node_links::limits::{LOOK, NODES};
use node_links::{Dial, DialDue, Lives, Own, OwnReport, Refusals, Settings, higher, promise_in};
use node_wires::Wire;
use paxos_wire::Ballot;
use peer_codes::Life;
use std::alloc::{AllocError, Global};

/// The connections of a node's process to its peers: of each pair of nodes the one with the greater number dials.
///
/// A turn: `hear` takes what came, and `take_caller` one after another who dialled; `next` tells it; what the node sends
/// meanwhile goes by `send`; `tell` says how the node is, where that is due; `flush` writes what waits. None of them waits.
pub struct Peers {
    pub(crate) lines: Lines,
    /// The ballot that the node has promised, as Hellos say it.
    pub(crate) promised: Option<Ballot>,
    /// What the node has promised was told.
    pub(crate) is_set: bool,
    /// How long a peer may be silent until it counts as absent.
    pub(crate) silence: u64,
    /// Of each node, by its number.
    pub(crate) peers: Vec<Peer>,
    /// Those who were refused from other addresses than theirs.
    pub(crate) refusals: Refusals,
    /// From where nodes dial: callers from these addresses are counted apart from others.
    pub(crate) addresses: Vec<NodeAddress>,
    /// What this process tells of its own settings, if it was told any.
    settings: Option<Settings>,
    /// When what came was last taken, or was to be.
    pub(crate) looked: u64,
    /// This node's front, as it was told last.
    pub(crate) own_front: OwnFront,
    ghost handed: { AreHanded lines.sent.items peers.items } by { are_handed_prop lines.sent.items peers.items },
}

/// By hand, so that letting one go is one call for whoever owns it (docs/ARCHITECTURE.md, Habits).
impl Drop for Peers {
    fn drop(self) {
        let Peers {
            lines: _,
            promised: _,
            is_set: _,
            silence: _,
            peers: _,
            refusals: _,
            addresses: _,
            settings: _,
            looked: _,
            own_front: _,
        } = self;
    }
}

/// Of each node what is known before anything came.
#[tactic(auto, using(crate::proofs::Handing::none_for_one))]
fn unmet(alloc: Global, nodes: u8, kept: &[Option<Life>]) -> Result<Vec<Peer>, AllocError>
    ensures { IfOk result (λ peers. (number : ℕ) (nobody : Peer) → number < length peers.items → frames_for (get_or peers.items number nobody) ≡ []) }
{
    let mut peers = Vec::with_capacity(alloc, nodes as usize)?;
    for number in 0..nodes as usize {
        let life = match kept.get(number) {
            Some(life) => *life,
            None => None,
        };
        peers.push(Peer::new(alloc, number as u8, life))?;
    }
    Ok(peers)
}

impl Peers {
    ghost use Rattle.node_peers.specs.Peering.{own_of, passed_of, frames_of, heard_of, is_full, Grew, Keeps, Stays};
    ghost use Rattle.node_peers.specs.Leaving.{IsQuiet, NoneIsNeeded, Passes, TakesAside, aside_of, newest_of, waits_of};
    ghost use Rattle.node_links.specs.Promising.{higher};
    ghost use Rattle.node_peers.specs.Noticing.{heard_by, IsFrame};
    ghost use Rattle.node_peers.specs.Promising.{promise_of};
    ghost use Rattle.node_peers.specs.Showing.{shown_by};
    ghost use Rattle.node_peers.specs.Sending.{Sends};
    ghost use Rattle.node_peers.specs.Viewing.{lag_of, view_of};

    /// No connection is there. Of each node `kept` has the life that is kept of its store, if one is.
    #[tactic(auto, using(crate::proofs::Handing::none_handed))]
    pub fn new(
        alloc: Global,
        own: Own,
        kept: &[Option<Life>],
        silence: u64,
    ) -> Result<Peers, AllocError>
        ensures own { IfOk result (λ peers. own_of peers ≡ own) }
        ensures passed { IfOk result (λ peers. passed_of peers ≡ []) }
        ensures frames { IfOk result (λ peers. frames_of peers ≡ []) }
        ensures heard { IfOk result (λ peers. heard_of peers ≡ []) }
    {
        Ok(Peers {
            lines: Lines::new(alloc, own)?,
            promised: None,
            is_set: false,
            silence,
            peers: unmet(alloc, own.nodes, kept)?,
            refusals: Refusals::new(None),
            addresses: Vec::new(alloc),
            settings: None,
            looked: 0,
            own_front: OwnFront::new(),
        })
    }

    /// This node's own number.
    pub fn number(&self) -> u8
        ensures { result ≡ (own_of self.now).number }
    {
        self.lines.own.number
    }

    /// The node has promised this ballot, as Hellos say from now on. One that it had promised before and is greater stays: a node
    /// that is down tells none.
    pub fn set_promised(&mut self, promised: Option<Ballot>)
        ensures stays { Stays self.old self.new }
        ensures set { self.new ≡ record self.old { promised = higher self.old.promised promised; is_set = true } }
    {
        self.promised = higher(self.promised, promised);
        self.is_set = true;
    }

    /// A peer is known to have promised this ballot, by what was kept of it. It counts as shown at moment 0.
    #[tactic(auto, using(crate::proofs::Handing::handed_on, crate::proofs::Handing::handed_stays, crate::proofs::Handing::handed_grew))]
    pub fn set_heard(&mut self, peer: u8, ballot: Ballot)
        ensures stays { Stays self.old self.new }
        ensures set { (number : ℕ) → promise_of self.new number ≡ shown_in peer (Some ballot) number (slice_get self.old.peers.items number) }
    {
        note_promise(&mut self.peers, peer, Some(ballot), 0);
    }

    /// The greatest ballot that a peer is known to have promised, in this life of its store: by a Promise, an Accepted or a Refuse of it
    /// that was told, by a Hello by which it was there, or by what was set. None of a number that no node has.
    pub fn heard(&self, peer: u8) -> Option<Ballot>
        ensures { result ≡ promise_of self.now peer }
    {
        match self.peers.get(peer as usize) {
            Some(peer) => peer.promised,
            None => None,
        }
    }

    /// These are the settings of this process, which each peer is told once a connection opens.
    pub fn set_settings(&mut self, settings: Settings)
        ensures stays { Stays self.old self.new }
        ensures set { self.new ≡ record self.old { settings = Some settings } }
    {
        self.settings = Some(settings);
    }

    /// These are the addresses of nodes: callers from them are counted apart from others.
    pub fn set_addresses(&mut self, addresses: Vec<NodeAddress>)
        ensures stays { Stays self.old self.new }
        ensures set { self.new ≡ record self.old { addresses = addresses } }
    {
        self.addresses = addresses;
    }

    /// A peer counts as absent once it was silent for so long.
    pub fn set_silence(&mut self, silence: u64)
        ensures stays { Stays self.old self.new }
        ensures set { self.new ≡ record self.old { silence = silence } }
    {
        self.silence = silence;
    }

    /// What a process is told next of its peers.
    ///
    /// A frame is one that came over a line of these wires: of a node without a key behind the Hello of the node that said it,
    /// which was taken; with a key as the next record coded on that node's way of the connection, behind that Hello and its
    /// proof under the key, over it and this node's own, which is the first that was written to the line. A node is told to be
    /// there, and its life to be kept, only by a Hello that opened a connection: with a key behind its proof. No frame is told
    /// of a node of which two lives are known by then, whenever it came.
    ///
    /// Of the Prepares and Accepts of a peer only the newest that was read is told, here or by `next_aside`. What waited in front of
    /// what is told was left out because of a newer one or of two lives, or is set aside.
    #[tactic(auto, using(crate::proofs::Handing::handed_on, crate::proofs::Handing::handed_stays, crate::proofs::Handing::handed_grew))]
    pub fn next(&mut self) -> Option<Notice>
        ensures keeps { Keeps self.old self.new }
        ensures frames { frames_of self.new ≡ frames_of self.old }
        ensures heard { heard_of self.new ≡ heard_of self.old ++ heard_by result }
        ensures told { IfSome result (λ notice. IsTold (own_of self.old) (passed_of self.old) notice) }
        ensures one { IfSome result (λ notice. IsOfOne (own_of self.old) self.old.peers.items notice) }
        ensures passes { Passes (own_of self.old) self.old.peers.items (newest_of self.old) self.old.own_front.front (waits_of self.old) (aside_of self.old) result (waits_of self.new) (aside_of self.new) }
        ensures promises { (number : ℕ) → promise_of self.new number ≡ shown_by result number (slice_get self.old.peers.items number) }
    {
        let notice = self.take_next();
        self.note_promise(&notice);
        self.lines.note_told(&notice);
        notice
    }

    /// A notice is told now, by which a peer may show what it has promised.
    #[tactic(auto, using(crate::proofs::Handing::handed_on, crate::proofs::Handing::handed_stays, crate::proofs::Handing::handed_grew))]
    fn note_promise(&mut self, notice: &Option<Notice>)
        ensures stays { Stays self.old self.new }
        ensures lines { self.new.lines ≡ self.old.lines }
        ensures promises { (number : ℕ) → promise_of self.new number ≡ shown_by notice.now number (slice_get self.old.peers.items number) }
    {
        let Some(Notice::Frame { from, frame }) = notice else {
            return;
        };
        let promised = promise_in(frame.as_slice());
        let looked = self.looked;
        note_promise(&mut self.peers, *from, promised, looked);
    }

    /// The next notice that is told of those that wait.
    #[tactic(auto, using(crate::proofs::Growing::stays_on, crate::proofs::Handing::handed_stays, crate::proofs::Lives::told_same, crate::proofs::Lives::one_same))]
    fn take_next(&mut self) -> Option<Notice>
        ensures stays { Stays self.old self.new }
        ensures peers { self.new.peers ≡ self.old.peers }
        ensures told { IfSome result (λ notice. IsTold (own_of self.old) (passed_of self.old) notice) }
        ensures one { IfSome result (λ notice. IsOfOne (own_of self.old) self.old.peers.items notice) }
        ensures passes { Passes (own_of self.old) self.old.peers.items (newest_of self.old) self.old.own_front.front (waits_of self.old) (aside_of self.old) result (waits_of self.new) (aside_of self.new) }
    {
        for _ in 0..u64::MAX {
            let waited = self.lines.pop()?;
            if let Some(notice) = self.pass(waited) {
                return Some(notice);
            }
        }
        None
    }

    /// The next frame that was set aside, once nothing else waits to be told or read: of each peer its newest Prepare or Accept, which
    /// may cost syncs. Prepares come first, by falling ballots. An Accept waits for the front to come to its slot, until the front
    /// has stood for `HOLD`. One is left out where a newer one of its peer was read, or its peer has told a front behind its slots.
    ///
    /// What is told is as `next` says. Where nothing waits and the front has stood so long, none is told only where none is needed.
    #[tactic(auto, using(crate::proofs::Handing::handed_on, crate::proofs::Handing::handed_stays, crate::proofs::Handing::handed_grew))]
    pub fn next_aside(&mut self, now: u64) -> Option<Notice>
        ensures keeps { Keeps self.old self.new }
        ensures frames { frames_of self.new ≡ frames_of self.old }
        ensures heard { heard_of self.new ≡ heard_of self.old ++ heard_by result }
        ensures frame { IfSome result IsFrame }
        ensures told { IfSome result (λ notice. IsTold (own_of self.old) (passed_of self.old) notice) }
        ensures one { IfSome result (λ notice. IsOfOne (own_of self.old) self.old.peers.items notice) }
        ensures takes { TakesAside result (aside_of self.old) (aside_of self.new) }
        ensures needed { IsQuiet (waits_of self.old) self.old.lines.links.items → self.old.own_front.moved + LONG ≤ now → result ≡ None → NoneIsNeeded (own_of self.old) self.old.peers.items (newest_of self.old) (aside_of self.old) }
    {
        let notice = self.take_aside(now);
        self.lines.note_told(&notice);
        notice
    }

    /// Takes what came: what was said, and which connections ended. What peers said that are there, and which of their connections
    /// ended, is taken before new Hellos. Nobody is taken in: who dialled waits for `take_caller`. Peers that are to be dialled are
    /// dialled, also one that is there and has been silent for so long that it counts as absent: beside its connection, over a
    /// second line. While too much waits to be told nothing is taken.
    ///
    /// Behind it no other node is there of which two lives are known: its connection was closed.
    pub fn hear<W: Wire>(&mut self, wire: &mut W, now: u64)
        ensures grew { Grew self.old self.new (W.passed wire.old) (W.passed wire.new) }
        ensures closed { AreClosed (own_of self.new) self.new.peers.items }
        ensures seats { seats_in (W.passed wire.new) ≡ seats_in (W.passed wire.old) }
        ensures log { logged_in (W.passed wire.new) ≡ logged_in (W.passed wire.old) }
        ensures writing { (seat : ℕ) → wrote_over (W.passed wire.new) (Seat seat) ≡ wrote_over (W.passed wire.old) (Seat seat) }
    {
        self.take(wire, now);
    }

    /// Takes in the next one who dialled, and hears him at once: who has ended, or said anything wrong, has no place behind that.
    /// False where the wires give none, and while too much waits to be told. It belongs behind `hear`, by which
    /// those who are there are heard first. Whoever calls it bounds how many are taken in a turn.
    ///
    /// Behind it no other node is there of which two lives are known: its connection was closed.
    pub fn take_caller<W: Wire>(&mut self, wire: &mut W, now: u64) -> bool
        ensures grew { Grew self.old self.new (W.passed wire.old) (W.passed wire.new) }
        ensures closed { AreClosed (own_of self.new) self.new.peers.items }
        ensures seats { seats_in (W.passed wire.new) ≡ seats_in (W.passed wire.old) }
        ensures log { logged_in (W.passed wire.new) ≡ logged_in (W.passed wire.old) }
        ensures writing { (seat : ℕ) → wrote_over (W.passed wire.new) (Seat seat) ≡ wrote_over (W.passed wire.old) (Seat seat) }
        ensures full { is_full self.old ≡ true → result ≡ false }
    {
        self.take_one(wire, now)
    }

    /// Takes what came, and dials.
    #[tactic(auto, using(crate::proofs::Growing::grew_on, crate::proofs::Growing::stayed, crate::proofs::Growing::stays_on))]
    fn take<W: Wire>(&mut self, wire: &mut W, now: u64)
        ensures grew { Grew self.old self.new (W.passed wire.old) (W.passed wire.new) }
        ensures closed { AreClosed (own_of self.new) self.new.peers.items }
    {
        self.take_unless_full(wire, now);
        self.dial_all(wire, now);
        self.end_replaced(wire, now);
    }

    /// Takes what came, but not while too much waits to be told: what isn't read then is no silence.
    #[tactic(auto, using(crate::proofs::Growing::grew_on, crate::proofs::Growing::stayed, crate::proofs::Growing::stays_on, crate::proofs::Handing::handed_on, crate::proofs::Handing::handed_stays, crate::proofs::Handing::handed_grew))]
    fn take_unless_full<W: Wire>(&mut self, wire: &mut W, now: u64)
        ensures { Grew self.old self.new (W.passed wire.old) (W.passed wire.new) }
    {
        let passed = now.saturating_sub(self.looked);
        self.looked = now;
        if self.lines.is_full() {
            forgive_all(&mut self.peers, passed, now);
            return;
        }
        self.take_all(wire, now);
    }

    /// Reads, and hears those who are there.
    #[tactic(auto, using(crate::proofs::Growing::grew_on, crate::proofs::Growing::stayed, crate::proofs::Growing::stays_on))]
    fn read_in<W: Wire>(&mut self, wire: &mut W, now: u64)
        ensures { Grew self.old self.new (W.passed wire.old) (W.passed wire.new) }
    {
        self.read_all(wire);
        self.hear_peers(wire, now);
    }

    /// Ends what has ended or is stale, and tells how many were refused.
    #[tactic(auto, using(crate::proofs::Growing::grew_on, crate::proofs::Growing::stayed, crate::proofs::Growing::stays_on))]
    fn end_in<W: Wire>(&mut self, wire: &mut W, now: u64)
        ensures { Grew self.old self.new (W.passed wire.old) (W.passed wire.new) }
    {
        self.end_stale(wire, now);
        self.note_refusals(now);
    }

    /// Takes what came.
    fn take_all<W: Wire>(&mut self, wire: &mut W, now: u64)
        ensures { Grew self.old self.new (W.passed wire.old) (W.passed wire.new) }
    {
        self.read_in(wire, now);
        self.hear_all(wire, now);
        self.end_in(wire, now);
    }

    /// Sends a frame to another node: it waits for its connection, where none is open.
    ///
    /// Of the frames that wait for that node the oldest are dropped where too many do, and the frame itself where it is an
    /// Ask that comes too soon behind another, where it is none by its length, and where there is no memory.
    #[tactic(auto, using(crate::proofs::Sending::sent_at, crate::proofs::Sending::nobody_sent, crate::proofs::Handing::handed_sent, crate::proofs::Handing::handed_to_nobody))]
    pub fn send(&mut self, to: u8, frame: &[u8], now: u64)
        ensures keeps { Keeps self.old self.new }
        ensures frames { frames_of self.new ≡ frames_of self.old ++ Wrote (ToPeer to) frame.now ∷ [] }
        ensures heard { heard_of self.new ≡ heard_of self.old }
        ensures sends { Sends to frame.now self.old.peers.items self.new.peers.items }
    {
        self.lines.note_sent(to, frame);
        if let Some(peer) = self.peers.get_mut(to as usize) {
            peer.send(frame, now);
        }
    }

    /// Tells each peer how this node is, where that is due, and which lives of stores are known here, where it wasn't told
    /// these yet: they wait then for each peer that is there by a connection of the second version.
    #[tactic(auto, using(crate::proofs::Handing::handed_on, crate::proofs::Handing::handed_stays, crate::proofs::Handing::handed_grew, crate::proofs::Reporting::both_told))]
    pub fn tell(&mut self, told: OwnReport, now: u64)
        ensures stays { Stays self.old self.new }
        ensures told { AreInformed (lives_told (own_of self.old) self.old.peers.items) self.old.settings self.old.peers.items self.new.peers.items }
    {
        self.own_front.see(told.front, now);
        let lines = &self.lines;
        let lives = lives_told(&lines.own, &self.peers);
        tell_all(&mut self.peers, told, now);
        tell_lives(&mut self.peers, &lives, self.settings);
    }

    /// Writes what waits for all peers.
    pub fn flush<W: Wire>(&mut self, wire: &mut W, now: u64)
        ensures grew { Grew self.old self.new (W.passed wire.old) (W.passed wire.new) }
        ensures seats { seats_in (W.passed wire.new) ≡ seats_in (W.passed wire.old) }
        ensures log { logged_in (W.passed wire.new) ≡ logged_in (W.passed wire.old) }
        ensures writing { (seat : ℕ) → wrote_over (W.passed wire.new) (Seat seat) ≡ wrote_over (W.passed wire.old) (Seat seat) }
    {
        self.write_all(wire, now);
    }

    /// How a peer is seen; none of a number that no node has.
    pub fn view(&self, number: u8) -> Option<View>
        ensures { result ≡ view_of self.now number }
    {
        match self.peers.get(number as usize) {
            Some(peer) => Some(peer.view()),
            None => None,
        }
    }

    /// How far a peer is behind this node, and how long its slowest answer took lately; nothing of a number that no node has, and of
    /// a peer that isn't there or has told no front yet.
    pub fn lag(&self, number: u8, now: u64) -> Option<Lag>
        ensures { result ≡ lag_of self.now number now }
    {
        match self.peers.get(number as usize) {
            Some(peer) => peer.lag(self.own_front.front, now),
            None => None,
        }
    }

    /// How many who dialled left, were let go of or made room before they were there, so far, where no fault of theirs is told:
    /// they said no Hello, or only the first part of what is said first.
    pub fn unheard(&self) -> u64
        ensures { result ≡ self.now.lines.unheard }
    {
        self.lines.unheard
    }

    /// How many of those who dialled were taken in so far, whoever they are.
    pub fn callers(&self) -> u64
        ensures { result ≡ self.now.lines.callers }
    {
        self.lines.callers
    }

    /// Does nothing; by its contract what was written over each line so far, with what is begun, is what a connection of this
    /// node spoke, or nothing since one began: its own Hello, with a key its proof, and records. Each frame of them was handed to the
    /// node whose Hello came over that connection.
    pub fn speaks_its_own(&self)
        ensures { (place : ℕ) → IsSpoken (own_of self.now) (frames_of self.now) (talk_over (passed_of self.now) (line_at place)) }
    {}

    /// So much of the time that went by until now isn't counted as silence: the process was stopped, or in a long call.
    #[tactic(auto, using(crate::proofs::Handing::handed_on, crate::proofs::Handing::handed_stays, crate::proofs::Handing::handed_grew))]
    pub fn forgive(&mut self, lost: u64, now: u64)
        ensures { Stays self.old self.new }
    {
        forgive_all(&mut self.peers, lost, now);
    }

    /// Whether what is told next, if anything is, costs the node no sync: it is no frame, or the frame of an Accepted, a
    /// Chosen, an Ask or a Refuse.
    pub fn costs_no_sync(&self) -> bool {
        for notice in &self.lines.notices {
            if let Some(is_free) = self.is_free(notice) {
                return is_free;
            }
        }
        true
    }

    /// How long it is until a peer is to be dialled, a beat is due or a frame that is set aside may be told, at most; 0 where something
    /// waits to be told or read.
    pub fn wait(&self, now: u64) -> u64 {
        if self.lines.has_more() {
            return 0;
        }
        let mut most = LOOK.min(self.wait_of_aside(now));
        for number in 0..NODES {
            most = most.min(self.wait_of(number as u8, now));
        }
        most
    }

    /// How long it is until something is due of a peer.
    fn wait_of(&self, number: u8, now: u64) -> u64 {
        let Some(peer) = self.peers.get(number as usize) else {
            return LOOK;
        };
        if peer.open.is_some() {
            return peer.wait(now);
        }
        if number >= self.lines.own.number {
            return LOOK;
        }
        match peer.dial.due(now) {
            DialDue::Nothing { wait } => wait,
            DialDue::Dial => 0,
            DialDue::GiveUp => 0,
        }
    }
}

/// A peer shows that it promised this, at this moment.
#[tactic(auto, using(crate::proofs::Handing::back_at, crate::proofs::Handing::back_same, crate::proofs::Promises::shown_at, crate::proofs::Promises::shown_beyond))]
fn note_promise(peers: &mut Vec<Peer>, number: u8, promised: Option<Ballot>, now: u64)
    ensures back { GoBack peers.old.items peers.new.items }
    ensures shown { (other : ℕ) → promised_in (slice_get peers.new.items other) ≡ shown_in number promised other (slice_get peers.old.items other) }
{
    if let Some(peer) = peers.get_mut(number as usize) {
        peer.note_promise(promised, now);
    }
}

/// Tells each peer how this node is, where that is due.
#[tactic(auto, using(crate::proofs::Handing::back_at, crate::proofs::Handing::back_same, crate::proofs::Handing::back_on))]
fn tell_all(peers: &mut Vec<Peer>, told: OwnReport, now: u64)
    ensures { GoBack peers.old.items peers.new.items }
{
    for number in 0..NODES {
        if let Some(peer) = peers.get_mut(number) {
            peer.tell(told, now);
        }
    }
}

/// Tells the peer of a number these lives and these settings, where it wasn't told them yet.
#[tactic(auto, using(crate::proofs::Handing::back_at, crate::proofs::Handing::back_same, crate::proofs::Reporting::one_informed, crate::proofs::Reporting::none_informed))]
fn tell_lives_to(peers: &mut Vec<Peer>, number: usize, lives: &Lives, settings: Option<Settings>)
    ensures back { GoBack peers.old.items peers.new.items }
    ensures told { (before : List Peer) → Informed number lives.now settings before peers.old.items → Informed (number + 1) lives.now settings before peers.new.items }
{
    if let Some(peer) = peers.get_mut(number) {
        peer.tell_lives(lives, settings);
    }
}

/// Tells each peer these lives and these settings, where it wasn't told them yet.
#[tactic(auto, using(crate::proofs::Handing::back_same, crate::proofs::Handing::back_on, crate::proofs::Reporting::none_told_yet))]
fn tell_lives(peers: &mut Vec<Peer>, lives: &Lives, settings: Option<Settings>)
    ensures back { GoBack peers.old.items peers.new.items }
    ensures told { Informed MOST lives.now settings peers.old.items peers.new.items }
{
    for number in 0..NODES {
        tell_lives_to(peers, number, lives, settings);
    }
}

/// So much of the time that went by isn't counted as any peer's silence.
#[tactic(auto, using(crate::proofs::Handing::back_at, crate::proofs::Handing::back_same, crate::proofs::Handing::back_on))]
fn forgive_all(peers: &mut Vec<Peer>, lost: u64, now: u64)
    ensures { GoBack peers.old.items peers.new.items }
{
    for number in 0..NODES {
        if let Some(peer) = peers.get_mut(number) {
            peer.forgive(lost, now);
        }
    }
}
