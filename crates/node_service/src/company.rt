//! The peers of a node's process, and what is to be told: of them, and of all else that happened.

ghost use Rattle.std.specs.Prelude.{◌≡◌, ◌⊎◌, ℕ, true, false, ◌∷◌, ◌++◌, [], Some, IfSome, IsNone};
ghost use Rattle.peer_codes.specs.declared.hello.Life.{Life as OfLife};
ghost use Rattle.node_service.specs.declared.server_notice.ServerNotice.TheVariants.{Joined};
ghost use Rattle.node_peers.specs.Hearing.{IsTold, are_told_prop};
ghost use Rattle.node_peers.specs.Noticing.{heard_by, IsFrame};
ghost use Rattle.node_peers.specs.Peering.{own_of, passed_of, frames_of, heard_of, Grew, Keeps, Stays};
ghost use Rattle.node_peers.specs.Sending.{Sends};
ghost use Rattle.node_wires.specs.declared.line.Line.TheVariants.{Peer, Seat};
ghost use Rattle.node_wires.specs.Passages.{Wrote, logged_in, seats_in, wrote_over};
ghost use Rattle.node_service.specs.Company.{joined_in, IsShown, AreShown, HearsOn, TellsOlder, TellsReplaced, LosesLife, TellsOrLoses};

use crate::server_notice::ServerNotice;
use node_links::{OwnReport, PeerFault, Whose};
use node_peers::{Notice, Peers};
use node_wires::Wire;
use paxos_wire::Ballot;
use std::alloc::Global;
use std::collections::VecDeque;

/// The peers of a process, and what it has to tell, the next first. Each node that is told to be there is one that the peers
/// told so, and the life that is told with it too.
pub(crate) struct Company {
    pub(crate) peers: Peers,
    pub(crate) told: VecDeque<ServerNotice>,
    /// The peers told that one keeps another life of this node's store.
    is_replaced: bool,
    /// The peers told that this node's store is an older copy.
    is_older: bool,
    /// There was no memory to tell a life that was to be kept.
    is_life_lost: bool,
    ghost shown: { AreShown (own_of peers) (passed_of peers) told.items } by { are_told_prop (own_of peers) (passed_of peers) (joined_in told.items) },
}

/// By hand, so that letting one go is one call for whoever owns it (docs/ARCHITECTURE.md, Habits).
impl Drop for Company {
    fn drop(self) {
        let Company {
            peers: _,
            told: _,
            is_replaced: _,
            is_older: _,
            is_life_lost: _,
        } = self;
    }
}

/// Whether this tells that a peer keeps another life of this node's store.
fn tells_replaced(notice: &Option<Notice>) -> bool
    ensures { result ≡ true → TellsReplaced notice.now }
{
    match notice {
        Some(
            Notice::Refused {
                peer: _,
                fault: PeerFault::StoreReplaced(Whose::Own),
                source: _,
            },
        ) => true,
        _ => false,
    }
}

/// Whether this tells that this node's store is an older copy.
fn tells_older(notice: &Option<Notice>) -> bool
    ensures { result ≡ true → TellsOlder notice.now }
{
    match notice {
        Some(
            Notice::Refused {
                peer: _,
                fault: PeerFault::StoreOlder(Whose::Own),
                source: _,
            },
        ) => true,
        _ => false,
    }
}

/// Whether this tells a life that is to be kept.
fn has_life(told: &ServerNotice) -> bool
    ensures is { result ≡ true → (peer : ℕ) × ((life : OfLife) × (told.now ≡ Joined peer (Some life))) }
    ensures none { result ≡ false → (peer : ℕ) → (life : OfLife) → told.now ≡ Joined peer (Some life) → ⊥ }
{
    match told {
        ServerNotice::Joined {
            peer: _,
            life: Some(_),
        } => true,
        _ => false,
    }
}

impl Company {
    ghost use Rattle.node_service.specs.Flags.{KeepsFlags};

    /// Nothing is to be told.
    pub(crate) fn new(alloc: Global, peers: Peers) -> Company
        ensures peers { result.peers ≡ peers }
        ensures told { result.told.items ≡ [] }
        ensures replaced { result.is_replaced ≡ false }
        ensures older { result.is_older ≡ false }
        ensures lost { result.is_life_lost ≡ false }
    {
        let told = VecDeque::new(alloc);
        Company {
            peers,
            told,
            is_replaced: false,
            is_older: false,
            is_life_lost: false,
        }
    }

    /// What is to be told next.
    #[tactic(auto, using(crate::proofs::Hearing::first_shown, crate::proofs::Hearing::rest_shown))]
    pub(crate) fn notice(&mut self) -> Option<ServerNotice>
        ensures next { IfSome result (λ told. self.old.told.items ≡ told ∷ self.new.told.items) }
        ensures none { IsNone result → self.old.told.items ≡ [] }
        ensures same { self.new.peers ≡ self.old.peers }
        ensures flags { KeepsFlags self.old self.new }
        ensures shown { IfSome result (λ told. IsShown (own_of self.old.peers) (passed_of self.old.peers) told) }
    {
        self.told.pop_front()
    }

    /// This is to be told behind the rest. False without memory: then it is lost.
    #[tactic(auto, using(crate::proofs::Hearing::one_shown))]
    pub(crate) fn tell(&mut self, told: ServerNotice) -> bool
        requires { IsShown (own_of self.old.peers) (passed_of self.old.peers) told }
        ensures peers { self.new.peers ≡ self.old.peers }
        ensures replaced { self.new.is_replaced ≡ self.old.is_replaced }
        ensures older { self.new.is_older ≡ self.old.is_older }
        ensures lost { LosesLife self.old.is_life_lost self.new.is_life_lost self.old.told.items self.new.told.items told }
        ensures told { TellsOrLoses result self.old.told.items self.new.told.items told self.new.is_life_lost }
    {
        let is_life = has_life(&told);
        if self.told.push_back(told).is_ok() {
            return true;
        }
        if is_life {
            self.is_life_lost = true;
        }
        false
    }

    /// Whether the peers told that one keeps another life of this node's store.
    pub(crate) fn is_replaced(&self) -> bool
        ensures { result ≡ self.now.is_replaced }
    {
        self.is_replaced
    }

    /// Whether the peers told that this node's store is an older copy.
    pub(crate) fn is_older(&self) -> bool
        ensures { result ≡ self.now.is_older }
    {
        self.is_older
    }

    /// Whether there was no memory to tell a life that was to be kept.
    pub(crate) fn is_life_lost(&self) -> bool
        ensures { result ≡ self.now.is_life_lost }
    {
        self.is_life_lost
    }

    /// What the peers tell next.
    #[tactic(auto, using(crate::proofs::Hearing::heard_keeping, crate::proofs::Hearing::shown_keeping, crate::proofs::Hearing::told_keeping))]
    pub(crate) fn next(&mut self) -> Option<Notice>
        ensures hears { HearsOn self.old.peers self.new.peers }
        ensures keeps { Keeps self.old.peers self.new.peers }
        ensures frames { frames_of self.new.peers ≡ frames_of self.old.peers }
        ensures heard { heard_of self.new.peers ≡ heard_of self.old.peers ++ heard_by result }
        ensures told { IfSome result (λ notice. IsTold (own_of self.new.peers) (passed_of self.new.peers) notice) }
        ensures replaced { self.new.is_replaced ≡ true → (self.old.is_replaced ≡ true) ⊎ TellsReplaced result }
        ensures older { self.new.is_older ≡ true → (self.old.is_older ≡ true) ⊎ TellsOlder result }
        ensures lost { self.new.is_life_lost ≡ self.old.is_life_lost }
    {
        let notice = self.peers.next();
        if tells_replaced(&notice) {
            self.is_replaced = true;
        }
        if tells_older(&notice) {
            self.is_older = true;
        }
        notice
    }

    /// The next frame that was set aside and is told now, if one is.
    #[tactic(auto, using(crate::proofs::Hearing::heard_keeping, crate::proofs::Hearing::shown_keeping, crate::proofs::Hearing::told_keeping))]
    pub(crate) fn next_aside(&mut self, now: u64) -> Option<Notice>
        ensures hears { HearsOn self.old.peers self.new.peers }
        ensures keeps { Keeps self.old.peers self.new.peers }
        ensures frames { frames_of self.new.peers ≡ frames_of self.old.peers }
        ensures heard { heard_of self.new.peers ≡ heard_of self.old.peers ++ heard_by result }
        ensures told { IfSome result (λ notice. IsTold (own_of self.new.peers) (passed_of self.new.peers) notice) }
        ensures frame { IfSome result IsFrame }
        ensures flags { KeepsFlags self.old self.new }
    {
        self.peers.next_aside(now)
    }

    /// Takes what peers sent, and dials those that are to be dialled.
    #[tactic(auto, using(crate::proofs::Hearing::heard_more, crate::proofs::Hearing::shown_more))]
    pub(crate) fn hear<W: Wire>(&mut self, wire: &mut W, now: u64)
        ensures hears { HearsOn self.old.peers self.new.peers }
        ensures grew { Grew self.old.peers self.new.peers (W.passed wire.old) (W.passed wire.new) }
        ensures flags { KeepsFlags self.old self.new }
        ensures writing { (seat : ℕ) → wrote_over (W.passed wire.new) (Seat seat) ≡ wrote_over (W.passed wire.old) (Seat seat) }
        ensures seats { seats_in (W.passed wire.new) ≡ seats_in (W.passed wire.old) }
        ensures log { logged_in (W.passed wire.new) ≡ logged_in (W.passed wire.old) }
    {
        self.peers.hear(wire, now);
    }

    /// Takes in the next one who dialled. False where the wires give none, or too much waits to be told.
    #[tactic(auto, using(crate::proofs::Hearing::heard_more, crate::proofs::Hearing::shown_more))]
    pub(crate) fn take_caller<W: Wire>(&mut self, wire: &mut W, now: u64) -> bool
        ensures hears { HearsOn self.old.peers self.new.peers }
        ensures grew { Grew self.old.peers self.new.peers (W.passed wire.old) (W.passed wire.new) }
        ensures flags { KeepsFlags self.old self.new }
        ensures writing { (seat : ℕ) → wrote_over (W.passed wire.new) (Seat seat) ≡ wrote_over (W.passed wire.old) (Seat seat) }
        ensures seats { seats_in (W.passed wire.new) ≡ seats_in (W.passed wire.old) }
        ensures log { logged_in (W.passed wire.new) ≡ logged_in (W.passed wire.old) }
    {
        self.peers.take_caller(wire, now)
    }

    /// Writes what waits for peers, and first tells them how the node is, where that is due.
    #[tactic(auto, using(crate::proofs::Hearing::heard_later, crate::proofs::Hearing::shown_later, crate::proofs::Hearing::grew_later))]
    pub(crate) fn speak<W: Wire>(&mut self, beat: OwnReport, wire: &mut W, now: u64)
        ensures hears { HearsOn self.old.peers self.new.peers }
        ensures grew { Grew self.old.peers self.new.peers (W.passed wire.old) (W.passed wire.new) }
        ensures flags { KeepsFlags self.old self.new }
        ensures writing { (seat : ℕ) → wrote_over (W.passed wire.new) (Seat seat) ≡ wrote_over (W.passed wire.old) (Seat seat) }
        ensures seats { seats_in (W.passed wire.new) ≡ seats_in (W.passed wire.old) }
        ensures log { logged_in (W.passed wire.new) ≡ logged_in (W.passed wire.old) }
    {
        self.peers.tell(beat, now);
        self.peers.flush(wire, now);
    }

    /// Hands a frame to the peers.
    #[tactic(auto, using(crate::proofs::Hearing::heard_keeping, crate::proofs::Hearing::shown_keeping))]
    pub(crate) fn send(&mut self, to: u8, frame: &[u8], now: u64)
        ensures hears { HearsOn self.old.peers self.new.peers }
        ensures keeps { Keeps self.old.peers self.new.peers }
        ensures frames { frames_of self.new.peers ≡ frames_of self.old.peers ++ Wrote (Peer to) frame.now ∷ [] }
        ensures heard { heard_of self.new.peers ≡ heard_of self.old.peers }
        ensures sends { Sends to frame.now self.old.peers.peers.items self.new.peers.peers.items }
        ensures flags { KeepsFlags self.old self.new }
    {
        self.peers.send(to, frame, now);
    }

    /// The node has promised this ballot.
    #[tactic(auto, using(crate::proofs::Hearing::heard_still, crate::proofs::Hearing::shown_still))]
    pub(crate) fn set_promised(&mut self, promised: Option<Ballot>)
        ensures hears { HearsOn self.old.peers self.new.peers }
        ensures stays { Stays self.old.peers self.new.peers }
        ensures flags { KeepsFlags self.old self.new }
    {
        self.peers.set_promised(promised);
    }

    /// A peer counts as absent once it was silent for so long.
    #[tactic(auto, using(crate::proofs::Hearing::heard_still, crate::proofs::Hearing::shown_still))]
    pub(crate) fn set_silence(&mut self, silence: u64)
        ensures hears { HearsOn self.old.peers self.new.peers }
        ensures stays { Stays self.old.peers self.new.peers }
        ensures flags { KeepsFlags self.old self.new }
    {
        self.peers.set_silence(silence);
    }

    /// So much of the time that went by until now isn't counted as silence of peers.
    #[tactic(auto, using(crate::proofs::Hearing::heard_still, crate::proofs::Hearing::shown_still))]
    pub(crate) fn forgive(&mut self, lost: u64, now: u64)
        ensures hears { HearsOn self.old.peers self.new.peers }
        ensures stays { Stays self.old.peers self.new.peers }
        ensures flags { KeepsFlags self.old self.new }
    {
        self.peers.forgive(lost, now);
    }
}
