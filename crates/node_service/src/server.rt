//! The turns of a node's process.

ghost use Rattle.std.specs.Prelude.{◌≡◌, ◌≤◌, ◌∷◌, ◌++◌, ℕ, [], true, false, None, IfSome, IsNone};
ghost use Rattle.dealer_node.specs.Seeing.{runs};
ghost use Rattle.clockwork.specs.declared.limits.TheConstants.{MOST_SILENT as MOST};
ghost use Rattle.node_links.specs.declared.limits.TheConstants.{LOOK};
ghost use Rattle.node_service.specs.Arriving.{taken_for};
ghost use Rattle.node_service.specs.declared.limits.TheConstants.{SEATS as COUNT};
ghost use Rattle.node_peers.specs.Peering.{own_of, passed_of, frames_of, heard_of};
ghost use Rattle.node_wires.specs.Passages.{Saw};
ghost use Rattle.node_seats.specs.Seating.{bot_at, no_bot};
ghost use Rattle.node_service.specs.Crossing.{IsCarried, Carries};
ghost use Rattle.node_service.specs.Bots.{AreBotsOf, AreServed};
ghost use Rattle.node_service.specs.Company.{IsShown};
ghost use Rattle.node_service.specs.Called.{Calls};
ghost use Rattle.node_service.specs.Ending.{is_well, IsFault, IsOverAt};
ghost use Rattle.node_service.specs.Logging.{IsFresh, IsBegun, HasOneLog, IsAcceptedOver};
ghost use Rattle.node_service.specs.Fitting.{Fits};
ghost use Rattle.node_service.specs.Seated.{AreSomebody};
ghost use Rattle.node_service.specs.declared.outcome.Outcome.TheVariants.{GoesOn as Further, Over as IsOver};

use crate::apart::Apart;
use crate::awaited_lines::AwaitedLines;
use crate::company::Company;
use crate::deals::read_deals;
use crate::desk::Desk;
use crate::lasting::Lasting;
use crate::limits::{CALLERS, NODES};
use crate::local_node::LocalNode;
use crate::noting::seen_of;
use crate::outcome::Outcome;
use crate::peer_reports::PeerReports;
use crate::rate::Rate;
use crate::seat_acts::SeatActs;
use crate::seat_watches::SeatWatches;
use crate::server_notice::ServerNotice;
use crate::sitting::Sittings;
use crate::terms::Terms;
use crate::turn_timer::TurnTimer;
use crate::turned_away::TurnedAway;
use crate::unread::Unread;
use crate::wrong_tokens::WrongTokens;
use clockwork::limits::SHORTEST;
use clockwork::{Opening, Waking, Watch};
use dealer_node::NodeFault;
use dealer_world::Event;
use match_log::laws::{commands_add_to_the_log, logs_begin_with_their_header};
use node_peers::Peers;
use node_seats::Seats;
use node_status::Askers;
use node_wires::Wire;
use node_wires::limits::TAKEN_AT_ONCE;
use paxos_wire::Ballot;
use promise_store::Disk;
use slot_log::laws::{fronts_go_on, hands_come_of_commands};
use stations::Station;
use std::alloc::Global;

/// The process of a node: its station, its wires, and what it knows of its peers.
///
/// It changes its node by `Station::step` alone, so what is promised of stations holds of this one, whatever the wires give.
pub struct NodeServer<D: Disk + Drop, W: Wire + Drop> {
    pub(crate) desk: Desk<D, W>,
    pub(crate) watch: Watch,
    pub(crate) reports: PeerReports,
    pub(crate) lasting: Lasting,
    pub(crate) turn_timer: TurnTimer,
    /// What is kept of each seat, and what the commands that the node applied say of its acts.
    pub(crate) seat_watches: SeatWatches,
    pub(crate) acts: SeatActs,
    /// Since when anybody is played for, and what was heard and read since the process slept.
    pub(crate) opening: Opening,
    pub(crate) waking: Waking,
    pub(crate) unread: Unread,
    pub(crate) rate: Rate,
    /// What came of seats was read in this turn, and at some seat's port more may be than were taken in it.
    pub(crate) has_read_seats: bool,
    pub(crate) has_callers: bool,
    /// Of these seats it was told that a bot sits there, a bit each.
    pub(crate) seated: u16,
    /// How long a peer may be silent and still counts as present.
    pub(crate) silence: u64,
    /// When it was last looked at what is due; and by what was known then: whether the node learns what was chosen before, and
    /// how many present nodes have a lower number.
    pub(crate) looked: u64,
    pub(crate) replays: bool,
    pub(crate) rank: usize,
    /// When the process began, and when it last left a turn.
    pub(crate) began: u64,
    pub(crate) left: u64,
    /// When it last looked whether it slept, and how long calls of its node took since then.
    marked: u64,
    pub(crate) in_calls: u64,
    /// The ballot that the node promised itself to last, as far as it was seen; and whether the node was started.
    pub(crate) leader: Option<Ballot>,
    pub(crate) is_started: bool,
    pub(crate) wrong_tokens: WrongTokens,
    pub(crate) turned_away: TurnedAway,
    pub(crate) awaited_lines: AwaitedLines,
    /// The peers are those of another node: nothing is done.
    is_foreign: bool,
    /// The match was over here, and each peer knew or was gone: the process ends well.
    is_over: bool,
    ghost within: { silence ≤ MOST },
}

/// By hand, so that letting one go is one call for whoever owns it (docs/ARCHITECTURE.md, Habits).
impl<D: Disk + Drop, W: Wire + Drop> Drop for NodeServer<D, W> {
    fn drop(self) {
        let NodeServer {
            desk: _,
            watch: _,
            reports: _,
            lasting: _,
            turn_timer: _,
            seat_watches: _,
            acts: _,
            opening: _,
            waking: _,
            unread: _,
            rate: _,
            has_read_seats: _,
            has_callers: _,
            seated: _,
            silence: _,
            looked: _,
            replays: _,
            rank: _,
            began: _,
            left: _,
            marked: _,
            in_calls: _,
            leader: _,
            is_started: _,
            wrong_tokens: _,
            turned_away: _,
            awaited_lines: _,
            is_foreign: _,
            is_over: _,
        } = self;
    }
}

impl<D: Disk + Drop, W: Wire + Drop> NodeServer<D, W> {
    ghost use Rattle.node_service.specs.Desks.{IsKept};
    ghost use Rattle.node_service.specs.Going.{GoesOn, GoesOnWith, GoesOnToLife, Does};
    ghost use Rattle.node_service.specs.Turns.{IsTurnOf};
    ghost use Rattle.node_service.specs.Serving.{served_of, told_in, station_of, outcome_in, ending_in, fault_in, heard_in, look_in, nodes_of};
    ghost use Rattle.node_service.specs.Meaning.{IsMeant, IsKnownEverywhere};
    ghost use Rattle.node_service.specs.Knowing.{MayCall, players_of};
    ghost use Rattle.node_service.specs.Timing.{marked_at, unread_at, with_callers};

    /// The process of this member, by these terms. Nothing is done yet. Where the peers are those of another node nothing ever
    /// is.
    pub fn new(
        alloc: Global,
        member: LocalNode<D>,
        mut wire: W,
        peers: Peers,
        seats: Seats,
        askers: Askers,
        terms: Terms,
    ) -> NodeServer<D, W>
        ensures station { station_of result ≡ member.station }
        ensures terms { (served_of result).terms ≡ terms }
        ensures passed { (served_of result).passed ≡ W.passed wire ++ Saw result.left ∷ [] }
        ensures log { (served_of result).log_failed ≡ false }
        ensures told { told_in result ≡ [] }
        ensures own { (served_of result).own ≡ own_of peers }
        ensures lines { (served_of result).lines ≡ passed_of peers }
        ensures sent { (served_of result).sent ≡ frames_of peers }
        ensures heard { (served_of result).heard ≡ heard_of peers }
        ensures carried { IsCarried (W.passed wire) (passed_of peers) seats.seats.items askers.askers.items → Carries (served_of result) }
        ensures bots { ((seat : ℕ) → bot_at seats.seats.items seat ≡ no_bot) → AreBotsOf (look_in result) (served_of result).bots }
        ensures peers { outcome_in result ≡ Further → (own_of peers).number ≡ (look_in result).number }
        ensures further { (own_of peers).number ≡ (look_in result).number → member.fault ≡ None → outcome_in result ≡ Further }
        ensures started { (served_of result).started ≡ member.is_started }
        ensures fits { (look_in result).deeds ≡ [] → Fits (served_of result) }
        ensures somebody { ((seat : ℕ) → bot_at seats.seats.items seat ≡ no_bot) → AreSomebody (served_of result) }
    {
        let now = wire.now();
        let seen = seen_of(&member);
        let is_foreign = peers.number() != member.number();
        let config = member.station().config();
        let acts = SeatActs::new(*config.game(), config.hands());
        let company = Company::new(alloc, peers);
        NodeServer {
            desk: Desk {
                member: member.under(terms),
                wire,
                company,
                seats,
                askers,
                log_failed: false,
                sittings: Sittings::new(),
                apart: Apart::new(),
            },
            watch: Watch::new(seen, now),
            reports: PeerReports::new(),
            lasting: Lasting::new(now),
            turn_timer: TurnTimer::new(now),
            seat_watches: SeatWatches::new(),
            acts,
            opening: Opening::new(),
            waking: Waking::new(),
            unread: Unread::new(),
            rate: Rate::new(seen.front, now),
            has_read_seats: false,
            has_callers: false,
            seated: 0,
            silence: SHORTEST,
            looked: now,
            replays: false,
            rank: 0,
            began: now,
            left: now,
            marked: now,
            in_calls: 0,
            leader: None,
            is_started: false,
            wrong_tokens: WrongTokens::new(),
            turned_away: TurnedAway::new(),
            awaited_lines: AwaitedLines::new(),
            is_foreign,
            is_over: false,
        }
    }

    /// The node, and what it did.
    pub fn station(&self) -> &Station<D>
        ensures { result.now ≡ station_of self.now }
    {
        self.desk.member.station()
    }

    /// What holds of the log of every server: where the node was started once, by a start that went well, over an honest disk
    /// that its earlier processes left, what it showed to the log is the dealer's log after the commands that it has applied,
    /// whatever its peers sent.
    pub fn limits(&self)
        ensures { HasOneLog D.Disk (look_in self.now) }
    {
        commands_add_to_the_log();
        fronts_go_on();
        logs_begin_with_their_header();
        let station = self.desk.member.station();
        station.limits();
        station.config().limits();
    }

    /// What holds of the log once the match is over here: it is one that `match_log::check` accepts, whatever the peers sent.
    /// It reads the deal of each hand.
    pub fn read_deals(&self)
        ensures { IsAcceptedOver D.Disk (look_in self.now) }
    {
        hands_come_of_commands();
        self.limits();
        let station = self.desk.member.station();
        station.limits();
        station.config().limits();
        let table = station.node().table();
        table.limits();
        read_deals(table);
    }

    /// How many nodes the match has, as many as there may be at most.
    pub(crate) fn nodes(&self) -> u8
        ensures { result ≡ nodes_of self.now }
    {
        let nodes = self.desk.member.station().config().nodes();
        nodes.min(NODES) as u8
    }

    /// How many seats the match has, as many as there may be at most.
    pub(crate) fn players(&self) -> u8
        ensures value { result ≡ players_of self.now }
        ensures most { result ≤ COUNT }
    {
        let game = self.desk.member.station().config().game();
        game.limits();
        game.players() as u8
    }

    /// The wires of the process.
    pub fn wire(&self) -> &W
        ensures { W.passed result.now ≡ (served_of self.now).passed }
    {
        &self.desk.wire
    }

    /// How many of those who dialled this node so far left, or were let go of, before they were there, without a fault to tell.
    pub fn unheard(&self) -> u64 {
        self.desk.company.peers.unheard()
    }

    /// The greatest ballot that a peer is known to have promised, as it told or as was known when this process began; none of a number
    /// that no node has.
    pub fn heard(&self, peer: u8) -> Option<Ballot>
        ensures { result ≡ heard_in self.now peer }
    {
        self.desk.company.peers.heard(peer)
    }

    /// When the process last left a turn, in microseconds of its wires' clock; before the first turn, when it began.
    pub fn left(&self) -> u64
        ensures { result ≡ self.now.left }
    {
        self.left
    }

    /// The wires, for whoever brings what comes over them. What is said of a turn is said of that turn alone.
    pub fn wire_mut(&mut self) -> &mut W {
        self.desk.wire_mut()
    }

    /// What is to be told next of what happened. A node that is told to be there opened a connection by its Hello, with a key
    /// behind its proof, and a life that is told with it is the one of that Hello.
    pub fn notice(&mut self) -> Option<ServerNotice>
        ensures next { IfSome result (λ told. told_in self.old ≡ told ∷ told_in self.new) }
        ensures none { IsNone result → told_in self.old ≡ [] }
        ensures same { served_of self.new ≡ served_of self.old }
        ensures outcome { outcome_in self.new ≡ outcome_in self.old }
        ensures shown { IfSome result (λ told. IsShown (served_of self.old).own (served_of self.old).lines told) }
    {
        self.desk.company.notice()
    }

    /// Without memory for it a note is left out.
    pub(crate) fn tell(&mut self, told: ServerNotice)
        requires { IsShown (own_of self.old.desk.company.peers) (passed_of self.old.desk.company.peers) told }
        ensures { IsKept W.Wire self.old.desk self.new.desk }
    {
        let _ = self.desk.company.tell(told);
    }

    /// What ends the process, by what was noted of its peers, its node and its log; the next turn is left to do else.
    pub(crate) fn ending(&self) -> Outcome
        ensures { result ≡ ending_in self.now }
    {
        let company = &self.desk.company;
        if self.is_foreign {
            return Outcome::Failed(NodeFault::Down);
        }
        if company.is_replaced() {
            return Outcome::StoreReplaced;
        }
        if company.is_older() {
            return Outcome::StoreOlder;
        }
        if company.is_life_lost() {
            return Outcome::Failed(NodeFault::OutOfMemory);
        }
        match self.desk.member.ending_fault() {
            Some(fault) => Outcome::Failed(fault),
            None if self.desk.log_failed => Outcome::LogFailed,
            None => Outcome::GoesOn,
        }
    }

    /// What is left to do, as it stands.
    fn kept(&self) -> Outcome
        ensures { result ≡ outcome_in self.now }
    {
        match self.ending() {
            Outcome::GoesOn if self.is_over => Outcome::Over,
            ending => ending,
        }
    }

    /// What is left to do, where the match is over here and known everywhere, or isn't: nothing is well while the node is down.
    #[tactic(auto, using(crate::proofs::Meaning::ending_is_meant))]
    fn left_to_do(&self, is_over: bool) -> Outcome
        ensures log { is_well result ≡ true → self.now.desk.log_failed ≡ false }
        ensures runs { is_well result ≡ true → runs (look_in self.now).node ≡ true }
        ensures answered { is_well result ≡ true → fault_in self.now ≡ None }
        ensures over { result ≡ IsOver → is_over ≡ true }
        ensures behind { result ≡ IsOver → ending_in self.now ≡ Further }
        ensures further { result ≡ Further → (ending_in self.now ≡ Further) × (is_over ≡ false) }
        ensures fault { IsFault result → IsMeant self.now result }
    {
        self.desk.member.limits();
        let runs = self.desk.member.node().running();
        match self.ending() {
            Outcome::GoesOn if !runs => Outcome::Failed(NodeFault::Down),
            Outcome::GoesOn if is_over => Outcome::Over,
            ending => ending,
        }
    }

    /// What is left to do of a process that may have ended: it isn't over before the match is over there.
    fn outcome(&self) -> Outcome
        ensures same { is_well result ≡ true → result ≡ outcome_in self.now }
        ensures log { is_well result ≡ true → self.now.desk.log_failed ≡ false }
        ensures runs { is_well result ≡ true → runs (look_in self.now).node ≡ true }
        ensures over { result ≡ IsOver → IsOverAt (look_in self.now).node }
        ensures behind { result ≡ IsOver → ending_in self.now ≡ Further }
        ensures fault { outcome_in self.now ≡ Further → IsFault result → IsMeant self.now result }
    {
        if self.is_over && !self.desk.member.is_over() {
            return Outcome::Failed(NodeFault::Down);
        }
        self.left_to_do(self.is_over)
    }

    /// Starts the node, unless the process is to end, or it was started before.
    pub fn start(&mut self) -> Outcome
        ensures goes { Does D.Disk [] (served_of self.old) (served_of self.new) }
        ensures log { is_well result ≡ true → (served_of self.new).log_failed ≡ false }
        ensures runs { is_well result ≡ true → runs (look_in self.new).node ≡ true }
        ensures over { result ≡ IsOver → IsOverAt (look_in self.new).node }
        ensures begun { IsFresh (look_in self.old) → IsBegun result (served_of self.new) }
        ensures further { result ≡ Further → outcome_in self.new ≡ Further }
        ensures known { outcome_in self.old ≡ Further → result ≡ IsOver → ⊥ }
        ensures fault { outcome_in self.old ≡ Further → IsFault result → IsMeant self.new result }
        ensures ended { (outcome_in self.old ≡ Further → ⊥) → self.new ≡ self.old }
    {
        if self.kept() != Outcome::GoesOn {
            return self.outcome();
        }
        if self.desk.member.is_started() {
            return self.outcome();
        }
        let node = self.desk.member.number();
        let _ = self.call(&Event::Start { node });
        self.is_started = true;
        self.is_over = false;
        self.left_to_do(false)
    }

    /// One call of the node: what it made is handed on, and written as far as there is room. It ticks, and is ordered that a
    /// seat is played for, only where that is due by what the process knows.
    pub(crate) fn call(&mut self, event: &Event) -> Option<Result<(), NodeFault>>
        requires { MayCall self.old event.now }
        ensures goes { Does D.Disk (taken_for event.now) (served_of self.old) (served_of self.new) }
        ensures calls { Calls event.now result self.old.desk.member self.new.desk.member }
    {
        let (answer, before) = self.step(event);
        let now = self.desk.now();
        self.note_faults(answer.is_some());
        self.note_seen(before, now);
        self.speak(now);
        answer
    }

    /// What went by since the last mark beyond calls of the node and a wait of so long: where that is long the process slept. It
    /// counts for the table as it stands now. So every moment of a process lies between two marks.
    pub(crate) fn mark(&mut self, now: u64, most: u64)
        ensures kept { self.new.desk ≡ self.old.desk }
        ensures waking { self.new.waking ≡ marked_at self.old now most }
        ensures unread { self.new.unread ≡ unread_at self.old now most }
        ensures marked { self.new.marked ≡ now }
        ensures in_calls { self.new.in_calls ≡ 0 }
    {
        let went_by = now.saturating_sub(self.marked);
        let lost = went_by.saturating_sub(self.in_calls).saturating_sub(most);
        let stood = self.stood();
        self.waking.stand(stood);
        self.waking.pass(lost);
        self.unread.pass(lost);
        self.watch.pass(lost, now);
        self.marked = now;
        self.in_calls = 0;
    }

    /// Waits for so long at most. What goes by beyond that since the last turn isn't counted as silence.
    /// Where it is long the process slept.
    pub(crate) fn wait(&mut self, most: u64) -> u64
        ensures kept { IsKept W.Wire self.old.desk self.new.desk }
        ensures waking { self.new.waking ≡ marked_at self.old result most }
    {
        self.desk.wait(most);
        let now = self.desk.now();
        let lost = now.saturating_sub(self.left).saturating_sub(most);
        self.desk.forgive(lost, now);
        self.mark(now, most);
        now
    }

    /// What those took who came to ports isn't sleep, up to `CALLERS`.
    pub(crate) fn note_busy(&mut self, took: u64)
        ensures kept { self.new.desk ≡ self.old.desk }
        ensures in_calls { self.new.in_calls ≡ with_callers self.old.in_calls took }
    {
        self.in_calls = self.in_calls.saturating_add(took.min(CALLERS));
    }

    /// Takes in those who dialled, one after another, in a turn of this moment, until they have taken their time: one call in any case.
    /// It answers when that was.
    fn take_dialled(&mut self, turn: u64, begun: u64) -> u64
        ensures { IsKept W.Wire self.old.desk self.new.desk }
    {
        let mut now = begun;
        for _ in 0..TAKEN_AT_ONCE {
            if !self.desk.take_caller(turn) {
                return now;
            }
            now = self.desk.now();
            if now.saturating_sub(begun) >= CALLERS {
                return now;
            }
        }
        now
    }

    /// Takes what peers sent, dials those that are to be dialled, and takes in those who dialled. What these took isn't sleep.
    fn hear_peers(&mut self, turn: u64)
        ensures { IsKept W.Wire self.old.desk self.new.desk }
    {
        self.desk.hear(turn);
        let begun = self.desk.now();
        let now = self.take_dialled(turn, begun);
        self.note_busy(now.saturating_sub(begun));
    }

    /// How long the next turn may wait, where that is how long it is until a tick may be due. Not at all where something is
    /// left.
    pub(crate) fn rest(&self, is_all: bool, until_due: u64, now: u64) -> u64
        ensures { result ≤ LOOK }
    {
        if !is_all || self.has_callers || self.desk.sittings.first_let_go().is_some() {
            return 0;
        }
        until_due
            .min(self.desk.company.peers.wait(now))
            .min(self.lasting.wait(now))
    }

    /// A peer that keeps another life of the node's store is answered before the process ends.
    fn answer_replaced(&mut self)
        ensures { IsKept W.Wire self.old.desk self.new.desk }
    {
        if self.desk.company.is_replaced() {
            let now = self.desk.now();
            self.speak(now);
        }
    }

    /// The process ends in the middle of a turn.
    pub(crate) fn part(&mut self)
        ensures kept { IsKept W.Wire self.old.desk self.new.desk }
        ensures served { AreServed (look_in self.new) (served_of self.new).bots }
    {
        self.answer_replaced();
        self.desk.tell_seats();
    }

    /// One turn: waits for so many microseconds at most, takes what came, and does what is due. It answers what is left to
    /// do, and how long the next turn may wait. Once the process is to end nothing is done, nor before its node runs: so nothing is said
    /// to peers before that.
    ///
    /// What peers told is taken first, and then of each seat one thing at most: a bot that comes, or a piece of 512 bytes at most. Behind
    /// what is due, where all of peers was taken, one frame of a peer at most that was set aside: it may cost syncs.
    /// Those who dialled, and those who came to the ports of seats with tokens, are taken for some 25 ms each: one call for
    /// the former and one of each port in any case.
    /// Nobody comes to a seat at which somebody sat when the turn began: who is there meanwhile waits. Where such a seat is free
    /// at the end of the turn, the next one doesn't rest.
    ///
    /// Behind a turn that goes on each bot whose session is ready was told all lines to which the node's table has come, or
    /// 64 KiB wait for it; or it waits for the line that it named.
    pub fn turn(&mut self, alloc: Global, most: u64) -> (Outcome, u64)
        ensures goes { GoesOn D.Disk [] (served_of self.old) (served_of self.new) }
        ensures lives { GoesOnToLife D.Disk (served_of self.old) (served_of self.new) }
        ensures takes { GoesOnWith D.Disk (IsTurnOf (served_of self.old).bots) (served_of self.old) (served_of self.new) }
        ensures log { is_well result.0 ≡ true → (served_of self.new).log_failed ≡ false }
        ensures runs { is_well result.0 ≡ true → runs (look_in self.new).node ≡ true }
        ensures over { result.0 ≡ IsOver → IsOverAt (look_in self.new).node }
        ensures behind { result.0 ≡ IsOver → ending_in self.new ≡ Further }
        ensures known { outcome_in self.old ≡ Further → result.0 ≡ IsOver → IsKnownEverywhere self.new self.new.left }
        ensures further { result.0 ≡ Further → outcome_in self.new ≡ Further }
        ensures fault { outcome_in self.old ≡ Further → IsFault result.0 → IsMeant self.new result.0 }
        ensures wait { result.1 ≤ LOOK }
        ensures served { result.0 ≡ Further → AreServed (look_in self.new) (served_of self.new).bots }
        ensures down { runs (look_in self.old).node ≡ false → self.new ≡ self.old }
        ensures ended { (outcome_in self.old ≡ Further → ⊥) → self.new ≡ self.old }
    {
        let outcome = self.outcome();
        if outcome != Outcome::GoesOn {
            return (outcome, 0);
        }
        let (is_over, rest) = self.take_turn(alloc, most);
        self.is_over = is_over;
        (self.left_to_do(is_over), rest)
    }

    /// One turn of a process that goes on. It answers whether the match is over here and known everywhere, and how long the
    /// next turn may wait.
    fn take_turn(&mut self, alloc: Global, most: u64) -> (bool, u64)
        ensures takes { GoesOnWith D.Disk (IsTurnOf (served_of self.old).bots) (served_of self.old) (served_of self.new) }
        ensures over { result.0 ≡ true → IsOverAt (look_in self.new).node }
        ensures known { result.0 ≡ true → IsKnownEverywhere self.new self.new.left }
        ensures wait { result.1 ≤ LOOK }
        ensures served { AreServed (look_in self.new) (served_of self.new).bots }
    {
        // Nobody follows those who sit there now within this turn, nor one another.
        let closed = self.desk.seats.taken_bits();
        let begun = self.wait(most);
        self.hear_peers(begun);
        // What beats told is older than what the frames behind them say.
        self.look(begun);
        let taking = self.desk.now();
        let (is_read, is_all) = self.take_all(alloc, closed, taking);
        self.note_callers(begun);
        if self.ending() != Outcome::GoesOn {
            self.part();
            return (false, 0);
        }
        let until_due = self.keep_time();
        let is_late = self.take_aside(alloc, is_read);
        let now = self.desk.now();
        self.note_waiting(now);
        self.note_missing(now);
        self.note_behind(now);
        self.look_at_lines(now);
        let is_asked = self.answer_askers(alloc, now);
        let is_all_read = is_all & self.has_read_seats;
        let over = self.finish(is_all_read, now);
        self.speak(now);
        // Whoever was behind has room for more now.
        let owes_lines = self.owes_lines();
        self.desk.tell_seats();
        self.note_read(self.has_read_seats, is_all_read, now);
        self.left = now;
        let is_over = self.is_done(over, now);
        // Behind a frame that was set aside something else may be due.
        let is_rest = is_all & !is_asked & !owes_lines & !is_late;
        (is_over, self.rest(is_rest, until_due, now))
    }
}
