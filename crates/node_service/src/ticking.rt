//! When the node ticks, and when the seat to act is played for.

ghost use Rattle.std.specs.Prelude.{◌≡◌, ◌≤◌, ◌<◌, [], None, IfSome, true, false};
ghost use Rattle.clockwork.specs.declared.limits.TheConstants.{LATEST as LAST, LONGEST_PATIENCE as LONGEST, MOST_PEERS as MOST, MOST_NODES as ALL};
ghost use Rattle.node_service.specs.declared.limits.TheConstants.{SEATS as COUNT};
ghost use Rattle.clockwork.specs.declared.answer.Due.TheVariants.{Now};
ghost use Rattle.node_peers.specs.Viewing.{view_of};
ghost use Rattle.node_rules.specs.Standings.{Standing};
ghost use Rattle.dealer_node.specs.Seeing.{IsSeen};
ghost use Rattle.stations.specs.Looking.{look_of};
ghost use Rattle.node_service.specs.Following.{FollowsAll};

use crate::lasting::Turned;
use crate::limits::NODES;
use crate::local_node::LocalNode;
use crate::noting::seat_to_act;
use crate::outcome::Outcome;
use crate::peer_reports::{Others, PeerReports};
use crate::seat_acts::SeatActs;
use crate::seat_watches::{here_of, there_of};
use crate::server::NodeServer;
use crate::server_notice::ServerNotice;
use clockwork::limits::{LATEST, LONGEST_PATIENCE, LOOK, MOST_PEERS};
use clockwork::{
    At, Awaited, Due, Expected, Peer, SeatLook, Waking, Watch, due, has_work, is_behind,
    is_quorate, most_silence, order_due, rank, replays,
};
use dealer_world::Event;
use node_peers::{Peers, View};
use node_wires::Wire;
use promise_store::Disk;
use slot_log::Command;

/// Whether a default action waits that didn't before.
fn is_another(waits: Option<(u32, u16)>, waited: Option<(u32, u16)>) -> bool {
    match (waits, waited) {
        (Some(new), Some(old)) => new != old,
        (Some(_), None) => true,
        (None, _) => false,
    }
}

/// Keeps what a peer has told by its last beat. One that is another than the last is heard by a process that slept.
fn look_at(
    view: &View,
    reports: &mut PeerReports,
    watch: &mut Watch,
    waking: &mut Waking,
    number: u8,
    now: u64,
) {
    if reports.is_further(number, view) {
        waking.hear(number);
    }
    reports.take(number, view, watch.seen.front, now);
    if let Some(beat) = view.beat {
        if beat.campaigns {
            watch.lead();
        }
    }
}

/// The same of all peers.
fn look_at_all(
    peers: &Peers,
    reports: &mut PeerReports,
    watch: &mut Watch,
    waking: &mut Waking,
    now: u64,
) {
    for number in 0..NODES as u8 {
        if let Some(view) = peers.view(number) {
            look_at(&view, reports, watch, waking, number, now);
        }
    }
}

/// Follows the commands that the node has applied and that weren't followed yet.
fn follow_list<D: Disk + Drop>(member: &LocalNode<D>, acts: &mut SeatActs)
    ensures { (s : Standing) → IsSeen D.Disk (look_of member.now.station).node s → FollowsAll s acts.old acts.new }
{
    acts.follow(member.node().commands());
}

impl<D: Disk + Drop, W: Wire + Drop> NodeServer<D, W> {
    ghost use Rattle.node_service.specs.Desks.{IsKept};
    ghost use Rattle.node_service.specs.Going.{Does};
    ghost use Rattle.node_service.specs.Serving.{served_of, nodes_of};
    ghost use Rattle.node_service.specs.Others.{listed};
    ghost use Rattle.node_service.specs.Acts.{acts_at};
    ghost use Rattle.node_service.specs.Watching.{IsOfSeat};
    ghost use Rattle.node_service.specs.Unread.{read_in, may_be_read};
    ghost use Rattle.node_service.specs.Timing.{marked_at, watch_given, timer_given, seen_below, seen_by, look_at, KeepsRest, LooksAtSeats, opened_at};
    ghost use Rattle.node_service.specs.Knowing.{is_owed_by, other_at, others_of, is_there, moment_of, IsTickDue, rank_for, seen_at, stood_of, awaited_of, expected_of, IsExpected, HasOwnAct, IsNobodyExpected, IsAwayDue};

    /// Keeps what peers have told by beats.
    pub(crate) fn look(&mut self, now: u64)
        ensures { self.new.desk ≡ self.old.desk }
    {
        let company = &self.desk.company;
        look_at_all(
            &company.peers,
            &mut self.reports,
            &mut self.watch,
            &mut self.waking,
            now,
        );
    }

    /// Whether a peer that is back owes an answer that would still serve.
    fn is_owed(&self, view: &View) -> bool
        ensures { result ≡ is_owed_by view.now.unanswered self.now.watch.seen self.now.leader }
    {
        let seen = self.watch.seen;
        match view.unanswered {
            Some(asked) => seen.campaigns && asked.serves(self.leader, seen.front),
            None => false,
        }
    }

    /// Another node, as `clockwork` sees it; none is of this node's own number.
    fn other(&self, number: u8) -> Option<Peer>
        ensures { result ≡ other_at self.now number }
    {
        if number == self.desk.member.number() {
            return None;
        }
        let view = self.desk.company.peers.view(number)?;
        let is_owed = self.is_owed(&view);
        Some(self.reports.peer(number, &view, is_owed, self.moment()))
    }

    /// All other nodes.
    #[tactic(auto, using(crate::proofs::Counting::one_other))]
    fn others(&self) -> Others
        ensures { listed result ≡ others_of self.now }
    {
        let mut others = Others::new();
        for number in 0..self.nodes() {
            others.push(self.other(number));
        }
        others
    }

    /// The moment at which the clock was last looked at for what is due.
    fn moment(&self) -> u64
        ensures value { result ≡ moment_of self.now }
        ensures most { result ≤ LAST }
    {
        self.looked.min(LATEST)
    }

    /// Has the node tick, and the seat to act played for, where that is due, and answers how long it is until it may be.
    pub(crate) fn keep_time(&mut self) -> u64
        ensures { Does D.Disk [] (served_of self.old) (served_of self.new) }
    {
        self.look_around();
        let until_tick = self.tick_if_due();
        until_tick.min(self.keep_patience())
    }

    /// Looks at the clock, and keeps what is so at that moment: who is there, whether the node replays, and since when it has
    /// work, is behind, and has a quorum.
    fn look_around(&mut self)
        ensures { IsKept W.Wire self.old.desk self.new.desk }
    {
        self.looked = self.desk.now();
        let now = self.moment();
        let others = self.others();
        let known = self
            .watch
            .known(self.desk.member.number(), others.as_slice(), now);
        let (work, behind, quorate) = (has_work(&known), is_behind(&known), is_quorate(&known));
        self.silence = most_silence(&known);
        self.replays = replays(&known);
        self.rank = rank(&known);
        self.desk.set_silence(self.silence);
        self.watch.stand(work, behind, now);
        self.note_quorum(quorate, now);
        self.look_at_seats(now);
    }

    /// Whether the peer of this number is there.
    fn is_there(&self, number: u8, now: u64) -> bool
        ensures { result ≡ is_there (view_of self.now.desk.company.peers number) now self.now.silence }
    {
        match self.desk.company.peers.view(number) {
            Some(view) => self.is_present(&view, now),
            None => false,
        }
    }

    /// How a seat is seen at a node of the match at this moment.
    fn seen_at(&self, seat: u8, number: u8, now: u64) -> At
        ensures { result ≡ seen_at self.now seat now number }
    {
        if number == self.desk.member.number() {
            return here_of(self.seat_watches.was_taken(seat), self.sits_here(seat));
        }
        there_of(
            self.is_there(number, now),
            self.reports.has_seat(number, seat),
        )
    }

    /// Looks at a seat at each node.
    fn look_at_nodes(&mut self, seat: u8, now: u64)
        requires { seat < COUNT }
        ensures same { KeepsRest self.old self.new }
        ensures seen { IsOfSeat seat (seen_below self.old seat now (nodes_of self.old)) self.old.seat_watches self.new.seat_watches }
    {
        for number in 0..self.nodes() {
            let at = self.seen_at(seat, number, now);
            let moved = self.watch.moved;
            self.seat_watches.look_at(seat, number, at, moved, now);
        }
    }

    /// Looks at a seat.
    fn look_at_seat(&mut self, seat: u8, seen: SeatLook)
        requires { seat < COUNT }
        ensures same { KeepsRest self.old self.new }
        ensures seen { IsOfSeat seat (seen_by self.old seat (acts_at self.old.acts.all seat) seen) self.old.seat_watches self.new.seat_watches }
    {
        self.look_at_nodes(seat, seen.now);
        self.seat_watches.look(seat, self.acts.at(seat), seen);
    }

    /// Looks at all seats.
    fn look_at_each(&mut self, seen: SeatLook)
        ensures { LooksAtSeats seen self.old self.new }
    {
        for seat in 0..self.players() {
            self.look_at_seat(seat, seen);
        }
        self.seat_watches.end_look();
    }

    /// Seats are played for once each has come, or was waited for long enough.
    fn open(&mut self, now: u64)
        ensures kept { self.new.desk ≡ self.old.desk }
        ensures opening { self.new.opening ≡ opened_at self.old now }
    {
        let all_came = self.seat_watches.have_come(self.players());
        let start = self.desk.member.terms().start;
        let is_quorate = self.turn_timer.is_quorate;
        self.opening.look(is_quorate, all_came, start, now);
    }

    /// Looks at all seats, by the commands that the node has applied.
    fn look_at_seats(&mut self, now: u64)
        ensures { self.new.desk ≡ self.old.desk }
    {
        follow_list(&self.desk.member, &mut self.acts);
        let seen = self.seat_look(now);
        self.look_at_each(seen);
        self.open(now);
        let stood = self.stood();
        self.waking.stand(stood);
    }

    /// What a look at seats has beside at this moment.
    fn seat_look(&self, now: u64) -> SeatLook
        ensures { result ≡ look_at self.now now }
    {
        let terms = self.desk.member.terms();
        let patience = terms.patience.unwrap_or(LONGEST_PATIENCE);
        SeatLook {
            quorate: self.turn_timer.is_quorate && self.waking.is_awake(self.nodes()),
            gives_up: terms.gives_up,
            patience: patience.min(LONGEST_PATIENCE),
            now,
        }
    }

    /// A turn ends in which all that peers told was taken, and of each seat what came next, or not.
    fn count_turn(&mut self, is_read: bool)
        ensures kept { self.new.desk ≡ self.old.desk }
        ensures unread { self.new.unread ≡ read_in is_read self.old.unread }
        ensures waking { self.new.waking ≡ self.old.waking }
    {
        self.unread.read(is_read);
    }

    /// What came in a sleep was read, as far as it may be, where nothing of peers is left at a connection.
    fn wake_up(&mut self, may_be_read: bool, now: u64)
        ensures kept { self.new.desk ≡ self.old.desk }
        ensures unread { self.new.unread ≡ self.old.unread }
        ensures early { may_be_read ≡ false → self.new.waking ≡ self.old.waking }
    {
        if may_be_read && self.desk.company.peers.wait(now) > 0 {
            self.waking.read_all();
        }
    }

    /// A turn ends in which all that peers told was taken, and of each seat what came next, or not; and nothing is left of seats, or
    /// something is. What came in a sleep is read where nothing is left of peers either, and of seats nothing is left, or so many such
    /// turns have come since: so no seat that sends without end keeps the process from waking.
    pub(crate) fn note_read(&mut self, is_read: bool, is_all: bool, now: u64)
        ensures kept { self.new.desk ≡ self.old.desk }
        ensures unread { self.new.unread ≡ read_in is_read self.old.unread }
        ensures early { may_be_read is_all self.new.unread ≡ false → self.new.waking ≡ self.old.waking }
    {
        self.count_turn(is_read);
        let may_be_read = self.unread.may_be_read(is_all);
        self.wake_up(may_be_read, now);
    }

    /// What went by in this turn beyond what calls of the node took: where that is long the process slept.
    fn note_sleep(&mut self)
        ensures kept { IsKept W.Wire self.old.desk self.new.desk }
        ensures waking { self.new.waking ≡ marked_at self.old self.new.marked 0 }
    {
        let now = self.desk.now();
        self.mark(now, 0);
    }

    /// Whether the node is to tick, by what the process knows.
    fn tick_due(&self) -> Due
        ensures { result ≡ Now → IsTickDue self.now }
    {
        let others = self.others();
        let number = self.desk.member.number();
        due(&self.watch.known(number, others.as_slice(), self.moment()))
    }

    /// Has the node tick where that is due, and answers how long it is until it may be.
    fn tick_if_due(&mut self) -> u64
        ensures { Does D.Disk [] (served_of self.old) (served_of self.new) }
    {
        match self.tick_due() {
            Due::Now => {
                self.tick();
                0
            }
            Due::Nothing { until } => until.saturating_sub(self.moment()),
        }
    }

    /// How many present nodes come before this one where a seat is to be played for: where it sits here, those of a lower
    /// number at which it sits too; else as many as have one.
    fn rank_for(&self, seat: u8) -> usize
        ensures { result ≡ rank_for self.now seat }
    {
        if self.sits_here(seat) {
            self.sits_below(self.desk.member.number(), seat, self.moment())
        } else {
            self.rank
        }
    }

    /// What is known of a seat, which may hold the table for so long.
    fn awaited_at(&self, seat: u8, patience: u64) -> Awaited
        ensures value { result ≡ awaited_of self.now seat patience }
        ensures time { result.time ≤ LAST }
        ensures patience { result.patience ≤ LONGEST }
        ensures rank { result.rank ≤ MOST }
    {
        let seen = self.watch.seen;
        Awaited {
            time: self.moment(),
            patience: patience.min(LONGEST_PATIENCE),
            over: seen.over,
            hand_runs: seen.hand_runs,
            quorate: self.turn_timer.is_quorate,
            replays: self.replays,
            sits_here: self.sits_here(seat),
            sits_elsewhere: self.sits_elsewhere(seat, self.moment()),
            rank: self.rank_for(seat).min(MOST_PEERS),
            since: self.seat_watches.at(seat).since(self.stood()),
            ordered: self.turn_timer.ordered_since(self.watch.moved),
        }
    }

    /// Since when the table has stood: its front moved, the node became quorate, and seats began to be played for.
    pub(crate) fn stood(&self) -> u64
        ensures { result ≡ stood_of self.now }
    {
        self.opening.stood(self.turn_timer.stood(self.watch.moved))
    }

    /// What is known of a seat, which may hold the table for so long, and of the process itself.
    fn expected_at(&self, seat: u8, patience: u64) -> Expected
        ensures value { result ≡ expected_of self.now seat patience }
        ensures time { result.awaited.time ≤ LAST }
        ensures patience { result.awaited.patience ≤ LONGEST }
        ensures rank { result.awaited.rank ≤ MOST }
        ensures nodes { result.nodes ≤ ALL }
    {
        Expected {
            awaited: self.awaited_at(seat, patience),
            is_awake: self.waking.is_awake(self.nodes()),
            is_open: self.opening.is_open(),
            turns: self.seat_watches.at(seat).turns(),
            stood: self.stood(),
            slept: self.waking.slept,
            nodes: self.nodes(),
            crowded: self.desk.seats.crowded(seat).unwrap_or(0),
        }
    }

    /// Whether an act that a seat said itself waits at the node.
    fn has_own_act(&self) -> bool
        ensures { result ≡ true → HasOwnAct self.now }
    {
        matches!(self.desk.member.node().pending(), Some(Command::Act { .. }))
    }

    /// The seat to act, and what is known of it; none where no hand runs, nobody is played for, its own act waits here, the
    /// process is to end, or seats weren't read in this turn: what came of them during a long call is read first.
    fn expected(&self) -> Option<(u8, Expected)>
        ensures time { IfSome result (λ found. found.1.awaited.time ≤ LAST) }
        ensures patience { IfSome result (λ found. found.1.awaited.patience ≤ LONGEST) }
        ensures rank { IfSome result (λ found. found.1.awaited.rank ≤ MOST) }
        ensures nodes { IfSome result (λ found. found.1.nodes ≤ ALL) }
        ensures is { IfSome result (λ found. IsExpected self.now found.0 found.1) }
        ensures none { result ≡ None → IsNobodyExpected self.now }
    {
        if self.ending() != Outcome::GoesOn {
            return None;
        }
        if !self.has_read_seats || self.has_own_act() {
            return None;
        }
        let patience = self.desk.member.terms().patience?;
        let seat = seat_to_act(self.desk.member.node().table())?;
        Some((seat, self.expected_at(seat, patience)))
    }

    /// Orders that the seat to act is played for, where that is due, and answers how long it is until it may be.
    fn keep_patience(&mut self) -> u64
        ensures { Does D.Disk [] (served_of self.old) (served_of self.new) }
    {
        self.note_sleep();
        let Some((seat, expected)) = self.expected() else {
            return LOOK;
        };
        match order_due(&expected) {
            Due::Now => {
                self.order(seat);
                0
            }
            Due::Nothing { until } => until.saturating_sub(self.moment()),
        }
    }

    /// Orders that the seat to act is played for, since that is due by what is known of it.
    fn order(&mut self, seat: u8)
        requires { IsAwayDue self.old }
        ensures { Does D.Disk [] (served_of self.old) (served_of self.new) }
    {
        let node = self.desk.member.number();
        let waited = self.waiting_away();
        let _ = self.call(&Event::Away { node });
        if is_another(self.waiting_away(), waited) {
            self.tell(ServerNotice::Ordered { seat });
        }
    }

    /// The default action that waits at the node, by its hand and the number of actions before it, if one does.
    fn waiting_away(&self) -> Option<(u32, u16)> {
        match self.desk.member.node().pending() {
            Some(Command::Away { hand, index }) => Some((hand, index)),
            _ => None,
        }
    }

    /// The node ticks, since that is due by what is known.
    fn tick(&mut self)
        requires { IsTickDue self.old }
        ensures { Does D.Disk [] (served_of self.old) (served_of self.new) }
    {
        let node = self.desk.member.number();
        let _ = self.call(&Event::Tick { node });
    }

    /// The node is given this: a tick and an order that a seat is played for are of the moment at which they were due.
    pub(crate) fn note_given(&mut self, event: &Event)
        ensures kept { self.new.desk ≡ self.old.desk }
        ensures watch { self.new.watch ≡ watch_given self.old event.now }
        ensures timer { self.new.turn_timer ≡ timer_given self.old event.now }
    {
        let moment = self.moment();
        match event {
            Event::Tick { .. } => self.watch.tick(moment),
            Event::Away { .. } => self.turn_timer.order(moment),
            Event::Frame { .. }
            | Event::Line { .. }
            | Event::Connect { .. }
            | Event::Drop { .. }
            | Event::Stop { .. }
            | Event::Start { .. } => (),
        }
    }

    /// The node has a quorum at this moment, or hasn't: without one for a while it is apart, unless the match is over here.
    fn stand(&mut self, is_quorate: bool, now: u64) -> Turned
        ensures kept { IsKept W.Wire self.old.desk self.new.desk }
        ensures apart { self.new.desk.apart.is_apart ≡ true → is_quorate ≡ false }
    {
        self.turn_timer.stand(is_quorate, now);
        let turned = self.lasting.stand(is_quorate, now);
        let is_apart = self.lasting.is_apart && !self.watch.seen.over;
        self.desk.set_apart(is_apart);
        turned
    }

    /// The same. Who sits is told to come again later from then on; that is told.
    pub(crate) fn note_quorum(&mut self, is_quorate: bool, now: u64)
        ensures { IsKept W.Wire self.old.desk self.new.desk }
    {
        match self.stand(is_quorate, now) {
            Turned::Stays | Turned::Unmet => (),
            Turned::Had => {
                self.note_joined_seats();
                self.tell(ServerNotice::Quorum);
            }
            Turned::Lost => self.tell(ServerNotice::QuorumLost),
        }
    }
}
