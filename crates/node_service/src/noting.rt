//! What is noted of a call, and told of it: to whoever makes notes, and to peers.

ghost use Rattle.std.specs.Prelude.{◌≡◌, ◌<◌};
ghost use Rattle.node_service.specs.declared.limits.TheConstants.{SEATS as COUNT};
ghost use Rattle.node_service.specs.Knowing.{seat_to_act};

use crate::limits::{FAR, SEATS};
use crate::local_node::LocalNode;
use crate::server::NodeServer;
use crate::server_notice::ServerNotice;
use clockwork::Seen;
use node_links::OwnReport;
use node_peers::Lag;
use node_wires::Wire;
use paxos_wire::Ballot;
use promise_store::Disk;
use seat_session::SessionFault;
use slot_log::Table;

/// What is seen of a node.
pub(crate) fn seen_of<D: Disk + Drop>(member: &LocalNode<D>) -> Seen {
    let node = member.node();
    let table = node.table();
    Seen {
        front: node.front(),
        promised: node.promised().map(|ballot| ballot.node),
        campaigns: node.campaigns(),
        over: table.over(),
        hand_runs: table.running(),
        act_waits: node.pending().is_some(),
        vote_waits: node.vote_waits(),
    }
}

/// The seat to act; none where no hand runs.
pub(crate) fn seat_to_act(table: &Table) -> Option<u8>
    ensures { result ≡ seat_to_act table.now }
{
    let hand = table.dealt().checked_sub(1)?;
    let play = table.play(hand)?;
    let players = play.players();
    let position = play.to_act()?;
    Some(((position + hand as usize) % players) as u8)
}

/// Whether a fault in what a seat sent closed its session.
fn closes(fault: SessionFault) -> bool {
    matches!(fault, SessionFault::BadVersion | SessionFault::LineTooLong)
}

impl<D: Disk + Drop, W: Wire + Drop> NodeServer<D, W> {
    ghost use Rattle.node_service.specs.Desks.{IsKept};

    /// Tells the fault of this number in what a seat sent; one whose session was closed by it is let go of. It says whether
    /// there is such a fault.
    pub(crate) fn note_fault(&mut self, number: usize) -> bool
        ensures { IsKept W.Wire self.old.desk self.new.desk }
    {
        let Some(found) = self.desk.member.fault(number) else {
            return false;
        };
        if found.seat >= SEATS as usize {
            return true;
        }
        let seat = found.seat as u8;
        let fault = found.fault;
        let hand = self.desk.member.node().table().dealt().checked_sub(1);
        self.tell(ServerNotice::Faulty { seat, fault, hand });
        if !closes(fault) {
            return true;
        }
        self.desk.hang_up(seat);
        true
    }

    /// Tells what was wrong in what a seat sent, where the node was called.
    pub(crate) fn note_faults(&mut self, was_called: bool)
        ensures { IsKept W.Wire self.old.desk self.new.desk }
    {
        if !was_called {
            return;
        }
        for number in 0..usize::MAX {
            if !self.note_fault(number) {
                return;
            }
        }
    }

    /// Notes what is seen of the node after a call that began and ended then. What a long one took isn't silence of others.
    pub(crate) fn note_seen(&mut self, began: u64, now: u64)
        ensures { IsKept W.Wire self.old.desk self.new.desk }
    {
        let took = now.saturating_sub(began);
        self.in_calls = self.in_calls.saturating_add(took);
        self.desk.forgive(took, now);
        self.watch.see(seen_of(&self.desk.member), took, now);
        if let Some(ballot) = self.desk.member.node().promised() {
            self.note_leader(ballot, now);
        }
    }

    /// The node has promised this ballot: whoever has it campaigns, unless it was in the store that the process began with.
    pub(crate) fn note_leader(&mut self, ballot: Ballot, now: u64)
        ensures { IsKept W.Wire self.old.desk self.new.desk }
    {
        let earlier = self.leader;
        if earlier == Some(ballot) {
            return;
        }
        let is_other = match earlier {
            Some(earlier) => earlier.node != ballot.node,
            None => true,
        };
        self.leader = Some(ballot);
        if self.is_started {
            self.watch.lead();
            self.reports.lead(ballot.node, now);
        }
        if is_other && self.watch.seen.campaigns {
            self.tell(ServerNotice::Campaigns { ballot });
        }
    }

    /// Tells how many came to a seat without its token, where that is to be told now. Without memory it is told later.
    fn note_wrong_token(&mut self, seat: u8, now: u64)
        requires { seat < COUNT }
        ensures { IsKept W.Wire self.old.desk self.new.desk }
    {
        let count = self.wrong_tokens.due(seat, now);
        if count == 0 {
            return;
        }
        let source = self.wrong_tokens.source(seat);
        let is_told = self.desk.company.tell(ServerNotice::WrongToken {
            seat,
            count,
            source,
        });
        if is_told {
            self.wrong_tokens.tell(seat, now);
        }
    }

    /// Tells how many who came to a seat were closed for want of a place, where that is to be told now. Without memory it is told
    /// later.
    fn note_turned_away(&mut self, seat: u8, now: u64)
        requires { seat < COUNT }
        ensures { IsKept W.Wire self.old.desk self.new.desk }
    {
        let so_far = self.desk.seats.turned_away(seat);
        let count = self.turned_away.due(seat, so_far, now);
        if count == 0 {
            return;
        }
        let is_told = self
            .desk
            .company
            .tell(ServerNotice::TurnedAway { seat, count });
        if is_told {
            self.turned_away.tell(seat, so_far, now);
        }
    }

    /// Tells of each seat who came to it without its token, and who found no place.
    pub(crate) fn note_callers(&mut self, now: u64)
        ensures { IsKept W.Wire self.old.desk self.new.desk }
    {
        for seat in 0..SEATS {
            self.note_wrong_token(seat, now);
            self.note_turned_away(seat, now);
        }
    }

    /// Tells that a peer is far behind, if it is. It says whether it is.
    fn note_behind_at(&mut self, peer: u8, now: u64) -> bool
        ensures { IsKept W.Wire self.old.desk self.new.desk }
    {
        let Some(Lag { behind, slowest }) = self.desk.company.peers.lag(peer, now) else {
            return false;
        };
        // What was applied within the last heartbeats isn't told by any yet: at most a quarter of what the last second had.
        if behind.saturating_sub(self.rate.last / 4) < FAR {
            return false;
        }
        self.tell(ServerNotice::Behind {
            peer,
            behind,
            slowest,
        });
        true
    }

    /// Tells which peers are far behind, where this node campaigns, once a minute.
    pub(crate) fn note_behind(&mut self, now: u64)
        ensures { IsKept W.Wire self.old.desk self.new.desk }
    {
        if !self.watch.seen.campaigns || !self.lasting.may_tell_behind(now) {
            return;
        }
        let mut is_told = false;
        for number in 0..self.nodes() {
            is_told |= self.note_behind_at(number, now);
        }
        if is_told {
            self.lasting.tell_behind(now);
        }
    }

    /// Writes what waits, and first tells peers how the node is, where that is due.
    pub(crate) fn speak(&mut self, now: u64)
        ensures { IsKept W.Wire self.old.desk self.new.desk }
    {
        let seen = self.watch.seen;
        let told = OwnReport {
            front: seen.front,
            campaigns: seen.campaigns,
            over: seen.over,
            seats: if self.desk.apart.is_apart() {
                0
            } else {
                self.desk.seats.bits()
            },
        };
        self.desk.speak(told, now);
    }

    /// Tells for which seat all wait, where nothing has gone on for a while. It is told where that seat sits, of several such
    /// nodes by the one of the lowest number, and where it sits nowhere.
    pub(crate) fn note_waiting(&mut self, now: u64)
        ensures { IsKept W.Wire self.old.desk self.new.desk }
    {
        let seen = self.watch.seen;
        if seen.over || seen.act_waits || !seen.hand_runs || self.replays || self.lasting.is_apart {
            return;
        }
        let Some(seat) = seat_to_act(self.desk.member.node().table()) else {
            return;
        };
        if self.comes_behind(seat, now) {
            return;
        }
        if self.lasting.tells_waiting(self.watch.moved, now) {
            self.tell(ServerNotice::Waits { seat });
        }
    }

    /// Whether the match waits for seats that haven't come yet, as far as is known here.
    fn awaits_seats(&self) -> bool {
        !self.opening.is_open()
            && self.turn_timer.is_quorate
            && !self.replays
            && !self.watch.seen.over
            && self.desk.member.terms().patience.is_some()
    }

    /// Tells that a seat hasn't come yet, if it hasn't.
    fn note_missing_seat(&mut self, seat: u8)
        ensures { IsKept W.Wire self.old.desk self.new.desk }
    {
        if !self.seat_watches.at(seat).has_come {
            self.tell(ServerNotice::Missing { seat });
        }
    }

    /// Tells which seats haven't come yet, where the match waits for them, once a minute.
    pub(crate) fn note_missing(&mut self, now: u64)
        ensures { IsKept W.Wire self.old.desk self.new.desk }
    {
        if !self.awaits_seats() || !self.lasting.tells_missing(now) {
            return;
        }
        for seat in 0..self.players() {
            self.note_missing_seat(seat);
        }
    }
}
