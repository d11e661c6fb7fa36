//! How the node is, for whoever asks.

ghost use Rattle.std.specs.Prelude.{◌≡◌, [], map, nat_lt, IfOk, Some};
ghost use Rattle.node_status.specs.declared.status.SeatStatus.{SeatStatus as OfSeat};

use crate::limits::SEATS;
use crate::server::NodeServer;
use clockwork::is_heard;
use node_peers::View;
use node_status::{PeerStatus, SeatStatus, Sits, Status, status_line};
use node_wires::Wire;
use promise_store::Disk;
use std::alloc::{AllocError, Global};

impl<D: Disk + Drop, W: Wire + Drop> NodeServer<D, W> {
    ghost use Rattle.node_service.specs.Asking.{IsStatusLine};
    ghost use Rattle.node_service.specs.Going.{Does};
    ghost use Rattle.node_service.specs.Serving.{served_of, look_in, nodes_of};
    ghost use Rattle.node_service.specs.Knowing.{is_there, sits_here, sits_at_peer, sits_below};

    /// Whether a peer is there: its connection is open, and it wasn't silent for long.
    pub(crate) fn is_present(&self, view: &View, now: u64) -> bool
        ensures { result ≡ is_there (Some view.now) now self.now.silence }
    {
        view.is_open && is_heard(view.heard, now, self.silence)
    }

    /// Whether a bot sits here at a seat that doesn't still wait for the line that it named; at a node that is apart none does.
    pub(crate) fn sits_here(&self, seat: u8) -> bool
        ensures { result ≡ sits_here self.now seat }
    {
        seat < SEATS && !self.desk.apart.is_apart() && self.desk.seats.is_here(seat as usize)
    }

    /// Whether one does at the peer of this number, as far as that is there and has told.
    fn sits_at_peer(&self, number: u8, seat: u8, now: u64) -> bool
        ensures { result ≡ sits_at_peer self.now seat now number }
    {
        match self.desk.company.peers.view(number) {
            Some(view) => self.is_present(&view, now) && self.reports.has_seat(number, seat),
            None => false,
        }
    }

    /// At how many of the other nodes with numbers below this one does, as far as those that are there have told.
    #[tactic(auto, using(crate::proofs::Counting::one_further, crate::proofs::Counting::none_further))]
    pub(crate) fn sits_below(&self, below: u8, seat: u8, now: u64) -> usize
        ensures { result ≡ sits_below self.now seat now below }
    {
        let mut count = 0usize;
        for number in 0..below {
            if self.sits_at_peer(number, seat, now) {
                count += 1;
            }
        }
        count
    }

    /// Whether one does at another node, as far as those that are there have told.
    pub(crate) fn sits_elsewhere(&self, seat: u8, now: u64) -> bool
        ensures { result ≡ nat_lt 0 (sits_below self.now seat now (nodes_of self.now)) }
    {
        self.sits_below(self.nodes(), seat, now) > 0
    }

    /// Whether a node where a bot sits at a seat comes before this one: another one does where none sits here, and where one
    /// sits here too another one of a lower number.
    pub(crate) fn comes_behind(&self, seat: u8, now: u64) -> bool {
        if self.sits_here(seat) {
            self.sits_below(self.desk.member.number(), seat, now) > 0
        } else {
            self.sits_elsewhere(seat, now)
        }
    }

    /// How the peers are.
    fn peer_statuses(&self, alloc: Global, now: u64) -> Result<Vec<PeerStatus>, AllocError> {
        let mut statuses = Vec::new(alloc);
        for number in 0..self.nodes() {
            if number == self.desk.member.number() {
                continue;
            }
            if let Some(view) = self.desk.company.peers.view(number) {
                let is_present = self.is_present(&view, now);
                statuses.push(match view.beat {
                    Some(beat) if is_present => PeerStatus::Present {
                        number,
                        front: beat.front,
                        campaigns: beat.campaigns,
                    },
                    _ => PeerStatus::Gone { number },
                })?;
            }
        }
        Ok(statuses)
    }

    /// Where the bot of a seat sits.
    fn sits(&self, seat: u8, now: u64) -> Sits {
        if self.sits_here(seat) {
            Sits::Here
        } else if self.sits_elsewhere(seat, now) {
            Sits::Elsewhere
        } else {
            Sits::Nowhere
        }
    }

    /// How the seats are.
    #[tactic(auto, using(crate::proofs::Asking::one_named))]
    fn seat_statuses(&self, alloc: Global, now: u64) -> Result<Vec<SeatStatus>, AllocError>
        ensures { IfOk result (λ seats. map (λ (seat : OfSeat). seat.name) seats.items ≡ (look_in self.now).config.setting.names) }
    {
        let mut statuses = Vec::new(alloc);
        let mut seat = 0u8;
        for name in self.desk.member.station().config().names().as_slice() {
            statuses.push(SeatStatus {
                name: *name,
                sits: self.sits(seat, now),
                backlog: self.desk.seats.backlog(seat),
            })?;
            seat = seat.saturating_add(1);
        }
        Ok(statuses)
    }

    /// The line that says how the node is.
    #[tactic(auto, using(crate::proofs::Asking::is_status))]
    fn status_line(&self, alloc: Global, now: u64) -> Result<Vec<u8>, AllocError>
        ensures { IfOk result (λ line. IsStatusLine (look_in self.now) line.items) }
    {
        let peers = self.peer_statuses(alloc, now)?;
        let seats = self.seat_statuses(alloc, now)?;
        let node = self.desk.member.node();
        let seen = self.watch.seen;
        let line = status_line(
            alloc,
            &Status {
                node: self.desk.member.number(),
                front: seen.front,
                hand: node.table().dealt().checked_sub(1),
                over: seen.over,
                replaying: self.replays,
                promised: node.promised(),
                leads: node.leads(),
                quorum: self.turn_timer.is_quorate,
                peers: &peers,
                seats: &seats,
                pending: seen.act_waits,
                commands: self.rate.last,
            },
        )?;
        Ok(line)
    }

    /// Gives the line to those who ask. It says whether it did: without memory for it they wait further.
    pub(crate) fn answer_askers(&mut self, alloc: Global, now: u64) -> bool
        ensures { Does D.Disk [] (served_of self.old) (served_of self.new) }
    {
        self.rate.see(self.watch.seen.front, now);
        if !self.desk.is_asked(now) {
            return false;
        }
        if let Ok(line) = self.status_line(alloc, now) {
            self.desk.answer(&line);
            return true;
        }
        false
    }
}
