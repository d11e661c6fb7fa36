//! What came of peers and seats, taken one thing after another: each is one call of the node.

ghost use Rattle.std.specs.Prelude.{◌≡◌, ◌≢◌, ◌<◌, ℕ, ◌∷◌, [], false};
ghost use Rattle.std.specs.Int.{bit_at};
ghost use Rattle.node_seats.specs.Seating.{bit_of};
ghost use Rattle.node_seats.specs.declared.seat_notice.SeatNotice.TheVariants.{Unread};
ghost use Rattle.node_wires.specs.Passages.{Began, Came};
ghost use Rattle.node_wires.specs.declared.line.Line.TheVariants.{Seat};
ghost use Rattle.node_service.specs.Arriving.{OfSeat, OfPeer, incoming_of};
ghost use Rattle.node_service.specs.Telling.{told_of};
ghost use Rattle.node_service.specs.declared.limits.TheConstants.{SEATS as COUNT};
ghost use Rattle.node_service.specs.Taking.{least_of, is_enough};
ghost use Rattle.node_service.specs.Turns.{Counts, IsFirstOf};
ghost use Rattle.node_service.specs.Company.{TellsLife};
ghost use Rattle.node_peers.specs.Hearing.{IsTold};
ghost use Rattle.node_peers.specs.Peering.{own_of, passed_of};
ghost use Rattle.node_peers.specs.declared.notice.Notice.TheVariants.{Joined};

use crate::limits::{CALLERS, CALLS, LEAST_TAKEN, SEATS};
use crate::outcome::Outcome;
use crate::seat_lines::bit_of;
use crate::server::NodeServer;
use crate::server_notice::{ServerNotice, Setting};
use crate::sitting::Sitting;
use dealer_world::Event;
use node_links::{PeerFault, Settings};
use node_peers::Notice;
use node_seats::{Called, Parting, SeatNotice};
use node_wires::Wire;
use node_wires::limits::TAKEN_AT_ONCE;
use peer_codes::Life;
use promise_store::Disk;
use std::alloc::Global;
use std::net::IpAddr;

/// Whether the bit of a seat is set; not so of a number that no seat has.
#[tactic(auto, using(crate::proofs::Turns::is_lowest))]
fn has_bit(bits: u16, seat: u8) -> bool
    ensures { seat < COUNT → bit_at bits seat ≡ bit_of result }
{
    if seat >= SEATS {
        return false;
    }
    bits >> seat & 1 == 1
}

/// These bits, and that of a seat.
#[tactic(auto, using(crate::proofs::Turns::set_here, crate::proofs::Turns::set_elsewhere))]
fn with_bit(bits: u16, seat: u8) -> u16
    ensures here { seat < COUNT → bit_at result seat ≡ 1 }
    ensures others { (other : ℕ) → other ≢ seat → bit_at result other ≡ bit_at bits other }
{
    if seat < SEATS { bits | 1 << seat } else { bits }
}

/// The bits of seats of which something was taken, and that of the seat of which this is.
#[tactic(auto, using(crate::proofs::Turns::one_counted, crate::proofs::Turns::piece_counted, crate::proofs::Turns::none_counted))]
fn with_thing(taken: u16, notice: &SeatNotice) -> u16
    ensures { IsFirstOf taken notice.now → Counts taken result (incoming_of notice.now) }
{
    match notice {
        SeatNotice::Came { seat } | SeatNotice::Piece { seat, .. } => with_bit(taken, *seat),
        SeatNotice::Gone { .. } | SeatNotice::Refused { .. } | SeatNotice::Unread { .. } => taken,
    }
}

/// How many things are taken in any case, also by a process that lost its processor meanwhile: one, and up to four while the next
/// one costs no sync.
fn least_of(costs_no_sync: bool) -> u64
    ensures { result ≡ least_of costs_no_sync }
{
    if costs_no_sync { LEAST_TAKEN } else { 1 }
}

/// Whether so many things that were taken since that moment are enough: they have taken their time.
fn is_enough(taken: u64, costs_no_sync: bool, begun: u64, now: u64) -> bool
    ensures { result ≡ is_enough taken costs_no_sync begun now }
{
    taken >= least_of(costs_no_sync) && now.saturating_sub(begun) >= CALLS
}

/// Whether something more of a seat may be there behind this. Behind one who is refused there is nothing, and a seat that couldn't be
/// read is asked again by the next turn, whenever that comes.
fn has_more(notice: &SeatNotice) -> bool {
    match notice {
        SeatNotice::Refused { .. } | SeatNotice::Unread { .. } => false,
        SeatNotice::Came { .. } | SeatNotice::Piece { .. } | SeatNotice::Gone { .. } => {
            notice.may_have_more()
        }
    }
}

/// What was taken of those who came to seats' ports.
#[derive(Clone, Copy)]
pub(crate) enum Taker {
    /// Nobody was there.
    Nobody,
    /// Somebody was, and whether something more of a seat may be there now.
    One { has_more: bool },
}

/// What was taken at this port, and at others before.
fn with_taker(before: Taker, taker: Taker) -> Taker {
    match (before, taker) {
        (Taker::Nobody, other) | (other, Taker::Nobody) => other,
        (Taker::One { has_more: one }, Taker::One { has_more: other }) => Taker::One {
            has_more: one || other,
        },
    }
}

/// What was taken of what came.
#[derive(Clone, Copy)]
pub(crate) enum Taken {
    /// There is nothing more.
    Nothing,
    /// One thing.
    One,
    /// One thing, and the rest waits for the next turn.
    Last,
}

impl<D: Disk + Drop, W: Wire + Drop> NodeServer<D, W> {
    ghost use Rattle.node_service.specs.Desks.{IsKept};
    ghost use Rattle.node_service.specs.Going.{Does, GoesOnWith};
    ghost use Rattle.node_service.specs.Taking.{StopsAtLife, TakesNext};
    ghost use Rattle.node_service.specs.Turns.{AreCallersBut, AreRead, ComeOfSeatsBut, IsLate, IsNextBut, IsTurnBut};
    ghost use Rattle.node_service.specs.Serving.{served_of};

    /// Takes what came: first what peers told, and then of each seat one thing at most, so that none that sends without end
    /// holds up the others. At closed seats, a bit each, nobody is taken in. It says whether nothing is left of peers, and whether
    /// nothing is left at all.
    pub(crate) fn take_all(&mut self, alloc: Global, closed: u16, begun: u64) -> (bool, bool)
        ensures { GoesOnWith D.Disk (IsTurnBut closed result.0) (served_of self.old) (served_of self.new) }
    {
        let is_read = self.take_all_of_peers(alloc, begun);
        self.has_read_seats = is_read;
        if !is_read {
            return (is_read, false);
        }
        (is_read, self.take_all_of_seats(closed))
    }

    /// Whether what is taken next costs no sync: that a bot was let go of, or else what peers told.
    fn costs_no_sync(&self) -> bool {
        self.desk.sittings.first_let_go().is_some() || self.desk.company.peers.costs_no_sync()
    }

    /// Whether so many things that were taken of peers since that moment are enough for this turn.
    fn has_taken_enough(&self, taken: u64, begun: u64, now: u64) -> bool {
        is_enough(taken, self.costs_no_sync(), begun, now)
    }

    /// Takes what peers told, one thing after another, until calls have taken their time since that moment: one thing at least, and
    /// up to four while the next one costs no sync. It says whether nothing is left.
    fn take_all_of_peers(&mut self, alloc: Global, begun: u64) -> bool
        ensures { GoesOnWith D.Disk (AreRead result) (served_of self.old) (served_of self.new) }
    {
        for taken in 0..u64::MAX {
            let now = self.desk.now();
            if self.ending() != Outcome::GoesOn || self.has_taken_enough(taken, begun, now) {
                return false;
            }
            match self.take_next(alloc) {
                Taken::One => (),
                Taken::Nothing => return true,
                Taken::Last => return false,
            }
        }
        false
    }

    /// Takes the next thing that peers told.
    fn take_next(&mut self, alloc: Global) -> Taken
        ensures { TakesNext D.Disk result (served_of self.old) (served_of self.new) }
    {
        if let Some(seat) = self.desk.sittings.first_let_go() {
            self.leave(seat);
            return Taken::One;
        }
        match self.desk.next_of_peers() {
            Some(notice) => self.take_notice(alloc, notice),
            None => Taken::Nothing,
        }
    }

    /// Takes one frame of a peer that was set aside, if one is told now, where all that peers told was taken. It says whether it
    /// does.
    pub(crate) fn take_aside(&mut self, alloc: Global, is_read: bool) -> bool
        ensures { GoesOnWith D.Disk (IsLate is_read) (served_of self.old) (served_of self.new) }
    {
        if !is_read {
            return false;
        }
        if self.ending() != Outcome::GoesOn {
            return false;
        }
        let now = self.desk.now();
        match self.desk.next_aside(now) {
            Some(notice) => {
                let _ = self.take_notice(alloc, notice);
                true
            }
            None => false,
        }
    }

    /// Takes those who came to ports of seats with tokens, and then what came next of each seat, and of each guest: of a seat one
    /// thing at most. At closed seats nobody is taken in. It says whether nothing is left: for a seat at which nobody was to be taken
    /// in any more, and nobody sits, somebody may wait.
    fn take_all_of_seats(&mut self, closed: u16) -> bool
        ensures { GoesOnWith D.Disk (ComeOfSeatsBut closed) (served_of self.old) (served_of self.new) }
    {
        let now = self.desk.now();
        let shut = closed | self.shut();
        let mut taken = 0u16;
        let mut is_all = self.take_callers(shut, &mut taken, now);
        for at in 0..self.desk.seats.looks() {
            if self.ending() != Outcome::GoesOn {
                return false;
            }
            is_all &= self.take_next_of_seat(at, shut, &mut taken, now);
        }
        is_all &= (closed | taken) & !self.desk.seats.taken_bits() == 0;
        is_all
    }

    /// The seats at which nobody is taken in now, a bit each: all of them until the node has a quorum and has learned what was
    /// chosen before, so that nobody is told all lines of before; who comes waits so long. A node that is apart takes in who comes,
    /// to tell him to come again later.
    fn shut(&self) -> u16 {
        let takes_in = self.lasting.is_apart || (self.turn_timer.is_quorate && !self.replays);
        if takes_in { 0 } else { u16::MAX }
    }

    /// Takes those who came to the ports of seats with tokens. What time that takes beyond calls of the node isn't sleep. It says
    /// whether nothing is left of those who were taken in.
    fn take_callers(&mut self, closed: u16, taken: &mut u16, begun: u64) -> bool
        ensures { GoesOnWith D.Disk (AreCallersBut closed taken.old taken.new) (served_of self.old) (served_of self.new) }
    {
        let in_calls = self.in_calls;
        let mut empty = 0u16;
        let (is_all, now) = self.take_rounds(closed, taken, &mut empty, begun);
        self.note_crowds(empty, now);
        let called = self.in_calls.saturating_sub(in_calls);
        self.note_busy(now.saturating_sub(begun).saturating_sub(called));
        is_all
    }

    /// The same, in rounds, until all ports were found empty or rounds have taken their time: of each port one is taken in any
    /// case. It answers when that was too, and which were empty, a bit each.
    fn take_rounds(
        &mut self,
        closed: u16,
        taken: &mut u16,
        empty: &mut u16,
        begun: u64,
    ) -> (bool, u64)
        ensures { GoesOnWith D.Disk (AreCallersBut closed taken.old taken.new) (served_of self.old) (served_of self.new) }
    {
        let mut is_all = true;
        let mut now = begun;
        for _ in 0..TAKEN_AT_ONCE {
            match self.take_round(closed, taken, empty, begun) {
                Taker::Nobody => return (is_all, now),
                Taker::One { has_more } => is_all &= !has_more,
            }
            now = self.desk.now();
            if now.saturating_sub(begun) >= CALLERS {
                return (is_all, now);
            }
        }
        (is_all, now)
    }

    /// Takes one at each port that wasn't found empty.
    fn take_round(&mut self, closed: u16, taken: &mut u16, empty: &mut u16, now: u64) -> Taker
        ensures { GoesOnWith D.Disk (AreCallersBut closed taken.old taken.new) (served_of self.old) (served_of self.new) }
    {
        let mut round = Taker::Nobody;
        for seat in 0..SEATS {
            let taker = self.take_caller_of(seat, closed, taken, empty, now);
            round = with_taker(round, taker);
        }
        round
    }

    /// The same of one seat.
    fn take_caller_of(
        &mut self,
        seat: u8,
        closed: u16,
        taken: &mut u16,
        empty: &mut u16,
        now: u64,
    ) -> Taker
        ensures { GoesOnWith D.Disk (AreCallersBut closed taken.old taken.new) (served_of self.old) (served_of self.new) }
    {
        if has_bit(*empty, seat) || self.ending() != Outcome::GoesOn {
            return Taker::Nobody;
        }
        let taker = self.take_caller(seat, closed, taken, now);
        if let Taker::Nobody = taker {
            *empty = with_bit(*empty, seat);
        }
        taker
    }

    /// At each port that wasn't found empty more may be: that is noted, and the next turn doesn't rest.
    fn note_crowds(&mut self, empty: u16, now: u64)
        ensures { IsKept W.Wire self.old.desk self.new.desk }
    {
        self.has_callers = false;
        for seat in 0..SEATS {
            self.note_crowd(seat, empty, now);
        }
    }

    /// The same of one seat.
    fn note_crowd(&mut self, seat: u8, empty: u16, now: u64)
        ensures { IsKept W.Wire self.old.desk self.new.desk }
    {
        if !has_bit(empty, seat) {
            self.desk.crowd(seat, now);
            self.has_callers = true;
        }
    }

    /// Takes the next one who came to a seat's port. Where something was taken of the seat before, nobody is taken in there, as at a
    /// closed one.
    fn take_caller(&mut self, seat: u8, closed: u16, taken: &mut u16, now: u64) -> Taker
        ensures { GoesOnWith D.Disk (AreCallersBut closed taken.old taken.new) (served_of self.old) (served_of self.new) }
    {
        let Called {
            was_there,
            notice,
            ..
        } = self.desk.next_caller(seat, closed | *taken, now);
        match notice {
            Some(told) => {
                let has_more = has_more(&told);
                *taken = with_thing(*taken, &told);
                self.take_seat_notice(told);
                self.leave_all();
                Taker::One { has_more }
            }
            None if was_there => Taker::One { has_more: false },
            None => Taker::Nobody,
        }
    }

    /// Takes what came next of a seat, or of a guest, by its number. Where something was taken of a seat before, nobody is taken
    /// in there, as at a closed one. It says whether nothing is left of it.
    fn take_next_of_seat(&mut self, at: u8, closed: u16, taken: &mut u16, now: u64) -> bool
        ensures { GoesOnWith D.Disk (IsNextBut at closed taken.old taken.new) (served_of self.old) (served_of self.new) }
    {
        if has_bit(*taken, at) {
            return false;
        }
        match self.desk.next_of_seats(at, closed | *taken, now) {
            Some(notice) => {
                let has_more = has_more(&notice);
                *taken = with_thing(*taken, &notice);
                self.take_seat_notice(notice);
                self.leave_all();
                !has_more
            }
            None => true,
        }
    }

    /// The node is told of all bots that were let go of.
    fn leave_all(&mut self)
        ensures { Does D.Disk [] (served_of self.old) (served_of self.new) }
    {
        for _ in 0..SEATS {
            match self.desk.sittings.first_let_go() {
                Some(seat) => self.leave(seat),
                None => return,
            }
        }
    }

    /// One thing that came of a peer.
    pub(crate) fn take_notice(&mut self, alloc: Global, notice: Notice) -> Taken
        requires { IsTold (own_of self.old.desk.company.peers) (passed_of self.old.desk.company.peers) notice }
        ensures goes { Does D.Disk (told_of notice) (served_of self.old) (served_of self.new) }
        ensures stops { StopsAtLife result (told_of notice) }
    {
        match notice {
            Notice::Frame { from, frame } => {
                self.take_frame(alloc, from, frame.as_slice());
                Taken::One
            }
            Notice::Joined { peer, life } => self.take_joined(peer, life),
            Notice::Gone { peer } => {
                self.tell(ServerNotice::Gone { peer });
                Taken::One
            }
            Notice::Refused {
                peer,
                fault,
                source,
            } => {
                self.note_refused(peer, fault, source);
                Taken::One
            }
            Notice::Strangers { peer, count, fault } => {
                self.tell(ServerNotice::Callers { peer, count, fault });
                Taken::One
            }
            Notice::Settings { peer, settings } => {
                self.note_settings(peer, settings);
                Taken::One
            }
            Notice::Unreached { peer, refuses } => {
                self.tell(ServerNotice::Unreached { peer, refuses });
                Taken::One
            }
        }
    }

    /// A connection to a peer is open. A life that is to be kept is told before frames of its node are taken; where there is
    /// no memory to tell it that ends the process, since nobody would keep it.
    #[tactic(auto, using(crate::proofs::Telling::stops_there, crate::proofs::Telling::stops_nowhere, crate::proofs::Telling::life_told))]
    pub(crate) fn take_joined(&mut self, peer: u8, life: Option<Life>) -> Taken
        requires { IsTold (own_of self.old.desk.company.peers) (passed_of self.old.desk.company.peers) (Joined peer life) }
        ensures kept { IsKept W.Wire self.old.desk self.new.desk }
        ensures stops { StopsAtLife result (told_of (Joined peer life)) }
        ensures told { TellsLife peer life self.old.desk.company.told.items self.new.desk.company.told.items self.new.desk.company.is_life_lost }
    {
        let _ = self.desk.company.tell(ServerNotice::Joined { peer, life });
        match life {
            None => Taken::One,
            Some(_) => Taken::Last,
        }
    }

    /// A connection to a peer is closed by a fault. Where the peer keeps another life of this node's store, or has heard of a greater
    /// ballot than it promises, that ends the process.
    pub(crate) fn note_refused(&mut self, peer: u8, fault: PeerFault, source: Option<IpAddr>)
        ensures { IsKept W.Wire self.old.desk self.new.desk }
    {
        self.tell(ServerNotice::Refused {
            peer,
            fault,
            source,
        });
    }

    /// A peer told a setting of its process: where it isn't that of this one, that is told.
    fn note_setting(&mut self, peer: u8, what: Setting, there: u32, here: u32)
        ensures { IsKept W.Wire self.old.desk self.new.desk }
    {
        if there == here {
            return;
        }
        self.tell(ServerNotice::Setting {
            peer,
            what,
            there,
            here,
        });
    }

    /// A peer told whose tokens its seats have: where they aren't those of this one, that is told.
    fn note_tokens(&mut self, peer: u8, are_same: bool)
        ensures { IsKept W.Wire self.old.desk self.new.desk }
    {
        if are_same {
            return;
        }
        let (what, there, here) = (Setting::Tokens, 0, 0);
        self.tell(ServerNotice::Setting {
            peer,
            what,
            there,
            here,
        });
    }

    /// A peer told the settings of its process: those that aren't those of this one are told.
    fn note_settings(&mut self, peer: u8, there: Settings)
        ensures { IsKept W.Wire self.old.desk self.new.desk }
    {
        let Some(here) = self.desk.member.terms().settings else {
            return;
        };
        self.note_setting(peer, Setting::Patience, there.patience, here.patience);
        self.note_setting(peer, Setting::Start, there.start, here.start);
        self.note_setting(peer, Setting::Away, there.away, here.away);
        self.note_tokens(peer, there.tokens == here.tokens);
    }

    /// A frame of a peer. Without memory for it, it is lost.
    pub(crate) fn take_frame(&mut self, alloc: Global, from: u8, bytes: &[u8])
        ensures { Does D.Disk (OfPeer from bytes.now ∷ []) (served_of self.old) (served_of self.new) }
    {
        let to = self.desk.member.number();
        let Ok(bytes) = Vec::from_slice(alloc, bytes) else {
            return;
        };
        let _ = self.call(&Event::Frame { from, to, bytes });
    }

    /// One thing that came of a seat. By one that couldn't be read seats count as not read in this turn.
    pub(crate) fn take_seat_notice(&mut self, notice: SeatNotice)
        ensures goes { Does D.Disk (incoming_of notice) (served_of self.old) (served_of self.new) }
        ensures unread { (seat : ℕ) → notice ≡ Unread seat → self.new.has_read_seats ≡ false }
    {
        match notice {
            SeatNotice::Came { seat } => self.seat_bot(seat),
            SeatNotice::Piece { seat, bytes } => self.take_piece(seat, bytes),
            SeatNotice::Gone { seat } => self.leave(seat),
            SeatNotice::Refused { seat, source } => self.wrong_tokens.count(seat, source),
            SeatNotice::Unread { .. } => self.has_read_seats = false,
        }
    }

    /// Bytes of a seat. Where there is no memory for the call they are lost, and their bot is let go of (`Desk::step`).
    pub(crate) fn take_piece(&mut self, seat: u8, bytes: Vec<u8>)
        ensures { Does D.Disk (OfSeat (Came (Seat seat) bytes.items) ∷ []) (served_of self.old) (served_of self.new) }
    {
        let node = self.desk.member.number();
        let _ = self.call(&Event::Line { node, seat, bytes });
    }

    /// A bot was taken in at a seat.
    pub(crate) fn seat_bot(&mut self, seat: u8)
        ensures { Does D.Disk (OfSeat (Began (Seat seat)) ∷ []) (served_of self.old) (served_of self.new) }
    {
        let node = self.desk.member.number();
        match self.call(&Event::Connect { node, seat }) {
            Some(Ok(())) => self.note_seated(seat),
            _ => self.desk.hang_up(seat),
        }
    }

    /// A bot sits at a seat: that is told, and it counts as one that sits there, unless the node is apart.
    fn note_seated(&mut self, seat: u8)
        ensures { IsKept W.Wire self.old.desk self.new.desk }
    {
        if self.desk.apart.is_apart() {
            return;
        }
        self.seat_watches.take(seat);
        self.seated |= bit_of(seat);
        self.tell(ServerNotice::Seated { seat });
    }

    /// The node isn't apart any more: who came meanwhile and was told nothing yet sits at a seat as if he came now, and who was told
    /// to come again later is let go of.
    fn note_joined_seat(&mut self, seat: u8)
        ensures { IsKept W.Wire self.old.desk self.new.desk }
    {
        if self.desk.seats.parting(seat) == Some(Parting::Wait) {
            self.desk.hang_up(seat);
            return;
        }
        let is_new = self.seated & bit_of(seat) == 0;
        if is_new && matches!(self.desk.sittings.at(seat), Sitting::Here) {
            self.note_seated(seat);
        }
    }

    /// The same of all seats.
    pub(crate) fn note_joined_seats(&mut self)
        ensures { IsKept W.Wire self.old.desk self.new.desk }
    {
        for seat in 0..SEATS {
            self.note_joined_seat(seat);
        }
    }

    /// The bot of a seat is gone.
    pub(crate) fn leave(&mut self, seat: u8)
        ensures { Does D.Disk [] (served_of self.old) (served_of self.new) }
    {
        let node = self.desk.member.number();
        if let Some(Ok(())) = self.call(&Event::Drop { node, seat }) {
            self.note_left(seat);
        }
    }

    /// The bot of a seat is gone: that is told where it was told that it sat there.
    fn note_left(&mut self, seat: u8)
        ensures { IsKept W.Wire self.old.desk self.new.desk }
    {
        let was_told = self.seated & bit_of(seat) != 0;
        self.seated &= !bit_of(seat);
        if was_told {
            self.tell(ServerNotice::Left { seat });
        }
    }
}
