//! A node's process at its wires: each call of the node, and what it made handed on.

ghost use Rattle.std.specs.Prelude.{◌≡◌, ℕ, [], ◌∷◌, ◌++◌, true, false, map, IfSome};
ghost use Rattle.dealer_world.specs.Calls.{added_by};
ghost use Rattle.dealer_world.specs.KeptShown.{reader_by};
ghost use Rattle.dealer_world.specs.Recordings.{text_by};
ghost use Rattle.node_peers.specs.Hearing.{IsTold};
ghost use Rattle.node_peers.specs.Noticing.{IsFrame};
ghost use Rattle.node_peers.specs.Peering.{own_of, passed_of, frames_of, heard_of, Keeps};
ghost use Rattle.node_peers.specs.Sending.{Sends};
ghost use Rattle.node_seats.specs.Pieces.{IsPieceOf};
ghost use Rattle.node_seats.specs.declared.limits.TheConstants.{PIECE};
ghost use Rattle.node_seats.specs.Seating.{bot_at, waits_at, sits_at, KeepsOtherBots, KeepsClosed};
ghost use Rattle.stations.specs.Looking.{look_of};
ghost use Rattle.node_wires.specs.declared.line.Line.TheVariants.{Peer};
ghost use Rattle.node_wires.specs.Passages.{Wrote, Saw, Waited, logged_in, seats_in};
ghost use Rattle.node_service.specs.Showing.{added, LogGains};
ghost use Rattle.node_service.specs.Telling.{told_by, incoming_by};
ghost use Rattle.node_service.specs.Company.{HearsOn};
ghost use Rattle.node_service.specs.Seated.{seat_left, IsFree};
ghost use Rattle.node_service.specs.Sittings.{seat_in, Loosens, Frees, Refuses};
ghost use Rattle.node_service.specs.Handed.{mark_handed};
ghost use Rattle.node_service.specs.Crossing.{KeepsLines};
ghost use Rattle.node_service.specs.Handing.{HandsOn};
ghost use Rattle.node_service.specs.Bots.{IsServedAt, AreServed};

use crate::apart::Apart;
use crate::company::Company;
use crate::limits::{LONG, SEATS};
use crate::local_node::LocalNode;
use crate::seat_lines::{bit_of, owes, refuse, tell_all, tell_bot};
use crate::sitting::Sittings;
use dealer_node::{Out, Reader};
use dealer_world::Event;
use node_links::OwnReport;
use node_peers::Notice;
use node_seats::{Called, SeatNotice, Seats};
use node_status::Askers;
use node_wires::Wire;
use promise_store::Disk;

/// A node's process at its wires: the node, its peers and the bots of its seats.
pub(crate) struct Desk<D: Disk + Drop, W: Wire + Drop> {
    pub(crate) member: LocalNode<D>,
    pub(crate) wire: W,
    pub(crate) company: Company,
    pub(crate) seats: Seats,
    pub(crate) askers: Askers,
    /// The log couldn't be written: nothing more goes into it.
    pub(crate) log_failed: bool,
    /// How the bots of seats are at the node.
    pub(crate) sittings: Sittings,
    /// The node is without a quorum for a while, or isn't: while it is who sits is told no lines, but to come again later.
    pub(crate) apart: Apart,
}

/// By hand, so that letting one go is one call for whoever owns it (docs/ARCHITECTURE.md, Habits).
impl<D: Disk + Drop, W: Wire + Drop> Drop for Desk<D, W> {
    fn drop(self) {
        let Desk {
            member: _,
            wire: _,
            company: _,
            seats: _,
            askers: _,
            log_failed: _,
            sittings: _,
            apart: _,
        } = self;
    }
}

/// Whether a bot sits at a seat whose session is ready, and it has been told all: its lines up to the newest, or why there are
/// none; and nothing waits for it.
pub(crate) fn has_been_told<D: Disk + Drop>(
    member: &LocalNode<D>,
    seats: &Seats,
    seat: u8,
) -> bool {
    seats.sits(seat as usize)
        && member.is_connected(seat)
        && seats.backlog(seat) == 0
        && !owes(member, seats, seat)
}

/// The seat whose bot is let go of where this isn't given to the node.
fn seat_of(event: &Event) -> Option<u8>
    ensures { result ≡ seat_in event.now }
{
    match event {
        Event::Line {
            node: _,
            seat,
            bytes: _,
        } => Some(*seat),
        Event::Connect { node: _, seat } => Some(*seat),
        Event::Drop { .. }
        | Event::Frame { .. }
        | Event::Tick { .. }
        | Event::Away { .. }
        | Event::Stop { .. }
        | Event::Start { .. } => None,
    }
}

/// The seat of which the node has no session any more once it was given this.
fn seat_left(event: &Event) -> Option<u8>
    ensures { result ≡ seat_left event.now }
{
    match event {
        Event::Drop { node: _, seat } => Some(*seat),
        Event::Connect { .. }
        | Event::Line { .. }
        | Event::Frame { .. }
        | Event::Tick { .. }
        | Event::Away { .. }
        | Event::Stop { .. }
        | Event::Start { .. } => None,
    }
}

/// A bot whose end this notice tells isn't here any more.
fn note_gone(notice: &Option<SeatNotice>, sittings: &mut Sittings)
    ensures { Loosens sittings.old sittings.new }
{
    if let Some(SeatNotice::Gone { seat }) = notice {
        sittings.let_go(*seat);
    }
}

/// Hands a frame to the peers.
fn send(to: u8, frame: &[u8], company: &mut Company, now: u64)
    ensures frames { frames_of company.new.peers ≡ frames_of company.old.peers ++ Wrote (Peer to) frame.now ∷ [] }
    ensures keeps { Keeps company.old.peers company.new.peers }
    ensures heard { heard_of company.new.peers ≡ heard_of company.old.peers }
    ensures hears { HearsOn company.old.peers company.new.peers }
    ensures sent { Sends to frame.now company.old.peers.peers.items company.new.peers.peers.items }
{
    company.send(to, frame, now);
}

/// Hands the frames that a call made to the peers, in order.
fn send_all(made: &Out, company: &mut Company, now: u64)
    ensures frames { frames_of company.new.peers ≡ frames_of company.old.peers ++ map mark_handed made.now.frames }
    ensures keeps { Keeps company.old.peers company.new.peers }
    ensures heard { heard_of company.new.peers ≡ heard_of company.old.peers }
    ensures hears { HearsOn company.old.peers company.new.peers }
{
    for (to, frame) in made.frames() {
        send(to, frame, company, now);
    }
}

/// Puts text into the log, unless that has failed before.
fn log<W: Wire>(wire: &mut W, log_failed: &mut bool, text: &[u8])
    ensures log { LogGains log_failed.old log_failed.new text.now (logged_in (W.passed wire.old)) (logged_in (W.passed wire.new)) }
    ensures seats { seats_in (W.passed wire.new) ≡ seats_in (W.passed wire.old) }
    ensures lines { KeepsLines (W.passed wire.old) (W.passed wire.new) }
{
    if *log_failed {
        return;
    }
    if text.is_empty() {
        return;
    }
    match wire.add_to_log(text) {
        Ok(()) => (),
        Err(_) => *log_failed = true,
    }
}

/// Hands a text on that is for the log. What a seat is shown it is told off the table.
fn show<W: Wire>(reader: Reader, text: &[u8], wire: &mut W, log_failed: &mut bool)
    ensures log { LogGains log_failed.old log_failed.new (added_by (reader_by reader) text.now) (logged_in (W.passed wire.old)) (logged_in (W.passed wire.new)) }
    ensures seats { seats_in (W.passed wire.new) ≡ seats_in (W.passed wire.old) }
    ensures lines { KeepsLines (W.passed wire.old) (W.passed wire.new) }
{
    match reader {
        Reader::Seat(_) => (),
        Reader::Log => log(wire, log_failed, text),
    }
}

/// Hands on what a call showed to the log, in order, unless that has failed.
fn show_all<W: Wire>(made: &Out, wire: &mut W, log_failed: &mut bool)
    ensures log { LogGains log_failed.old log_failed.new (added (map text_by made.now.shown)) (logged_in (W.passed wire.old)) (logged_in (W.passed wire.new)) }
    ensures seats { seats_in (W.passed wire.new) ≡ seats_in (W.passed wire.old) }
    ensures lines { KeepsLines (W.passed wire.old) (W.passed wire.new) }
{
    for (reader, text) in made.shown() {
        show(reader, text, wire, log_failed);
    }
}

impl<D: Disk + Drop, W: Wire + Drop> Desk<D, W> {
    ghost use Rattle.node_service.specs.Desks.{served_by, IsKept, IsKeptWith};
    ghost use Rattle.node_service.specs.Going.{Takes};

    /// The node isn't given this: the bot that it is of is let go of.
    pub(crate) fn refuse(&mut self, event: &Event)
        ensures kept { IsKept W.Wire self.old self.new }
        ensures refuses { Refuses event.now self.old.sittings self.new.sittings }
        ensures free { IsFree (seat_in event.now) self.new.seats.seats.items }
    {
        match seat_of(event) {
            Some(seat) => self.hang_up(seat),
            None => (),
        }
    }

    /// The node was given this: where it is the end of a seat nobody sits there any more.
    pub(crate) fn part_from(&mut self, event: &Event)
        ensures kept { IsKept W.Wire self.old self.new }
        ensures sittings { self.new.sittings ≡ self.old.sittings }
        ensures free { IsFree (seat_left event.now) self.new.seats.seats.items }
    {
        match seat_left(event) {
            Some(seat) => {
                let _ = self.seats.hang_up(&mut self.wire, seat);
            }
            None => (),
        }
    }

    /// Hands on what the last call made, in order, and tells seats what there is to tell since. It says which seats are to be let
    /// go of, a bit each: those that something couldn't be told, for want of memory.
    pub(crate) fn hand_on(&mut self) -> u16
        ensures member { self.new.member ≡ self.old.member }
        ensures sittings { self.new.sittings ≡ self.old.sittings }
        ensures hands { HandsOn D.Disk 0 self.old.member.made (served_by W.Wire self.old) (served_by W.Wire self.new) }
    {
        let now = self.wire.now();
        send_all(self.member.made(), &mut self.company, now);
        show_all(self.member.made(), &mut self.wire, &mut self.log_failed);
        tell_all(&self.member, &mut self.seats, self.apart.is_apart())
    }

    /// Peers are told from now on what the node has promised.
    pub(crate) fn note_promised(&mut self)
        ensures kept { IsKept W.Wire self.old self.new }
        ensures sittings { self.new.sittings ≡ self.old.sittings }
    {
        self.company.set_promised(self.member.node().promised());
    }

    /// The present moment.
    pub(crate) fn now(&mut self) -> u64
        ensures kept { IsKept W.Wire self.old self.new }
        ensures saw { W.passed self.new.wire ≡ W.passed self.old.wire ++ Saw result ∷ [] }
    {
        self.wire.now()
    }

    /// Waits for so many microseconds at most.
    pub(crate) fn wait(&mut self, most: u64)
        ensures kept { IsKept W.Wire self.old self.new }
        ensures waited { W.passed self.new.wire ≡ W.passed self.old.wire ++ Waited most ∷ [] }
    {
        self.wire.wait(most);
    }

    /// So much of the time that went by isn't counted as silence, where it is long: the process was stopped, or in a call.
    pub(crate) fn forgive(&mut self, lost: u64, now: u64)
        ensures { IsKept W.Wire self.old self.new }
    {
        if lost <= LONG {
            return;
        }
        self.company.forgive(lost, now);
    }

    /// A peer counts as absent once it was silent for so long.
    pub(crate) fn set_silence(&mut self, silence: u64)
        ensures { IsKept W.Wire self.old self.new }
    {
        self.company.set_silence(silence);
    }

    /// Takes what peers sent, and dials those that are to be dialled.
    pub(crate) fn hear(&mut self, now: u64)
        ensures { IsKept W.Wire self.old self.new }
    {
        self.company.hear(&mut self.wire, now);
    }

    /// Takes in the next one who dialled. False where the wires give none, or too much waits to be told.
    pub(crate) fn take_caller(&mut self, now: u64) -> bool
        ensures { IsKept W.Wire self.old self.new }
    {
        self.company.take_caller(&mut self.wire, now)
    }

    /// What is told next of peers.
    pub(crate) fn next_of_peers(&mut self) -> Option<Notice>
        ensures takes { Takes D.Disk (told_by result) (served_by W.Wire self.old) (served_by W.Wire self.new) }
        ensures told { IfSome result (λ notice. IsTold (own_of self.new.company.peers) (passed_of self.new.company.peers) notice) }
    {
        self.company.next()
    }

    /// The next frame of a peer that was set aside and is told now, if one is.
    pub(crate) fn next_aside(&mut self, now: u64) -> Option<Notice>
        ensures takes { Takes D.Disk (told_by result) (served_by W.Wire self.old) (served_by W.Wire self.new) }
        ensures told { IfSome result (λ notice. IsTold (own_of self.new.company.peers) (passed_of self.new.company.peers) notice) }
        ensures frame { IfSome result IsFrame }
    {
        self.company.next_aside(now)
    }

    /// What came next of a seat, or of a guest, by its number. At closed seats, a bit each, nobody is taken in.
    pub(crate) fn next_of_seats(&mut self, at: u8, closed: u16, now: u64) -> Option<SeatNotice>
        ensures closed { KeepsClosed closed result }
        ensures takes { Takes D.Disk (incoming_by result) (served_by W.Wire self.old) (served_by W.Wire self.new) }
        ensures piece { IsPieceOf at PIECE result }
    {
        let is_greeted = self.member.is_connected(at);
        let notice = self.seats.next(&mut self.wire, at, is_greeted, closed, now);
        note_gone(&notice, &mut self.sittings);
        notice
    }

    /// Takes the next one who came to a seat's port and hasn't shown its token. At closed seats, a bit each, nobody is taken in.
    pub(crate) fn next_caller(&mut self, seat: u8, closed: u16, now: u64) -> Called
        ensures closed { KeepsClosed closed result.notice }
        ensures takes { Takes D.Disk (incoming_by result.notice) (served_by W.Wire self.old) (served_by W.Wire self.new) }
        ensures piece { (number most : ℕ) → IsPieceOf number most result.notice }
    {
        let called = self.seats.next_caller(&mut self.wire, seat, closed, now);
        note_gone(&called.notice, &mut self.sittings);
        called
    }

    /// More came to a seat's port than are taken of it in a turn.
    pub(crate) fn crowd(&mut self, seat: u8, now: u64)
        ensures { IsKept W.Wire self.old self.new }
    {
        self.seats.crowd(seat, now);
    }

    /// The node is apart from now on, or isn't.
    pub(crate) fn set_apart(&mut self, is_apart: bool)
        ensures kept { IsKept W.Wire self.old self.new }
        ensures only { self.new.apart.is_apart ≡ true → is_apart ≡ true }
        ensures seats { self.new.seats ≡ self.old.seats }
    {
        self.apart.set(is_apart);
    }

    /// The wires.
    pub(crate) fn wire_mut(&mut self) -> &mut W {
        &mut self.wire
    }

    /// Lets go of the bot of a seat, if one sits there.
    pub(crate) fn hang_up(&mut self, seat: u8)
        ensures kept { IsKept W.Wire self.old self.new }
        ensures freed { Frees seat self.old.sittings self.new.sittings }
        ensures gone { sits_at self.new.seats.seats.items seat ≡ false }
        ensures others { KeepsOtherBots seat self.old.seats.seats.items self.new.seats.seats.items }
    {
        let _ = self.seats.hang_up(&mut self.wire, seat);
        self.sittings.let_go(seat);
    }

    /// Lets go of the bot of a seat whose bit is set.
    fn hang_up_of(&mut self, bits: u16, seat: u8)
        ensures { IsKept W.Wire self.old self.new }
    {
        if bits & bit_of(seat) == 0 {
            return;
        }
        self.hang_up(seat);
    }

    /// Lets go of the bots of these seats, a bit each.
    pub(crate) fn hang_up_all(&mut self, bits: u16)
        ensures { IsKept W.Wire self.old self.new }
    {
        if bits == 0 {
            return;
        }
        for seat in 0..SEATS {
            self.hang_up_of(bits, seat);
        }
    }

    /// Tells the bot of a seat what there is to tell. False where it is to be let go of.
    fn tell_bot(&mut self, seat: u8) -> bool
        ensures kept { IsKept W.Wire self.old self.new }
        ensures served { result ≡ true → IsServedAt (look_of self.old.member.station) seat (bot_at self.new.seats.seats.items seat) (waits_at self.new.seats.seats.items seat) }
        ensures others { KeepsOtherBots seat self.old.seats.seats.items self.new.seats.seats.items }
    {
        tell_bot(&self.member, &mut self.seats, seat, self.apart.is_apart())
    }

    /// The same. A bot that something can't be told, for want of memory, is let go of; and where the node is apart one that named
    /// the version without `#RESUME`.
    fn tell_seat(&mut self, seat: u8)
        ensures kept { IsKept W.Wire self.old self.new }
        ensures served { IsServedAt (look_of self.old.member.station) seat (bot_at self.new.seats.seats.items seat) (waits_at self.new.seats.seats.items seat) }
        ensures others { KeepsOtherBots seat self.old.seats.seats.items self.new.seats.seats.items }
    {
        if !self.tell_bot(seat) {
            self.hang_up(seat);
        }
    }

    /// Tells seats what there is to tell, or to come again later, as `tell_seat` does.
    pub(crate) fn tell_seats(&mut self)
        ensures kept { IsKept W.Wire self.old self.new }
        ensures served { AreServed (look_of self.new.member.station) self.new.seats.seats.items }
    {
        for seat in 0..self.member.players() {
            self.tell_seat(seat);
        }
    }

    /// Tells the bot of a seat to which no line was told that the line that it named is none, where the table still hasn't it.
    pub(crate) fn refuse_line(&mut self, seat: u8)
        ensures { IsKept W.Wire self.old self.new }
    {
        let _ = refuse(&self.member, &mut self.seats, seat);
    }

    /// Writes what waits for seats. It says whether there are more whose connection may have ended.
    fn write_to_seats(&mut self) -> bool
        ensures { IsKept W.Wire self.old self.new }
    {
        match self.seats.flush(&mut self.wire) {
            Some(SeatNotice::Gone { seat }) => {
                self.sittings.let_go(seat);
                true
            }
            // A write takes nobody in; who came by one would be nobody to the node.
            Some(SeatNotice::Came { seat }) => {
                let _ = self.seats.hang_up(&mut self.wire, seat);
                false
            }
            Some(SeatNotice::Piece { .. }) => false,
            Some(SeatNotice::Refused { .. }) => false,
            Some(SeatNotice::Unread { .. }) => false,
            None => false,
        }
    }

    /// Writes what waits for peers, and first tells them how the node is, where that is due.
    fn write_to_peers(&mut self, told: OwnReport, now: u64)
        ensures { IsKept W.Wire self.old self.new }
    {
        self.company.speak(told, &mut self.wire, now);
    }

    /// Takes in those who ask how the node is, and says whether anybody waits for that.
    pub(crate) fn is_asked(&mut self, now: u64) -> bool
        ensures { IsKept W.Wire self.old self.new }
    {
        self.askers.accept(&mut self.wire, now)
    }

    /// Gives a line to those who ask how the node is. Without memory some of them wait further.
    pub(crate) fn answer(&mut self, line: &[u8])
        ensures { IsKeptWith W.Wire (λ given. given ≡ line.now) self.old self.new }
    {
        let _ = self.askers.answer(line);
    }

    /// Writes what waits for those who asked.
    fn write_to_askers(&mut self, now: u64)
        ensures { IsKept W.Wire self.old self.new }
    {
        self.askers.flush(&mut self.wire, now);
    }

    /// What was written goes out.
    fn flush(&mut self)
        ensures { IsKept W.Wire self.old self.new }
    {
        self.wire.flush();
    }

    /// Writes what waits for peers, seats and those who asked, and first tells seats what there is to tell, and peers how the node
    /// is, where that is due.
    pub(crate) fn speak(&mut self, told: OwnReport, now: u64)
        ensures { IsKept W.Wire self.old self.new }
    {
        self.tell_seats();
        self.write_to_peers(told, now);
        self.flush();
        self.write_to_askers(now);
        for _ in 0..SEATS {
            if !self.write_to_seats() {
                return;
            }
        }
    }
}
