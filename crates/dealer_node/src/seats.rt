ghost use Rattle.std.specs.Prelude.{◌≡◌, ◌≤◌, ◌<◌, length, replicate, None, Some, slice_set, IfOk, IfSome, OnOk};
ghost use Rattle.seat_session.specs.Session.{fresh};
ghost use Rattle.node_rules.specs.Standings.{Standing};
ghost use Rattle.node_rules.specs.Showing.{is_connected as is_talk_ready};
ghost use Rattle.node_rules.specs.Seats.{session_at};
ghost use Rattle.dealer_node.specs.Outs.{told_by, HasRoom};
ghost use Rattle.dealer_node.specs.Members.{place_at};
ghost use Rattle.dealer_node.specs.Rooms.{Makes, piece_need};
ghost use Rattle.dealer_node.specs.Scenes.{StaysInRange};
ghost use Rattle.dealer_node.specs.Hearing.{IsSeatOf};
ghost use Rattle.dealer_node.specs.Turned.{talks};
ghost use Rattle.dealer_node.specs.Seated.{without_room, feeds_with, HasRoomAt, IsSeatedAt, PieceTurn};

use crate::lines::is_connected;
use crate::made::Made;
use crate::member::Member;
use crate::seat_input::session_hears;
use paxos_wire::Ballot;
use seat_session::{Session, line_feeds};
use slot_log::{Command, Table};
use std::alloc::{AllocError, Global};
use std::marker::Model;

/// The sessions of all seats of a node; a seat that isn't connected has none.
///
/// Contracts see by seat where its session stands, and for how many more bytes it has room without further memory.
#[derive(Drop)]
pub(crate) struct Seats {
    sessions: Vec<Option<Session>>,
}

impl Model for Seats {
    ghost use Rattle.dealer_node.specs.Seated.{Seated};

    ghost Value = { Seated };

    ghost use Rattle.dealer_node.specs.SeatsInside.{IsKept, seated_of};

    ghost view = { seated_of };

    ghost invariant = { IsKept };
}

/// Makes room for so many bytes more in a session, if there is one. An `Err` changes room alone.
fn reserve_in(session: &mut Option<Session>, more: usize) -> Result<(), AllocError>
    ensures same { without_room session.new ≡ without_room session.old }
    ensures room { OnOk result (IfSome session.new (λ s. more ≤ s.room)) }
{
    match session {
        None => Ok(()),
        Some(session) => session.reserve(more),
    }
}

impl Seats {
    /// No session, for so many seats.
    pub(crate) fn new(alloc: Global, players: usize) -> Result<Seats, AllocError>
        ensures { IfOk result (λ seats. seats.talks ≡ replicate players None) }
    {
        let mut sessions = Vec::new(alloc);
        for step in 0..players {
            sessions.push(None)?;
        }
        Ok(Seats { sessions })
    }

    /// The sessions by seat.
    pub(crate) fn sessions(&self) -> &[Option<Session>]
        ensures value { talks result.now ≡ self.now.talks }
        ensures len { length result.now ≡ length self.now.talks }
    {
        &self.sessions
    }

    /// Whether a seat is connected: its session is ready.
    pub(crate) fn is_connected(&self, seat: usize) -> bool
        requires { seat < length self.now.talks }
        ensures { result ≡ is_talk_ready (session_at self.now.talks seat) }
    {
        is_connected(&self.sessions[seat])
    }

    /// Begins a seat's session anew. It takes no memory yet; what comes takes it from this allocator.
    pub(crate) fn connect(&mut self, alloc: Global, seat: usize)
        requires { seat < length self.old.talks }
        ensures { self.new.talks ≡ slice_set self.old.talks seat (Some fresh) }
    {
        self.sessions[seat] = Some(Session::new(alloc, seat));
    }

    /// Drops a seat's session.
    pub(crate) fn drop_seat(&mut self, seat: usize)
        requires { seat < length self.old.talks }
        ensures { self.new.talks ≡ slice_set self.old.talks seat None }
    {
        self.sessions[seat] = None;
    }

    /// How many answers a piece of a seat's bytes may be given, and one more: none where no number is so great.
    pub(crate) fn most_answers(&self, seat: usize, piece: &[u8]) -> Option<usize>
        requires { seat < length self.now.talks }
        ensures { IfSome result (λ limit. feeds_with (session_at self.now.talks seat) piece.now < limit) }
    {
        let waiting = match &self.sessions[seat] {
            None => 0,
            Some(session) => session.line_feeds(),
        };
        line_feeds(piece).checked_add(waiting)?.checked_add(1)
    }

    /// Makes room for so many bytes more of a seat. An `Err` changes room alone.
    pub(crate) fn reserve(&mut self, seat: usize, more: usize) -> Result<(), AllocError>
        requires { seat < length self.old.talks }
        ensures same { self.new.talks ≡ self.old.talks }
        ensures room { OnOk result (HasRoomAt self.new seat more) }
    {
        reserve_in(&mut self.sessions[seat], more)?;
        Ok(())
    }

    /// Takes a piece of a seat's bytes, for which there is room, as for all answers to it: one more at most than line
    /// feeds wait and come.
    pub(crate) fn seat_hears(
        &mut self,
        seat: usize,
        piece: &[u8],
        limit: usize,
        member: &Member,
        promised: Ballot,
        table: &Table,
        pending: &mut Option<Command>,
        made: &mut Made,
    )
        requires sits { IsSeatOf member.now.setting table.now seat }
        requires seats { length self.old.talks ≡ table.now.game.players }
        requires bytes { HasRoomAt self.old seat (length piece.now) }
        requires limit { feeds_with (session_at self.old.talks seat) piece.now < limit }
        requires room { HasRoom made.old (piece_need limit) }
        ensures heard { (s : Standing) → IsSeatedAt (place_at member.now) self.old.talks table.now promised pending.old s
            → PieceTurn (place_at member.now) seat piece.now s table.now promised self.new.talks pending.new (told_by made.old) (told_by made.new) }
        ensures len { length self.new.talks ≡ length self.old.talks }
        ensures makes { Makes made.old made.new (piece_need limit) }
        ensures act { StaysInRange pending.old pending.new }
    {
        let session = self.sessions[seat].take();
        let kept = session_hears(
            session, seat, piece, limit, member, promised, table, pending, made,
        );
        self.sessions[seat] = kept;
    }
}
