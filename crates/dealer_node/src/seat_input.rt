ghost use Rattle.std.specs.Prelude.{◌≡◌, Option, ◌+◌, ◌*◌, ◌<◌, ◌++◌, ◌&&◌, false, map, is_none, if◌then◌else◌, [], Ok, Err, Some, None, IfSome, vec_len, vec_capacity};
ghost use Rattle.std.specs.Option.{ForSome};
ghost use Rattle.slot_log.specs.Dealer.{reason_of};
ghost use Rattle.slot_log.specs.Hand.{Match};
ghost use Rattle.slot_log.specs.declared.command.Command.{Command as Order};
ghost use Rattle.paxos_wire.specs.declared.ballot.Ballot.{Ballot as Number};
ghost use Rattle.paxos_wire.specs.Fits.{MayGoOn, IsInRange};
ghost use Rattle.paxos_wire.specs.declared.limits.TheConstants.{MOST_SINGLE_FRAME};
ghost use Rattle.paxos_wire.specs.declared.message.Message.TheVariants.{Forward as Forwarding};
ghost use Rattle.seat_session.specs.Feeds.{line_feeds};
ghost use Rattle.seat_session.specs.Session.{is_closed};
ghost use Rattle.seat_session.specs.declared.said.Said.TheVariants.{Ready as SaidReady, Act as SaidAct};
ghost use Rattle.node_rules.specs.Standings.{Place};
ghost use Rattle.node_rules.specs.Sending.{one};
ghost use Rattle.node_rules.specs.Seats.{is_others};
ghost use Rattle.dealer_node.specs.Outs.{told_by, HasRoom};
ghost use Rattle.dealer_node.specs.Members.{place_at};
ghost use Rattle.dealer_node.specs.Turned.{framed};
ghost use Rattle.dealer_node.specs.Fitting.{AreMessages};
ghost use Rattle.dealer_node.specs.Scenes.{StaysInRange};
ghost use Rattle.dealer_node.specs.Rooms.{HasSpace, Grows, Tells, Makes, piece_need};
ghost use Rattle.dealer_node.specs.Hearing.{IsSeatOf, IsForwardable, HasAnswerRoom, MakesAnswer, TakesAct, TakesAnswer, Hears, HearsPiece, CanHear};

use crate::lines::show_line;
use crate::made::Made;
use crate::member::Member;
use crate::seat_fault::SeatFault;
use crate::sending::send;
use crate::texts::Texts;
use matchstate::BettingText;
use paxos_wire::{Ballot, Message, frame_len};
use seat_session::laws::{answers_take_lines, pieces_add_lines, ready_comes_first};
use seat_session::{Said, Session, SessionFault};
use slot_log::{Command, Table};

/// Lets an act wait where it fits and none does.
pub(crate) fn wait(pending: &mut Option<Command>, table: &Table, act: &Command)
    ensures value { pending.new ≡ (if is_none pending.old && is_none (reason_of table.now.game table.now.count table.now.hands act.now) then Some act.now else pending.old) }
    ensures act { StaysInRange pending.old pending.new }
{
    if pending.is_none() && table.fits(act) {
        *pending = Some(*act);
    }
}

/// Whether the promised ballot is another node's.
fn is_others(member: &Member, promised: Ballot) -> bool
    ensures { result ≡ is_others (place_at member.now) promised }
{
    promised.round > 0 && promised.node < member.nodes() && promised.node != member.node()
}

/// Hands an act on to the node whose ballot was promised, where that is another.
fn forward(frames: &mut Texts<u8>, member: &Member, promised: Ballot, act: &Command)
    requires act { MayGoOn act.now }
    requires numbers { IsInRange act.now }
    requires space { HasSpace frames.old 1 MOST_SINGLE_FRAME }
    ensures texts { frames.new.texts ≡ frames.old.texts ++ map framed (if is_others (place_at member.now) promised then one promised.node (Forwarding act.now) else []) }
    ensures fits { AreMessages (if is_others (place_at member.now) promised then one promised.node (Forwarding act.now) else []) }
    ensures grows { Grows frames.old frames.new 1 MOST_SINGLE_FRAME }
{
    if is_others(member, promised) {
        let message = Message::Forward { command: *act };
        let _len = frame_len(&message);
        send(frames, promised.node, &message);
    }
}

/// A seat that gets ready is shown its line.
fn take_ready(seat: usize, table: &Table, made: &mut Made)
    requires seat { seat < table.now.game.players }
    requires space { HasSpace made.old.shown 1 4096 }
    ensures taken { (place : Place) (promised : Number) (pending : Option Order) → table.now.game ≡ place.setting.game
        → TakesAnswer place table.now promised seat (Ok SaidReady) pending pending (told_by made.old) (told_by made.new) }
    ensures shown { Grows made.old.shown made.new.shown 1 4096 }
    ensures rest { made.new ≡ record made.old { shown = made.new.shown } }
{
    show_line(&mut made.shown, table, seat, &BettingText::newest(table));
}

/// An act waits where it fits and none does, and goes on to the node whose ballot was promised, where that is another.
pub(crate) fn take_act(
    act: &Command,
    member: &Member,
    promised: Ballot,
    table: &Table,
    pending: &mut Option<Command>,
    made: &mut Made,
)
    requires act { IsForwardable (Ok (SaidAct act.now)) }
    requires space { HasSpace made.old.frames 1 MOST_SINGLE_FRAME }
    ensures taken { TakesAct (place_at member.now) table.now promised act.now pending.old pending.new (told_by made.old) (told_by made.new) }
    ensures frames { Grows made.old.frames made.new.frames 1 MOST_SINGLE_FRAME }
    ensures rest { made.new ≡ record made.old { frames = made.new.frames } }
    ensures act { StaysInRange pending.old pending.new }
{
    wait(pending, table, act);
    forward(&mut made.frames, member, promised, act);
}

/// A fault is kept for a note; the seat itself is told nothing.
fn take_fault(fault: SessionFault, seat: usize, made: &mut Made)
    requires { vec_len made.old.faults < vec_capacity made.old.faults }
    ensures taken { (place : Place) (table : Match) (promised : Number) (pending : Option Order)
        → TakesAnswer place table promised seat (Err fault) pending pending (told_by made.old) (told_by made.new) }
    ensures faults { Tells made.old made.new 1 }
    ensures rest { made.new ≡ record made.old { faults = made.new.faults } }
{
    made.faults.push_reserved(SeatFault { seat, fault });
}

/// Takes an answer of a seat's session.
fn take_answer(
    said: &Result<Said, SessionFault>,
    seat: usize,
    member: &Member,
    promised: Ballot,
    table: &Table,
    pending: &mut Option<Command>,
    made: &mut Made,
)
    requires sits { IsSeatOf member.now.setting table.now seat }
    requires act { IsForwardable said.now }
    requires room { HasAnswerRoom said.now made.old }
    ensures taken { TakesAnswer (place_at member.now) table.now promised seat said.now pending.old pending.new (told_by made.old) (told_by made.new) }
    ensures makes { MakesAnswer said.now made.old made.new }
    ensures act { StaysInRange pending.old pending.new }
{
    match said {
        Ok(said) => match said {
            Said::Ready => take_ready(seat, table, made),
            Said::Act(act) => take_act(act, member, promised, table, pending, made),
        },
        Err(fault) => take_fault(*fault, seat, made),
    }
}

/// Takes all answers to what waits, up to none or to the first that closes the session.
fn drain(
    session: &mut Session,
    limit: usize,
    member: &Member,
    promised: Ballot,
    table: &Table,
    pending: &mut Option<Command>,
    made: &mut Made,
)
    requires sits { IsSeatOf member.now.setting table.now session.old.seat }
    requires stays { is_closed session.old.standing.phase ≡ false }
    requires limit { line_feeds session.old.standing.waiting < limit }
    requires room { HasRoom made.old (piece_need limit) }
    ensures hears { Hears (place_at member.now) table.now promised session.old.seat session.old.standing session.new.standing pending.old pending.new (told_by made.old) (told_by made.new) }
    ensures seat { session.new.seat ≡ session.old.seat }
    ensures makes { Makes made.old made.new (piece_need limit) }
    ensures act { StaysInRange pending.old pending.new }
{
    answers_take_lines();
    ready_comes_first();
    for step in 0..limit {
        match session.next(table) {
            None => return,
            Some(said) => {
                take_answer(
                    &said,
                    session.seat(),
                    member,
                    promised,
                    table,
                    pending,
                    made,
                );
                if session.is_closed() {
                    return;
                }
            }
        }
    }
}

/// Takes a piece of a seat's bytes; a session that it closes is dropped.
pub(crate) fn session_hears(
    session: Option<Session>,
    seat: usize,
    piece: &[u8],
    limit: usize,
    member: &Member,
    promised: Ballot,
    table: &Table,
    pending: &mut Option<Command>,
    made: &mut Made,
) -> Option<Session>
    requires sits { IsSeatOf member.now.setting table.now seat }
    requires session { ForSome session (λ s. CanHear seat piece.now limit s) }
    requires room { HasRoom made.old (piece_need limit) }
    ensures hears { HearsPiece (place_at member.now) table.now promised seat piece.now session result pending.old pending.new (told_by made.old) (told_by made.new) }
    ensures own { IfSome result (λ s. s.seat ≡ seat) }
    ensures stays { IfSome result (λ s. is_closed s.standing.phase ≡ false) }
    ensures makes { Makes made.old made.new (piece_need limit) }
    ensures act { StaysInRange pending.old pending.new }
{
    pieces_add_lines();
    let mut session = session?;
    session.feed_reserved(piece);
    drain(&mut session, limit, member, promised, table, pending, made);
    if session.is_closed() {
        None
    } else {
        Some(session)
    }
}
