ghost use Rattle.std.specs.Prelude.{◌≡◌, ◌+◌, ◌*◌, ◌≤◌, ◌<◌, length, Ok, IfOk, OnOk, is_some};
ghost use Rattle.paxos_wire.specs.declared.limits.TheConstants.{SLOTS};
ghost use Rattle.slot_log.specs.Slots.{front};
ghost use Rattle.protocol_model.specs.Stores.{Store};
ghost use Rattle.proposer.specs.Campaigns.{is_leading};
ghost use Rattle.node_rules.specs.Standings.{Standing, started};
ghost use Rattle.node_rules.specs.Rules.{seeing};
ghost use Rattle.node_rules.specs.Turns.{sending};
ghost use Rattle.node_rules.specs.Seats.{session_at, connecting, dropping, pending_act, forwarding, taking_over};
ghost use Rattle.dealer_node.specs.Members.{Membership, place_at};
ghost use Rattle.dealer_node.specs.Outs.{told_by, HasRoom};
ghost use Rattle.dealer_node.specs.declared.limits.TheConstants.{COMMANDS_OF_A_CALL, MOST_FRAMES_OF_A_MESSAGE};
ghost use Rattle.dealer_node.specs.Rooms.{HasSpace, Grows, Makes, piece_need};
ghost use Rattle.dealer_node.specs.Seated.{feeds_with, HasRoomAt};
ghost use Rattle.seat_session.specs.declared.said.Said.TheVariants.{Act as SaidAct};
ghost use Rattle.dealer_node.specs.Hearing.{IsForwardable};
ghost use Rattle.dealer_node.specs.Running.{IsRunning, IsTaken, TakesPiece, IsAt, ahead_of};
ghost use Rattle.dealer_node.specs.Calling.{need_of};
ghost use Rattle.dealer_node.specs.Most.{most_after, most_applied};

use crate::limits::{TEXT_BYTES_OF_A_COMMAND, TEXTS_OF_A_COMMAND};
use crate::made::{Made, Need};
use crate::member::Member;
use crate::most_shown::{MostShown, most_after};
use crate::seat_input::{take_act, wait};
use crate::seats::Seats;
use crate::seen_ballot::seen_in;
use learner::Learner;
use paxos_wire::limits::MOST_SINGLE_FRAME;
use paxos_wire::{Ballot, Message};
use proposer::Proposer;
use slot_log::{Command, SlotLog, Table};
use std::alloc::{AllocError, Global};

/// What a node that runs holds in memory; its store lies on the disk.
///
/// Each method carries out a rule, or a part of one, for every standing that this is seen as.
pub(crate) struct Running {
    /// The ballot that it prepares or leads.
    pub(crate) proposer: Proposer,
    /// The commands that it knows, and the votes that it counts.
    pub(crate) learner: Learner,
    /// The hands of the commands below the front.
    pub(crate) table: Table,
    /// The act that waits to be proposed.
    pub(crate) pending: Option<Command>,
    /// The greatest ballot of all frames that came.
    pub(crate) seen: Ballot,
    /// The sessions of the seats.
    pub(crate) seats: Seats,
}

/// By hand, so that letting one go is one call for whoever owns it (docs/ARCHITECTURE.md, Habits).
impl Drop for Running {
    fn drop(self) {
        let Running {
            proposer: _,
            learner: _,
            table: _,
            pending: _,
            seen: _,
            seats: _,
        } = self;
    }
}

/// How many commands are known beyond the front.
fn ahead(log: &SlotLog) -> usize
    ensures value { result ≡ length log.now.log.beyond }
    ensures most { result ≤ SLOTS }
{
    log.limits();
    log.ahead()
}

impl Running {
    /// What runs at a node that has just started: it knows nothing yet, prepares no ballot, and no seat is connected.
    pub(crate) fn new(alloc: Global, member: &Member) -> Result<Running, AllocError>
        ensures runs { IfOk result (λ running. (found : Store) → IsRunning member.now running (started (place_at member.now) found)) }
        ensures at { IfOk result (λ running. IsAt member.now running) }
    {
        member.limits();
        member.game().limits();
        let players = member.game().players();
        Ok(Running {
            proposer: Proposer::new(member.node(), member.nodes()),
            learner: Learner::new(alloc, member.nodes())?,
            table: Table::new(alloc, *member.game(), member.hands()),
            pending: None,
            seen: Ballot { round: 0, node: 0 },
            seats: Seats::new(alloc, players)?,
        })
    }

    /// The first slot whose command isn't known, 0 to 4,000,000.
    pub(crate) fn front(&self) -> u32
        ensures value { result ≡ front self.now.learner.learned.log }
        ensures most { result ≤ SLOTS }
    {
        self.learner.log().front()
    }

    /// Whether it prepares or leads a ballot.
    pub(crate) fn campaigns(&self) -> bool
        ensures { result ≡ is_some self.now.proposer.campaign }
    {
        self.proposer.ballot().is_some()
    }

    /// Whether a quorum promised the ballot that it prepared.
    pub(crate) fn leads(&self) -> bool
        ensures { result ≡ is_leading self.now.proposer }
    {
        self.proposer.is_leading()
    }

    /// How many commands are applied at most once so many more are known.
    pub(crate) fn most_applied(&self, commands: usize) -> usize
        requires { commands ≤ COMMANDS_OF_A_CALL }
        ensures value { result ≡ ahead_of self.now + commands }
        ensures most { result ≤ SLOTS + commands }
    {
        ahead(self.learner.log()) + commands
    }

    /// How much the next call shows at most, where it brings no frame.
    pub(crate) fn most_shown(&self) -> MostShown
        ensures { result ≡ most_after (most_applied self.now) }
    {
        most_after(self.most_applied(self.most_proposed()))
    }

    /// What a call makes at most that learns so many commands and sends so many frames.
    pub(crate) fn need(&self, commands: usize, frames: usize) -> Need
        requires commands { commands ≤ COMMANDS_OF_A_CALL }
        requires frames { frames ≤ MOST_FRAMES_OF_A_MESSAGE }
        ensures { result ≡ need_of self.now commands frames }
    {
        let applied = self.most_applied(commands);
        Need {
            frames,
            frame_bytes: MOST_SINGLE_FRAME * frames,
            texts: TEXTS_OF_A_COMMAND * applied,
            text_bytes: TEXT_BYTES_OF_A_COMMAND * applied,
            faults: 0,
        }
    }

    /// Makes room to count so many answers more, with so many commands in all. An `Err` changes room alone.
    pub(crate) fn reserve(&mut self, answers: usize, commands: usize) -> Result<(), AllocError>
        requires { commands ≤ COMMANDS_OF_A_CALL }
        ensures same { (member : Membership) (s : Standing) → IsRunning member self.old s → IsRunning member self.new s }
        ensures at { (member : Membership) → IsAt member self.old → IsAt member self.new }
        ensures ahead { ahead_of self.new ≡ ahead_of self.old }
        ensures learned { self.new.learner.learned ≡ self.old.learner.learned }
        ensures answers { OnOk result (answers ≤ self.new.learner.answers) }
        ensures commands { OnOk result (commands ≤ self.new.learner.commands) }
        ensures table { OnOk result (ahead_of self.new + commands ≤ self.new.table.room) }
        ensures rest { self.new ≡ record self.old { learner = self.new.learner; table = self.new.table } }
    {
        let applied = self.most_applied(commands);
        self.learner.reserve(answers, commands)?;
        self.table.reserve(applied)
    }

    /// Sees the ballots that a message tells.
    pub(crate) fn see(&mut self, message: &Message)
        ensures runs { (member : Membership) (s : Standing) → IsRunning member self.old s → IsRunning member self.new (seeing message.now s) }
        ensures at { (member : Membership) → IsAt member self.old → IsAt member self.new }
        ensures rest { self.new ≡ record self.old { seen = self.new.seen } }
    {
        self.seen = seen_in(self.seen, message);
    }

    /// Begins a seat's session anew: the sessions' call, as the rule that it carries out.
    pub(crate) fn connect(&mut self, alloc: Global, seat: usize)
        requires { seat < length self.old.seats.talks }
        ensures runs { (member : Membership) (s : Standing) → IsRunning member self.old s → IsRunning member self.new (connecting seat s).after }
        ensures at { (member : Membership) → IsAt member self.old → IsAt member self.new }
    {
        self.seats.connect(alloc, seat);
    }

    /// Drops a seat's session: the sessions' call, as the rule that it carries out.
    pub(crate) fn drop_seat(&mut self, seat: usize)
        requires { seat < length self.old.seats.talks }
        ensures runs { (member : Membership) (s : Standing) → IsRunning member self.old s → IsRunning member self.new (dropping seat s).after }
        ensures at { (member : Membership) → IsAt member self.old → IsAt member self.new }
    {
        self.seats.drop_seat(seat);
    }

    /// Makes room for so many bytes more of a seat: the sessions' call, by which nothing else changes of what runs. An `Err`
    /// changes room alone.
    pub(crate) fn reserve_bytes(&mut self, seat: usize, more: usize) -> Result<(), AllocError>
        requires { seat < length self.old.seats.talks }
        ensures same { (member : Membership) (s : Standing) → IsRunning member self.old s → IsRunning member self.new s }
        ensures at { (member : Membership) → IsAt member self.old → IsAt member self.new }
        ensures talks { self.new.seats.talks ≡ self.old.seats.talks }
        ensures room { OnOk result (HasRoomAt self.new.seats seat more) }
        ensures rest { self.new ≡ record self.old { seats = self.new.seats } }
    {
        self.seats.reserve(seat, more)
    }

    /// Takes a piece of a seat's bytes, for which there is room, as for all answers to it: one more at most than line
    /// feeds wait and come: the sessions' call, as the rule that it carries out. The ballot is the one that the node's store
    /// has promised.
    pub(crate) fn hear_piece(
        &mut self,
        member: &Member,
        promised: Ballot,
        seat: usize,
        piece: &[u8],
        limit: usize,
        made: &mut Made,
    )
        requires at { IsAt member.now self.old }
        requires seat { seat < member.now.setting.game.players }
        requires bytes { HasRoomAt self.old.seats seat (length piece.now) }
        requires limit { feeds_with (session_at self.old.seats.talks seat) piece.now < limit }
        requires room { HasRoom made.old (piece_need limit) }
        ensures taken { (s : Standing) → IsRunning member.now self.old s → s.store.promise ≡ promised
            → TakesPiece member.now self.new (told_by made.old) (told_by made.new) seat piece.now s }
        ensures at { IsAt member.now self.new }
        ensures makes { Makes made.old made.new (piece_need limit) }
        ensures rest { self.new ≡ record self.old { pending = self.new.pending; seats = self.new.seats } }
    {
        self.seats.seat_hears(
            seat,
            piece,
            limit,
            member,
            promised,
            &self.table,
            &mut self.pending,
            made,
        );
    }

    /// Takes what an order means, as an act that a seat says is taken, and as the rule has it: it waits where nothing does,
    /// and goes on to the node whose ballot was promised, where that is another. The ballot is the one that the node's store
    /// has promised.
    pub(crate) fn play_for(
        &mut self,
        member: &Member,
        promised: Ballot,
        act: &Command,
        made: &mut Made,
    )
        requires at { IsAt member.now self.old }
        requires act { IsForwardable (Ok (SaidAct act.now)) }
        requires space { HasSpace made.old.frames 1 MOST_SINGLE_FRAME }
        ensures taken { (s : Standing) → IsRunning member.now self.old s → s.store.promise ≡ promised
            → IsTaken member.now self.new (told_by made.old) (told_by made.new) (sending (forwarding (place_at member.now) act.now s) (pending_act (place_at member.now) act.now s)) }
        ensures at { IsAt member.now self.new }
        ensures frames { Grows made.old.frames made.new.frames 1 MOST_SINGLE_FRAME }
        ensures rest { made.new ≡ record made.old { frames = made.new.frames } }
        ensures same { self.new ≡ record self.old { pending = self.new.pending } }
    {
        take_act(act, member, promised, &self.table, &mut self.pending, made);
    }

    /// Lets an act that another node hands on wait, where it fits and none does.
    pub(crate) fn take_over(&mut self, act: &Command)
        ensures runs { (member : Membership) (s : Standing) → IsRunning member self.old s → IsRunning member self.new (taking_over (place_at member) act.now s).after }
        ensures at { (member : Membership) → IsAt member self.old → IsAt member self.new }
        ensures rest { self.new ≡ record self.old { pending = self.new.pending } }
    {
        wait(&mut self.pending, &self.table, act);
    }
}
