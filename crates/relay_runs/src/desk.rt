//! What a relay knows, and what waits to be written over each connection.

ghost use Rattle.std.specs.Prelude.{◌≡◌, true, false, ◌+◌, ◌≤◌, ◌∷◌, ◌++◌, [], length, option_map, IfOk, ◌↔◌};
ghost use Rattle.matchstate.specs.Free.{IsFreeOf};
ghost use Rattle.node_wires.specs.declared.line.Line.TheVariants.{Peer, Seat};
ghost use Rattle.node_wires.specs.Passages.{Closed};
ghost use Rattle.seat_relay.specs.Relaying.{with_event, Ends};
ghost use Rattle.relay_runs.specs.Said.{ended, token_line, AreEmpty, Reads, Writes};
ghost use Rattle.relay_runs.specs.Course.{Course};
ghost use Rattle.relay_runs.specs.Own.{was_dialled, IsNoneDialled};
ghost use Rattle.relay_runs.specs.SaidAs.{IsSaidAs};
ghost use Rattle.relay_runs.specs.Heard.{IsNoQuorumText};
ghost use Rattle.relay_runs.specs.Kept.{are_mended, FirstStands, Keeps, Stays};
ghost use Rattle.relay_runs.specs.Ending.{IsOver};

use crate::limits::{BACKLOG, LONGEST_LINE};
use crate::line_reader::{
    begins_too_long, is_comment, is_over, is_version, says_no_quorum, says_other_match, text_of,
};
use crate::opening::{Opening, asked_of, greeting_of};
use crate::pieces::{Unread, read_into, write_some};
use crate::queues::{empty_queues, none_dialled, put_line};
use crate::saying::{Saying, meant_by, said_for};
use byte_queue::ByteQueue;
use game_def::GameDef;
use matchstate::cut;
use node_wires::{Line, Wire, WireFault};
use seat_relay::{Mode, Relay, place_of};
use std::alloc::{AllocError, Global};

/// The bot's line.
pub(crate) const BOT: Line = Line::Seat(0);

/// What stands in front of what came from a node, and what was done with it.
#[derive(Clone, Copy, Debug, PartialEq, Eq)]
pub(crate) enum Taken {
    /// No whole line.
    Nothing,
    /// A comment, which was passed over.
    Comment,
    /// The match is over: nothing comes behind this.
    Over,
    /// The node has another match's line at the place of the one that it was asked for.
    OtherMatch,
    /// The node has no quorum: it is to be dialled again.
    NoQuorum,
    /// A dealer's line that the bot isn't given.
    Told,
    /// A dealer's line that the bot is given.
    Given,
    /// What is no dealer's line. It stays in front.
    NotLine,
    /// A line that is too long. It stays in front.
    TooLong,
    /// A dealer's line that can't be told while so much waits for the bot. It stays in front.
    Held,
    /// The first line of the connection, before which there may be a gap: the bot wasn't given it, nor a later one. It stays in front.
    Ahead,
}

/// The relay's machine with the connections that it speaks of: what came from the bot and from each node and isn't taken line
/// by line yet, and what waits to be written to them.
#[derive(Drop)]
pub(crate) struct Desk {
    alloc: Global,
    relay: Relay,
    from_bot: ByteQueue,
    /// The beginning of the bot's line was too long: the rest is passed over.
    passes_over: bool,
    /// Of each node, by its number.
    from_nodes: Vec<ByteQueue>,
    to_bot: ByteQueue,
    /// Of each node, by its number.
    to_nodes: Vec<ByteQueue>,
    /// How connections to nodes begin.
    opening: Opening,
    /// The game by which wrong answers are mended, if they are.
    mended: Option<GameDef>,
    /// Of each node, by its number: whether it was dialled since the bot was taken in.
    dialled: Vec<bool>,
    /// Whether a bot was taken in whose connection the relay didn't end.
    has_bot: bool,
    /// Whether the bot that was taken in last has named the version: it has its seat.
    is_seated: bool,
}

/// How the relay serves its bot: its first answer to a line stands exactly if answers are mended.
fn mode_of(newest: bool, mended: &Option<GameDef>) -> Mode
    ensures { result ≡ record { newest = newest; first_stands = are_mended mended.now } }
{
    Mode {
        newest,
        first_stands: mended.is_some(),
    }
}

/// What a comment of a node comes to that doesn't end the match.
fn taken_of(comment: &[u8]) -> Taken
    ensures { (result ≡ Taken.NoQuorum) ↔ IsNoQuorumText comment.now }
{
    if says_no_quorum(comment) {
        Taken::NoQuorum
    } else if says_other_match(comment) {
        Taken::OtherMatch
    } else {
        Taken::Comment
    }
}

/// What a beginning without a line feed is.
fn unended(came: &[u8]) -> Taken {
    if begins_too_long(came) {
        Taken::TooLong
    } else {
        Taken::Nothing
    }
}

#[tactic(auto, using(crate::proofs::Keeping::kept_same, crate::proofs::Keeping::kept_alike, crate::proofs::Keeping::stays_same, crate::proofs::Keeping::stays_alike))]
impl Desk {
    /// The desk of a relay for so many nodes, to which nobody came.
    pub(crate) fn new(
        alloc: Global,
        nodes: u8,
        token: Option<&[u8]>,
        newest: bool,
        mended: Option<GameDef>,
    ) -> Result<Desk, AllocError>
        ensures hello { IfOk result (λ desk. desk.opening.token.items ≡ token_line (option_map (λ t. t.now) token.entry)) }
        ensures newest { IfOk result (λ desk. desk.opening.newest ≡ newest) }
        ensures mended { IfOk result (λ desk. desk.mended ≡ mended) }
        ensures stands { IfOk result (λ desk. FirstStands desk) }
        ensures course { IfOk result (λ desk. Course desk []) }
    {
        let nodes = nodes as usize;
        Ok(Desk {
            alloc,
            relay: Relay::new(alloc, nodes, mode_of(newest, &mended))?,
            from_bot: ByteQueue::new(alloc),
            passes_over: false,
            from_nodes: empty_queues(alloc, nodes)?,
            to_bot: ByteQueue::new(alloc),
            to_nodes: empty_queues(alloc, nodes)?,
            opening: Opening::new(alloc, token, newest)?,
            mended,
            dialled: none_dialled(alloc, nodes)?,
            has_bot: false,
            is_seated: false,
        })
    }

    /// Takes in a bot, if one came, where none is there: nothing was given to it yet, and nothing is left of what came before
    /// it. The lines of each bot behind the first begin with the newest.
    pub(crate) fn take_in<W: Wire>(&mut self, wire: &mut W) -> Result<bool, AllocError>
        requires { self.old.has_bot ≡ false }
        ensures { Keeps self.old self.new (W.passed wire.old) (W.passed wire.new) }
    {
        let nodes = self.to_nodes.len();
        let mode = mode_of(self.opening.newest, &self.mended);
        let relay = Relay::new(self.alloc, nodes, mode)?;
        let from_nodes = empty_queues(self.alloc, nodes)?;
        let to_nodes = empty_queues(self.alloc, nodes)?;
        let dialled = none_dialled(self.alloc, nodes)?;
        if !wire.accept_seat(0) {
            return Ok(false);
        }
        self.relay = relay;
        self.from_bot.clear();
        self.passes_over = false;
        self.from_nodes = from_nodes;
        self.to_bot.clear();
        self.to_nodes = to_nodes;
        self.dialled = dialled;
        self.opening.newest = true;
        self.has_bot = true;
        self.is_seated = false;
        Ok(true)
    }

    /// Dials a node, where the bot has its seat, and says the first lines over the connection that begins: there the node is asked
    /// for the line that the bot was given last, or for the first or the newest one.
    pub(crate) fn dial<W: Wire>(&mut self, wire: &mut W, node: u8) -> Result<(), WireFault>
        ensures { Keeps self.old self.new (W.passed wire.old) (W.passed wire.new) }
    {
        if !self.is_seated || node as usize >= self.dialled.len() {
            return Err(WireFault::Failed);
        }
        let Some(waiting) = self.to_nodes.get_mut(node as usize) else {
            return Err(WireFault::Failed);
        };
        let Some(came) = self.from_nodes.get_mut(node as usize) else {
            return Err(WireFault::Failed);
        };
        let asked = asked_of(self.relay.last(), self.relay.is_newest());
        let Ok(greeting) = greeting_of(self.alloc, &self.opening.token, asked) else {
            return Err(WireFault::OutOfMemory);
        };
        if waiting.reserve(greeting.len()).is_err() {
            return Err(WireFault::OutOfMemory);
        }
        wire.dial(node)?;
        self.dialled[node as usize] = true;
        came.clear();
        waiting.clear();
        waiting.push_reserved(&greeting);
        self.relay.follows_events();
        self.relay.begins(node as usize);
        Ok(())
    }

    /// Ends the connection to a node, which the machine is told of this node and of no other.
    pub(crate) fn hang_up<W: Wire>(&mut self, wire: &mut W, node: u8)
        ensures keeps { Keeps self.old self.new (W.passed wire.old) (W.passed wire.new) }
        ensures told { self.new.relay ≡ with_event self.old.relay (Ends node) }
        ensures closed { W.passed wire.new ≡ W.passed wire.old ++ Closed (Peer node) ∷ [] }
    {
        wire.close(Line::Peer(node));
        self.relay.follows_events();
        self.relay.ends(node as usize);
    }

    /// Ends the bot's connection.
    pub(crate) fn let_go<W: Wire>(&mut self, wire: &mut W)
        ensures keeps { Keeps self.old self.new (W.passed wire.old) (W.passed wire.new) }
        ensures over { IsOver self.old → IsOver self.new }
        ensures closed { W.passed wire.new ≡ W.passed wire.old ++ Closed (Seat 0) ∷ [] }
    {
        wire.close(BOT);
        self.has_bot = false;
    }

    /// Whether a bot was taken in whose connection the relay didn't end.
    pub(crate) fn has_bot(&self) -> bool
        ensures { result ≡ self.now.has_bot }
    {
        self.has_bot
    }

    /// Whether a bot is there that has its seat.
    pub(crate) fn is_seated(&self) -> bool {
        self.has_bot && self.is_seated
    }

    /// Takes the next line that came from a node. A dealer's line is told to the machine, which says whether the bot is given
    /// it; none is told while 64 KiB wait for the bot.
    pub(crate) fn take_line(&mut self, node: u8) -> Result<Taken, AllocError>
        ensures { Stays self.old self.new }
    {
        let Some(came) = self.from_nodes.get_mut(node as usize) else {
            return Ok(Taken::Nothing);
        };
        let Some((raw, _)) = cut(came.waiting(), b'\n') else {
            return Ok(unended(came.waiting()));
        };
        let text = text_of(raw);
        if text.len() > LONGEST_LINE {
            return Ok(Taken::TooLong);
        }
        let count = raw.len() + 1;
        let Some(place) = place_of(text) else {
            if !is_comment(text) {
                return Ok(Taken::NotLine);
            }
            if is_over(text) {
                came.skip(count);
                self.relay.follows_events();
                self.relay.closes(node as usize);
                return Ok(Taken::Over);
            }
            let taken = taken_of(text);
            came.skip(count);
            return Ok(taken);
        };
        if self.to_bot.waiting().len() >= BACKLOG {
            return Ok(Taken::Held);
        }
        if !self.relay.is_taken(node as usize, &place) {
            return Ok(Taken::Ahead);
        }
        self.to_bot.reserve(text.len().saturating_add(2))?;
        self.relay.follows_events();
        let given = self.relay.tells(node as usize, text, place)?;
        if given {
            put_line(&mut self.to_bot, text);
            came.skip(count);
            return Ok(Taken::Given);
        }
        came.skip(count);
        Ok(Taken::Told)
    }

    /// Takes the next line that came from the bot. What is no comment, and not too long, is first the version that it names,
    /// by which it gets its seat; and then it is said to the machine: its text, or what that is mended to.
    pub(crate) fn take_saying(&mut self) -> Result<Saying, AllocError>
        ensures stays { Stays self.old self.new }
        ensures said { IfOk result (λ saying. IsSaidAs self.old self.new saying) }
    {
        let Some((raw, _)) = cut(self.from_bot.waiting(), b'\n') else {
            return Ok(self.pass_unended());
        };
        let count = raw.len() + 1;
        let text = text_of(raw);
        if self.passes_over {
            self.from_bot.skip(count);
            self.passes_over = false;
            return Ok(Saying::Rest);
        }
        if text.len() > LONGEST_LINE {
            self.from_bot.skip(count);
            return Ok(Saying::TooLong);
        }
        let copy = Vec::from_slice(self.alloc, text)?;
        if is_comment(text) {
            self.from_bot.skip(count);
            return Ok(Saying::Comment(copy));
        }
        if !self.is_seated {
            if !is_version(text) {
                return Ok(Saying::WrongVersion(copy));
            }
            self.from_bot.skip(count);
            self.is_seated = true;
            return Ok(Saying::Version(copy));
        }
        let instead = meant_by(self.alloc, self.relay.last(), text, &self.mended)?;
        self.relay.follows_events();
        let kept = self.relay.says(said_for(text, &instead))?;
        self.from_bot.skip(count);
        Ok(Saying::Said {
            text: copy,
            instead,
            kept,
        })
    }

    /// Passes over the beginning of a line of the bot that is too long already; it is told of once.
    fn pass_unended(&mut self) -> Saying
        requires { IsFreeOf 10 self.old.from_bot.waiting }
        ensures stays { Stays self.old self.new }
        ensures said { IsSaidAs self.old self.new result }
    {
        if !begins_too_long(self.from_bot.waiting()) {
            return Saying::Nothing;
        }
        let is_first = !self.passes_over;
        self.from_bot.clear();
        self.passes_over = true;
        if is_first {
            Saying::TooLong
        } else {
            Saying::Nothing
        }
    }

    /// Says the bot's answer to a node, where it may be said to it. It answers whether it was.
    #[tactic(auto, using(crate::proofs::Keeping::stays_same, crate::proofs::Keeping::stays_alike))]
    pub(crate) fn say(&mut self, node: u8) -> Result<bool, AllocError>
        ensures { Stays self.old self.new }
    {
        let Some(waiting) = self.to_nodes.get_mut(node as usize) else {
            return Ok(false);
        };
        let Some(answer) = self.relay.answer() else {
            return Ok(false);
        };
        let answer = Vec::from_slice(self.alloc, answer)?;
        if !waiting.waiting().is_empty() {
            return Ok(false);
        }
        waiting.reserve(answer.len().saturating_add(2))?;
        self.relay.follows_events();
        let may = self.relay.pushes(node as usize);
        if may {
            put_line(waiting, &answer);
            return Ok(true);
        }
        Ok(false)
    }

    /// Whether a node was dialled since the bot was taken in.
    fn was_dialled(&self, node: u8) -> bool
        ensures { result ≡ was_dialled self.now.dialled.items node }
    {
        match self.dialled.get(node as usize) {
            Some(is) => *is,
            None => false,
        }
    }

    /// Reads what came from a node that was dialled since the bot was taken in.
    pub(crate) fn read_node<W: Wire>(&mut self, wire: &mut W, node: u8) -> Result<(), Unread>
        ensures { Keeps self.old self.new (W.passed wire.old) (W.passed wire.new) }
    {
        if !self.was_dialled(node) {
            return Err(Unread::Later);
        }
        match self.from_nodes.get_mut(node as usize) {
            Some(came) => read_into(came, wire, Line::Peer(node)),
            None => Err(Unread::Later),
        }
    }

    /// Reads what came from the bot.
    pub(crate) fn read_bot<W: Wire>(&mut self, wire: &mut W) -> Result<(), Unread>
        ensures { Keeps self.old self.new (W.passed wire.old) (W.passed wire.new) }
    {
        read_into(&mut self.from_bot, wire, BOT)
    }

    /// Writes what waits for the bot. False where its connection ended.
    #[tactic(auto, using(crate::proofs::Keeping::kept_on, crate::proofs::Keeping::kept_same))]
    pub(crate) fn write_to_bot<W: Wire>(&mut self, wire: &mut W) -> bool
        ensures { Keeps self.old self.new (W.passed wire.old) (W.passed wire.new) }
    {
        for _ in 0..u64::MAX {
            if let Some(goes_on) = self.write_some_to_bot(wire) {
                return goes_on;
            }
        }
        true
    }

    /// Writes what there is room for of what waits for the bot. `None` where more may be written; else whether the connection
    /// goes on.
    fn write_some_to_bot<W: Wire>(&mut self, wire: &mut W) -> Option<bool>
        ensures { Keeps self.old self.new (W.passed wire.old) (W.passed wire.new) }
    {
        write_some(&mut self.to_bot, wire, BOT)
    }

    /// Writes what waits for a node. False where its connection ended.
    #[tactic(auto, using(crate::proofs::Keeping::kept_on, crate::proofs::Keeping::kept_same))]
    pub(crate) fn write_to_node<W: Wire>(&mut self, wire: &mut W, node: u8) -> bool
        ensures { Keeps self.old self.new (W.passed wire.old) (W.passed wire.new) }
    {
        for _ in 0..u64::MAX {
            if let Some(goes_on) = self.write_some_to_node(wire, node) {
                return goes_on;
            }
        }
        true
    }

    /// Writes what there is room for of what waits for a node that was dialled since the bot was taken in. `None` where
    /// more may be written; else whether the connection goes on.
    fn write_some_to_node<W: Wire>(&mut self, wire: &mut W, node: u8) -> Option<bool>
        ensures { Keeps self.old self.new (W.passed wire.old) (W.passed wire.new) }
    {
        if !self.was_dialled(node) {
            return Some(true);
        }
        match self.to_nodes.get_mut(node as usize) {
            Some(waiting) => write_some(waiting, wire, Line::Peer(node)),
            None => Some(true),
        }
    }

    /// Whether a node has said that the match is over, and all lines were written that the bot was given, up to the last one of that
    /// node.
    pub(crate) fn is_over(&self) -> bool
        ensures { result ≡ true → IsOver self.now }
    {
        self.relay.follows_events();
        self.relay.is_over() && self.to_bot.waiting().is_empty()
    }

    /// Whether a node has said that the match is over, that had told the line that the bot was given last.
    pub(crate) fn is_ending(&self) -> bool {
        self.relay.is_over()
    }

    /// How many bytes wait for the bot.
    pub(crate) fn backlog(&self) -> usize {
        self.to_bot.waiting().len()
    }

    /// How many bytes wait for a node.
    pub(crate) fn backlog_of(&self, node: u8) -> usize {
        match self.to_nodes.get(node as usize) {
            Some(waiting) => waiting.waiting().len(),
            None => 0,
        }
    }

    /// The line that the bot was given last.
    pub(crate) fn last(&self) -> Option<&[u8]> {
        self.relay.last()
    }

    /// Whether there is an answer to it.
    pub(crate) fn has_answer(&self) -> bool {
        self.relay.answer().is_some()
    }
}
