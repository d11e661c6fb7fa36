//! The nodes' side of a relay: each is dialled, tells lines, is answered, and is lost.

ghost use Rattle.std.specs.Prelude.{◌≡◌};
ghost use Rattle.relay_runs.specs.Kept.{Keeps, Stays};

use crate::desk::Taken;
use crate::limits::{BACKLOG, OTHER_PAUSE, PIECES};
use crate::node_state::{Parting, ShortConnection};
use crate::notice::RelayNotice;
use crate::pieces::Unread;
use crate::server::RelayServer;
use crate::stop::Stop;
use node_wires::{Wire, WireFault};
use std::alloc::AllocError;

#[tactic(auto, using(crate::proofs::Keeping::kept_on, crate::proofs::Keeping::kept_same, crate::proofs::Keeping::stays_on, crate::proofs::Keeping::stays_same, crate::proofs::Keeping::stays_kept))]
impl RelayServer {
    /// Ends the connection to a node, if there is one. It answers how it ended.
    pub(crate) fn leave<W: Wire>(&mut self, wire: &mut W, node: u8, now: u64) -> Option<Parting>
        ensures { Keeps self.old.desk self.new.desk (W.passed wire.old) (W.passed wire.new) }
    {
        let state = self.nodes.get_mut(node as usize)?;
        if !state.is_up {
            return None;
        }
        self.desk.hang_up(wire, node);
        Some(state.end(now))
    }

    /// The connection to a node ended, and not by the relay.
    fn lose_node<W: Wire>(&mut self, wire: &mut W, node: u8, now: u64)
        ensures { Keeps self.old.desk self.new.desk (W.passed wire.old) (W.passed wire.new) }
    {
        if self.has_told(node) {
            self.note(RelayNotice::Lost { node });
        }
        self.part_from(wire, node, now);
    }

    /// Ends the connection to a node, without a notice: why it ends was noted, or was before.
    fn part_from<W: Wire>(&mut self, wire: &mut W, node: u8, now: u64)
        ensures { Keeps self.old.desk self.new.desk (W.passed wire.old) (W.passed wire.new) }
    {
        let Some(parting) = self.leave(wire, node, now) else {
            return;
        };
        self.answering.lose(node, now);
        if parting == Parting::Lasted {
            self.holding.settle();
        }
    }

    /// Whether a dealer's line came over the connection of a node.
    fn has_told(&self, node: u8) -> bool {
        match self.nodes.get(node as usize) {
            Some(state) => state.is_up && state.told,
            None => false,
        }
    }

    /// A node ended a connection soon and took the next one: where all do, none is dialled for a while.
    fn hold(&mut self, node: u8, now: u64, short: ShortConnection)
        ensures { self.new.desk ≡ self.old.desk }
    {
        if self.is_settled(now) {
            self.holding.settle();
            return;
        }
        let Some(pause) = self.holding.note(node, self.count, short.ended, now) else {
            return;
        };
        let seconds = pause / 1_000_000;
        self.note(if short.told {
            RelayNotice::AnotherClient { seconds }
        } else {
            RelayNotice::TurnedAway { seconds }
        });
    }

    /// Whether some connection has lasted.
    fn is_settled(&self, now: u64) -> bool {
        for node in &self.nodes {
            if node.has_lasted(now) {
                return true;
            }
        }
        false
    }

    /// Reads what came from the nodes, while not too much waits for the bot.
    pub(crate) fn hear_nodes<W: Wire>(&mut self, wire: &mut W, now: u64) -> Result<(), Stop>
        ensures { Keeps self.old.desk self.new.desk (W.passed wire.old) (W.passed wire.new) }
    {
        for node in 0..self.count {
            self.hear_node(wire, node, now)?;
        }
        Ok(())
    }

    /// Whether there is a connection to a node.
    fn is_up(&self, node: u8) -> bool {
        match self.nodes.get(node as usize) {
            Some(state) => state.is_up,
            None => false,
        }
    }

    /// Takes what was held of a node, and reads what came from it.
    fn hear_node<W: Wire>(&mut self, wire: &mut W, node: u8, now: u64) -> Result<(), Stop>
        ensures { Keeps self.old.desk self.new.desk (W.passed wire.old) (W.passed wire.new) }
    {
        if !self.is_up(node) || !self.take_or_lose(wire, node, now)? {
            return Ok(());
        }
        for _ in 0..PIECES {
            if self.desk.backlog() >= BACKLOG {
                self.is_held = true;
                return Ok(());
            }
            if !self.read_node(wire, node, now)? {
                return Ok(());
            }
        }
        self.has_more = true;
        Ok(())
    }

    /// Reads a piece that came from a node. False where there is none, or its connection ended.
    fn read_node<W: Wire>(&mut self, wire: &mut W, node: u8, now: u64) -> Result<bool, Stop>
        ensures { Keeps self.old.desk self.new.desk (W.passed wire.old) (W.passed wire.new) }
    {
        match self.desk.read_node(wire, node) {
            Ok(()) => {
                self.note_taken(node, now);
                self.take_or_lose(wire, node, now)
            }
            Err(Unread::Later) => Ok(false),
            Err(Unread::OutOfMemory) => Err(Stop::OutOfMemory),
            Err(Unread::Ended) => {
                self.lose_node(wire, node, now);
                Ok(false)
            }
        }
    }

    /// Takes the lines that came from a node, or ends its connection. It answers whether that goes on.
    fn take_or_lose<W: Wire>(&mut self, wire: &mut W, node: u8, now: u64) -> Result<bool, Stop>
        ensures { Keeps self.old.desk self.new.desk (W.passed wire.old) (W.passed wire.new) }
    {
        let goes_on = self.take_lines(node, now)?;
        if !goes_on {
            self.part_from(wire, node, now);
        }
        Ok(goes_on)
    }

    /// Something could be written to a node, or came from it.
    fn note_taken(&mut self, node: u8, now: u64)
        ensures { self.new.desk ≡ self.old.desk }
    {
        let Some(state) = self.nodes.get_mut(node as usize) else {
            return;
        };
        if let Some(short) = state.take(now) {
            self.hold(node, now, short);
        }
    }

    /// Takes the whole lines that came from a node. False where its connection is to end.
    fn take_lines(&mut self, node: u8, now: u64) -> Result<bool, AllocError>
        ensures { Stays self.old.desk self.new.desk }
    {
        for _ in 0..u64::MAX {
            let taken = self.desk.take_line(node)?;
            if let Some(goes_on) = self.note_line(node, taken, now) {
                return Ok(goes_on);
            }
        }
        Ok(true)
    }

    /// The first line of a node's connection is ahead of the bot. It waits for a moment for the lines between, where another node may
    /// tell them; else the connection is to end, and over the next one the node is asked for the bot's last line. It answers whether
    /// the connection goes on.
    fn note_ahead(&mut self, node: u8, now: u64) -> bool
        ensures { self.new.desk ≡ self.old.desk }
    {
        let may_come = self.is_told_by_another(node);
        let Some(state) = self.nodes.get_mut(node as usize) else {
            return false;
        };
        if may_come && state.waits_ahead(now) {
            return true;
        }
        if state.leave_ahead() {
            self.note(RelayNotice::Ahead { node });
        }
        false
    }

    /// A node said that the match is over.
    fn note_over(&mut self, node: u8)
        ensures { self.new.desk ≡ self.old.desk }
    {
        self.pause(node);
        self.note(RelayNotice::Over { node });
    }

    /// A node said that it has another match.
    fn note_other(&mut self, node: u8, now: u64)
        ensures { self.new.desk ≡ self.old.desk }
    {
        self.pause(node);
        let is_first = match self.nodes.get_mut(node as usize) {
            Some(state) => state.say_other(now),
            None => false,
        };
        if is_first {
            self.note(RelayNotice::OtherMatch { node });
        }
    }

    /// A node said that it has no quorum: it is dialled again half a second later, and that counts for nothing. It says whether that
    /// is to be noted.
    fn take_no_quorum(&mut self, node: u8) -> bool
        ensures desk { self.new.desk ≡ self.old.desk }
        ensures holding { self.new.holding ≡ self.old.holding }
    {
        match self.nodes.get_mut(node as usize) {
            Some(state) => state.say_no_quorum(),
            None => false,
        }
    }

    /// A node said that it has no quorum.
    fn note_no_quorum(&mut self, node: u8)
        ensures { self.new.desk ≡ self.old.desk }
    {
        if self.take_no_quorum(node) {
            self.note(RelayNotice::NoQuorum { node });
        }
    }

    /// A node that has nothing to tell is dialled a second later.
    fn pause(&mut self, node: u8)
        ensures { self.new.desk ≡ self.old.desk }
    {
        if let Some(state) = self.nodes.get_mut(node as usize) {
            state.pause = Some(OTHER_PAUSE);
        }
    }

    /// Whether a dealer's line came over the connection of another node.
    fn is_told_by_another(&self, node: u8) -> bool {
        for other in 0..self.count {
            if other != node && self.has_told(other) {
                return true;
            }
        }
        false
    }

    /// Notes what came from a node. `None` where more may have come; else whether its connection goes on.
    fn note_line(&mut self, node: u8, taken: Taken, now: u64) -> Option<bool>
        ensures { self.new.desk ≡ self.old.desk }
    {
        match taken {
            Taken::Nothing => return Some(true),
            Taken::Comment => {}
            Taken::Over => {
                self.note_over(node);
                return Some(false);
            }
            Taken::OtherMatch => {
                self.note_other(node, now);
                return Some(false);
            }
            Taken::NoQuorum => {
                self.note_no_quorum(node);
                return Some(false);
            }
            Taken::Ahead => return Some(self.note_ahead(node, now)),
            Taken::Told => self.note_told(node),
            Taken::Given => {
                self.note_told(node);
                self.note_given(node, now);
            }
            Taken::NotLine => {
                self.note(RelayNotice::NotLine { node });
                return Some(false);
            }
            Taken::TooLong => {
                self.note(RelayNotice::TooLong { node });
                return Some(false);
            }
            Taken::Held => {
                self.is_held = true;
                return Some(true);
            }
        }
        None
    }

    /// A dealer's line came from a node.
    fn note_told(&mut self, node: u8)
        ensures { self.new.desk ≡ self.old.desk }
    {
        let Some(state) = self.nodes.get_mut(node as usize) else {
            return;
        };
        if state.tell() {
            self.note(RelayNotice::Sits { node });
        }
    }

    /// The bot is given a line of a node.
    fn note_given(&mut self, node: u8, now: u64)
        ensures { self.new.desk ≡ self.old.desk }
    {
        self.answering.begin(node);
        if let Some(state) = self.nodes.get_mut(node as usize) {
            state.given = state.given.saturating_add(1);
        }
        if let (Some(trace), Some(text)) = (&mut self.trace, self.desk.last()) {
            trace.add(now, b" TO ", text);
        }
    }

    /// Dials the nodes to which there is no connection, where it is time to.
    pub(crate) fn dial_nodes<W: Wire>(&mut self, wire: &mut W, now: u64) -> Result<(), Stop>
        ensures { Keeps self.old.desk self.new.desk (W.passed wire.old) (W.passed wire.new) }
    {
        if !self.desk.is_seated() || self.desk.is_ending() || now < self.holding.until() {
            return Ok(());
        }
        for node in 0..self.count {
            self.dial(wire, node, now)?;
        }
        Ok(())
    }

    /// Dials a node, where there is no connection to it and it is time to.
    fn dial<W: Wire>(&mut self, wire: &mut W, node: u8, now: u64) -> Result<(), Stop>
        ensures { Keeps self.old.desk self.new.desk (W.passed wire.old) (W.passed wire.new) }
    {
        let Some(state) = self.nodes.get_mut(node as usize) else {
            return Ok(());
        };
        if state.is_up || now < state.dial_at {
            return Ok(());
        }
        state.begin(now);
        match self.desk.dial(wire, node) {
            Ok(()) => {}
            Err(WireFault::Failed) => {
                state.end(now);
            }
            Err(WireFault::OutOfMemory) => return Err(Stop::OutOfMemory),
        }
        Ok(())
    }

    /// Says the bot's answer to a node that told the last line, where it is time to.
    pub(crate) fn answer(&mut self, now: u64) -> Result<(), AllocError>
        ensures { Stays self.old.desk self.new.desk }
    {
        if !self.desk.has_answer() || !self.answering.is_due(now) {
            return Ok(());
        }
        for place in 0..self.count {
            let node = self.answering.at(place, self.count);
            if self.desk.say(node)? {
                if self.answering.is_said() {
                    self.note(RelayNotice::SaidAgain { node });
                }
                self.answering.said(node, now);
                return Ok(());
            }
        }
        Ok(())
    }

    /// Writes what waits for the nodes.
    pub(crate) fn write_to_nodes<W: Wire>(&mut self, wire: &mut W, now: u64)
        ensures { Keeps self.old.desk self.new.desk (W.passed wire.old) (W.passed wire.new) }
    {
        for node in 0..self.count {
            self.write_to_node(wire, node, now);
        }
    }

    /// Writes what waits for a node.
    fn write_to_node<W: Wire>(&mut self, wire: &mut W, node: u8, now: u64)
        ensures { Keeps self.old.desk self.new.desk (W.passed wire.old) (W.passed wire.new) }
    {
        if !self.is_up(node) {
            return;
        }
        let before = self.desk.backlog_of(node);
        let goes_on = self.desk.write_to_node(wire, node);
        if self.desk.backlog_of(node) < before {
            self.note_taken(node, now);
        }
        if !goes_on {
            self.lose_node(wire, node, now);
        }
    }
}
