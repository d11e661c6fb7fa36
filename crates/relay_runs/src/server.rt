//! The relay, turn by turn. The bot's side of it is in `bot_side`, the nodes' side in `nodes_side`.

ghost use Rattle.std.specs.Prelude.{◌≡◌, [], Some, option_map, IfOk};
ghost use Rattle.relay_runs.specs.Said.{token_line};
ghost use Rattle.relay_runs.specs.Course.{Course};
ghost use Rattle.relay_runs.specs.Kept.{Keeps, FirstStands};
ghost use Rattle.relay_runs.specs.Ending.{IsOver};

use crate::answering::Answering;
use crate::bot::Bot;
use crate::desk::Desk;
use crate::holding::Holding;
use crate::limits::{MOST_WAIT, NOTICES, OTHER_TIME};
use crate::node_state::NodeState;
use crate::notice::RelayNotice;
use crate::relay_end::RelayEnd;
use crate::stop::Stop;
use crate::terms::Terms;
use crate::trace::Trace;
use node_wires::Wire;
use std::alloc::{AllocError, Global};

/// A relay of one bot at a time.
#[derive(Drop)]
pub struct RelayServer {
    alloc: Global,
    pub(crate) desk: Desk,
    pub(crate) bot: Bot,
    /// How many nodes there are.
    pub(crate) count: u8,
    /// Of each node, by its number.
    pub(crate) nodes: Vec<NodeState>,
    pub(crate) answering: Answering,
    pub(crate) holding: Holding,
    /// Whether a further bot is awaited where one has left.
    pub(crate) stays: bool,
    /// For how many microseconds no node need be reached.
    give_up: u64,
    notices: Vec<RelayNotice>,
    /// How many notices were left out since they were taken.
    left_out: u64,
    pub(crate) trace: Option<Trace>,
    /// Whether more can be read without waiting.
    pub(crate) has_more: bool,
    /// Whether nodes weren't read since too much waits for the bot.
    pub(crate) is_held: bool,
}

/// How it stands with so many nodes, none of which is dialled yet.
fn no_connections(alloc: Global, count: u8) -> Result<Vec<NodeState>, AllocError> {
    let mut nodes = Vec::with_capacity(alloc, count as usize)?;
    for _ in 0..count {
        nodes.push(NodeState::new())?;
    }
    Ok(nodes)
}

/// The trace, where one is asked for.
fn trace_of(alloc: Global, terms: &Terms) -> Option<Trace> {
    if terms.traces {
        Some(Trace::new(alloc, terms.epoch))
    } else {
        None
    }
}

#[tactic(auto, using(crate::proofs::Keeping::kept_on, crate::proofs::Keeping::kept_same, crate::proofs::Keeping::stays_on, crate::proofs::Keeping::stays_same, crate::proofs::Keeping::stays_kept))]
impl RelayServer {
    /// A relay to which no bot came yet.
    pub fn new(alloc: Global, terms: Terms) -> Result<RelayServer, AllocError>
        ensures hello { IfOk result (λ server. server.desk.opening.token.items ≡ token_line (option_map (λ token. token.items) terms.token)) }
        ensures newest { IfOk result (λ server. server.desk.opening.newest ≡ terms.newest) }
        ensures mended { IfOk result (λ server. server.desk.mended ≡ terms.mended) }
        ensures stands { IfOk result (λ server. FirstStands server.desk) }
        ensures course { IfOk result (λ server. Course server.desk []) }
    {
        let nodes = no_connections(alloc, terms.nodes)?;
        let trace = trace_of(alloc, &terms);
        let Terms {
            nodes: count,
            token,
            mended,
            newest,
            stays,
            give_up,
            traces: _,
            epoch: _,
        } = terms;
        let desk = Desk::new(alloc, count, token.as_deref(), newest, mended)?;
        Ok(RelayServer {
            alloc,
            desk,
            bot: Bot::new(),
            count,
            nodes,
            answering: Answering::new(),
            holding: Holding::new(),
            stays,
            give_up,
            notices: Vec::new(alloc),
            left_out: 0,
            trace,
            has_more: false,
            is_held: false,
        })
    }

    /// Waits until something may have come or is to be done, and does all that there is to do. It answers why the relay ends,
    /// if it does.
    pub fn turn<W: Wire>(&mut self, wire: &mut W) -> Option<RelayEnd>
        ensures keeps { Keeps self.old.desk self.new.desk (W.passed wire.old) (W.passed wire.new) }
        ensures over { result ≡ Some RelayEnd.Over → IsOver self.new.desk }
    {
        let now = self.await_next(wire);
        self.act(wire, now)
    }

    /// Waits until something may have come or is to be done, and answers which moment it is then.
    fn await_next<W: Wire>(&self, wire: &mut W) -> u64
        ensures { Keeps self.now.desk self.now.desk (W.passed wire.old) (W.passed wire.new) }
    {
        let now = wire.now();
        wire.wait(self.wait_time(now));
        wire.now()
    }

    /// Does all that there is to do.
    fn act<W: Wire>(&mut self, wire: &mut W, now: u64) -> Option<RelayEnd>
        ensures keeps { Keeps self.old.desk self.new.desk (W.passed wire.old) (W.passed wire.new) }
        ensures over { result ≡ Some RelayEnd.Over → IsOver self.new.desk }
    {
        match self.work(wire, now) {
            Ok(()) => self.look_at_end(wire, now),
            Err(stop) => Some(stop.end()),
        }
    }

    /// Reads and writes.
    fn work<W: Wire>(&mut self, wire: &mut W, now: u64) -> Result<(), Stop>
        ensures { Keeps self.old.desk self.new.desk (W.passed wire.old) (W.passed wire.new) }
    {
        self.has_more = false;
        self.is_held = false;
        self.hear(wire, now)?;
        self.speak(wire, now)
    }

    /// Takes in a bot, and reads what came.
    fn hear<W: Wire>(&mut self, wire: &mut W, now: u64) -> Result<(), Stop>
        ensures { Keeps self.old.desk self.new.desk (W.passed wire.old) (W.passed wire.new) }
    {
        self.take_in(wire)?;
        self.hear_bot(wire, now)?;
        self.hear_nodes(wire, now)
    }

    /// Dials nodes, says the bot's answer, and writes what waits.
    fn speak<W: Wire>(&mut self, wire: &mut W, now: u64) -> Result<(), Stop>
        ensures { Keeps self.old.desk self.new.desk (W.passed wire.old) (W.passed wire.new) }
    {
        self.dial_nodes(wire, now)?;
        self.answer(now)?;
        self.write_to_nodes(wire, now);
        self.write_to_bot(wire, now)
    }

    /// For how many microseconds nothing is to be done unless something comes.
    fn wait_time(&self, now: u64) -> u64 {
        if self.has_more {
            return 0;
        }
        let mut due = now.saturating_add(MOST_WAIT);
        if self.desk.has_answer() && self.answering.due() > now {
            due = due.min(self.answering.due());
        }
        due = due.min(self.dial_time(due));
        due = due.min(self.ahead_time(due, now));
        due.saturating_sub(now)
    }

    /// When a node is to be dialled next; not after this moment.
    fn dial_time(&self, most: u64) -> u64 {
        let mut due = most;
        if !self.desk.is_seated() || self.desk.is_ending() {
            return due;
        }
        for node in &self.nodes {
            if !node.is_up {
                due = due.min(node.dial_at.max(self.holding.until()));
            }
        }
        due
    }

    /// When a line is to be taken that waits since it is ahead of the bot; not after this moment.
    fn ahead_time(&self, most: u64, now: u64) -> u64 {
        let mut due = most;
        for node in &self.nodes {
            if let Some(until) = node.ahead_until {
                if node.is_up && !node.told && until > 0 {
                    due = due.min(until.max(now));
                }
            }
        }
        due
    }

    // ---- the end

    /// Whether each node that is reached has said for ten seconds that it has another match, and some is.
    fn have_other(&self, now: u64) -> bool {
        let mut is_some = false;
        for node in &self.nodes {
            let has_other = node.has_other(now);
            if !has_other && !node.is_unreached(now, OTHER_TIME) {
                return false;
            }
            is_some = is_some || has_other;
        }
        is_some
    }

    /// Whether no node was reached for so long.
    fn are_unreached(&self, now: u64, time: u64) -> bool {
        for node in &self.nodes {
            if !node.is_unreached(now, time) {
                return false;
            }
        }
        true
    }

    /// Why the relay doesn't wait for nodes any more, if it doesn't.
    fn lost(&self, now: u64) -> Option<RelayEnd>
        ensures { result ≡ Some RelayEnd.Over → ⊥ }
    {
        if self.have_other(now) {
            return Some(RelayEnd::OtherMatch);
        }
        if self.are_unreached(now, self.give_up) {
            return Some(RelayEnd::NotReached);
        }
        None
    }

    /// Looks whether the match is over, or another one, or no node can be reached.
    fn look_at_end<W: Wire>(&mut self, wire: &mut W, now: u64) -> Option<RelayEnd>
        ensures keeps { Keeps self.old.desk self.new.desk (W.passed wire.old) (W.passed wire.new) }
        ensures over { result ≡ Some RelayEnd.Over → IsOver self.new.desk }
    {
        if !self.desk.is_seated() {
            return None;
        }
        if self.desk.is_over() {
            self.desk.let_go(wire);
            return Some(RelayEnd::Over);
        }
        // A bot that reads late gets all lines first.
        if self.desk.is_ending() {
            return None;
        }
        let end = self.lost(now)?;
        self.desk.let_go(wire);
        Some(end)
    }

    // ---- what is told of it

    /// Keeps a notice until it is taken.
    pub(crate) fn note(&mut self, notice: RelayNotice)
        ensures { self.new.desk ≡ self.old.desk }
    {
        if self.notices.len() >= NOTICES || self.notices.push(notice).is_err() {
            self.left_out = self.left_out.saturating_add(1);
        }
    }

    /// What notes are to be made of, since they were taken before.
    pub fn take_notices(&mut self) -> Vec<RelayNotice>
        ensures { self.new.desk ≡ self.old.desk }
    {
        if self.left_out > 0 {
            let count = self.left_out;
            if self.notices.push(RelayNotice::LeftOut { count }).is_ok() {
                self.left_out = 0;
            }
        }
        std::mem::replace(&mut self.notices, Vec::new(self.alloc))
    }

    /// How many lines of a node the bot was given, so far.
    pub fn given_by(&self, node: u8) -> u64 {
        match self.nodes.get(node as usize) {
            Some(state) => state.given,
            None => 0,
        }
    }

    /// Traces a line, where a trace is asked for.
    pub(crate) fn add_to_trace(&mut self, now: u64, way: &[u8], text: &[u8])
        ensures { self.new.desk ≡ self.old.desk }
    {
        if let Some(trace) = &mut self.trace {
            trace.add(now, way, text);
        }
    }

    /// What of the trace waits to be written: lines `SECONDS.MICROS TO LINE` and `SECONDS.MICROS FROM LINE`.
    pub fn trace(&self) -> &[u8] {
        match &self.trace {
            Some(trace) => trace.waiting(),
            None => &[],
        }
    }

    /// So many bytes of it were written.
    pub fn skip_trace(&mut self, count: usize)
        ensures { self.new.desk ≡ self.old.desk }
    {
        if let Some(trace) = &mut self.trace {
            trace.skip(count);
        }
    }

    /// What of the trace waits to be written can't be: it is left out.
    pub fn drop_trace(&mut self)
        ensures { self.new.desk ≡ self.old.desk }
    {
        if let Some(trace) = &mut self.trace {
            trace.drop_waiting();
        }
    }

    /// How many lines were left out of the trace: they couldn't be written, too much waited, or memory was refused.
    pub fn untraced(&self) -> u64 {
        match &self.trace {
            Some(trace) => trace.left_out(),
            None => 0,
        }
    }
}
