//! How it stands with a node.

ghost use Rattle.std.specs.Prelude.{◌≡◌, ℕ, Some, None, IfSome};

use crate::limits::{AHEAD_TIME, DIAL_PAUSE, NO_QUORUM_PAUSE, OTHER_TIME, SHORT_PAUSE, SHORT_TIME};

/// A connection that a node ended soon after it was taken, and said nothing of why.
#[derive(Clone, Copy)]
pub(crate) struct ShortConnection {
    /// Whether a dealer's line had come over it.
    pub(crate) told: bool,
    /// When it ended.
    pub(crate) ended: u64,
}

/// How it stands with a node.
#[derive(Drop)]
pub(crate) struct NodeState {
    /// Whether there is a connection.
    pub(crate) is_up: bool,
    /// When the connection was taken: the first bytes could be written. None before.
    pub(crate) taken_at: Option<u64>,
    /// Whether a dealer's line came over the connection.
    pub(crate) told: bool,
    /// Until when the connection's first line waits, since it is ahead of what the bot was given: 0 once it has waited; none where
    /// none did.
    pub(crate) ahead_until: Option<u64>,
    /// The last connection, where it was a short one; none once the next one was taken, or refused.
    pub(crate) was_short: Option<ShortConnection>,
    /// Whether the connection that was taken last came behind a short one.
    pub(crate) follows_short: bool,
    /// When it is to be dialled.
    pub(crate) dial_at: u64,
    /// How long after its end the relay dials anew where the relay itself ends the connection; none where the node does.
    pub(crate) pause: Option<u64>,
    /// Since when it is dialled without success; none where the last connection was taken.
    unreached_since: Option<u64>,
    /// Since when it says that it has another match, and tells no line; none where it wasn't reached since.
    other_since: Option<u64>,
    /// Whether it was noted that it began ahead of the bot, and it told no line since.
    noted_ahead: bool,
    /// Whether it was noted that it has no quorum, and it told no line since.
    noted_no_quorum: bool,
    /// How many lines came from it that the bot was given, so far.
    pub(crate) given: u64,
}

/// How a connection to a node ended.
#[derive(Clone, Copy, Debug, PartialEq, Eq)]
pub(crate) enum Parting {
    /// It was never taken.
    Refused,
    /// It ended soon after it was taken, and no line had come.
    TurnedAway,
    /// It ended soon after it was taken.
    Short,
    /// It lasted.
    Lasted,
}

impl NodeState {
    ghost use Rattle.relay_runs.specs.Holds.{IsLeft};

    /// No connection yet, and none is dialled before there is a bot.
    pub(crate) fn new() -> NodeState {
        NodeState {
            is_up: false,
            taken_at: None,
            told: false,
            ahead_until: None,
            was_short: None,
            follows_short: false,
            dial_at: 0,
            pause: None,
            unreached_since: None,
            other_since: None,
            noted_ahead: false,
            noted_no_quorum: false,
            given: 0,
        }
    }

    /// A bot is there: it is dialled at once.
    pub(crate) fn await_dial(&mut self, now: u64) {
        self.dial_at = now;
        self.was_short = None;
        self.unreached_since = None;
        self.other_since = None;
    }

    /// It was dialled.
    pub(crate) fn begin(&mut self, now: u64) {
        if self.unreached_since.is_none() {
            self.unreached_since = Some(now);
        }
        self.is_up = true;
        self.pause = None;
        self.taken_at = None;
        self.told = false;
        self.ahead_until = None;
    }

    /// Something could be written to it, or came. Where so its connection was taken, and the one before was a short one, it
    /// answers with that one: the node is there, and ended it.
    pub(crate) fn take(&mut self, now: u64) -> Option<ShortConnection>
        ensures { IfSome result (λ short. self.old.was_short ≡ Some short) }
    {
        if self.taken_at.is_some() {
            return None;
        }
        self.taken_at = Some(now);
        self.unreached_since = None;
        let was_short = self.was_short;
        self.was_short = None;
        self.follows_short = was_short.is_some();
        was_short
    }

    /// The connection's first line is ahead of what the bot was given: whether it waits still.
    pub(crate) fn waits_ahead(&mut self, now: u64) -> bool {
        let until = match self.ahead_until {
            Some(until) => until,
            None => now.saturating_add(AHEAD_TIME),
        };
        let waits = now < until;
        self.ahead_until = Some(if waits { until } else { 0 });
        waits
    }

    /// Its connection ended, or couldn't be dialled.
    pub(crate) fn end(&mut self, now: u64) -> Parting
        ensures { (pause : ℕ) → self.old.pause ≡ Some pause → IsLeft self.new pause now }
    {
        let parting = self.parting(now);
        let (was_short, pause) = match (self.pause, parting) {
            (Some(pause), _) => (None, pause),
            (None, Parting::Short | Parting::TurnedAway) => (
                Some(ShortConnection {
                    told: self.told,
                    ended: now,
                }),
                self.short_pause(),
            ),
            (None, Parting::Refused | Parting::Lasted) => (None, DIAL_PAUSE),
        };
        if parting == Parting::Refused {
            self.other_since = None;
        }
        self.is_up = false;
        self.taken_at = None;
        self.was_short = was_short;
        self.dial_at = now.saturating_add(pause);
        parting
    }

    /// How long after a short connection it is dialled: the first time soon, to see whether it is lost.
    fn short_pause(&self) -> u64 {
        if self.follows_short {
            DIAL_PAUSE
        } else {
            SHORT_PAUSE
        }
    }

    /// How a connection that ends now ended.
    fn parting(&self, now: u64) -> Parting {
        match self.taken_at {
            None => Parting::Refused,
            Some(then) if now.saturating_sub(then) >= SHORT_TIME => Parting::Lasted,
            Some(_) if self.told => Parting::Short,
            Some(_) => Parting::TurnedAway,
        }
    }

    /// Whether its connection has lasted.
    pub(crate) fn has_lasted(&self, now: u64) -> bool {
        match self.taken_at {
            Some(then) => self.told && now.saturating_sub(then) >= SHORT_TIME,
            None => false,
        }
    }

    /// It told a dealer's line: whether that is the first one over the connection.
    pub(crate) fn tell(&mut self) -> bool {
        let is_first = !self.told;
        self.told = true;
        self.other_since = None;
        self.noted_ahead = false;
        self.noted_no_quorum = false;
        is_first
    }

    /// It says that it has no quorum, so nothing of which match it has: its connection counts for nothing, and it is dialled half a
    /// second behind its end. Whether that is to be noted.
    pub(crate) fn say_no_quorum(&mut self) -> bool
        ensures pause { self.new.pause ≡ Some NO_QUORUM_PAUSE }
        ensures other { self.new.other_since ≡ None }
    {
        self.pause = Some(NO_QUORUM_PAUSE);
        self.other_since = None;
        let is_first = !self.noted_no_quorum;
        self.noted_no_quorum = true;
        is_first
    }

    /// Its connection is ended since its first line is ahead of what the bot was given: whether that is to be noted.
    pub(crate) fn leave_ahead(&mut self) -> bool {
        self.pause = Some(DIAL_PAUSE);
        let is_first = !self.noted_ahead;
        self.noted_ahead = true;
        is_first
    }

    /// It says that it has another match: whether it didn't say so before.
    pub(crate) fn say_other(&mut self, now: u64) -> bool {
        let is_first = self.other_since.is_none();
        if is_first {
            self.other_since = Some(now);
        }
        is_first
    }

    /// Whether it is reached, and has said nothing else for ten seconds. While a connection lasts over which it said nothing yet,
    /// it may still tell a line.
    pub(crate) fn has_other(&self, now: u64) -> bool {
        let may_tell = match self.taken_at {
            Some(then) => now.saturating_sub(then) >= SHORT_TIME,
            None => self.unreached_since.is_some(),
        };
        match self.other_since {
            Some(then) => now.saturating_sub(then) >= OTHER_TIME && !may_tell,
            None => false,
        }
    }

    /// Whether it wasn't reached for so long.
    pub(crate) fn is_unreached(&self, now: u64, time: u64) -> bool {
        match self.unreached_since {
            Some(then) => now.saturating_sub(then) >= time,
            None => false,
        }
    }
}
