//! Since when the process has been without a quorum, the match has been over, and nothing has gone on.

ghost use Rattle.std.specs.Prelude.{◌≡◌, ◌≤◌, true, false};
ghost use Rattle.node_links.specs.declared.limits.TheConstants.{LOOK};

use crate::limits::{APART, BEHIND, HANG_UP, MISSING, WAITING, WAITING_AGAIN};
use node_links::limits::LOOK;
use node_seats::limits::RESUME_TIME;

/// Since when this is so. Moments are whole microseconds since one that stays the same.
#[derive(Clone, Copy)]
pub(crate) struct Lasting {
    /// Since when the node has been without a quorum.
    lost: Option<u64>,
    /// That was so for so long that the node is apart: who sits is told to come again later.
    pub(crate) is_apart: bool,
    /// It has had one since the process began, or since it was apart.
    is_joined: bool,
    /// Since when the match has been over here.
    over: Option<u64>,
    /// When it was last told for which seat all wait, since something went on.
    waited: Option<u64>,
    /// When it was last told which seats haven't come yet; at first, when the process began.
    missed: u64,
    /// When it was last told which peers are far behind.
    behind: Option<u64>,
}

/// What a moment makes of the quorum.
#[derive(Clone, Copy)]
pub(crate) enum Turned {
    /// It is as before.
    Stays,
    /// The node has a quorum again, or the first time.
    Had,
    /// It has been without one for so long that it is apart; it had one before.
    Lost,
    /// The same since the process began.
    Unmet,
}

impl Lasting {
    /// The process begins, without a quorum.
    pub(crate) fn new(now: u64) -> Lasting {
        Lasting {
            lost: Some(now),
            is_apart: false,
            is_joined: false,
            over: None,
            waited: None,
            missed: now,
            behind: None,
        }
    }

    /// The node has a quorum at this moment, or hasn't.
    pub(crate) fn stand(&mut self, is_quorate: bool, now: u64) -> Turned
        ensures { is_quorate ≡ true → self.new.is_apart ≡ false }
    {
        if is_quorate {
            let was_joined = self.is_joined;
            self.lost = None;
            self.is_apart = false;
            self.is_joined = true;
            return if was_joined {
                Turned::Stays
            } else {
                Turned::Had
            };
        }
        let since = self.lost.unwrap_or(now);
        self.lost = Some(since);
        if self.is_apart || now.saturating_sub(since) < HANG_UP {
            return Turned::Stays;
        }
        let was_joined = self.is_joined;
        self.is_apart = true;
        self.is_joined = false;
        if was_joined {
            Turned::Lost
        } else {
            Turned::Unmet
        }
    }

    /// How long it is at most until the node may be apart, or where it is until a bot may have sat there for too long.
    pub(crate) fn wait(&self, now: u64) -> u64
        ensures { result ≤ LOOK }
    {
        match self.lost {
            Some(since) if !self.is_apart => {
                HANG_UP.saturating_sub(now.saturating_sub(since)).min(LOOK)
            }
            Some(_) => APART,
            None => LOOK,
        }
    }

    /// Whether a bot that was taken in then has sat for so long at a node that is apart that it is let go of.
    pub(crate) fn is_late(&self, came: Option<u64>, now: u64) -> bool {
        match self.lost {
            Some(lost) if self.is_apart => {
                let since = came.unwrap_or(0).max(lost.saturating_add(HANG_UP));
                now.saturating_sub(since) >= RESUME_TIME
            }
            _ => false,
        }
    }

    /// Whether it may be told now which peers are far behind.
    pub(crate) fn may_tell_behind(&self, now: u64) -> bool {
        match self.behind {
            Some(at) => now.saturating_sub(at) >= BEHIND,
            None => true,
        }
    }

    /// It is told now which peers are far behind.
    pub(crate) fn tell_behind(&mut self, now: u64) {
        self.behind = Some(now);
    }

    /// The match is over at this moment; it answers for how long it has been.
    pub(crate) fn end(&mut self, now: u64) -> u64 {
        let since = self.over.unwrap_or(now);
        self.over = Some(since);
        now.saturating_sub(since)
    }

    /// Whether it is to be told now which seats haven't come yet, where the match waits for them.
    pub(crate) fn tells_missing(&mut self, now: u64) -> bool {
        if now.saturating_sub(self.missed) < MISSING {
            return false;
        }
        self.missed = now;
        true
    }

    /// Whether it is to be told now that all wait for a seat, where something went on last at that moment.
    pub(crate) fn tells_waiting(&mut self, moved: u64, now: u64) -> bool {
        let is_due = match self.waited {
            Some(at) if at >= moved => now.saturating_sub(at) >= WAITING_AGAIN,
            _ => now.saturating_sub(moved) >= WAITING,
        };
        if is_due {
            self.waited = Some(now);
        }
        is_due
    }
}
