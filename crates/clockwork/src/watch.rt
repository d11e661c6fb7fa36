ghost use Rattle.std.specs.Prelude.{◌≡◌, true};
ghost use Rattle.clockwork.specs.Watches.{watch_of, is_same, quiet, since, put_off, seen_at, stood, ticked_at, known_of, passed_in};

use crate::known::{Known, Peer, Ticks};
use crate::lateness::Lateness;
use crate::limits::LEAP;
use crate::longest::Longest;

/// What is seen of a node between two calls.
#[derive(Clone, Copy, Debug, PartialEq, Eq)]
pub struct Seen {
    /// How many commands it has applied.
    pub front: u32,
    /// The node of the ballot that it has promised.
    pub promised: Option<u8>,
    /// Whether it prepares or leads in that ballot.
    pub campaigns: bool,
    /// Whether the match is over there.
    pub over: bool,
    /// Whether a hand runs there.
    pub hand_runs: bool,
    /// Whether an act waits there to be proposed.
    pub act_waits: bool,
    /// Whether its store has a vote at its front.
    pub vote_waits: bool,
}

/// What is seen of the node of a process, and since when.
#[derive(Clone, Copy, Debug)]
pub struct Watch {
    pub seen: Seen,
    /// When the front last moved.
    pub moved: u64,
    /// When the promise last changed.
    pub promised_since: u64,
    /// Some node has campaigned since the process began, as far as is known.
    pub was_led: bool,
    /// Since when there has been work while the node wasn't behind.
    pub work_since: Option<u64>,
    /// Since when the node has been behind, without what it slept through meanwhile.
    pub behind_since: Option<u64>,
    /// The process's own ticks.
    pub ticks: Option<Ticks>,
    /// How long calls of the node took, and what counts of how late turns came.
    pub calls: Longest,
    /// How late turns came.
    pub lateness: Lateness,
}

fn is_same(one: Option<u8>, other: Option<u8>) -> bool
    ensures { result ≡ is_same one other }
{
    match (one, other) {
        (Some(one), Some(other)) => one == other,
        (None, None) => true,
        (Some(_), None) => false,
        (None, Some(_)) => false,
    }
}

/// Ticks of which none was in vain: the front has moved since.
fn quiet(ticks: Option<Ticks>) -> Option<Ticks>
    ensures { result ≡ quiet ticks }
{
    match ticks {
        Some(ticks) => Some(Ticks {
            last: ticks.last,
            in_vain: 0,
        }),
        None => None,
    }
}

/// Since when something is so that is so now or isn't.
pub(crate) fn since(earlier: Option<u64>, is_so: bool, now: u64) -> Option<u64>
    ensures { result ≡ since earlier is_so now }
{
    if !is_so {
        return None;
    }
    match earlier {
        Some(moment) => Some(moment),
        None => Some(now),
    }
}

/// Since when a node that is behind waits once so many microseconds were lost, beyond calls, waits and callers, where its front last
/// moved at that moment. In a sleep (`LEAP`) it gets nothing of what it lacks, so its wait goes on where it was, from the later of both.
fn put_off(behind: Option<u64>, moved: u64, lost: u64, now: u64) -> Option<u64>
    ensures { result ≡ put_off behind moved lost now }
{
    match behind {
        Some(moment) => {
            if lost > LEAP {
                Some(moment.max(moved).saturating_add(lost).min(now))
            } else {
                Some(moment)
            }
        }
        None => None,
    }
}

impl Watch {
    /// The process begins: this is seen of its node.
    pub fn new(seen: Seen, now: u64) -> Watch
        ensures { result ≡ watch_of seen now }
    {
        Watch {
            seen,
            moved: now,
            promised_since: now,
            was_led: seen.campaigns,
            work_since: None,
            behind_since: None,
            ticks: None,
            calls: Longest::new(),
            lateness: Lateness::new(),
        }
    }

    /// This is seen of the node behind a call that took so long.
    pub fn see(&mut self, seen: Seen, took: u64, now: u64)
        ensures { self.new ≡ seen_at self.old seen took now }
    {
        if seen.front != self.seen.front {
            self.moved = now;
            self.ticks = quiet(self.ticks);
        }
        if !is_same(seen.promised, self.seen.promised) {
            self.promised_since = now;
        }
        self.was_led = self.was_led || seen.campaigns;
        self.seen = seen;
        self.calls.note(took, now);
    }

    /// So much time went by beyond what the process asked to wait and the calls of its node took: what counts of it counts as a
    /// call does. Where it is a sleep, a node that is behind doesn't wait meanwhile.
    pub fn pass(&mut self, lost: u64, now: u64)
        ensures { self.new ≡ passed_in self.old lost now }
    {
        self.lateness.note(lost, now);
        self.calls.note(self.lateness.counted(), now);
        self.behind_since = put_off(self.behind_since, self.moved, lost, now);
    }

    /// A peer has told that it campaigns.
    pub fn lead(&mut self)
        ensures { self.new ≡ record self.old { was_led = true } }
    {
        self.was_led = true;
    }

    /// Whether there is work, and whether the node is behind, at this moment.
    pub fn stand(&mut self, has_work: bool, is_behind: bool, now: u64)
        ensures { self.new ≡ stood self.old has_work is_behind now }
    {
        self.work_since = since(self.work_since, has_work && !is_behind, now);
        self.behind_since = since(self.behind_since, is_behind, now);
    }

    /// The node ticks at this moment.
    pub fn tick(&mut self, now: u64)
        ensures { self.new ≡ ticked_at self.old now }
    {
        let in_vain = match self.ticks {
            Some(ticks) => ticks.in_vain.saturating_add(1),
            None => 1,
        };
        self.ticks = Some(Ticks { last: now, in_vain });
    }

    /// What is known at this moment, with these peers.
    pub fn known<'a>(&self, number: u8, peers: &'a [Peer], now: u64) -> Known<'a>
        ensures { result ≡ known_of self.now number peers.entry now }
    {
        Known {
            time: now,
            number,
            peers,
            front: self.seen.front,
            moved: self.moved,
            promised: self.seen.promised,
            promised_since: self.promised_since,
            campaigns: self.seen.campaigns,
            was_led: self.was_led,
            over: self.seen.over,
            hand_runs: self.seen.hand_runs,
            act_waits: self.seen.act_waits,
            vote_waits: self.seen.vote_waits,
            work_since: match self.work_since {
                Some(moment) => moment,
                None => now,
            },
            behind_since: match self.behind_since {
                Some(moment) => moment,
                None => now,
            },
            ticks: self.ticks,
            longest_call: self.calls.lately(now),
        }
    }
}
