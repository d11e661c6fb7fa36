//! Whether a process that slept has heard enough since to order anything.

ghost use Rattle.std.specs.Prelude.{◌≡◌, true};
ghost use Rattle.clockwork.specs.Wakings.{asleep, one_more, passed, stood_since, heard, is_enough, is_awake};

use crate::limits::{FURTHER, LATEST, LEAP, MOST_NODES};

/// What a process has heard since it slept: since its clock leapt, or since it began.
///
/// What came to it in its sleep may be left to read, and what was told to it then may not be so any more. So it is awake only
/// behind a turn in which nothing was left to read, and two further beats of so many peers that with itself they are more
/// than half (`laws::a_sleeper_orders_nothing`). What it slept through doesn't count as time for which it waited for a seat.
#[derive(Clone, Copy, Debug, PartialEq, Eq)]
pub struct Waking {
    /// A turn has come since in which nothing was left to read.
    pub has_read: bool,
    /// How many beats of each node came behind that one; from 2 on, 2.
    pub beats: [u8; MOST_NODES],
    /// The moment since which the seat to act is waited for, as it was told last.
    pub stood: u64,
    /// How much of the time since then it slept through, at most `LATEST`.
    pub slept: u64,
}

/// What happens to a process.
#[derive(Clone, Copy, Debug)]
pub enum Happening {
    /// So much time went by beyond what it asked to wait and its own calls took.
    Passed { lost: u64 },
    /// A seat is waited for since that moment.
    Stood { since: u64 },
    /// A turn ended in which nothing was left to read.
    ReadAll,
    /// A beat of a peer came that is another than the one before.
    Beat { node: u8 },
}

/// One more, up to as many as are awaited.
fn one_more(beats: u8) -> u8
    ensures { result ≡ one_more beats }
{
    if beats < FURTHER { beats + 1 } else { beats }
}

impl Waking {
    /// The process begins: it has heard nothing, as if it had slept.
    pub fn new() -> Waking
        ensures { result ≡ asleep }
    {
        Waking {
            has_read: false,
            beats: [0; MOST_NODES],
            stood: 0,
            slept: 0,
        }
    }

    /// So much time went by beyond what it asked to wait and its own calls took: it slept where that is long.
    pub fn pass(&mut self, lost: u64)
        ensures { self.new ≡ passed self.old lost }
    {
        if lost > LEAP {
            *self = Waking {
                has_read: false,
                beats: [0; MOST_NODES],
                stood: self.stood,
                slept: self.slept.saturating_add(lost).min(LATEST),
            };
        }
    }

    /// The seat to act is waited for since that moment (`Expected`): of what was slept before nothing counts any more.
    pub fn stand(&mut self, stood: u64)
        ensures { self.new ≡ stood_since self.old stood }
    {
        if stood != self.stood {
            self.stood = stood;
            self.slept = 0;
        }
    }

    /// A turn ended in which nothing was left to read.
    pub fn read_all(&mut self)
        ensures { self.new ≡ record self.old { has_read = true } }
    {
        self.has_read = true;
    }

    /// A beat of a peer came that is another than the one before.
    pub fn hear(&mut self, node: u8)
        ensures { self.new ≡ heard self.old node }
    {
        let node = node as usize;
        if self.has_read && node < MOST_NODES {
            self.beats[node] = one_more(self.beats[node]);
        }
    }

    /// Whether it has heard enough, in a match of so many nodes.
    pub fn is_awake(&self, nodes: u8) -> bool
        ensures { result ≡ is_awake self.now nodes }
    {
        self.has_read && is_enough(&self.beats, nodes)
    }
}

/// Whether a node and those that were heard so often are more than half.
#[tactic(auto, unfolding(crate::specs::Wakings::is_enough))]
fn is_enough(beats: &[u8; MOST_NODES], nodes: u8) -> bool
    ensures { result ≡ is_enough beats.now nodes }
{
    let heard = beats.iter().filter(|beats| **beats >= FURTHER).count();
    (nodes as usize) < 2 * (1 + heard)
}
