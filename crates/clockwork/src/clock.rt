ghost use Rattle.std.specs.Prelude.{◌≡◌, ◌+◌, ◌≤◌, ◌<◌, ℕ, true, length};
ghost use Rattle.clockwork.specs.declared.answer.Due.TheVariants.{Now, Nothing};
ghost use Rattle.clockwork.specs.declared.limits.TheConstants.{LATEST, MOST_PEERS, SPACE, LOOK};
ghost use Rattle.clockwork.specs.Dues.{due_in, behind_left, awaited, due_of};
ghost use Rattle.clockwork.specs.Laws.{quorate, LongAgo, IsReason};

use crate::answer::Due;
use crate::helping::help_left;
use crate::known::Known;
use crate::limits::LOOK;
use crate::presence::{behind_wait, is_behind_by, is_quorate_by, most_of, slowest};
use crate::teaching::taught_left;
use crate::waits::{again, left, spaced};
use crate::work::{has_work, steps_by_number, work_left};

/// Whether a node is to tick, by what its process knows.
///
/// It ticks only where it and its present peers are more than half of all nodes, and where it has work, a peer lags, or it
/// is behind and the node whose ballot it has promised doesn't tell it what it lacks; never within 5 milliseconds of its last tick, and after one in vain not before the doubled wait for that
/// reason, unless it campaigns, a peer that owes an answer from before is back since then, and that tick was the first in
/// vain. When each such wait has ended is said by `laws::a_tick_that_is_needed_comes`.
pub fn due(known: &Known<'_>) -> Due
    requires time { known.now.time ≤ LATEST }
    requires peers { length known.now.peers.now ≤ MOST_PEERS }
    ensures value { result ≡ due_of known.now }
    ensures quorate { result ≡ Now → quorate known.now ≡ true }
    ensures reason { result ≡ Now → IsReason known.now }
    ensures spaced { result ≡ Now → LongAgo known.now.time known.now.ticks SPACE }
    ensures later { (until : ℕ) → result ≡ Nothing until → (known.now.time < until) × (until ≤ known.now.time + LOOK) }
{
    due_of(known)
}

#[tactic(auto, unfolding(crate::specs::Dues::due_of))]
fn due_of(known: &Known<'_>) -> Due
    requires time { known.now.time ≤ LATEST }
    requires peers { length known.now.peers.now ≤ MOST_PEERS }
    ensures { result ≡ due_of known.now }
{
    let slow = slowest(known);
    if is_quorate_by(known.time, slow, known.peers) {
        let left = awaited(known, slow).max(spaced(known.time, known.ticks));
        due_in(known.time, left)
    } else {
        due_in(known.time, LOOK)
    }
}

/// A tick where nothing is left; else the next look.
#[tactic(auto, unfolding(crate::specs::Dues::due_in))]
pub(crate) fn due_in(time: u64, left: u64) -> Due
    requires { time ≤ LATEST }
    ensures { result ≡ due_in time left }
{
    if left == 0 {
        Due::Now
    } else {
        Due::Nothing {
            until: time + left.min(LOOK),
        }
    }
}

/// What is left until a quorate node is to tick, by its reasons.
#[tactic(auto, unfolding(crate::specs::Dues::awaited))]
fn awaited(known: &Known<'_>, slow: u64) -> u64
    requires time { known.now.time ≤ LATEST }
    requires peers { length known.now.peers.now ≤ MOST_PEERS }
    ensures { result ≡ awaited known.now slow }
{
    if is_behind_by(known.time, slow, known.front, known.peers) {
        return behind_left(known, slow);
    }
    let help = help_left(known, slow);
    if has_work(known) {
        help.min(work_left(known, slow))
    } else {
        help
    }
}

/// What is left until a node that is behind is to tick.
#[tactic(auto, unfolding(crate::specs::Dues::behind_left))]
fn behind_left(known: &Known<'_>, slow: u64) -> u64
    requires { length known.now.peers.now ≤ MOST_PEERS }
    ensures { result ≡ behind_left known.now slow }
{
    let wait = behind_wait(known.time, slow, known.front, known.peers);
    left(
        known.time,
        known.behind_since.max(known.moved),
        wait + steps_by_number(known, slow),
    )
    .max(again(known.time, known.ticks, wait, most_of(slow)))
    .max(taught_left(known, slow))
}
