ghost use Rattle.std.specs.Prelude.{◌≡◌, ◌≤◌, length};
ghost use Rattle.clockwork.specs.declared.limits.TheConstants.{LONGEST, LATEST, MOST_PEERS};
ghost use Rattle.clockwork.specs.Work.{has_work, opened_since, is_reopened, one_reopened, steps_by_number, steps_behind, is_untold, idle_wait, row_left, campaigns_by, one_campaigns, yield_left, back_left, work_left};
ghost use Rattle.clockwork.specs.Standings.{standing};
ghost use Rattle.clockwork.specs.Laws.{replays};

use crate::known::{Known, Link, Peer, PeerReport, Ticks};
use crate::limits::STEP;
use crate::presence::{is_behind, most_of, pace_of, soon_of, told};
use crate::ranks::{rank_behind, rank_by_number};
use crate::standing::{Standing, is_campaign, is_follower, standing_of};
use crate::waits::{again, doubled, in_vain, left};

/// Whether a node has something to do: its match isn't over, and an act waits, a vote of its own stands at its front, or no
/// hand runs.
#[tactic(auto, unfolding(crate::specs::Work::has_work))]
pub fn has_work(known: &Known<'_>) -> bool
    ensures { result ≡ has_work known.now }
{
    !known.over && (known.act_waits || known.vote_waits || !known.hand_runs)
}

/// Whether a node learns what was chosen before, as far as it knows: its match isn't over, and a vote of its own stands at its
/// front, or it is behind.
pub fn replays(known: &Known<'_>) -> bool
    ensures { result ≡ replays known.now }
{
    !known.over && (known.vote_waits || is_behind(known))
}

/// Whether a moment comes after the last tick.
fn opened_since(ticks: Option<Ticks>, opened: u64) -> bool
    ensures { result ≡ opened_since ticks opened }
{
    match ticks {
        Some(ticks) => ticks.last < opened,
        None => true,
    }
}

/// Whether a connection opened since the last tick to a peer that owes an answer from before.
#[tactic(auto, unfolding(crate::specs::Work::is_reopened))]
fn is_reopened(ticks: Option<Ticks>, link: Link) -> bool
    ensures { result ≡ is_reopened ticks link }
{
    match link {
        Link::Open(connection) => connection.unanswered && opened_since(ticks, connection.opened),
        Link::Closed { .. } => false,
    }
}

#[tactic(auto, unfolding(crate::specs::Work::one_reopened))]
fn one_reopened(known: &Known<'_>) -> bool
    ensures { result ≡ one_reopened known.now }
{
    let ticks = known.ticks;
    known.peers.iter().any(|peer| is_reopened(ticks, peer.link))
}

/// Whether an act waits here that went on to another node than the one whose ballot is promised now, or to none. Where a vote
/// stands at the front that command comes first, and the act is most likely of a bot that was shown an old line.
#[tactic(auto, unfolding(crate::specs::Work::is_untold))]
fn is_untold(known: &Known<'_>) -> bool
    ensures { result ≡ is_untold known.now }
{
    known.act_waits && !known.vote_waits && known.work_since < known.promised_since
}

/// How long a node with work waits where its leader is there and campaigns no longer: that one has the act that went on to
/// it, or sees that no hand runs, and ticks itself.
#[tactic(auto, unfolding(crate::specs::Work::idle_wait))]
fn idle_wait(known: &Known<'_>, slow: u64, leader: u8) -> u64
    requires peers { length known.now.peers.now ≤ MOST_PEERS }
    ensures { result ≡ idle_wait known.now slow leader }
{
    let soon = soon_of(slow);
    if known.act_waits {
        soon
    } else {
        soon + steps_behind(known, slow, leader)
    }
}

/// What is left until a node with work is to tick for the first time, by how it stands to its leader.
#[tactic(auto, unfolding(crate::specs::Work::row_left))]
fn row_left(known: &Known<'_>, slow: u64, standing: Standing) -> u64
    requires peers { length known.now.peers.now ≤ MOST_PEERS }
    ensures { result ≡ row_left known.now slow standing }
{
    match standing {
        Standing::Campaigns => left(
            known.time,
            known.work_since.max(known.moved),
            doubled(pace_of(slow), in_vain(known.ticks), most_of(slow)),
        ),
        Standing::Fresh => left(known.time, known.work_since, steps_by_number(known, slow)),
        Standing::Led => 0,
        Standing::Lost { leader, since } => {
            if known.act_waits {
                0
            } else {
                left(
                    known.time,
                    known.work_since.max(since),
                    steps_behind(known, slow, leader),
                )
            }
        }
        Standing::Idle { leader, since } => left(
            known.time,
            known.work_since.max(since),
            idle_wait(known, slow, leader),
        ),
        Standing::Follows { leader } => left(
            known.time,
            known.work_since.max(known.moved.max(known.promised_since)),
            doubled(pace_of(slow), in_vain(known.ticks), most_of(slow))
                + steps_behind(known, slow, leader),
        ),
    }
}

/// One step for each present peer with a lower number.
#[tactic(auto, unfolding(crate::specs::Work::steps_by_number))]
pub(crate) fn steps_by_number(known: &Known<'_>, slow: u64) -> u64
    requires peers { length known.now.peers.now ≤ MOST_PEERS }
    ensures value { result ≡ steps_by_number known.now slow }
    ensures most { result ≤ LONGEST }
{
    STEP * rank_by_number(known.time, slow, known.number, known.peers) as u64
}

/// One step for each present peer that comes before the node, counted cyclically from behind a leader on.
#[tactic(auto, unfolding(crate::specs::Work::steps_behind))]
fn steps_behind(known: &Known<'_>, slow: u64, leader: u8) -> u64
    requires peers { length known.now.peers.now ≤ MOST_PEERS }
    ensures value { result ≡ steps_behind known.now slow leader }
    ensures most { result ≤ LONGEST }
{
    STEP * rank_behind(known.time, slow, leader, known.number, known.peers) as u64
}

/// Whether a present peer told that it campaigns.
#[tactic(auto, unfolding(crate::specs::Work::campaigns_by))]
fn campaigns_by(told: Option<PeerReport>) -> bool
    ensures { result ≡ campaigns_by told }
{
    match told {
        Some(beat) => beat.campaigns,
        None => false,
    }
}

/// Whether some present peer told that it campaigns.
#[tactic(auto, unfolding(crate::specs::Work::one_campaigns))]
fn one_campaigns(time: u64, slow: u64, peers: &[Peer]) -> bool
    ensures { result ≡ one_campaigns time slow peers.now }
{
    peers
        .iter()
        .any(|peer| campaigns_by(told(time, slow, peer.link)))
}

/// What is left until a node ticks whose only work is a vote of its own, where a present peer campaigns, or none was heard of
/// since the process began: that one is told of the vote, and is left as much time as a leader.
#[tactic(auto, unfolding(crate::specs::Work::yield_left))]
fn yield_left(known: &Known<'_>, slow: u64) -> u64
    requires peers { length known.now.peers.now ≤ MOST_PEERS }
    ensures { result ≡ yield_left known.now slow }
{
    if !known.act_waits
        && known.hand_runs
        && (!known.was_led || one_campaigns(known.time, slow, known.peers))
    {
        left(
            known.time,
            known.work_since.max(known.moved),
            doubled(pace_of(slow), in_vain(known.ticks), most_of(slow))
                + steps_by_number(known, slow),
        )
    } else {
        0
    }
}

/// What is left until a node that campaigns is to tick where a connection opened since its last tick to a peer that owes an
/// answer from before: nothing, but from the second tick in vain on what is left of the doubled wait, since connections of
/// slow peers end and open again and again.
#[tactic(auto, unfolding(crate::specs::Work::back_left))]
fn back_left(known: &Known<'_>, slow: u64) -> u64
    ensures { result ≡ back_left known.now slow }
{
    if in_vain(known.ticks) > 1 {
        again(known.time, known.ticks, pace_of(slow), most_of(slow))
    } else {
        0
    }
}

/// What is left until a node with work is to tick: where it campaigns and a connection opened since its last tick to a peer
/// that owes an answer from before, by that; where its act never went on to the one that leads, at once, and after a
/// tick in vain soon again; else by how it stands to its leader, where a vote is all its work not while a peer that
/// campaigns may still go on, and after a tick in vain not before the doubled wait.
#[tactic(auto, unfolding(crate::specs::Work::work_left))]
pub(crate) fn work_left(known: &Known<'_>, slow: u64) -> u64
    requires time { known.now.time ≤ LATEST }
    requires peers { length known.now.peers.now ≤ MOST_PEERS }
    ensures { result ≡ work_left known.now slow (standing known.now slow known.now.promised) }
{
    let standing = standing_of(known, slow);
    if is_campaign(standing) && one_reopened(known) {
        return back_left(known, slow);
    }
    if is_follower(standing) && is_untold(known) {
        return again(known.time, known.ticks, soon_of(slow), most_of(slow));
    }
    row_left(known, slow, standing)
        .max(yield_left(known, slow))
        .max(again(known.time, known.ticks, pace_of(slow), most_of(slow)))
}
