//! What a peer has told of itself.

ghost use Rattle.std.specs.Prelude.{◌≡◌};
ghost use Rattle.clockwork.specs.PeerReports.{is_alike, since_same, below_since, told_since, risen_since, report_after};

use crate::known::PeerReport;

/// Whether both are told, or neither.
fn is_alike(one: bool, other: bool) -> bool
    ensures { result ≡ is_alike one other }
{
    if one { other } else { !other }
}

/// The earlier moment where the two are the same, else the present one.
fn since_same(same: bool, earlier: u64, now: u64) -> u64
    ensures { result ≡ since_same same earlier now }
{
    if same { earlier } else { now }
}

/// Since when a peer has told this front while it was below `own`, this node's, or, where it became that while the peer
/// stood still, the last heartbeat before.
fn below_since(earlier: &Option<PeerReport>, front: u32, own: u32, now: u64) -> u64
    ensures { result ≡ below_since earlier.now front own now }
{
    match earlier {
        Some(report) => since_same(report.front == front && front < own, report.below, now),
        None => now,
    }
}

/// When a peer first told so that it campaigns, or that it doesn't.
fn told_since(earlier: &Option<PeerReport>, campaigns: bool, now: u64) -> u64
    ensures { result ≡ told_since earlier.now campaigns now }
{
    match earlier {
        Some(report) => since_same(is_alike(report.campaigns, campaigns), report.told, now),
        None => now,
    }
}

/// When a peer last told a greater front than before, or its first.
fn risen_since(earlier: &Option<PeerReport>, front: u32, now: u64) -> u64
    ensures { result ≡ risen_since earlier.now front now }
{
    match earlier {
        Some(report) => since_same(front <= report.front, report.risen, now),
        None => now,
    }
}

/// What a peer has told of itself over an open connection once a heartbeat came over it at this moment, by which its front
/// is `front`, it campaigns or doesn't, and the match is over there or isn't. This node's front is `own`, and `earlier` is
/// what the peer had told before over that connection.
pub fn report_after(
    earlier: Option<PeerReport>,
    front: u32,
    campaigns: bool,
    over: bool,
    own: u32,
    now: u64,
) -> PeerReport
    ensures { result ≡ report_after earlier front campaigns over own now }
{
    PeerReport {
        front,
        below: below_since(&earlier, front, own, now),
        campaigns,
        told: told_since(&earlier, campaigns, now),
        over,
        risen: risen_since(&earlier, front, now),
    }
}
