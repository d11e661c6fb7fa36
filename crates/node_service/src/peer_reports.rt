//! What each peer has told of itself.

ghost use Rattle.std.specs.Prelude.{◌≡◌, ◌≤◌, List, [], length, min, take, slice_get};
ghost use Rattle.clockwork.specs.PeerReports.{report_after};
ghost use Rattle.clockwork.specs.declared.limits.TheConstants.{MOST_PEERS};
ghost use Rattle.node_service.specs.Knowing.{link_by};
ghost use Rattle.node_service.specs.Meaning.{tells_over};

use crate::limits::NODES;
use clockwork::limits::MOST_PEERS;
use clockwork::{Link, OpenLink, Peer, PeerReport, report_after};
use node_peers::View;
use peer_codes::Beat;

/// What a peer has told of itself.
#[derive(Clone, Copy)]
struct LastReport {
    /// What it told over its open connection, and since when.
    beat: Option<PeerReport>,
    /// When that opened, and the number of the last beat that was taken over it.
    since: u64,
    number: u32,
    /// It has told that the match is over there, over this connection or an earlier one.
    is_over: bool,
    /// The seats that it told to sit there last, a bit each.
    seats: u16,
}

/// What each peer has told of itself, by its number.
#[derive(Clone, Copy)]
pub(crate) struct PeerReports {
    all: [LastReport; NODES],
}

/// What a peer has told of itself once this beat came, where this node's front is `own` and `earlier` was told before.
fn reported(earlier: Option<PeerReport>, told: &Beat, own: u32, now: u64) -> PeerReport
    ensures { result ≡ report_after earlier told.now.front told.now.campaigns told.now.over own now }
{
    report_after(earlier, told.front, told.campaigns, told.over, own, now)
}

/// Of a beat that was taken before only this is new: where the peer isn't behind this node's front, it is so now.
fn refreshed(earlier: PeerReport, front: u32, now: u64) -> PeerReport {
    PeerReport {
        below: if earlier.front < front {
            earlier.below
        } else {
            now
        },
        ..earlier
    }
}

impl LastReport {
    /// Nothing is told over the connection that is open now.
    fn parted(self) -> LastReport {
        LastReport {
            beat: None,
            since: 0,
            number: 0,
            is_over: self.is_over,
            seats: 0,
        }
    }

    /// This is the peer's last beat, over a connection that opened at that moment.
    fn after(self, told: &Beat, since: u64, front: u32, now: u64) -> LastReport {
        let earlier = if self.since == since { self.beat } else { None };
        let beat = match earlier {
            Some(earlier) if self.number == told.number => refreshed(earlier, front, now),
            earlier => reported(earlier, told, front, now),
        };
        LastReport {
            beat: Some(beat),
            since,
            number: told.number,
            is_over: self.is_over || told.over,
            seats: told.seats,
        }
    }

    /// It campaigns since this moment, if it didn't before: this node promised itself to it.
    fn leading(self, now: u64) -> LastReport {
        match self.beat {
            Some(beat) if !beat.campaigns => LastReport {
                beat: Some(PeerReport {
                    campaigns: true,
                    told: now,
                    ..beat
                }),
                ..self
            },
            _ => self,
        }
    }
}

impl PeerReports {
    ghost use Rattle.node_service.specs.Knowing.{peer_by, tells_seat};

    /// Nobody has told anything.
    pub(crate) fn new() -> PeerReports {
        PeerReports {
            all: [LastReport {
                beat: None,
                since: 0,
                number: 0,
                is_over: false,
                seats: 0,
            }; NODES],
        }
    }

    /// A peer is seen so, where the node's front is this.
    pub(crate) fn take(&mut self, peer: u8, view: &View, front: u32, now: u64) {
        if let Some(report) = self.all.get_mut(peer as usize) {
            *report = match &view.beat {
                Some(told) => report.after(told, view.since, front, now),
                None => report.parted(),
            };
        }
    }

    /// Whether the last beat of a peer that is seen so is another than the one that was taken before.
    pub(crate) fn is_further(&self, peer: u8, view: &View) -> bool {
        match (&view.beat, self.all.get(peer as usize)) {
            (Some(told), Some(report)) => {
                report.beat.is_none() || report.since != view.since || report.number != told.number
            }
            _ => false,
        }
    }

    /// This node promised itself to a ballot of a peer.
    pub(crate) fn lead(&mut self, peer: u8, now: u64) {
        if let Some(report) = self.all.get_mut(peer as usize) {
            *report = report.leading(now);
        }
    }

    /// Whether a peer has told that the match is over there.
    pub(crate) fn is_over(&self, peer: u8) -> bool
        ensures { result ≡ tells_over (slice_get self.now.all peer) }
    {
        match self.all.get(peer as usize) {
            Some(report) => report.is_over,
            None => false,
        }
    }

    /// Whether a seat sits at a peer, as far as that has told over its open connection.
    pub(crate) fn has_seat(&self, peer: u8, seat: u8) -> bool
        ensures { result ≡ tells_seat (slice_get self.now.all peer) seat }
    {
        match self.all.get(peer as usize) {
            Some(report) => seat < 16 && report.seats & (1 << seat) != 0,
            None => false,
        }
    }

    /// A peer as `clockwork` sees it at this moment, which owes an answer from before its connection opened or doesn't.
    pub(crate) fn peer(&self, number: u8, view: &View, is_owed: bool, now: u64) -> Peer
        ensures { result ≡ peer_by self.now number view.now is_owed now }
    {
        let beat = match self.all.get(number as usize) {
            Some(report) => report.beat,
            None => None,
        };
        Peer {
            number,
            accepted: view.accepted,
            longest: view.measured.lately(now),
            link: link_of(view, beat, is_owed),
        }
    }
}

/// The connection to a peer as `clockwork` sees it.
fn link_of(view: &View, beat: Option<PeerReport>, is_owed: bool) -> Link
    ensures { result ≡ link_by view.now beat is_owed }
{
    if !view.is_open {
        return Link::Closed { since: view.since };
    }
    Link::Open(OpenLink {
        opened: view.since,
        heard: view.heard,
        unanswered: is_owed,
        beat,
    })
}

/// The other nodes, as `clockwork` sees them.
#[derive(Drop)]
pub(crate) struct Others {
    all: [Peer; MOST_PEERS],
    count: usize,
}

impl Others {
    ghost use Rattle.node_service.specs.Others.{listed};
    ghost use Rattle.node_service.specs.Knowing.{with_one};

    /// None.
    pub(crate) fn new() -> Others
        ensures { listed result ≡ [] }
    {
        Others {
            all: [Peer {
                number: 0,
                accepted: None,
                longest: 0,
                link: Link::Closed { since: 0 },
            }; MOST_PEERS],
            count: 0,
        }
    }

    /// One more, if it is one, while there is a place.
    #[tactic(auto, using(crate::proofs::Others::one_listed, crate::proofs::Others::none_listed))]
    pub(crate) fn push(&mut self, peer: Option<Peer>)
        ensures { listed self.new ≡ with_one (listed self.old) peer }
    {
        let Some(peer) = peer else {
            return;
        };
        if self.count < MOST_PEERS {
            self.all[self.count] = peer;
            self.count += 1;
        }
    }

    /// All that were put there.
    pub(crate) fn as_slice(&self) -> &[Peer]
        ensures value { result.now ≡ listed self.now }
        ensures most { length result.now ≤ MOST_PEERS }
    {
        &self.all[..self.count.min(MOST_PEERS)]
    }
}
