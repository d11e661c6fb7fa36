//! What a process knows of a peer: its connection, what came over it, and what waits for it.

ghost use Rattle.std.specs.Prelude.{◌≡◌, [], true, is_some, None};
ghost use Rattle.node_peers.specs.Handing.{frames_for, GoesBack};
ghost use Rattle.node_peers.specs.Replacing.{Fades};
ghost use Rattle.node_links.specs.Promising.{higher};
ghost use Rattle.node_links.specs.Versions.{next_turn};
ghost use Rattle.node_links.specs.declared.turning.DialEnd.TheVariants.{Opened};

mod dials;
mod frames;
mod promises;
mod reports;

use crate::lag::Lag;
use crate::limits::CAME_BACK;
use crate::measures::Measures;
use crate::view::View;
use clockwork::is_heard;
use clockwork::silence::A_SILENCE;
use dials::Missed;
pub(crate) use dials::{Outcome, shows_older};
use node_links::limits::{KEPT, NODES};
use node_links::{
    Accepted, Asked, Dial, DialEnd, Forwarded, Lives, Notes, Outbox, Owed, PeerFault, Pulse,
    Refusals, Subject, Turn, next_turn,
};
use paxos_wire::Ballot;
use peer_codes::{Beat, Hello, Life, Version};
use std::alloc::Global;

/// Whether records of further kinds may be said over a connection of this version.
fn takes_more(version: Version) -> bool {
    match version {
        Version::First => false,
        Version::Second => true,
    }
}

/// What a process knows of a peer, and what waits for it.
#[derive(Drop)]
pub(crate) struct Peer {
    /// How far its last dial is.
    pub(crate) dial: Dial,
    /// The place of the line of that.
    pub(crate) dialled: usize,
    /// How it is dialled, now or next.
    pub(crate) turn: Turn,
    /// How many of its last dials were answered and closed without a byte.
    closed_dials: u8,
    /// How many dials of it weren't answered, up to all of which one waits for long.
    unanswered_dials: u8,
    /// The dials that came to nothing since it was there last, if any did.
    missed: Option<Missed>,
    /// How long it wasn't dialled behind the last refusal; 0 where a beat came since.
    pause: u64,
    /// Which faults of it were told, and when.
    notes: Notes,
    /// The place of the line whose connection is open.
    pub(crate) open: Option<usize>,
    /// When that opened or ended last.
    pub(crate) since: u64,
    /// When something last came over it.
    pub(crate) heard: u64,
    /// When a long silence of it, or of this node itself, ended last.
    came_back: Option<u64>,
    /// What was measured of it lately, over all connections.
    pub(crate) measures: Measures,
    /// The last beat that came over it.
    pub(crate) beat: Option<Beat>,
    /// The first life of its store that was seen.
    pub(crate) kept: Option<Life>,
    /// The greatest ballot that it is known to have promised, in this life of its store.
    pub(crate) promised: Option<Ballot>,
    /// When that last rose.
    rose: u64,
    /// The lives that it told last over the connection that is open.
    pub(crate) told: [Option<Life>; NODES],
    /// The lives that were told it last over that connection, where it is of the second version.
    lives_told: Option<Lives>,
    /// Whether that is of the second version.
    takes_more: bool,
    /// Those who dialled from an address of it and were refused.
    pub(crate) refusals: Refusals,
    pub(crate) pulse: Pulse,
    pub(crate) outbox: Outbox,
    asked: Asked,
    accepted: Accepted,
    /// A block of slots was told to its end, and the last Accepted didn't go again behind it.
    has_told: bool,
    forwarded: Forwarded,
    /// This node's front, as it was told last.
    front: u32,
    owed: Owed,
}

impl Peer {
    ghost use Rattle.node_peers.specs.Viewing.{behind_by, seen_as};

    /// Nothing is known but the life that is kept of its store.
    pub(crate) fn new(alloc: Global, number: u8, kept: Option<Life>) -> Peer
        ensures { frames_for result ≡ [] }
    {
        Peer {
            dial: Dial::new(),
            dialled: number as usize,
            turn: Turn::Second,
            closed_dials: 0,
            unanswered_dials: 0,
            missed: None,
            pause: 0,
            notes: Notes::new(),
            open: None,
            since: 0,
            heard: 0,
            came_back: None,
            measures: Measures::new(),
            beat: None,
            kept,
            promised: None,
            rose: 0,
            told: [None; NODES],
            lives_told: None,
            takes_more: false,
            refusals: Refusals::new(Some(number)),
            pulse: Pulse::new(),
            outbox: Outbox::new(alloc),
            asked: Asked::new(),
            accepted: Accepted::new(),
            has_told: false,
            forwarded: Forwarded::new(),
            front: 0,
            owed: Owed::new(),
        }
    }

    /// Whether this fault of the peer is told now.
    #[tactic(auto, using(crate::proofs::Handing::goes_same, crate::proofs::Handing::goes_on, crate::proofs::Fading::fades_same))]
    pub(crate) fn tells(&mut self, fault: PeerFault, now: u64) -> bool
        ensures back { GoesBack self.old self.new }
        ensures fades { Fades self.old self.new }
    {
        !self.may_be_here(fault, now) && self.notes.tell(fault, now)
    }

    /// Whether the fault is that the peer is here already, and it may have dialled anew by right: a long silence of it or of this
    /// node ended lately.
    fn may_be_here(&self, fault: PeerFault, now: u64) -> bool {
        match self.came_back {
            Some(at) => fault == PeerFault::AlreadyHere && now.saturating_sub(at) < CAME_BACK,
            None => false,
        }
    }

    /// The connection at this place is open, by this Hello. The life that it says is kept if it is the first. Where it promises less
    /// than the peer is known to have promised, the peer is told.
    #[tactic(auto, using(crate::proofs::Handing::goes_same, crate::proofs::Handing::goes_on))]
    pub(crate) fn meet(&mut self, hello: &Hello, place: usize, now: u64)
        ensures goes { GoesBack self.old self.new }
        ensures turn { self.new.turn ≡ next_turn self.old.turn Opened }
        ensures promised { self.new.promised ≡ higher self.old.promised hello.now.promised }
    {
        self.keep(hello.life);
        self.join(place, now);
        self.tell_older(hello.promised);
        self.note_promise(hello.promised, now);
        self.begin_telling(hello.version);
    }

    /// Nothing was told yet over the connection that is open, and it is dialled in the second version the next time.
    #[tactic(auto, using(crate::proofs::Handing::goes_same))]
    fn begin_telling(&mut self, version: Version)
        ensures goes { GoesBack self.old self.new }
        ensures promised { self.new.promised ≡ self.old.promised }
        ensures turn { self.new.turn ≡ next_turn self.old.turn Opened }
    {
        self.turn = next_turn(self.turn, DialEnd::Opened);
        self.closed_dials = 0;
        self.told = [None; NODES];
        self.lives_told = None;
        self.takes_more = takes_more(version);
    }

    /// This life of the peer's store is kept, if it is the first.
    #[tactic(auto, using(crate::proofs::Handing::goes_same, crate::proofs::Handing::goes_kept))]
    fn keep(&mut self, life: Life)
        ensures goes { GoesBack self.old self.new }
        ensures kept { is_some self.new.kept ≡ true }
        ensures promised { self.new.promised ≡ self.old.promised }
    {
        match self.kept {
            Some(_) => (),
            None => self.kept = Some(life),
        }
    }

    /// The connection at this place is open: what waits goes over it, and the last Accepted again.
    #[tactic(auto, using(crate::proofs::Handing::goes_same, crate::proofs::Handing::goes_on))]
    fn join(&mut self, place: usize, now: u64)
        ensures goes { GoesBack self.old self.new }
        ensures promised { self.new.promised ≡ self.old.promised }
    {
        self.open = Some(place);
        self.since = now;
        self.heard = now;
        self.beat = None;
        self.pulse = Pulse::new();
        self.dial = self.dial.opened();
        self.missed = None;
        self.owed.opened(&self.outbox);
        self.repeat(now);
    }

    /// The connection ended: of what waits the newest stays.
    #[tactic(auto, using(crate::proofs::Handing::goes_newest, crate::proofs::Fading::fades_parted))]
    pub(crate) fn part(&mut self, now: u64)
        ensures back { GoesBack self.old self.new }
        ensures fades { Fades self.old self.new }
        ensures gone { self.new.«open» ≡ None }
    {
        self.measures.settle(self.pulse.got, self.heard, now);
        self.open = None;
        self.since = now;
        self.beat = None;
        self.told = [None; NODES];
        self.owed.ended();
        self.outbox.forget_all_but_frames();
        self.outbox.keep_newest(KEPT);
    }

    /// Whether something was heard within so long over an open connection.
    pub(crate) fn is_here(&self, now: u64, silence: u64) -> bool {
        self.open.is_some() && is_heard(self.heard, now, silence)
    }

    /// How long the way to the peer and back last took; 0 where that isn't measured yet.
    fn round_trip(&self) -> u64 {
        match self.pulse.round_trip {
            Some(passed) => passed,
            None => 0,
        }
    }

    /// How the peer is seen.
    pub(crate) fn view(&self) -> View
        ensures { result ≡ seen_as self.now }
    {
        View {
            is_open: self.open.is_some(),
            since: self.since,
            heard: self.heard,
            measured: self.measures.counted,
            beat: self.beat,
            accepted: self.accepted.slot(),
            unanswered: self.owed.unanswered,
        }
    }

    /// How far the peer is behind this front, and how long its slowest answer took lately, once it has told its front.
    pub(crate) fn lag(&self, front: u32, now: u64) -> Option<Lag>
        ensures { result ≡ behind_by front now self.now self.now.beat }
    {
        match &self.beat {
            Some(beat) => Some(Lag {
                behind: front.saturating_sub(beat.front),
                slowest: self.measures.counted.lately(now),
            }),
            None => None,
        }
    }

    /// So much of the time that went by until now isn't counted as the peer's silence. Behind a long one this node was silent itself.
    #[tactic(auto, using(crate::proofs::Handing::goes_same, crate::proofs::Handing::goes_on))]
    pub(crate) fn forgive(&mut self, lost: u64, now: u64)
        ensures { GoesBack self.old self.new }
    {
        self.heard = self.heard.saturating_add(lost).min(now);
        if lost > A_SILENCE {
            self.came_back = Some(now);
        }
    }

    /// How long it is until a beat is due over an open connection, or an act goes again.
    pub(crate) fn wait(&self, now: u64) -> u64 {
        let round_trip = self.round_trip();
        self.pulse
            .wait(now)
            .min(self.forwarded.wait(now, round_trip))
    }

    /// The peer told these lives.
    #[tactic(auto, using(crate::proofs::Handing::goes_same))]
    pub(crate) fn take_lives(&mut self, lives: &Lives)
        ensures { GoesBack self.old self.new }
    {
        self.told = lives.lives;
    }

    /// The connection is closed because the peer has been silent for too long.
    #[tactic(auto, using(crate::proofs::Handing::goes_same, crate::proofs::Handing::goes_on))]
    pub(crate) fn close(&mut self, now: u64)
        ensures { GoesBack self.old self.new }
    {
        self.measures.close(now.saturating_sub(self.heard), now);
    }

    /// Whether the peer has been silent for so long that its connection is closed, where one that is present is silent for
    /// `silence` at most.
    pub(crate) fn is_lost(&self, now: u64, silence: u64) -> bool {
        !is_heard(self.heard, now, self.measures.closing(silence, now))
    }

    /// Something came over the connection. No way is measured over a long silence, which is measured itself.
    #[tactic(auto, using(crate::proofs::Handing::goes_same, crate::proofs::Handing::goes_on))]
    fn hear(&mut self, now: u64)
        ensures { GoesBack self.old self.new }
    {
        if self.measures.hear(self.heard, self.pulse.got, now) {
            self.pulse.probe = None;
            self.came_back = Some(now);
        }
        self.heard = now;
    }

    /// A frame came, which answers this.
    #[tactic(auto, using(crate::proofs::Handing::goes_same, crate::proofs::Handing::goes_on))]
    pub(crate) fn take_frame(&mut self, answered: Option<Subject>, now: u64)
        ensures { GoesBack self.old self.new }
    {
        self.hear(now);
        self.owed.heard(answered);
    }

    /// A beat came, by which the way may have been measured.
    #[tactic(auto, using(crate::proofs::Handing::goes_same, crate::proofs::Handing::goes_on))]
    pub(crate) fn take_beat(&mut self, beat: Beat, now: u64)
        ensures { GoesBack self.old self.new }
    {
        self.hear(now);
        self.beat = Some(beat);
        self.pause = 0;
        let is_awaited = self.pulse.probe.is_some();
        self.pulse.heard(&beat, now);
        if !is_awaited || self.pulse.probe.is_some() {
            return;
        }
        let passed = self.round_trip();
        self.measures.go_there_and_back(passed, now);
    }
}
