/// What a process knows of its own node and of its peers, the other nodes of the match.
///
/// A moment is how many whole microseconds have passed since one that stays the same as long as the process lives;
/// lengths of time are whole microseconds too. A moment that lies ahead of `time` counts as `time`. What went by while
/// the process was stopped or in a long call isn't counted as a peer's silence: the caller moves `heard` by it.
#[derive(Clone, Copy, Debug, Drop)]
pub struct Known<'a> {
    /// The present moment, at most `LATEST`.
    pub time: u64,
    /// This node's number.
    pub number: u8,
    /// All other nodes of the match, at most `MOST_PEERS`.
    pub peers: &'a [Peer],
    /// How many commands this node has applied: its front.
    pub front: u32,
    /// When the front last moved; where it hasn't, when the process began.
    pub moved: u64,
    /// The node of the ballot that this node has promised, where it has promised one.
    pub promised: Option<u8>,
    /// When the node of the promised ballot last became another; where it hasn't, when the process began.
    pub promised_since: u64,
    /// It campaigns: it prepares or leads, in the ballot that it has promised.
    pub campaigns: bool,
    /// Some node has campaigned since the process began, as far as is known here: this one, or a peer that told so.
    pub was_led: bool,
    /// The match is over here.
    pub over: bool,
    /// A hand runs here.
    pub hand_runs: bool,
    /// An act waits here to be proposed.
    pub act_waits: bool,
    /// The node's own store has a vote at its front: what was chosen there isn't known here yet, or nothing is chosen there.
    pub vote_waits: bool,
    /// Since when there has been work here (`has_work`) while the node wasn't behind, both without a break. It tells
    /// nothing where that isn't so now.
    pub work_since: u64,
    /// Since when the node has been behind (`is_behind`) without a break; later by what its process slept through since then, or
    /// since the front moved (`Watch::pass`). It tells nothing where it isn't.
    pub behind_since: u64,
    /// This process's own ticks, where it has ticked.
    pub ticks: Option<Ticks>,
    /// The longest in the last minute (`Longest`) of the calls of the node, and of what counts of how late turns came
    /// (`Lateness`).
    pub longest_call: u64,
}

/// The ticks of a process.
#[derive(Clone, Copy, Debug)]
pub struct Ticks {
    /// When it last ticked.
    pub last: u64,
    /// How often it has ticked since its front last moved; from 255 on, 255.
    pub in_vain: u8,
}

/// What is known of another node.
#[derive(Clone, Copy, Debug)]
pub struct Peer {
    /// Its number.
    pub number: u8,
    /// The slot of the last Accepted that this process sent to it, of several the first. That frame is sent again as long
    /// as the peer is below this node's front; where the slot is above the peer's own front, it makes the peer ask for what
    /// it lacks.
    pub accepted: Option<u32>,
    /// The longest that was measured of it in the last minute (`Longest`), also over earlier connections: of the times from a
    /// beat until one came that says that the peer had got it, and of its silences above a third of a second (`A_SILENCE`)
    /// in which it stood. One whose way was cut goes on, so that such a silence isn't counted.
    pub longest: u64,
    /// The connection to it.
    pub link: Link,
}

/// The connection to a peer.
#[derive(Clone, Copy, Debug)]
pub enum Link {
    /// None is open: since the last one ended, or where there was none, since the process began.
    Closed { since: u64 },
    /// One is open.
    Open(OpenLink),
}

/// What is known of an open connection.
#[derive(Clone, Copy, Debug)]
pub struct OpenLink {
    /// When it opened.
    pub opened: u64,
    /// When something last came over it; at first, when it opened.
    pub heard: u64,
    /// A Prepare or an Accept that was sent to the peer before this connection opened is unanswered, and its answer would
    /// still serve: it is of the ballot in which this node campaigns; for a Prepare no Accept went to the peer since, and an
    /// Accept is not only of slots below the front.
    pub unanswered: bool,
    /// What the peer has told of itself, once a beat came over this connection.
    pub beat: Option<PeerReport>,
}

/// What a peer has told of itself over an open connection.
#[derive(Clone, Copy, Debug)]
pub struct PeerReport {
    /// How many commands it has applied, by its last beat.
    pub front: u32,
    /// Since when this is what it has told while it was below this node's front, both without a break: a front that stands
    /// still while nothing goes on doesn't lag. It tells nothing where it isn't below.
    pub below: u64,
    /// It campaigns: by its last beat, or by a Prepare or an Accept that came later and that this node promised itself to.
    pub campaigns: bool,
    /// When it first told so, or that it doesn't, over this connection without having told otherwise since.
    pub told: u64,
    /// The match is over there, by its last beat.
    pub over: bool,
    /// When its front last rose over this connection; where it hasn't, when the first beat came over it.
    pub risen: u64,
}
