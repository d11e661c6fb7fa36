use clockwork::Longest;
use node_links::Question;
use peer_codes::Beat;

/// How a process sees a peer. Moments are whole microseconds since one that stays the same.
#[derive(Clone, Copy, Debug, PartialEq, Eq)]
pub struct View {
    /// Whether a connection to it is open.
    pub is_open: bool,
    /// When that opened, or when the last one ended; 0 where there was none yet.
    pub since: u64,
    /// When something last came over it.
    pub heard: u64,
    /// What was measured of it lately, over all connections of this process: of two ways there and back in a row the shorter one, and its
    /// silences above `A_SILENCE` that ended with something heard, and in which it stood (it told few beats).
    pub measured: Longest,
    /// The last beat that came over it.
    pub beat: Option<Beat>,
    /// The slot of the last Accepted that was sent to it, of several the first.
    pub accepted: Option<u32>,
    /// What was asked of it before the connection opened that is open, and isn't answered.
    pub unanswered: Option<Question>,
}
