//! What is measured of a peer: the ways there and back, and its silences.

use clockwork::silence::{A_SILENCE, SILENCES};
use clockwork::{Longest, closing};
use node_links::limits::BEAT;

/// A long silence of a peer that ended.
#[derive(Clone, Copy)]
struct Silence {
    length: u64,
    /// When it ended.
    ended: u64,
    /// The number of the last beat before it.
    number: u32,
}

/// Whether a peer stood in a silence of this length, where it told so many beats since that began, and went on for so long behind it: in
/// the silence it told fewer than half of the beats that one tells that goes on. One whose way is cut goes on, and what it
/// told meanwhile comes all at once behind the cut.
fn has_stood(length: u64, after: u64, beats: u32) -> bool {
    2 * BEAT * u64::from(beats) < length.saturating_add(after.saturating_mul(2))
}

/// What was measured of a peer lately, over all connections to it.
#[derive(Clone, Copy)]
pub(crate) struct Measures {
    /// What counts: of two ways there and back in a row the shorter one, and the silences in which it stood.
    pub(crate) counted: Longest,
    /// The silences by which its connections were closed: whether it stood in them isn't known.
    closings: Longest,
    /// The last way there and back.
    way: Option<u64>,
    /// The last long silence, while it isn't known yet whether the peer stood in it.
    silence: Option<Silence>,
}

impl Measures {
    /// Nothing was measured.
    pub(crate) fn new() -> Measures {
        Measures {
            counted: Longest::new(),
            closings: Longest::new(),
            way: None,
            silence: None,
        }
    }

    /// A way there and back was measured. One alone may have been cut meanwhile.
    pub(crate) fn go_there_and_back(&mut self, passed: u64, now: u64) {
        if let Some(before) = self.way {
            self.counted.note(before.min(passed), now);
        }
        self.way = Some(passed);
    }

    /// The last long silence counts where the peer stood in it, by the number of the last beat and by when something came
    /// last.
    pub(crate) fn settle(&mut self, number: u32, heard: u64, now: u64) {
        if let Some(silence) = self.silence {
            let after = heard.saturating_sub(silence.ended);
            let beats = number.saturating_sub(silence.number);
            if has_stood(silence.length, after, beats) {
                self.counted.note(silence.length, now);
            }
        }
        self.silence = None;
    }

    /// Whether the last long silence ended so long ago that what was told in it has come.
    fn is_settled(&self, now: u64) -> bool {
        match self.silence {
            Some(silence) => now.saturating_sub(silence.ended) > A_SILENCE,
            None => false,
        }
    }

    /// Something came of a peer of which something came last at `heard`, and whose last beat had this number. Whether a long
    /// silence ended by that.
    pub(crate) fn hear(&mut self, heard: u64, number: u32, now: u64) -> bool {
        let length = now.saturating_sub(heard);
        let is_long = length > A_SILENCE;
        if is_long || self.is_settled(now) {
            self.settle(number, heard, now);
        }
        if is_long {
            self.silence = Some(Silence {
                length,
                ended: now,
                number,
            });
        }
        is_long
    }

    /// A connection is closed by so long a silence.
    pub(crate) fn close(&mut self, silent: u64, now: u64) {
        self.closings.note(silent, now);
    }

    /// How long the peer is silent until its connection is closed, where one that is present is silent for `silence` at most:
    /// `closing`, and at least four times the longest silence by which one was closed lately, so that a call that outlasts its
    /// connection is measured in the end.
    pub(crate) fn closing(&self, silence: u64, now: u64) -> u64 {
        let closed = SILENCES.saturating_mul(self.closings.lately(now));
        closing(silence, self.counted.lately(now).max(closed))
    }
}
