//! Whether a peer was heard lately: the one test of silence.
//!
//! The limit within which a silent peer counts as present changes with what the slowest took (`most_silence`). What stands
//! below is for what is done about a longer silence, and from when on one is measured.

ghost use Rattle.std.specs.Prelude.{◌≡◌};
ghost use Rattle.clockwork.specs.Silence.{is_heard, closing};

use crate::limits::MOST_SILENT;

/// A connection is closed once its peer was silent for so many times as long as it takes to count as absent: one that is
/// only slow comes back over it without a new Hello, and one that is lost isn't held for long, since nothing else ends a
/// connection whose other machine is gone.
pub const SILENCES: u64 = 4;

/// A peer that was silent for so long isn't waited for once the match is over, in microseconds: longer than one that is there is
/// silent while no call of a node takes so long, so that it learns of the end, and no longer than who started the process
/// likes to wait for its end.
pub const UNHEARD: u64 = 10_000_000;

/// A silence above this is a long one, in microseconds: it is measured (`Longest`) where the peer stood in it, since one
/// that goes on tells a beat far more often.
pub const A_SILENCE: u64 = 333_333;

/// Whether something that was heard at this moment was heard within `limit` of the present one, all in whole microseconds.
/// A moment that lies ahead counts as the present.
pub fn is_heard(heard: u64, now: u64, limit: u64) -> bool
    ensures { result ≡ is_heard heard now limit }
{
    now.saturating_sub(heard) < limit
}

/// How long a peer is silent until its connection is closed, where one that is present is silent for `silence` at most and
/// `longest` says how long this one may be in a call: four times `silence`, which counts as 64 seconds at most, and never
/// less than `longest`. A call that outlasts its connection would never be measured.
pub fn closing(silence: u64, longest: u64) -> u64
    ensures { result ≡ closing silence longest }
{
    (SILENCES * silence.min(MOST_SILENT)).max(longest)
}
