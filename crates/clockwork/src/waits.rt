ghost use Rattle.std.specs.Prelude.{◌≡◌, ◌≤◌};
ghost use Rattle.clockwork.specs.declared.limits.TheConstants.{LONGEST};
ghost use Rattle.clockwork.specs.Waits.{left, times, doubled, in_vain, again, spaced};

use crate::known::Ticks;
use crate::limits::SPACE;

/// What is left of a wait that began at a moment.
pub(crate) fn left(time: u64, since: u64, wait: u64) -> u64
    ensures { result ≡ left time since wait }
{
    wait.saturating_sub(time.saturating_sub(since))
}

/// How many times as long a wait is after so many ticks in vain.
#[tactic(auto, unfolding(crate::specs::Waits::times))]
fn times(ticks: u8) -> u64
    ensures value { result ≡ times ticks }
    ensures most { result ≤ 16 }
{
    match ticks {
        0 => 1,
        1 => 2,
        2 => 4,
        3 => 8,
        _ => 16,
    }
}

/// A wait after so many ticks in vain: doubled for each, up to a bound, and no shorter than at first.
pub(crate) fn doubled(wait: u64, ticks: u8, most: u64) -> u64
    requires { wait ≤ LONGEST }
    ensures value { result ≡ doubled wait ticks most }
    ensures short { most ≤ LONGEST → result ≤ LONGEST }
{
    wait.max(most.min(wait * times(ticks)))
}

/// How often the process has ticked since its front last moved.
pub(crate) fn in_vain(ticks: Option<Ticks>) -> u8
    ensures { result ≡ in_vain ticks }
{
    match ticks {
        Some(ticks) => ticks.in_vain,
        None => 0,
    }
}

/// What is left of the doubled wait since the last tick, where that was in vain so far.
pub(crate) fn again(time: u64, ticks: Option<Ticks>, wait: u64, most: u64) -> u64
    requires { wait ≤ LONGEST }
    ensures { result ≡ again time ticks wait most }
{
    match ticks {
        Some(ticks) if ticks.in_vain > 0 => {
            left(time, ticks.last, doubled(wait, ticks.in_vain, most))
        }
        _ => 0,
    }
}

/// What is left of the space between two ticks.
pub(crate) fn spaced(time: u64, ticks: Option<Ticks>) -> u64
    ensures { result ≡ spaced time ticks }
{
    match ticks {
        Some(ticks) => left(time, ticks.last, SPACE),
        None => 0,
    }
}
