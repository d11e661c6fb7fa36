//! What holds of what is due and of turns: each law is the contract of a function that does nothing.

ghost use Rattle.serving.specs.Played.{PlayedAreLeftAlone, PlayedWereDropped, PlayedStaySo};

use promise_store::Disk;

/// A seat that is played for is never awaited, read from or dropped.
pub fn played_seats_are_left_alone()
    ensures { PlayedAreLeftAlone }
{}

/// A seat that is played for behind a turn that was answered Ok was so before it, or was dropped by it, where absent
/// seats are played for; and then no event of it waits.
pub fn played_seats_were_dropped<D: Disk + Drop>()
    ensures { PlayedWereDropped D.Disk }
{}

/// A seat that is played for, of which no event waits, stays so by each turn that was answered Ok or 92.
pub fn played_seats_stay_so<D: Disk + Drop>()
    ensures { PlayedStaySo D.Disk }
{}
