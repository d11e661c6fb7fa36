//! What holds of the hands of every match and of every log of slots: each law is the contract of a function that does nothing.

ghost use Rattle.slot_log.specs.Laws.{HandsComeOfCommands, CommandsDealTheHands, FitsWithoutReason, CommandsMakeHands, FittingIsInRange, NewestIsFound, AwayIsNeverIllegal, NextAwayFits, NoOtherAwayFits};
ghost use Rattle.slot_log.specs.SlotLaws.{FrontIsFirstHole, SlotsEnd, OneMoreIsKnown, FrontsGoOn, CommandsAreKept};

use betting::laws::{allowed_without_fault, hands_end, raises_go_up, somebody_may_call};

/// Legal hands, all but the newest finished and no more than the match has, come of the commands that deal
/// and play them.
pub fn hands_come_of_commands()
    ensures { HandsComeOfCommands }
{
    allowed_without_fault();
}

/// The commands that deal and play hands deal their cards, and no others.
pub fn commands_deal_the_hands()
    ensures { CommandsDealTheHands }
{}

/// A command fits exactly where there is no reason against it.
pub fn fits_without_reason()
    ensures { FitsWithoutReason }
{
    allowed_without_fault();
}

/// Whatever the commands, the hands that they make are legal, all but the newest finished and no more than the
/// match has.
pub fn commands_make_hands()
    ensures { CommandsMakeHands }
{
    allowed_without_fault();
}

/// The numbers of a command that fits the hands of a match of at most 10000 hands are within their ranges: its hand
/// below 10000, its index below 256, its amount at most 2147483647.
pub fn fitting_is_in_range()
    ensures { FittingIsInRange }
{
    hands_end();
    raises_go_up();
}

/// What is done for a player who is away is legal: where a hand runs, the command for its player to act fits, and no other
/// that plays for somebody.
pub fn away_is_legal()
    ensures never { AwayIsNeverIllegal }
    ensures next { NextAwayFits }
    ensures only { NoOtherAwayFits }
{
    allowed_without_fault();
    somebody_may_call();
}

/// The newest hand stands at the number of those before it.
pub fn newest_is_found()
    ensures { NewestIsFound }
{}

/// The front of a log of slots is the first slot whose command isn't known.
pub fn front_is_first_hole()
    ensures { FrontIsFirstHole }
{}

/// No command is known at a slot of 4,000,000 or above.
pub fn slots_end()
    ensures { SlotsEnd }
{}

/// A command that becomes known is known at its slot, and at all other slots is known what was.
pub fn one_more_is_known()
    ensures { OneMoreIsKnown }
{}

/// The commands below the front stay there when a further command becomes known.
pub fn fronts_go_on()
    ensures { FrontsGoOn }
{}

/// Where one more command becomes known, those below the front and those beyond it are one more together: the front
/// goes on over commands that are known, and none is lost.
pub fn commands_are_kept()
    ensures { CommandsAreKept }
{}
