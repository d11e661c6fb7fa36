//! What holds of the logs of every match: each law is the contract of a function that does nothing.

ghost use Rattle.match_log.specs.Laws.{LogsGrow, CommandsAddToTheLog, LogsBeginWithTheirHeader};
ghost use Rattle.match_log.specs.Verdict.{HandsEndFinished, PayoffsAreThoseShown, OneVerdict};

use betting::laws::{allowed_without_fault, nobody_passes_his_stack, showdowns_show_all_rounds};
use matchstate::laws::{betting_texts_are_one_to_one, deal_texts_are_one_to_one};
use side_pots::laws::a_lone_player_needs_no_showdown;

/// A log only grows: further commands add to its end, and never shorten or change what stands there.
pub fn logs_grow()
    ensures { LogsGrow }
{}

/// What a command adds to the log: nothing where it doesn't fit; else, once the hand is over, its line, and once the
/// match is over, the score.
pub fn commands_add_to_the_log()
    ensures { CommandsAddToTheLog }
{}

/// Before the first command the log of a match of one hand or more is its header.
pub fn logs_begin_with_their_header()
    ensures { LogsBeginWithTheirHeader }
{}

/// The hands of commands that deal no card twice and end the match are played by the rules to their end, and
/// are as many as the match has.
pub fn hands_end_finished()
    ensures { HandsEndFinished }
{
    allowed_without_fault();
}

/// Two played hands whose lines show the same actions and cards pay the same: at a showdown a line shows all
/// cards, and where one player is left they don't count.
pub fn payoffs_are_those_of_what_is_shown()
    ensures { PayoffsAreThoseShown }
{
    deal_texts_are_one_to_one();
    showdowns_show_all_rounds();
    a_lone_player_needs_no_showdown();
}

/// A text has one verdict: it is the log of a match that is over, or one line is the first at fault, for one
/// reason.
pub fn one_verdict()
    ensures { OneVerdict }
{
    betting_texts_are_one_to_one();
    payoffs_are_those_of_what_is_shown();
    nobody_passes_his_stack();
    hands_end_finished();
}
