//! What holds of relays, whatever happens: each law is the contract of a function that does nothing.

ghost use Rattle.seat_relay.specs.Dealing.{DealersLinesAscend, BotsAreGivenOneDealersLines, BotsAreGivenAllLines};
ghost use Rattle.seat_relay.specs.Places.{LinesOfViewsArePlaced};
ghost use Rattle.seat_relay.specs.Laws.{LinesAscend, LinesAreABeginning, OverIsTheEnd, AnswersAreCurrent, AnswersAreFew, FirstAnswersStand};

use matchstate::laws::a_view_has_one_line;

/// Whatever nodes tell, each line that a bot is given stands behind the one before it in the match: no two of one place come.
pub fn lines_ascend()
    ensures { LinesAscend }
{}

/// Where nodes tell the lines of one dealer, a bot is given a beginning of them, or where its lines may begin anywhere a part:
/// each once, in order, and none left out, whatever connections end and wherever they begin.
pub fn lines_are_a_beginning()
    ensures { LinesAreABeginning }
{}

/// Once a relay knows that the match is over, its bot was given all lines up to the last, where nodes say so only behind it.
pub fn over_is_the_end()
    ensures { OverIsTheEnd }
{}

/// Each answer that is said to a node is to the line that the bot was given last.
pub fn answers_are_current()
    ensures { AnswersAreCurrent }
{}

/// Where first answers are to stand, an answer that is kept stays until the bot is given a further line, and each answer that is
/// said to a node meanwhile is this one.
pub fn first_answers_stand()
    ensures { FirstAnswersStand }
{}

/// To each node no more answers are said than texts of the bot and connections to it, together.
pub fn answers_are_few()
    ensures { AnswersAreFew }
{}

/// The lines that a seat gets of a sequential dealer stand one behind the other, each once, whatever the commands are.
pub fn dealers_lines_ascend()
    ensures { DealersLinesAscend }
{}

/// Where over each connection come lines of one sequential dealer without a gap, the bot is given a beginning of that dealer's
/// lines, or where its lines may begin anywhere a part of them without a gap.
pub fn bots_are_given_one_dealers_lines()
    ensures { BotsAreGivenOneDealersLines }
{}

/// Once a relay knows that the match is over, its bot was given all of that dealer's lines up to the last, where nodes say so
/// only behind it.
pub fn bots_are_given_all_lines()
    ensures { BotsAreGivenAllLines }
{}

/// The dealer's line of a view has a place: the number of its hand, and the length of its betting string.
pub fn lines_of_views_are_placed()
    ensures { LinesOfViewsArePlaced }
{
    a_view_has_one_line();
}
