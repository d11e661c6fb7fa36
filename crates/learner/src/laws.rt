//! What holds of what a learner counts and knows: each law is the contract of a function that does nothing.

ghost use Rattle.learner.specs.Laws.{SameIsEqual, CompletedIsChosen, CompletesOnce, NewCounts, NewCountsAll, AnswerCounts, AnswerCountsAll, OthersArePassedOver, ChosenCounts, ChosenCountsAll, MoreMessages, NewKnows, AnswersAreKnown, ChosenAreKnown, NodesStay};
ghost use Rattle.learner.specs.CommandRunLaws.{RefusedByOne, RefusedIsUnchanged, OneIsAnAnswer, CommandRunCounts, CommandRunCountsAll, CommandRunNodesStay, ToldIsChosen, CommandRunsAreKnown};

use slot_log::laws::{front_is_first_hole, fronts_go_on, one_more_is_known};

/// The test of two commands tells whether they are the same.
pub fn same_is_equal()
    ensures { SameIsEqual }
{}

/// An answer completes a quorum exactly where its command is chosen in its ballot with it, and wasn't without it.
///
/// Where the answers that were counted are among the messages that a node has, that is the condition under which the
/// model of nodes lets it learn.
pub fn completed_is_chosen()
    ensures chosen { CompletedIsChosen }
    ensures once { CompletesOnce }
{}

/// That nothing is counted but what came, and that nothing is left out that came while its slot was open: both hold
/// from the beginning on, as messages come.
pub fn counts_are_kept()
    ensures new { NewCounts }
    ensures new_all { NewCountsAll }
    ensures answer { AnswerCounts }
    ensures answer_all { AnswerCountsAll }
    ensures others { OthersArePassedOver }
    ensures chosen { ChosenCounts }
    ensures chosen_all { ChosenCountsAll }
    ensures more { MoreMessages }
    ensures nodes { NodesStay }
{
    fronts_go_on();
}

/// What a quorum of the answers that came chose is known, as messages come.
pub fn chosen_is_known()
    ensures new { NewKnows }
    ensures answers { AnswersAreKnown }
    ensures chosen { ChosenAreKnown }
{
    one_more_is_known();
}

/// A command run is refused exactly where the answer for one of its slots would be, and then nothing changes; one of one
/// command is an answer for its slot.
pub fn command_runs_are_refused_whole()
    ensures refused { RefusedByOne }
    ensures unchanged { RefusedIsUnchanged }
    ensures one { OneIsAnAnswer }
{}

/// That of a command run nothing is counted but what came, and that each answer is counted that came while its slot was open,
/// unless all was refused.
pub fn answers_of_runs_count()
    ensures counts { CommandRunCounts }
    ensures counts_all { CommandRunCountsAll }
    ensures nodes { CommandRunNodesStay }
{
    fronts_go_on();
    one_more_is_known();
    front_is_first_hole();
}

/// Of a command run each command that is told to be chosen is, and what a quorum of the answers that came chose is known.
pub fn command_runs_are_known()
    ensures chosen { ToldIsChosen }
    ensures known { CommandRunsAreKnown }
{
    fronts_go_on();
    one_more_is_known();
    front_is_first_hole();
}
