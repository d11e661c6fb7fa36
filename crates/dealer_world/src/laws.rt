//! What holds of every run of the protocol, and what follows for whoever reads a cluster's record: each law is the
//! contract of a function that does nothing.

ghost use Rattle.std.specs.Prelude.{◌≡◌, ℕ, ◌≤◌, List, length};
ghost use Rattle.paxos_wire.specs.declared.ballot.Ballot.{Ballot};
ghost use Rattle.slot_log.specs.declared.command.Command.{Command};
ghost use Rattle.protocol_model.specs.Sets.{In, IsBeginning};
ghost use Rattle.protocol_model.specs.Ballots.{Below};
ghost use Rattle.protocol_model.specs.Messages.{Accept};
ghost use Rattle.protocol_model.specs.Quorums.{IsChosenIn, IsChosen, AreChosen};
ghost use Rattle.protocol_model.specs.Dealers.{Dealer};
ghost use Rattle.protocol_model.specs.Laws.{OneDealer, HasOrigin};
ghost use Rattle.protocol_model.specs.Worlds.{World, Reached};
ghost use Rattle.dealer_world.specs.Given.{Given};
ghost use Rattle.dealer_world.specs.RecordLaws.{OldFramesSayTheSame, LinesOfRecordsAgree, AlikeListsShowTheSame, CompleteLogsAreMatchLogs};
ghost use Rattle.dealer_world.specs.EndRuns.{RunsCanEnd};
ghost use Rattle.dealer_world.specs.CaseRuns.{NodesHaveCases, OrdersHelpRuns};
ghost use Rattle.dealer_world.specs.CalmRun.{NoDeadEnd, RoundsMoveOn, FreshClustersAreCalm};
ghost use Rattle.dealer_world.specs.CalmCluster.{ClustersAtRestMove};
ghost use Rattle.dealer_world.specs.TakenEvents.{SoundEventsAreTaken};
ghost use Rattle.dealer_world.specs.Calling.{EventsAreCalls, VainEventsAreNone, FrontsAreSeen, ConflictsAreRefusals, BrokenEventsAreCalls};
ghost use Rattle.dealer_world.specs.RuleRuns.{RunsShowOneList, RunsAreBacked, RunsSendToNodes, RunsNeverConflict, RunsApplyTheChosen, RunsChooseOneList};

use dealer_kind::laws::{deals_are_owned_acts_are_said_and_aways_are_ordered, owners_may_widen};
use dealer_node::laws::seen_as_one;
use deck_draw::laws::draws_are_deals;
use matchstate::laws::{agree, beginnings_are_alike};
use node_rules::laws::{calls_are_sound, calm_rounds_move, matches_can_end, refusals_have_reasons};
use paxos_wire::old_frames_read_back;
use promise_store::Disk;
use protocol_model::laws::{
    backing_lasts, chains_reach, known_is_chosen, one_dealer as protocol_one_dealer,
    owners_may_change,
};

/// What the layers below promise of runs by the rules, together.
fn layers_below()
    ensures { Given }
{
    calls_are_sound();
    chains_reach();
    deals_are_owned_acts_are_said_and_aways_are_ordered();
    known_is_chosen();
    owners_may_change();
    owners_may_widen();
}

/// What is chosen stays chosen: in every run, of any number of nodes, whatever was lost, repeated or late and whoever
/// stopped and started again at any moment.
///
/// If a command was chosen at a slot in a ballot, each proposal of a greater ballot there carries it. So each slot has
/// at most one chosen command, and of two lists of commands chosen at the first slots the shorter is a beginning of
/// the longer. (The safety theorem of 'Paxos Made Simple'.)
pub fn one_choice()
    ensures carried { (dealer : Dealer) (n : ℕ) (world : World) (lower greater : Ballot) (slot : ℕ) (chosen command : Command)
        → Reached dealer n world → IsChosenIn n world.ever lower slot chosen
        → Below lower greater → In (Accept greater slot command) world.ever → command ≡ chosen }
    ensures one { (dealer : Dealer) (n : ℕ) (world : World) (slot : ℕ) (a b : Command)
        → Reached dealer n world → IsChosen n world.ever slot a → IsChosen n world.ever slot b → a ≡ b }
    ensures lists { (dealer : Dealer) (n : ℕ) (world : World) (shorter longer : List Command)
        → Reached dealer n world → AreChosen n world.ever shorter → AreChosen n world.ever longer
        → length shorter ≤ length longer → IsBeginning shorter longer }
{
    protocol_model::laws::one_choice();
}

/// All that is shown comes from one dealer: in every run there is one list of chosen commands, each of which fits after
/// those before it, such that each line and each log shows the effect of a beginning of that list, and within one start
/// of a node these beginnings never get shorter.
///
/// And no command is invented: a chosen deal is some node's own, and a chosen act was said. At a moment of the run the
/// bytes that a seat had sent to a node since it connected there held a whole line that says the act, in answer to the
/// seat's line after commands that were chosen by then.
pub fn one_dealer()
    ensures list { (dealer : Dealer) (n : ℕ) (world : World) → Reached dealer n world → OneDealer dealer n world }
    ensures origin { (dealer : Dealer) (n : ℕ) (world : World) (slot : ℕ) (command : Command)
        → Reached dealer n world → IsChosen n world.ever slot command → HasOrigin dealer n world.ever world.came command }
{
    protocol_model::laws::one_dealer();
}

/// Any two lines of one match agree, of whatever nodes, starts and seats: they are of different hands, or one's
/// actions begin the other's and so do their betting texts, and no place shows two cards.
///
/// This follows wherever one list is behind the records, as it is after every step of a cluster.
pub fn lines_of_records_agree()
    ensures { LinesOfRecordsAgree }
{
    agree();
}

/// A seat's lines tell it nothing that is hidden from it: where another list of commands differs from the one behind
/// the records only in cards that the seat doesn't see, each of its lines is also its line after a beginning of that
/// list.
pub fn alike_lists_show_the_same()
    ensures { AlikeListsShowTheSame }
{
    beginnings_are_alike();
}

/// A log whose match is over is one that `match_log::check` accepts: its payoffs are those of the pots. The nodes of each
/// era had deals within the limits of a config; what they drew from their seeds are deals.
pub fn complete_logs_are_match_logs()
    ensures { CompleteLogsAreMatchLogs }
{
    draws_are_deals();
}

/// A record of frames that version 1 wrote says what it said to nodes of that version: so what is promised of eras holds
/// of one whose frames are of it.
pub fn old_frames_say_the_same()
    ensures { OldFramesSayTheSame }
{
    old_frames_read_back();
}

/// In every run of a cluster whose nodes keep the rules, over all its eras, in which no frame was forged, there is one
/// list of chosen commands behind all lines and logs.
pub fn runs_show_one_list()
    ensures { RunsShowOneList }
{
    layers_below();
    one_choice();
    protocol_one_dealer();
    deals_are_owned_acts_are_said_and_aways_are_ordered();
}

/// And what each node said by its frames both stores back that its next start may find.
pub fn runs_are_backed()
    ensures { RunsAreBacked }
{
    layers_below();
    backing_lasts();
}

/// In every run of a cluster whose nodes keep the rules, in which no frame was forged, each frame goes from a node of the
/// match to another.
pub fn runs_send_to_nodes()
    ensures { RunsSendToNodes }
{
    layers_below();
}

/// And no call finds another command known at a slot where one was chosen: 95 never comes.
pub fn runs_never_conflict()
    ensures { RunsNeverConflict }
{
    layers_below();
    refusals_have_reasons();
}

/// And each command that a running node applied is chosen at its slot by what was said. So what the node's table shows is
/// what every other node's table shows or will show, and a line that is told again is a line of the one list.
pub fn runs_apply_the_chosen()
    ensures { RunsApplyTheChosen }
{
    layers_below();
}

/// And of two lists of commands that are chosen so the shorter one is a beginning of the longer.
pub fn runs_choose_one_list()
    ensures { RunsChooseOneList }
{
    layers_below();
    one_choice();
}

/// No reached state is a dead end: in every run of the rules in which no frame was forged, where a node of a least quorum
/// of nodes that run has something to propose, and rounds and slots are left, it has a way on of at most four events for
/// each member.
///
/// None of the way's frames is forged and none of its events is refused, after each beginning of it; and once all of it
/// was given to its nodes, and found memory and disks that didn't fail, the node's front has passed the slots of the
/// commands, each of which it knows.
pub fn no_dead_end()
    ensures { NoDeadEnd }
{
    layers_below();
    node_rules::laws::no_dead_end();
}

/// Each node of a match that has a slot at its front has something to propose with the members of a quorum, or awaits a bot,
/// or the match is over at it. And where one that runs awaits a bot, an order that the player to act is played for isn't
/// refused, and then it has something to propose.
pub fn members_have_cases()
    ensures each { NodesHaveCases }
    ensures orders { OrdersHelpRuns }
{
    layers_below();
    draws_are_deals();
    node_rules::laws::members_have_cases();
}

/// Every match can be ended: from every state of a run of the rules in which no frame was forged, at each member of a least
/// quorum, by at most q + 3 + (N - f)(4q - 2) events of its members, as `node_rules` has them. None of them is refused, and no
/// frame of them is forged.
pub fn runs_can_end()
    ensures { RunsCanEnd }
{
    layers_below();
    draws_are_deals();
    matches_can_end();
}

/// A cluster at rest whose nodes keep the rules moves: in every run in which no frame was forged, where the members of a
/// least quorum are calm for a node, none of the frames of its round is forged and none of its events is refused, after
/// each beginning of it; and once all of it was given to its nodes, and found memory and disks that didn't fail, that
/// node's front has passed the slots of the round's commands, each of which it knows. It follows from `no_dead_end`.
pub fn rounds_move_on()
    ensures { RoundsMoveOn }
{
    no_dead_end();
    node_rules::laws::no_dead_end();
}

/// What `Cluster::run` promises of the ways of a node that is movable, it promises of the round of a cluster at rest.
pub fn clusters_at_rest_move<D: Disk + Drop>()
    ensures { ClustersAtRestMove D.Disk }
{
    node_rules::laws::no_dead_end();
}

/// An event of a way that was given to a node is one call of it by the rules, of that kind, unless it was answered by 92, or
/// by 91 because the disk failed.
pub fn sound_events_are_taken<D: Disk + Drop>()
    ensures { SoundEventsAreTaken D.Disk }
{
    seen_as_one::<D>();
}

/// Nodes that have just been started on empty stores are at rest: where a node deals the first hand, it could move each
/// least quorum to which it belongs on to that deal. So what is said of clusters at rest isn't said of none.
pub fn fresh_clusters_are_calm()
    ensures { FreshClustersAreCalm }
{
    calm_rounds_move();
}

/// An event that was given to a node is one call of it by the rules, and none where there was no memory. One that broke
/// off in the middle of its append is a call that failed, and one that was answered by 95 is one that the rules refuse so.
pub fn events_are_calls<D: Disk + Drop>()
    ensures calls { EventsAreCalls D.Disk }
    ensures none { VainEventsAreNone D.Disk }
    ensures broken { BrokenEventsAreCalls }
    ensures conflict { ConflictsAreRefusals D.Disk }
    ensures front { FrontsAreSeen D.Disk }
{
    seen_as_one::<D>();
}
