//! What holds of the rules: each law is the contract of a function that does nothing.

ghost use Rattle.node_rules.specs.CalmRound.{CalmRoundMoves, FreshIsCalm};
ghost use Rattle.node_rules.specs.Cases.{EachHasACase, OrdersHelp};
ghost use Rattle.node_rules.specs.Endings.{MatchesCanEnd};
ghost use Rattle.node_rules.specs.Given.{Given};
ghost use Rattle.node_rules.specs.Outcomes.{PromisesMakeProposals, FrontIsUnknown, ToldIsKnown, VotesStayInTime, QuorumIsKnown};
ghost use Rattle.node_rules.specs.Sound.{TurnsAreChains, AppendsAreBegun, CallsAreSound, LinesAreRefusedDown};
ghost use Rattle.node_rules.specs.LawsAnswers.{FramesAnswer, AcceptsAreAnswered};
ghost use Rattle.node_rules.specs.LawsBacking.{SentIsBacked, BackedStaysSo};
ghost use Rattle.node_rules.specs.LawsCreated.{CreatedIsNew};
ghost use Rattle.node_rules.specs.LawsOrder.{OrdersAreTaken};
ghost use Rattle.node_rules.specs.LawsPending.{ActsWait, WaitingFits};
ghost use Rattle.node_rules.specs.LawsRefused.{RefusalsHaveReasons};
ghost use Rattle.node_rules.specs.LawsRuns.{CommandRunsAreTold};
ghost use Rattle.node_rules.specs.LawsSeats.{PiecesAreHeard, OthersArePassedOver, ConnectBeginsAnew, DropEnds, SessionsStay, FaultsAreOfPieces, LivesAreWhole, UnconnectedSeatsShowSo};
ghost use Rattle.node_rules.specs.LawsShown.{CallsShow, DownShowsNothing};
ghost use Rattle.node_rules.specs.LawsTick.{TicksPrepare};
ghost use Rattle.node_rules.specs.LawsValue.{DealsComeFirst};
ghost use Rattle.node_rules.specs.LawsVotes.{OwnVotesAreInTime, RefusedBallotsEnd};
ghost use Rattle.node_rules.specs.Ways.{NoDeadEnd, MostIsUnpromised, CalmIsMovable};

use betting::laws::hands_end;
use dealer_kind::laws::{answers_are_heard, nodes_are_few_and_odd, orders_play_for_the_next};
use learner::laws::{
    answers_of_runs_count, chosen_is_known, command_runs_are_known, completed_is_chosen,
    counts_are_kept as votes_are_kept, same_is_equal,
};
use match_log::laws::{commands_add_to_the_log, logs_begin_with_their_header};
use paxos_wire::readings_have_commands;
use proposer::laws::{
    command_runs_are_marked, command_runs_are_safe, command_runs_end, counts_are_kept,
    leaders_propose, proposals_are_safe,
};
use protocol_model::laws::{
    answers_have_proposals, backing_lasts, chains_reach, command_runs_are_carried,
    command_runs_are_moves, known_is_chosen, one_choice, one_dealer, one_node_is_no_quorum,
};
use seat_session::laws::{any_pieces, runs_go_on, whole_lines};
use slot_log::laws::{
    commands_make_hands, fits_without_reason, front_is_first_hole, fronts_go_on, one_more_is_known,
    slots_end,
};

/// What the layers below promise, together.
fn layers_below()
    ensures { Given }
{
    answers_are_heard();
    answers_have_proposals();
    answers_of_runs_count();
    backing_lasts();
    chains_reach();
    chosen_is_known();
    command_runs_are_carried();
    command_runs_are_known();
    command_runs_are_marked();
    command_runs_are_moves();
    command_runs_are_safe();
    command_runs_end();
    commands_add_to_the_log();
    commands_make_hands();
    completed_is_chosen();
    counts_are_kept();
    fits_without_reason();
    front_is_first_hole();
    fronts_go_on();
    known_is_chosen();
    leaders_propose();
    logs_begin_with_their_header();
    nodes_are_few_and_odd();
    one_choice();
    one_more_is_known();
    one_node_is_no_quorum();
    orders_play_for_the_next();
    proposals_are_safe();
    readings_have_commands();
    runs_go_on();
    same_is_equal();
    slots_end();
    votes_are_kept();
    whole_lines();
}

/// What a node does at a call is a chain of its moves in the world.
pub fn turns_are_chains()
    ensures { TurnsAreChains }
{
    layers_below();
}

/// However a call ends, by its turn, by a refusal, by a disk that failed or for want of memory, it is such a chain.
pub fn calls_are_sound()
    ensures appends { AppendsAreBegun }
    ensures calls { CallsAreSound }
    ensures lines { LinesAreRefusedDown }
{
    layers_below();
}

/// A quorum's promises make a proposal: after each call that a node took, one that has Promises by a quorum of the
/// ballot that it began and promised last, and got no Refuse that tells a greater one, has voted for a value at its front
/// in that ballot and sent an Accept of it to each other node, where its front is among the ballot's 64 slots and there is
/// a value. It is the told command of the greatest ballot, or where none was told the node's own deal, or its pending act.
pub fn promises_make_proposals()
    ensures { PromisesMakeProposals }
{
    layers_below();
}

/// What a quorum chose is known, as soon as a node is told of it, or has the quorum's votes.
///
/// After each call that a node took its front is the first slot whose command it doesn't know. A Chosen for one of the 64
/// slots from the front on is known. A vote for one of these, that came or that the node gave itself for an Accept that
/// came, is had in time, and stays so until the front passes its slot; a command that a quorum's votes in one ballot, had
/// in time, are for is known.
pub fn quorums_are_known()
    ensures front { FrontIsUnknown }
    ensures told { ToldIsKnown }
    ensures votes { VotesStayInTime }
    ensures quorum { QuorumIsKnown }
{
    layers_below();
}

/// A tick begins the node's ballot of the round after all that it has met, at its front, unless the match is over; 93 where none is left.
pub fn ticks_prepare()
    ensures { TicksPrepare }
{
    layers_below();
}

/// The frames of each call are exactly the answers to what came, what its close proposes, and its questions.
///
/// What answers an Accept goes by the store alone, whatever else the node knows and whoever sent it: where votes of the
/// ballot stand there, they are told and not what came.
pub fn frames_answer()
    ensures frames { FramesAnswer }
    ensures accepts { AcceptsAreAnswered }
{
    layers_below();
}

/// What a call sends its stores back, and what they backed before it they go on to back, however the call ends.
pub fn sent_is_backed()
    ensures sent { SentIsBacked }
    ensures stays { BackedStaysSo }
{
    layers_below();
    backing_lasts();
}

/// No reached state is a dead end: where a node of a least quorum of nodes that run has something to propose, and rounds
/// and slots are left, it has a way on of at most four events for each member, whatever the members have promised.
///
/// Where they have all promised only ballots below the node's next one, the way is the round of that ballot: a tick of
/// the node, and four times a frame with each other member in order. Else the member that promised most refuses that
/// ballot, and the way is a tick, Prepare to that member and its Refuse, and then the round of the ballot above what the
/// Refuse told. Each frame has been sent, to that node and with these bytes, by a turn of the way before, so no frame of
/// it is forged; by the rules each of its calls comes to a turn, whatever the turns before it were: none is refused, with
/// 90, 93, 94 or 95. At its end the node's front has passed the slots of the commands, each of which it knows.
///
/// The member that promised most is outbid by nobody, so for it the way is always the one round.
pub fn no_dead_end()
    ensures ways { NoDeadEnd }
    ensures most { MostIsUnpromised }
    ensures calm { CalmIsMovable }
{
    layers_below();
}

/// A node that has its deals, and a slot at its front, is in one of three cases: it has something to propose with the
/// members, or it awaits a bot, or the match is over at it.
///
/// It awaits a bot where a hand runs at it, no act waits there, and no member has a vote at its front. Then an order that
/// the player to act is played for isn't refused, its front stays, and it has something to propose.
pub fn members_have_cases()
    ensures each { EachHasACase }
    ensures orders { OrdersHelp }
{
    layers_below();
}

/// Every match can be ended, at each node that has its deals, with each least quorum to which it belongs: by starts of the
/// members that are down, and then by ticks of the node, orders of the default action at it, and frames that these made.
///
/// With q members, N commands at most in the hands of the match, and the node's front at f, that takes at most
/// q + 3 + (N - f)(4q - 2) events, as long as the rounds that the members have seen or promised lie N + 2 below 2^32. None
/// of these events is refused. Which frames come is said by the turns before them.
pub fn matches_can_end()
    ensures { MatchesCanEnd }
{
    layers_below();
    one_dealer();
    hands_end();
}

/// A cluster at rest moves: where the members of a least quorum are calm for one of them, its round goes on to its end,
/// whatever each call of it leaves, and then that node's front has passed the slots of the round's commands, each of which
/// it knows: all that the members have votes for from its front on, as far as such votes follow one another, up to 64.
///
/// The round is a tick of the node, and four times a frame with each other member in order: the first of the two ways of
/// `no_dead_end`. Nodes that have just been started on empty stores are calm, for each node and each least quorum to which
/// it belongs.
pub fn calm_rounds_move()
    ensures round { CalmRoundMoves }
    ensures fresh { FreshIsCalm }
{
    no_dead_end();
}

/// What each call shows: of each command that takes effect a line to each connected seat and then what the log gets, and nothing else but the current
/// line of a seat that gets ready and the header of a start; a node that is down shows nothing.
pub fn calls_show()
    ensures calls { CallsShow }
    ensures down { DownShowsNothing }
{
    layers_below();
}

/// An act that a seat says, or that another node hands on, waits where none does and it fits, and so does the command that
/// an order means, until it no longer fits or the node is down; nothing else waits, and what waits fits.
pub fn acts_wait()
    ensures calls { ActsWait }
    ensures fits { WaitingFits }
{
    layers_below();
}

/// All answers of a seat's session are taken, over its whole life, as its laws have them: each fault is told, once and in order, each act waits or goes
/// on, each Ready shows the current line, and the fault that closes the session drops the seat.
pub fn seats_are_heard()
    ensures pieces { PiecesAreHeard }
    ensures deaf { OthersArePassedOver }
    ensures connects { ConnectBeginsAnew }
    ensures drops { DropEnds }
    ensures stays { SessionsStay }
    ensures faults { FaultsAreOfPieces }
    ensures lives { LivesAreWhole }
    ensures unconnected { UnconnectedSeatsShowSo }
{
    layers_below();
    any_pieces();
}

/// A call is refused for its reason alone: of a node that is down each but start and stop; of one that runs a tick where
/// no round or no slot is left, an order where no hand runs, and bytes that are no frame. In a reached world that holds
/// what came no other command is ever known where one was chosen.
pub fn refusals_have_reasons()
    ensures { RefusalsHaveReasons }
{
    layers_below();
}

/// An order that the player to act is played for is taken wherever a hand runs at the node: the command that does so, of
/// that hand and of the number of its actions so far, waits where none does, and goes to the other node whose ballot was
/// promised. Where no hand runs it is 96, and nothing changes.
pub fn orders_are_taken()
    ensures { OrdersAreTaken }
{
    layers_below();
}

/// Of each proposal that a call sends the node has its own vote in time: it counts with those that come later.
pub fn own_votes_are_in_time()
    ensures { OwnVotesAreInTime }
{
    layers_below();
}

/// A ballot ends where it is refused: no call sends a proposal of a ballot where a Refuse that the node has got since its
/// start, with this call too, tells a greater one.
pub fn refused_ballots_end()
    ensures { RefusedBallotsEnd }
{
    layers_below();
}

/// A proposal has told commands in it, each the one of the greatest ballot at its slot, from the front on and as far as they
/// may follow one another; or where none was told at the front, what the node has of its own, alone.
pub fn command_runs_are_told()
    ensures { CommandRunsAreTold }
{
    layers_below();
}

/// What a node has of its own to propose is its own deal, where one fits after the commands that it knows below its front,
/// and else the act that waits.
pub fn deals_come_first()
    ensures { DealsComeFirst }
{}

/// A node whose store was just made, and that is down, is one that the world has never started.
pub fn created_is_new()
    ensures { CreatedIsNew }
{}
