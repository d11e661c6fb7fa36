//! What holds of what a proposer counts and proposes: each law is the contract of a function that does nothing.

ghost use Rattle.proposer.specs.Laws.{GreatestDecides, ProposalsAreSafe, QuorumLeads, OnePromiseLeadsNot, LeaderProposes, ProposesOnce, BeginCounts, BeginCountsAll, BeginMarks, PromiseCounts, PromiseCountsAll, PromiseMarks, OthersCount, OthersCountAll, OthersMark, ProposalCounts, ProposalCountsAll, ProposalMarks, PromiseStays, ProposalStays};
ghost use Rattle.proposer.specs.CommandRunLaws.{CommandRunsAreSafe, LeaderProposesCommandRun, OneIsAProposal, CommandRunsEnd, NoneToldIsFree, BoundIsLeast, BoundIsMost, BoundedNow, BoundedLater, CommandRunCounts, CommandRunCountsAll, CommandRunMarks, CommandRunStays};

/// What is proposed is what the counted promises make safe: the told command of the greatest ballot, or where none was
/// told the own one, once at a slot, in a window of 64.
///
/// Where the promises that were counted are among the messages that a node has, that is the condition under which the
/// model of nodes lets it propose.
pub fn proposals_are_safe()
    ensures greatest { GreatestDecides }
    ensures safe { ProposalsAreSafe }
    ensures once { ProposesOnce }
{}

/// A campaign leads exactly where promises of more than half of the nodes came, which the first promise of three or more
/// nodes never makes, and then proposes what there is to propose, unless it did so at that slot.
pub fn leaders_propose()
    ensures quorum { QuorumLeads }
    ensures alone { OnePromiseLeadsNot }
    ensures proposes { LeaderProposes }
{}

/// That nothing is counted but what came, that nothing that came is left out, and that marks stand exactly where
/// proposals were sent: all three hold from the beginning of a ballot on, as messages come and go.
pub fn counts_are_kept()
    ensures begin { BeginCounts }
    ensures begin_all { BeginCountsAll }
    ensures begin_marks { BeginMarks }
    ensures promise { PromiseCounts }
    ensures promise_all { PromiseCountsAll }
    ensures promise_marks { PromiseMarks }
    ensures others { OthersCount }
    ensures others_all { OthersCountAll }
    ensures others_marks { OthersMark }
    ensures proposal { ProposalCounts }
    ensures proposal_all { ProposalCountsAll }
    ensures proposal_marks { ProposalMarks }
    ensures promise_stays { PromiseStays }
    ensures proposal_stays { ProposalStays }
{}

/// What is proposed at once is, slot by slot, what may be proposed there: the told command of the greatest ballot, at slots
/// that follow one another, or the own command alone, where none was told.
///
/// A leader proposes what there is to propose, and one command at a time where none follows.
pub fn command_runs_are_safe()
    ensures safe { CommandRunsAreSafe }
    ensures proposes { LeaderProposesCommandRun }
    ensures one { OneIsAProposal }
{}

/// Told commands are proposed together as far as they may follow one another: to the end of the slots that are covered or
/// that there are, or to one where something was proposed or of which none is told, and such a slot is free.
pub fn command_runs_end()
    ensures ends { CommandRunsEnd }
    ensures free { NoneToldIsFree }
{}

/// How many commands are proposed at once, from 1 to 64, is known before: now, and before a promise is counted by the number
/// of its entries.
pub fn command_runs_are_bounded()
    ensures least { BoundIsLeast }
    ensures most { BoundIsMost }
    ensures now { BoundedNow }
    ensures later { BoundedLater }
{}

/// Where commands were proposed at once, what was counted stays counted, and marks stand exactly where proposals were sent.
pub fn command_runs_are_marked()
    ensures counts { CommandRunCounts }
    ensures counts_all { CommandRunCountsAll }
    ensures marks { CommandRunMarks }
    ensures stays { CommandRunStays }
{}
