//! What holds of what an acceptor answers and keeps: each law is the contract of a function that does nothing.

ghost use Rattle.acceptor.specs.Laws.{BelowIsTested, SameIsTested, ToldAreHeld, ToldRise, PromisesAbove, RefusesOthers, AcceptsAtMost, RefusesBelow, PreparesAreMoves, AcceptsAreMoves, VotesStand, StaysWithinPromise, RunsAreAppends, RunsAreStored, RunVotesStand, RunsStayWithin};

/// The tests of ballots tell their order, and whether two are the same.
pub fn ballots_are_compared()
    ensures below { BelowIsTested }
    ensures same { SameIsTested }
{}

/// A promise tells of all that was accepted at its 64 slots and of nothing else, by rising slots.
pub fn told_are_held()
    ensures held { ToldAreHeld }
    ensures rise { ToldRise }
{}

/// A ballot is promised exactly where it is above what was promised, and a proposal accepted exactly where its ballot
/// isn't below; what is told as accepted is stored.
pub fn answers_are_kept()
    ensures promises { PromisesAbove }
    ensures refuses { RefusesOthers }
    ensures accepts { AcceptsAtMost }
    ensures refuses_below { RefusesBelow }
{}

/// What an acceptor stores is a move of the model of nodes.
pub fn stores_are_moves()
    ensures prepares { PreparesAreMoves }
    ensures accepts { AcceptsAreMoves }
{}

/// In one ballot there is one vote at a slot: a vote stays, or one of a greater ballot takes its place.
pub fn votes_stand()
    ensures votes { VotesStand }
    ensures promise { StaysWithinPromise }
{}

/// What is told of a run of proposals is stored then, slot by slot; storing it is one append of the model's; and in one
/// ballot there is still one vote at a slot.
pub fn runs_are_kept()
    ensures appends { RunsAreAppends }
    ensures told { RunsAreStored }
    ensures votes { RunVotesStand }
    ensures promise { RunsStayWithin }
{}
