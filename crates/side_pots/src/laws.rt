//! What holds of the payoffs of every hand: each law is the contract of a function that does nothing.

ghost use Rattle.side_pots.specs.Laws.{LonePlayerNeedsNoShowdown};

/// Where at most one player hasn't folded, the payoffs are the same whatever the hands are worth.
pub fn a_lone_player_needs_no_showdown()
    ensures { LonePlayerNeedsNoShowdown }
{}
