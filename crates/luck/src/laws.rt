//! What holds of the deals that are counted: each law is the contract of a function that does nothing.

ghost use Rattle.luck.specs.Laws.{CountedAreDeals, DealsDivideParts};

/// What is counted once a street is dealt are deals that begin with the known cards: cards of the pack, none of them
/// twice. Before the flop this holds of those that are drawn.
pub fn counted_are_deals()
    ensures { CountedAreDeals }
{}

/// The number of deals that are counted divides that of a chip's parts, so no mean is rounded.
pub fn deals_divide_parts()
    ensures { DealsDivideParts }
{}
