//! Pots and payoffs: what each player of a finished hand gets back of the chips that were put in.
//!
//! A level of the pots holds one chip of each player who put in as many chips; levels that the same players compete
//! for are one pot, and each pot goes to the best hands among those players. `laws` has what holds of the payoffs
//! of every hand.
//!
//! There is one call, `settle`, with one entry for each position: what was put in, who folded, and what each hand is
//! worth by `hand_rank`; the test `one_pot_and_two_pots` of `rule_tests` shows it. It can't fail, and takes no memory:
//! a caller owes that some unfolded player has put in the most. The rule of pots stands in `specs/Pots.antt`.
#![tactic(auto)]

mod amounts;
pub mod laws;
mod settlement;
mod shares;
mod winners;

pub use settlement::settle;
