ghost use Rattle.std.specs.Prelude.{◌<◌};

use crate::asserting::same;
use card_core::Card;
use hand_rank::{HandValue, value_of_five};
use side_pots::settle;
use std::process::Abort;

/// A pair and the cards six, five and four: the higher the rank of the pair, the better the hand.
fn pair_of(rank: u8) -> HandValue
    requires { rank < 13 }
{
    value_of_five(&[
        Card::from_number(4 * rank),
        Card::from_number(4 * rank + 1),
        Card::from_number(18),
        Card::from_number(15),
        Card::from_number(8),
    ])
}

/// 5, 10 and 10 chips, the first player having folded: one pot of 25.
fn one_pot(rt: &impl Abort, twos: HandValue, kings: HandValue) {
    let payoffs = settle(&[5, 10, 10], &[true, false, false], &[twos, kings, kings]);
    same!(rt; payoffs.as_slice(), [-5, 3, 2].as_slice());
}

/// Pots of 450 and 1700.
fn two_pots(rt: &impl Abort, twos: HandValue, aces: HandValue, kings: HandValue) {
    let payoffs = settle(
        &[1000, 150, 1000],
        &[false, false, false],
        &[twos, aces, kings],
    );
    same!(rt; payoffs.as_slice(), [-1000, 300, 700].as_slice());
}

#[test]
fn one_pot_and_two_pots(rt: HostRuntime) {
    let [twos, kings, aces] = [pair_of(0), pair_of(11), pair_of(12)];
    one_pot(&rt, twos, kings);
    two_pots(&rt, twos, aces, kings);
}
