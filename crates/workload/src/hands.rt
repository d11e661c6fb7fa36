ghost use Rattle.std.specs.Prelude.{◌<◌};

use card_core::{Card, Deal};
use deck_draw::draw;
use hand_rank::{HandValue, best_of_seven, value_of_five};
use std::io;

/// How many cards the pack has.
const PACK: u8 = 52;

/// The deals that are drawn: of so many hands, for so many players, from this seed.
const DEALS: u32 = 20_000;

const PLAYERS: usize = 10;

const SEED: u64 = 1;

/// How many hands of each category were met, from high card to straight flush.
type Tally = [u64; 9];

/// Prints how many of the five-card hands are of each category.
pub fn print_categories(rt: &impl Print) -> io::Result<()> {
    let tally = five_card_hands();
    rt.println(format_args!("five-card hands by category: {tally:?}"))
}

/// Prints how many of the hands of the drawn deals are of each category, the best five of seven cards counting.
pub fn print_best_of_seven(rt: &impl Print) -> io::Result<()> {
    let mut tally = [0; 9];
    for hand in 0..DEALS {
        count_deal(&mut tally, &draw(SEED, hand, PLAYERS));
    }
    rt.println(format_args!("best of seven by category: {tally:?}"))
}

/// Prints a checksum of the drawn deals alone.
pub fn print_draws(rt: &impl Print) -> io::Result<()> {
    let mut sum = 0u64;
    for hand in 0..DEALS {
        let [first, ..] = draw(SEED, hand, PLAYERS).board();
        sum = sum.wrapping_add(u64::from(first.number()));
    }
    rt.println(format_args!("draws: the flops' first cards sum to {sum}"))
}

/// Counts the hands of all positions of a deal.
fn count_deal(tally: &mut Tally, deal: &Deal) {
    for position in 0..deal.players() {
        count(tally, best_of_seven(&deal.seven(position)));
    }
}

/// How many of the 2,598,960 five-card hands are of each category.
fn five_card_hands() -> Tally {
    let mut tally = [0; 9];
    for first in 0..PACK {
        for second in 0..first {
            fives_with(&mut tally, first, second);
        }
    }
    tally
}

/// Counts the fives whose highest cards are these two.
fn fives_with(tally: &mut Tally, first: u8, second: u8)
    requires first { first < 52 }
    requires second { second < 52 }
{
    let highest = [Card::from_number(first), Card::from_number(second)];
    for third in 0..second {
        let third = Card::from_number(third);
        for fourth in 0..third.number() {
            fives_from(tally, highest, third, Card::from_number(fourth));
        }
    }
}

/// Counts the fives whose highest cards are these four.
fn fives_from(tally: &mut Tally, [first, second]: [Card; 2], third: Card, fourth: Card) {
    for fifth in 0..fourth.number() {
        count_hand(
            tally,
            [first, second, third, fourth, Card::from_number(fifth)],
        );
    }
}

/// Counts one hand.
fn count_hand(tally: &mut Tally, cards: [Card; 5]) {
    count(tally, value_of_five(&cards));
}

/// Counts a value under its category.
fn count(tally: &mut Tally, value: HandValue) {
    let category = usize::from(value.category());
    tally[category] = tally[category].wrapping_add(1);
}
