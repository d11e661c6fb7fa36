ghost use Rattle.std.specs.Prelude.{◌<◌, nat_eq};
ghost use Rattle.std.specs.List.{IsDistinct};

use card_core::{Card, Deal};
use deck_draw::draw;
use hand_rank::{HandValue, best_of_all_fives, best_of_seven};
use std::io;

/// The sample's deals: of so many hands, for so many players, from this seed. They have a million sevens.
const DEALS: u32 = 100_000;

const PLAYERS: usize = 10;

const SEED: u64 = 7;

/// The highest card of the pack, the ace of spades; the lowest one, the deuce of clubs, has the number 0.
const ACE: u8 = 51;

/// Which body ranks the hands.
#[derive(Clone, Copy)]
pub enum Body {
    /// The one that counts ranks.
    Counts,
    /// The one that looks at all fives.
    AllFives,
    /// Both, which are to find the same.
    Both,
}

/// What was found so far.
#[derive(Clone, Copy)]
struct Found {
    /// How many hands of each category, from high card to straight flush.
    tally: [u64; 9],
    /// For how many hands the two bodies differ.
    different: u64,
}

/// Prints the categories of all seven-card hands with the deuce of clubs and the ace of spades.
pub fn print_all(rt: &impl Print, body: Body) -> io::Result<()> {
    let mut found = Found::nothing();
    for first in 1..ACE {
        for second in 1..first {
            count_with(&mut found, body, first, second);
        }
    }
    let Found { tally, different } = found;
    rt.println(format_args!("sevens with 2c and As by category: {tally:?}, {different} different"))
}

/// Ranks the same hands and the sample by both bodies, and prints for how many hands they differ.
pub fn print_compared(rt: &impl Print) -> io::Result<()> {
    print_all(rt, Body::Both)?;
    print_sample(rt)
}

/// Prints the categories of the sample's sevens, and for how many of them the two bodies differ.
fn print_sample(rt: &impl Print) -> io::Result<()> {
    let mut found = Found::nothing();
    for hand in 0..DEALS {
        count_deal(&mut found, &draw(SEED, hand, PLAYERS));
    }
    let Found { tally, different } = found;
    rt.println(format_args!("drawn sevens by category: {tally:?}, {different} different"))
}

/// Counts the hands of all positions of a deal.
fn count_deal(found: &mut Found, deal: &Deal) {
    for position in 0..deal.players() {
        found.count(Body::Both, deal.seven(position));
    }
}

/// Counts the hands of which these two cards are the highest below the ace.
fn count_with(found: &mut Found, body: Body, first: u8, second: u8)
    requires low { 0 < second }
    requires order { second < first }
    requires high { first < 51 }
{
    for third in 1..second {
        for fourth in 1..third {
            count_from(found, body, first, second, third, fourth);
        }
    }
}

/// Counts the hands of which these four cards are the highest below the ace.
fn count_from(found: &mut Found, body: Body, first: u8, second: u8, third: u8, fourth: u8)
    requires fourth { 0 < fourth }
    requires third { fourth < third }
    requires second { third < second }
    requires first { second < first }
    requires high { first < 51 }
{
    for fifth in 1..fourth {
        let cards = [
            Card::from_number(ACE),
            Card::from_number(first),
            Card::from_number(second),
            Card::from_number(third),
            Card::from_number(fourth),
            Card::from_number(fifth),
            Card::from_number(0),
        ];
        found.count(body, cards);
    }
}

impl Found {
    /// Nothing found yet.
    fn nothing() -> Found {
        Found {
            tally: [0; 9],
            different: 0,
        }
    }

    /// Counts a hand.
    fn count(&mut self, body: Body, cards: [Card; 7])
        requires { IsDistinct nat_eq cards }
    {
        let value = match body {
            Body::Counts => best_of_seven(&cards),
            Body::AllFives => best_of_all_fives(&cards),
            Body::Both => self.compared(&cards),
        };
        let category = usize::from(value.category());
        self.tally[category] = self.tally[category].wrapping_add(1);
    }

    /// The value by both bodies, and whether they differ.
    fn compared(&mut self, cards: &[Card; 7]) -> HandValue
        requires { IsDistinct nat_eq cards.now }
    {
        let value = best_of_seven(cards);
        if best_of_all_fives(cards) != value {
            self.different = self.different.wrapping_add(1);
        }
        value
    }
}
