ghost use Rattle.arrayvec.specs.ArrayVec.{array_vec_len};
ghost use Rattle.std.specs.Prelude.{◌≡◌, ◌+◌, ◌<◌, ◌≤◌, ◌++◌, length, replicate};
ghost use Rattle.std.specs.List.{sum, All};
ghost use Rattle.std.specs.Option.{ForSome};
ghost use Rattle.hand_rank.specs.Five.{counts_of, suit_count as suit_total, is_flush as flush_of, straight_top as straight_top_of, is_straight_from, groups_of as groups_in, category_of, ranks_coming, by_count_then_height as ranked, deciding_ranks as deciding, worth_of_five};

use crate::hand_value::HandValue;
use arrayvec::ArrayVec;
use card_core::Card;

pub(crate) const STRAIGHT_FLUSH: u8 = 8;

pub(crate) const FOUR_OF_A_KIND: u8 = 7;

pub(crate) const FULL_HOUSE: u8 = 6;

pub(crate) const FLUSH: u8 = 5;

pub(crate) const STRAIGHT: u8 = 4;

pub(crate) const THREE_OF_A_KIND: u8 = 3;

pub(crate) const TWO_PAIRS: u8 = 2;

pub(crate) const PAIR: u8 = 1;

pub(crate) const HIGH_CARD: u8 = 0;

/// The four suits: clubs, diamonds, hearts, spades.
pub(crate) const SUITS: [u8; 4] = [0, 1, 2, 3];

/// The tops that a straight can have, from the ace down to the five.
const STRAIGHT_TOPS: [u8; 10] = [12, 11, 10, 9, 8, 7, 6, 5, 4, 3];

/// The ranks from the ace down to the two.
const RANKS_DOWN: [u8; 13] = [12, 11, 10, 9, 8, 7, 6, 5, 4, 3, 2, 1, 0];

/// How many cards of one rank there may be, most first.
const GROUP_SIZES: [u8; 5] = [5, 4, 3, 2, 1];

/// How often each rank comes, from the two to the ace.
type RankCounts = [u8; 13];

/// The value of five cards, by the rule of poker: straight flush, four of a kind, full house, flush,
/// straight, three of a kind, two pairs, pair, high card. A2345 is the lowest straight, with the five
/// as its top.
///
/// `value_of_slice` for callers of this crate, whose cards are five by their type.
pub fn value_of_five(cards: &[Card; 5]) -> HandValue
    ensures { result ≡ worth_of_five cards.now }
{
    value_of_slice(cards)
}

/// The value of a slice of five cards.
pub(crate) fn value_of_slice(cards: &[Card]) -> HandValue
    requires { length cards.now ≡ 5 }
    ensures { result ≡ worth_of_five cards.now }
{
    let counts = rank_counts(cards);
    let top = straight_top(&counts);
    let category = category(is_flush(cards), top.is_some(), &counts);
    HandValue::new(category, deciding_ranks(top, &counts))
}

/// How often each rank comes among the cards.
fn rank_counts(cards: &[Card]) -> RankCounts
    requires { length cards.now ≤ 255 }
    ensures counts { result ≡ counts_of cards.now }
    ensures total { sum result ≡ length cards.now }
{
    let mut counts = [0; 13];
    for card in cards {
        counts[card.rank() as usize] += 1;
    }
    counts
}

/// Whether the five cards are of one suit.
#[tactic(auto, unfolding(crate::specs::Five::is_flush))]
fn is_flush(cards: &[Card]) -> bool
    ensures { result ≡ flush_of cards.now }
{
    SUITS.iter().any(|suit| suit_count(cards, *suit) == 5)
}

/// How many of the cards have the suit.
pub(crate) fn suit_count(cards: &[Card], suit: u8) -> usize
    ensures { result ≡ suit_total cards.now suit }
{
    cards.iter().filter(|card| card.suit() == suit).count()
}

/// The top of the straight that the cards are, if they are one.
#[tactic(auto, unfolding(crate::specs::Five::straight_top))]
fn straight_top(counts: &RankCounts) -> Option<u8>
    ensures { result ≡ straight_top_of counts.now }
{
    STRAIGHT_TOPS
        .iter()
        .copied()
        .find(|top| is_straight(counts, *top))
}

/// Whether the cards are the straight of a top from 3 (five) to 12 (ace).
fn is_straight(counts: &RankCounts, top: u8) -> bool
    requires lowest { 3 ≤ top }
    requires highest { top ≤ 12 }
    ensures { result ≡ is_straight_from counts.now top }
{
    let top = top as usize;
    let last = if top == 3 { 12 } else { top - 4 };
    counts[top] == 1
        && counts[top - 1] == 1
        && counts[top - 2] == 1
        && counts[top - 3] == 1
        && counts[last] == 1
}

/// How many ranks come exactly so often.
#[tactic(auto, unfolding(crate::specs::Five::groups_of))]
fn groups_of(size: u8, counts: &RankCounts) -> usize
    ensures { result ≡ groups_in size counts.now }
{
    counts.iter().filter(|count| **count == size).count()
}

/// The category, 0 to 8.
#[tactic(auto, unfolding(crate::specs::Five::category_of))]
fn category(is_flush: bool, is_straight: bool, counts: &RankCounts) -> u8
    ensures value { result ≡ category_of is_flush is_straight counts.now }
    ensures range { result ≤ 8 }
{
    let threes = groups_of(3, counts);
    let pairs = groups_of(2, counts);
    if is_flush && is_straight {
        STRAIGHT_FLUSH
    } else if groups_of(4, counts) == 1 {
        FOUR_OF_A_KIND
    } else if threes == 1 && pairs == 1 {
        FULL_HOUSE
    } else if is_flush {
        FLUSH
    } else if is_straight {
        STRAIGHT
    } else if threes == 1 {
        THREE_OF_A_KIND
    } else if pairs == 2 {
        TWO_PAIRS
    } else if pairs == 1 {
        PAIR
    } else {
        HIGH_CARD
    }
}

/// The ranks that decide between hands of one category.
#[tactic(auto, unfolding(crate::specs::Five::deciding_ranks))]
fn deciding_ranks(straight_top: Option<u8>, counts: &RankCounts) -> [u8; 5]
    requires five { sum counts.now ≡ 5 }
    requires top_in_range { ForSome straight_top (λ top. top < 13) }
    ensures value { result ≡ deciding straight_top counts.now }
    ensures range { All (λ rank. rank < 13) result }
{
    match straight_top {
        Some(top) => [top, 0, 0, 0, 0],
        None => by_count_then_height(counts),
    }
}

/// All five ranks in order of count, then height.
fn by_count_then_height(counts: &RankCounts) -> [u8; 5]
    requires { sum counts.now ≡ 5 }
    ensures value { result ≡ ranked counts.now }
    ensures range { All (λ rank. rank < 13) result }
{
    let mut ranks: ArrayVec<u8, 5> = ArrayVec::new();
    for size in GROUP_SIZES {
        push_ranks_coming(&mut ranks, counts, size);
    }
    match ranks.into_inner() {
        Ok(five) => five,
        Err(_) => unreachable!(),
    }
}

/// Appends the ranks that come exactly so often, from the ace down, each as often as it comes.
fn push_ranks_coming(ranks: &mut ArrayVec<u8, 5>, counts: &RankCounts, size: u8)
    requires { array_vec_len ranks.old + length (ranks_coming counts.now size) ≤ 5 }
    ensures { ranks.new.items ≡ ranks.old.items ++ ranks_coming counts.now size }
{
    for rank in RANKS_DOWN {
        if counts[rank as usize] == size {
            push_copies(ranks, rank, size);
        }
    }
}

/// Appends a rank so often.
fn push_copies(ranks: &mut ArrayVec<u8, 5>, rank: u8, times: u8)
    requires { array_vec_len ranks.old + times ≤ 5 }
    ensures { ranks.new.items ≡ ranks.old.items ++ replicate times rank }
{
    for _copy in 0..times {
        ranks.push(rank);
    }
}
