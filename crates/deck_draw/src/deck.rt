ghost use Rattle.std.specs.Prelude.{◌≡◌, ◌+◌, ◌*◌, ◌≤◌, take, IsPermutation};
ghost use Rattle.card_core.specs.Deal.{IsDeal};
ghost use Rattle.deck_draw.specs.Deck.{pack, generator_of, deck_of, drawn};

use card_core::{Card, Deal};
use rand::seq::SliceRandom;
use rand_chacha::ChaCha20Rng;
use rand_core::SeedableRng;

/// How many cards the pack has.
const PACK: usize = 52;

/// The deal of a hand for `players` players (2 to 10), drawn from a seed: the first 2n + 5 cards of the
/// pack in its order (2c 2d 2h 2s 3c .. As), shuffled once over ChaCha20 with the key of the seed's eight
/// bytes, low ones first, and 24 zeros, at the stream of the hand's number.
///
/// One seed, hand and number of players give one deal, wherever it is drawn.
#[tactic(auto, using(crate::proofs::Distinct::drawn_cards))]
pub fn draw(seed: u64, hand: u32, players: usize) -> Deal
    requires least { 2 ≤ players }
    requires most { players ≤ 10 }
    ensures value { result ≡ drawn seed hand players }
    ensures deal { IsDeal players result }
{
    let deck = deck(seed, hand);
    Deal::new(players, &deck[..2 * players + 5]).unwrap()
}

/// The pack, shuffled for a hand.
#[tactic(auto, unfolding(crate::specs::Deck::deck_of))]
fn deck(seed: u64, hand: u32) -> [Card; PACK]
    ensures value { result ≡ deck_of seed hand }
    ensures permutation { IsPermutation pack result }
{
    let mut deck = ordered_pack();
    deck.shuffle(&mut generator(seed, hand));
    deck
}

/// All cards in order of their numbers.
fn ordered_pack() -> [Card; PACK]
    ensures { result ≡ pack }
{
    let mut cards = [Card::from_number(0); PACK];
    for number in 0..PACK as u8 {
        cards[usize::from(number)] = Card::from_number(number);
    }
    cards
}

/// ChaCha20 with the key of a seed, at the start of a hand's stream.
fn generator(seed: u64, hand: u32) -> ChaCha20Rng
    ensures { result ≡ generator_of seed hand }
{
    let mut key = [0; 32];
    key[..8].copy_from_slice(&seed.to_le_bytes());
    let mut generator = ChaCha20Rng::from_seed(key);
    generator.set_stream(u64::from(hand));
    generator
}
