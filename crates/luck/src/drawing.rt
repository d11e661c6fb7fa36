ghost use Rattle.std.specs.Prelude.{◌≡◌, ℕ, ◌+◌, ◌-◌, ◌*◌, ◌≤◌, ◌<◌, ◌++◌, length, nat_eq};
ghost use Rattle.std.specs.List.{IsDistinct};
ghost use Rattle.card_core.specs.Deal.{IsDeal, board_of};
ghost use Rattle.rand.specs.Shuffle.{partially_shuffled};
ghost use Rattle.rand_core.specs.Steps.{stream_of, steps_u32};
ghost use Rattle.rand_chacha.specs.ChaCha.{next_word};
ghost use Rattle.luck.specs.CardList.{cards_of};
ghost use Rattle.luck.specs.Left.{left_of};
ghost use Rattle.luck.specs.Draws.{generator_of, drawn};
ghost use Rattle.luck.specs.Sums.{AddsPaid};

use crate::card_list::{CardList, PACK};
use crate::completions::add_deal;
use crate::left_cards::left_cards;
use crate::stakes::Stakes;
use crate::sums::Sums;
use card_core::Card;
use rand::seq::SliceRandom;
use rand_chacha::ChaCha20Rng;
use rand_core::SeedableRng;

/// How many cards the board has.
const BOARD: usize = 5;

/// ChaCha20 with a key, at the start of a hand's stream.
pub(crate) fn generator(key: &[u8; 32], hand: u32) -> ChaCha20Rng
    ensures { result ≡ generator_of key.now hand }
{
    let mut generator = ChaCha20Rng::from_seed(*key);
    generator.set_stream(u64::from(hand));
    generator
}

/// Adds what is paid over so many deals that are drawn: the known cards, and for the board five of the others.
pub(crate) fn add_drawn(
    sums: &mut Sums,
    stakes: &Stakes,
    known: &CardList,
    generator: &mut ChaCha20Rng,
    count: u32,
)
    requires known { length (cards_of known.now) ≡ 2 * length stakes.now.spent }
    requires distinct { IsDistinct nat_eq (cards_of known.now) }
    requires few { sums.old.deals + count ≤ 10000 }
    ensures { AddsPaid stakes.now.spent stakes.now.folded (drawn (cards_of known.now) (stream_of (steps_u32 (next_word 10)) generator.old) count).0 sums.old sums.new }
{
    let _players = stakes.players();
    for _number in 0..count {
        let deal = draw(known, generator);
        add_deal(sums, stakes, &deal);
    }
}

/// A deal that is drawn: the known cards, and five of the others, which are different cards.
fn draw(known: &CardList, generator: &mut ChaCha20Rng) -> CardList
    requires few { length (cards_of known.now) ≤ 20 }
    requires distinct { IsDistinct nat_eq (cards_of known.now) }
    ensures value { cards_of result ≡ cards_of known.now ++ board_of (partially_shuffled (left_of (cards_of known.now)) 5 (stream_of (steps_u32 (next_word 10)) generator.old)).0 }
    ensures stream { stream_of (steps_u32 (next_word 10)) generator.new ≡ (partially_shuffled (left_of (cards_of known.now)) 5 (stream_of (steps_u32 (next_word 10)) generator.old)).1 }
    ensures count { length (cards_of result) ≡ length (cards_of known.now) + 5 }
    ensures distinct { IsDistinct nat_eq (cards_of result) }
{
    let left = left_cards(known.as_slice());
    let mut others = [Card::from_number(0); PACK];
    let count = left.as_slice().len();
    others[..count].copy_from_slice(left.as_slice());
    let (board, _) = others[..count].partial_shuffle(generator, BOARD);
    let mut deal = *known;
    for card in board.iter() {
        deal = deal.with(*card);
    }
    deal
}
