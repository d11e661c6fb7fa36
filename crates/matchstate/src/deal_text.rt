ghost use Rattle.std.specs.Prelude.{◌≡◌, ℕ, ◌≤◌, List, Some, IfSome, IsSomeAnd};
ghost use Rattle.card_core.specs.Deal.{IsDeal};
ghost use Rattle.matchstate.specs.Cards.{holes_of, board_shown, shown_text, deal_text};

use crate::cards_field::read_seen;
use crate::seen_cards::gather;
use crate::unused_cards::fill_up;
use card_core::Deal;
use card_core::limits::PLAYERS;

/// The deal that a text of all its cards says, as `TdAs|8hTc/2c8c3h/9c/Kh`, for 2 to 10 players: the hole
/// cards by position with `|` between them, then `/` and the cards for flop, turn and river.
///
/// It is `read_shown` of the whole board: then the text is that of one deal alone, and that is said here.
pub fn read_deal(bytes: &[u8], players: usize) -> Option<Deal>
    requires least { 2 ≤ players }
    requires most { players ≤ 10 }
    ensures found { IfSome result (λ deal. bytes.now ≡ deal_text players deal) }
    ensures deal { IfSome result (λ deal. IsDeal players deal) }
    ensures only { (deal : List ℕ) → IsDeal players deal → bytes.now ≡ deal_text players deal → result ≡ Some deal }
{
    read_shown(bytes, players, 3)
}

/// A deal for 2 to 10 players of which a text shows all hole cards and the board of so many later rounds (0
/// to 3), as `TdAs|8hTc/2c8c3h` for one; cards that the text doesn't show are any others of the pack. None
/// where no deal shows just that.
pub fn read_shown(bytes: &[u8], players: usize, rounds: usize) -> Option<Deal>
    requires least { 2 ≤ players }
    requires most { players ≤ 10 }
    requires rounds { rounds ≤ 3 }
    ensures deal { IfSome result (λ deal. IsDeal players deal) }
    ensures found { IfSome result (λ deal. bytes.now ≡ shown_text players rounds deal) }
    ensures only { (deal : List ℕ) → IsDeal players deal → bytes.now ≡ shown_text players rounds deal → IsSomeAnd result (λ found. (holes_of players found ≡ holes_of players deal) × (board_shown rounds found ≡ board_shown rounds deal)) }
{
    let seen = read_seen(bytes, players, &[true; PLAYERS], rounds)?;
    let (mut cards, count) = gather(&seen, players);
    let end = 2 * players + 5;
    fill_up(&mut cards, count, end);
    match Deal::new(players, &cards[..end]) {
        Ok(deal) => Some(deal),
        Err(_) => None,
    }
}
