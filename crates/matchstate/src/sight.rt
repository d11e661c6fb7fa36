ghost use Rattle.std.specs.Prelude.{◌≡◌, ℕ, ◌+◌, ◌<◌, ◌≤◌, [], map, take, if◌then◌else◌, List, IfSome, IsSomeAnd};
ghost use Rattle.card_core.specs.Deal.{IsDeal, hole_of};
ghost use Rattle.matchstate.specs.Cards.{holes_seen, boards_of, cards_field, AreSeen};
ghost use Rattle.matchstate.specs.SeenCards.{hole_in, holes_in, boards_in, seen_at};
ghost use Rattle.matchstate.specs.View.{is_showdown, sees, rounds_seen};

use crate::cards_field::read_seen;
use crate::seen_cards::{SeenCards, gather};
use betting::Play;
use card_core::limits::PLAYERS;
use card_core::{Card, Deal, are_distinct};

/// What a viewer sees of a deal after the actions of a play.
pub(crate) fn sight(deal: &Deal, play: &Play, viewer: usize) -> SeenCards
    requires { IsDeal play.now.game.players deal.now }
    ensures holes { holes_in play.now.game.players result ≡ holes_seen play.now.game.players (sees play.now.game play.now.past viewer) deal.now }
    ensures boards { boards_in result ≡ take (rounds_seen play.now.game play.now.past) (boards_of deal.now) }
{
    let round = play.round();
    let [first, second, third, turn, river] = deal.board();
    SeenCards {
        holes: holes_in_sight(deal, play, viewer),
        flop: if round >= 1 {
            Some([first, second, third])
        } else {
            None
        },
        turn: if round >= 2 { Some([turn]) } else { None },
        river: if round >= 3 { Some([river]) } else { None },
    }
}

/// The hole cards that a viewer sees, by position.
fn holes_in_sight(deal: &Deal, play: &Play, viewer: usize) -> [Option<[Card; 2]>; PLAYERS]
    requires { IsDeal play.now.game.players deal.now }
    ensures { map hole_in (take play.now.game.players result) ≡ holes_seen play.now.game.players (sees play.now.game play.now.past viewer) deal.now }
{
    let mut holes = [None; PLAYERS];
    for position in 0..play.players() {
        let hole = hole_in_sight(deal, play, viewer, position);
        holes[position] = hole;
    }
    holes
}

/// The hole cards of a position, where a viewer sees them.
fn hole_in_sight(deal: &Deal, play: &Play, viewer: usize, position: usize) -> Option<[Card; 2]>
    requires deal { IsDeal play.now.game.players deal.now }
    requires below { position < play.now.game.players }
    ensures { hole_in result ≡ (if sees play.now.game play.now.past viewer position then hole_of deal.now position else []) }
{
    if is_in_sight(play, viewer, position) {
        Some(deal.hole(position))
    } else {
        None
    }
}

/// Which positions' hole cards a viewer sees.
pub(crate) fn positions_in_sight(play: &Play, viewer: usize) -> [bool; PLAYERS]
    ensures { (position : ℕ) → position < play.now.game.players → seen_at result position ≡ sees play.now.game play.now.past viewer position }
{
    let mut seen = [false; PLAYERS];
    for position in 0..play.players() {
        let in_sight = is_in_sight(play, viewer, position);
        seen[position] = in_sight;
    }
    seen
}

/// Whether a viewer sees a position's hole cards.
fn is_in_sight(play: &Play, viewer: usize, position: usize) -> bool
    requires { position < play.now.game.players }
    ensures { result ≡ sees play.now.game play.now.past viewer position }
{
    position == viewer || (has_come_to_showdown(play) && !play.folded(position))
}

/// Whether the hand is over with two or more players who haven't folded.
fn has_come_to_showdown(play: &Play) -> bool
    ensures { result ≡ is_showdown play.now.game play.now.past }
{
    play.finished() && 2 <= play.unfolded()
}

/// The cards that a cards field shows, if a viewer sees just these of some deal after the actions of a play.
pub(crate) fn read_sight(bytes: &[u8], play: &Play, viewer: usize) -> Option<SeenCards>
    ensures found { IfSome result (λ seen. bytes.now ≡ cards_field (holes_in play.now.game.players seen) (boards_in seen)) }
    ensures seen { IfSome result (λ seen. AreSeen play.now.game.players (sees play.now.game play.now.past viewer) (rounds_seen play.now.game play.now.past) (holes_in play.now.game.players seen) (boards_in seen)) }
    ensures only { (holes boards : List (List ℕ)) → AreSeen play.now.game.players (sees play.now.game play.now.past viewer) (rounds_seen play.now.game play.now.past) holes boards → bytes.now ≡ cards_field holes boards → IsSomeAnd result (λ seen. (holes_in play.now.game.players seen ≡ holes) × (boards_in seen ≡ boards)) }
{
    let players = play.players();
    let positions = positions_in_sight(play, viewer);
    let seen = read_seen(bytes, players, &positions, play.round())?;
    let (cards, count) = gather(&seen, players);
    if are_distinct(&cards[..count]) {
        Some(seen)
    } else {
        None
    }
}
