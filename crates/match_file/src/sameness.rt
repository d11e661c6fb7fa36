//! Whether two games are the same, and whether two matches have the same names.

ghost use Rattle.std.specs.Prelude.{◌≡◌, ◌↔◌, IsTrue};

use game_def::GameDef;
use game_def::limits::ROUNDS;
use match_log::Name;

/// Whether these are the same names, in the same order.
pub(crate) fn are_same_names(names: &[Name], others: &[Name]) -> bool
    ensures { IsTrue result ↔ (names.now ≡ others.now) }
{
    if names.len() != others.len() {
        return false;
    }
    for place in 0..names.len() {
        if names[place].as_bytes() != others[place].as_bytes() {
            return false;
        }
    }
    true
}

/// Whether two games are the same: their players, and each amount and bound.
pub(crate) fn are_same_games(game: &GameDef, other: &GameDef) -> bool
    ensures { IsTrue result ↔ (game.now ≡ other.now) }
{
    game.limits();
    other.limits();
    if game.players() != other.players() {
        return false;
    }
    have_same_chips(game, other) && have_same_rounds(game, other)
}

/// Whether the stacks and blinds of two games for so many players are the same.
fn have_same_chips(game: &GameDef, other: &GameDef) -> bool
    requires { game.now.players ≡ other.now.players }
    ensures { IsTrue result ↔ ((game.now.stacks ≡ other.now.stacks) × (game.now.blinds ≡ other.now.blinds)) }
{
    game.limits();
    other.limits();
    for position in 0..game.players() {
        if game.stack(position) != other.stack(position) {
            return false;
        }
        if game.blind(position) != other.blind(position) {
            return false;
        }
    }
    true
}

/// Whether what two games say of the rounds is the same.
fn have_same_rounds(game: &GameDef, other: &GameDef) -> bool
    ensures { IsTrue result ↔ ((game.now.raise_sizes ≡ other.now.raise_sizes) × (game.now.first_players ≡ other.now.first_players) × (game.now.max_raises ≡ other.now.max_raises)) }
{
    game.limits();
    other.limits();
    for round in 0..ROUNDS {
        if game.raise_size(round) != other.raise_size(round) {
            return false;
        }
        if game.first_player(round) != other.first_player(round) {
            return false;
        }
        if game.max_raises(round) != other.max_raises(round) {
            return false;
        }
    }
    true
}
