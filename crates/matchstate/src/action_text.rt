ghost use Rattle.std.specs.Prelude.{◌≡◌, ℕ, ◌^◌, ◌<◌, ◌∷◌, Some, IfSome};
ghost use Rattle.betting.specs.Betting.{history};
ghost use Rattle.betting.specs.declared.action.Action.{Action as Act};
ghost use Rattle.matchstate.specs.ActionText.{IsActionText, IsRaiseText};

use crate::number::read_number;
use betting::{Action, Play};

/// The action that a text says for the player to act: `f`, `c`, and `r` in limit games or `rN` in no-limit
/// games, N being a decimal without leading zeros of at most 4294967295. In a limit game `r` reads as the
/// only legal amount, or as 0 where no raise is legal. No other text is an action's.
pub fn read_action(bytes: &[u8], play: &Play) -> Option<Action>
    ensures found { IfSome result (λ action. IsActionText play.now.game (history play.now) bytes.now action) }
    ensures only { (action : Act) → IsActionText play.now.game (history play.now) bytes.now action → result ≡ Some action }
{
    match bytes {
        b"f" => Some(Action::Fold),
        b"c" => Some(Action::Call),
        [b'r', amount @ ..] => read_amount(amount, play).map(Action::Raise),
        _ => None,
    }
}

/// The amount of a raise, by what stands behind its r.
fn read_amount(digits: &[u8], play: &Play) -> Option<u32>
    ensures found { IfSome result (λ amount. IsRaiseText play.now.game.raise_sizes play.now.game (history play.now) (114 ∷ digits.now) amount) }
    ensures only { (amount : ℕ) → IsRaiseText play.now.game.raise_sizes play.now.game (history play.now) (114 ∷ digits.now) amount → result ≡ Some amount }
{
    if !play.game().is_limit() {
        read_number(digits)
    } else if !digits.is_empty() {
        None
    } else {
        match play.raise_range() {
            Some((least, _)) => Some(least),
            None => Some(0),
        }
    }
}
