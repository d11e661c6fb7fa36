//! What is said for a player whose answer the dealer would refuse.

ghost use Rattle.std.specs.Prelude.{◌≡◌, ◌≤◌, ◌<◌, ◌*◌, ◌+◌, ◌-◌, ◌^◌, ℕ, ◌∷◌, List, length, min, max, true, IsSome, IfSome, IsNone, None, IfOk, ◌++◌};
ghost use Rattle.std.specs.List.{list_all, prefix_len};
ghost use Rattle.std.specs.Char.{is_ascii_digit};
ghost use Rattle.std.specs.Str.Parse.{digits_value};
ghost use Rattle.betting.specs.Rounds.{to_act};
ghost use Rattle.betting.specs.Betting.{history};
ghost use Rattle.betting.specs.Text.{action_text};
ghost use Rattle.betting.specs.declared.action.Action.{Action as Act};
ghost use Rattle.betting.specs.declared.action.Action.TheVariants.{Raise as RaiseTo, Call as JustCall};
ghost use Rattle.betting.specs.Legal.{CanAct};
ghost use Rattle.betting.specs.Turns.{Turn};
ghost use Rattle.matchstate.specs.ActionText.{IsActionText};
ghost use Rattle.seat_relay.specs.Mending.{read_part, IsMended, IsRaiseTo, IsNearest, MayRaiseSome, IsToAnswer, IsMendedAnswer};

use crate::place::fields_of;
use betting::{Action, Play};
use game_def::GameDef;
use matchstate::{are_digits, put_number, read_action, read_betting, read_number};
use std::alloc::{AllocError, Global};

/// How many decimal digits stand in front.
fn digits_len(bytes: &[u8]) -> usize
    ensures value { result ≡ prefix_len is_ascii_digit bytes.now }
    ensures within { result ≤ length bytes.now }
{
    for (place, byte) in bytes.iter().enumerate() {
        if !byte.is_ascii_digit() {
            return place;
        }
    }
    bytes.len()
}

/// What is read of what stands behind the colon of an answer: an action's letter, in a game without limits with the digits
/// behind an `r`. What is behind that counts for nothing; of what begins with no such letter nothing is read.
fn read_part<'a>(field: &'a [u8], game: &GameDef) -> &'a [u8]
    ensures { result.now ≡ read_part game.now field.now }
{
    match field {
        [b'f' | b'c', ..] => &field[..1],
        [b'r', ..] if game.is_limit() => &field[..1],
        [b'r', rest @ ..] => &field[..digits_len(rest) + 1],
        _ => &field[..0],
    }
}

/// The number that decimal digits write, or 2^32 - 1 where it is greater.
fn amount_of(digits: &[u8]) -> u32
    requires { list_all is_ascii_digit digits.now ≡ true }
    ensures { result ≡ min (digits_value 10 digits.now) (2 ^ 32 - 1) }
{
    let mut amount = 0u32;
    for digit in digits {
        amount = amount
            .saturating_mul(10)
            .saturating_add(digit.saturating_sub(b'0') as u32);
    }
    amount
}

/// The digits of a raise to any number of chips, in a game without limits; none where these bytes are no such raise.
fn raise_digits<'a>(field: &'a [u8], play: &Play) -> Option<&'a [u8]>
    ensures found { IfSome result (λ digits. IsRaiseTo play.now.game field.now (digits_value 10 digits.now)) }
    ensures digits { IfSome result (λ digits. field.now ≡ 114 ∷ digits.now) }
    ensures all { IfSome result (λ digits. list_all is_ascii_digit digits.now ≡ true) }
    ensures only { (amount : ℕ) → IsRaiseTo play.now.game field.now amount → IsSome result }
{
    match field {
        [b'r', digits @ ..]
            if !play.game().is_limit() && !digits.is_empty() && are_digits(digits) => {
            Some(digits)
        }
        _ => None,
    }
}

/// The legal raise that is nearest to the one that these bytes ask for, in a game without limits; none where they ask for
/// no raise to a number of chips, or no raise is legal.
fn nearest_raise(field: &[u8], play: &Play) -> Option<u32>
    ensures found { IfSome result (λ near. (amount : ℕ) × IsRaiseTo play.now.game field.now amount × IsNearest play.now.game (history play.now) amount (RaiseTo near)) }
    ensures none { IsNone result → (amount : ℕ) → IsRaiseTo play.now.game field.now amount → ¬ MayRaiseSome play.now.game (history play.now) }
{
    let digits = raise_digits(field, play)?;
    let (least, greatest) = play.raise_range()?;
    Some(amount_of(digits).min(greatest).max(least))
}

/// The player's own action where it is allowed, else a call.
fn own_or_call(field: &[u8], play: &Play) -> Action
    requires turn { IsSome (to_act play.now.game (history play.now)) }
    ensures allowed { CanAct play.now.game (history play.now) result }
    ensures own { (wanted : Act) → IsActionText play.now.game (history play.now) field.now wanted → CanAct play.now.game (history play.now) wanted → result ≡ wanted }
    ensures else_call { ((wanted : Act) → IsActionText play.now.game (history play.now) field.now wanted → ¬ CanAct play.now.game (history play.now) wanted) → result ≡ JustCall }
{
    match read_action(field, play) {
        Some(action) if play.fault(action).is_none() => action,
        _ => Action::Call,
    }
}

/// The action that is said for what is read of an answer, after the actions of its line: the player's own
/// where it is allowed; a raise outside of the legal range goes to the nearest end; anything else is a call, as a fold that
/// faces no bet. So the competition's own dealer mends.
pub fn mended(field: &[u8], play: &Play) -> Action
    requires turn { IsSome (to_act play.now.game (history play.now)) }
    ensures { IsMended play.now.game (history play.now) field.now result }
{
    match nearest_raise(field, play) {
        Some(amount) => Action::Raise(amount),
        None => own_or_call(field, play),
    }
}

/// The play of a line's betting text, where the player that the line is for is to act after it.
fn play_to_answer(line: &[u8], game: &GameDef) -> Option<Play>
    ensures game { IfSome result (λ play. play.game ≡ game.now) }
    ensures turn { IfSome result (λ play. IsToAnswer game.now line.now play.past) }
    ensures only { (past : List Act) → IsToAnswer game.now line.now past → IsSome result }
{
    let fields = fields_of(line)?;
    let play = read_betting(fields.betting, game)?;
    let turn = play.to_act()?;
    game.limits();
    let position = read_number(fields.position)?;
    if turn == position as usize {
        Some(play)
    } else {
        None
    }
}

/// The text of an answer: a line, a colon, and the action's text.
#[tactic(auto, unfolding(betting::specs::Text::action_text))]
fn answer_text(
    alloc: Global,
    line: &[u8],
    action: Action,
    game: &GameDef,
) -> Result<Vec<u8>, AllocError>
    ensures whole { IfOk result (λ answer. answer.items ≡ line.now ++ 58 ∷ action_text game.now action) }
    ensures reads_back { IfOk result (λ answer. (past : List Turn) → CanAct game.now past action → IsActionText game.now past (action_text game.now action) action) }
{
    let mut text = Vec::from_slice(alloc, line)?;
    match action {
        Action::Fold => text.extend_from_slice(b":f")?,
        Action::Call => text.extend_from_slice(b":c")?,
        Action::Raise(amount) => {
            text.extend_from_slice(b":r")?;
            if !game.is_limit() {
                text.reserve(10)?;
                put_number(&mut text, amount);
            }
        }
    }
    Ok(text)
}

/// The answer that is said for a player who answered a line with this behind its colon: the line, a colon and the mended
/// action, which `read_answer` reads as that action. As the competition's dealer does, it reads an action at the beginning
/// of the field, and nothing behind it. None where the line has no legal betting, or its player isn't to act.
pub fn mended_answer(
    alloc: Global,
    line: &[u8],
    field: &[u8],
    game: &GameDef,
) -> Result<Option<Vec<u8>>, AllocError>
    ensures mended { IfOk result (λ found. IfSome found (λ answer. IsMendedAnswer game.now line.now field.now answer.items)) }
    ensures only { IfOk result (λ found. (past : List Act) → IsToAnswer game.now line.now past → IsSome found) }
{
    let Some(play) = play_to_answer(line, game) else {
        return Ok(None);
    };
    let action = mended(read_part(field, game), &play);
    Ok(Some(answer_text(alloc, line, action, game)?))
}
