ghost use Rattle.std.specs.Prelude.{◌≡◌, ℕ, ◌+◌, ◌*◌, ◌<◌, ◌≤◌, ◌++◌, [], length, reverse, replicate, decimal, slice_index, MatchOption, OnOk, OnErr, vec_len, vec_capacity, ◌∷◌, List, Some, IfSome, IsSomeAnd, IsTrue, ◌↔◌, drop};
ghost use Rattle.betting.specs.Text.{text, action_text, slash_counts};
ghost use Rattle.matchstate.specs.Line.{newest_text};
ghost use Rattle.std.specs.Char.{is_ascii_digit};
ghost use Rattle.std.specs.List.{prefix_len};
ghost use Rattle.game_def.specs.Game.{IsGame};
ghost use Rattle.betting.specs.declared.action.Action.{Action as Act};
ghost use Rattle.betting.specs.Legal.{Legal};
ghost use Rattle.matchstate.specs.Reading.{BeginsWith, NoDigitFirst};

use crate::action_text::read_action;
use crate::bytes::{after_byte, put};
use crate::number::{after_number, put_number};
use betting::laws::slashes_stand_behind_actions;
use betting::{Action, Play};
use game_def::GameDef;
use slot_log::Table;
use std::alloc::AllocError;
use std::marker::Model;

/// No betting text has more bytes: 256 actions of at most 11 bytes, each with at most three `/` behind it.
pub const MOST_BETTING: usize = 3584;

/// The betting text of a hand, as the ACPC protocol 2.0.0 writes it: each action's text, and a `/` for each round
/// that begins after it. It is spelled where it is wanted, out of the actions where they lie, and has no bytes of its own.
///
/// Contracts see its bytes.
#[derive(Debug, Drop)]
pub struct BettingText<'a> {
    game: &'a GameDef,
    actions: &'a [Action],
    slashes: &'a [u8],
}

impl<'a> Model for BettingText<'a> {
    ghost use Rattle.std.specs.Prelude.{List, ℕ};

    ghost Value = { List ℕ };

    ghost use Rattle.matchstate.specs.BettingInside.{IsSpelled, text_in};

    ghost view = { text_in };

    ghost invariant = { IsSpelled };
}

impl<'a> BettingText<'a> {
    /// The betting text of a play.
    pub fn of(play: &'a Play) -> BettingText<'a>
        ensures text { result ≡ text play.now.game play.now.past }
        ensures legal { Legal play.now.game play.now.past }
    {
        BettingText::of_actions(play.game(), play.actions(), play.slashes())
    }

    /// The betting text of the newest hand of a match, with which the lines of all seats are written; empty before the
    /// first deal.
    pub fn newest(table: &'a Table) -> BettingText<'a>
        ensures { result ≡ newest_text table.now.game table.now.hands }
    {
        match newest_play(table) {
            Some(play) => BettingText::of(play),
            None => BettingText::of_actions(table.game(), &[], &[]),
        }
    }

    /// The betting text of actions, oldest first, with so many `/` behind each.
    pub(crate) fn of_actions(
        game: &'a GameDef,
        actions: &'a [Action],
        slashes: &'a [u8],
    ) -> BettingText<'a>
        requires few { length actions.now ≤ 256 }
        requires places { length slashes.now ≡ length actions.now }
        requires slashes { slashes.now ≡ reverse (slash_counts game.now (reverse actions.now)) }
        requires few_slashes { (index : ℕ) → slice_index slashes.now index ≤ 3 }
        ensures { result ≡ text game.now (reverse actions.now) }
    {
        BettingText {
            game,
            actions,
            slashes,
        }
    }

    /// Appends the text, at most 3584 bytes, for which there is room: takes no memory, and can't fail.
    pub fn put(&self, out: &mut Vec<u8>)
        requires { vec_len out.old + 3584 ≤ vec_capacity out.old }
        ensures items { out.new.items ≡ out.old.items ++ self.now }
        ensures len { vec_len out.new ≤ vec_len out.old + 3584 }
        ensures capacity { vec_capacity out.old ≤ vec_capacity out.new }
    {
        slashes_stand_behind_actions();
        for place in 0..self.actions.len() {
            put_action(out, self.game, self.actions[place], self.slashes[place]);
        }
    }

    /// Whether a text is this one.
    pub(crate) fn is(&self, bytes: &[u8]) -> bool
        ensures { IsTrue result ↔ bytes.now ≡ self.now }
    {
        match self.after(bytes) {
            Some(rest) => rest.is_empty(),
            None => false,
        }
    }

    /// What stands behind the text, where it stands in front.
    fn after<'b>(&self, bytes: &'b [u8]) -> Option<&'b [u8]>
        ensures found { IfSome result (λ rest. bytes.now ≡ self.now ++ rest.now) }
        ensures only { (behind : List ℕ) → bytes.now ≡ self.now ++ behind → IsSomeAnd result (λ rest. rest.now ≡ behind) }
    {
        slashes_stand_behind_actions();
        let mut rest = bytes;
        for place in 0..self.actions.len() {
            rest = after_turn(rest, self.game, self.actions[place], self.slashes[place])?;
        }
        Some(rest)
    }
}

/// Appends an action's text, and so many `/`, for which there is room.
fn put_action(out: &mut Vec<u8>, game: &GameDef, action: Action, slashes: u8)
    requires few { slashes ≤ 3 }
    requires room { vec_len out.old + 14 ≤ vec_capacity out.old }
    ensures items { out.new.items ≡ out.old.items ++ action_text game.now action ++ replicate slashes 47 }
    ensures len { vec_len out.new ≤ vec_len out.old + 14 }
    ensures capacity { vec_capacity out.old ≤ vec_capacity out.new }
{
    put_word(out, game, action);
    put(out, &b"///"[..slashes as usize]);
}

/// Appends an action's text, for which there is room: `f`, `c`, and `r`, with the amount in a no-limit game.
#[tactic(auto, unfolding(betting::specs::Text::action_text))]
fn put_word(out: &mut Vec<u8>, game: &GameDef, action: Action)
    requires { vec_len out.old + 11 ≤ vec_capacity out.old }
    ensures items { out.new.items ≡ out.old.items ++ action_text game.now action }
    ensures len { vec_len out.new ≤ vec_len out.old + 11 }
    ensures capacity { vec_capacity out.old ≤ vec_capacity out.new }
{
    match action {
        Action::Fold => put(out, b"f"),
        Action::Call => put(out, b"c"),
        Action::Raise(amount) => {
            put(out, b"r");
            if !game.is_limit() {
                put_number(out, amount);
            }
        }
    }
}

/// What stands behind an action's text and so many `/`, where they stand in front.
fn after_turn<'a>(bytes: &'a [u8], game: &GameDef, action: Action, slashes: u8) -> Option<&'a [u8]>
    requires { slashes ≤ 3 }
    ensures found { IfSome result (λ rest. bytes.now ≡ action_text game.now action ++ (replicate slashes 47 ++ rest.now)) }
    ensures only { (behind : List ℕ) → bytes.now ≡ action_text game.now action ++ (replicate slashes 47 ++ behind) → IsSomeAnd result (λ rest. rest.now ≡ behind) }
{
    let rest = after_action(bytes, game, action)?;
    after_slashes(rest, slashes as usize)
}

/// What stands behind an action's text, where it stands in front.
#[tactic(auto, unfolding(betting::specs::Text::action_text))]
fn after_action<'a>(bytes: &'a [u8], game: &GameDef, action: Action) -> Option<&'a [u8]>
    ensures found { IfSome result (λ rest. bytes.now ≡ action_text game.now action ++ rest.now) }
    ensures only { (behind : List ℕ) → bytes.now ≡ action_text game.now action ++ behind → IsSomeAnd result (λ rest. rest.now ≡ behind) }
{
    match action {
        Action::Fold => after_byte(bytes, b'f'),
        Action::Call => after_byte(bytes, b'c'),
        Action::Raise(amount) => {
            let digits = after_byte(bytes, b'r')?;
            if game.is_limit() {
                Some(digits)
            } else {
                after_number(digits, amount)
            }
        }
    }
}

/// The betting of the newest hand; none before the first deal.
fn newest_play(table: &Table) -> Option<&Play>
    ensures { MatchOption result (table.now.hands ≡ []) (λ play. text play.now.game play.now.past ≡ newest_text table.now.game table.now.hands) }
{
    let hand = table.dealt().checked_sub(1)?;
    table.play(hand)
}

/// Appends the betting text of a play.
///
/// An `Err` comes only where memory was refused; then the text is as before.
pub fn betting_text(out: &mut Vec<u8>, play: &Play) -> Result<(), AllocError>
    ensures ok { OnOk result (out.new.items ≡ out.old.items ++ text play.now.game play.now.past) }
    ensures err { OnErr result (out.new.items ≡ out.old.items) }
    ensures full { OnErr result (vec_capacity out.old < vec_len out.old + 3584) }
{
    out.reserve(MOST_BETTING)?;
    betting_text_reserved(out, play);
    Ok(())
}

/// Appends the betting text of a play, where `MOST_BETTING` bytes are reserved for it: this can't fail.
pub fn betting_text_reserved(out: &mut Vec<u8>, play: &Play)
    requires { vec_len out.old + 3584 ≤ vec_capacity out.old }
    ensures items { out.new.items ≡ out.old.items ++ text play.now.game play.now.past }
    ensures len { vec_len out.new ≤ vec_len out.old + 3584 }
    ensures capacity { vec_capacity out.old ≤ vec_capacity out.new }
{
    BettingText::of(play).put(out);
}

/// The play that a betting text says: that of the one legal list of actions which has this text, if any.
pub fn read_betting(bytes: &[u8], game: &GameDef) -> Option<Play>
    ensures found { IfSome result (λ play. (play.game ≡ game.now) × Legal game.now play.past × (bytes.now ≡ text game.now play.past)) }
    ensures only { (past : List Act) → Legal game.now past → bytes.now ≡ text game.now past → result ≡ Some (record { game = game.now; past = past }) }
{
    game.limits();
    let mut play = Play::new(game);
    let mut rest = bytes;
    while !rest.is_empty() {
        rest = read_turn(rest, &mut play)?;
    }
    Some(play)
}

/// Takes the action at the front, and gives what stands behind the slashes that it causes.
fn read_turn<'a>(bytes: &'a [u8], play: &mut Play) -> Option<&'a [u8]>
    requires some { 0 < length bytes.now }
    requires limits { IsGame play.old.game }
    ensures game { play.new.game ≡ play.old.game }
    ensures shorter { IfSome result (λ rest. length rest.now < length bytes.now) }
    ensures found { IfSome result (λ rest. (action : Act) × BeginsWith play.old.game play.old.past bytes.now action rest.now × (play.new.past ≡ action ∷ play.old.past)) }
    ensures only { (action : Act) (behind : List ℕ) → BeginsWith play.old.game play.old.past bytes.now action behind → NoDigitFirst behind → IsSomeAnd result (λ rest. rest.now ≡ behind) × (play.new.past ≡ action ∷ play.old.past) }
{
    let (word, behind) = bytes.split_at(word_len(bytes));
    let action = read_action(word, play)?;
    let before = play.round();
    if play.act(action).is_err() {
        return None;
    }
    after_slashes(behind, play.round().saturating_sub(before))
}

/// How many bytes an action's text has at the most, a letter and the digits behind it.
fn word_len(bytes: &[u8]) -> usize
    requires { 0 < length bytes.now }
    ensures value { result ≡ 1 + prefix_len is_ascii_digit (drop 1 bytes.now) }
    ensures within { result ≤ length bytes.now }
{
    1 + digits_len(&bytes[1..])
}

/// How many digits stand in front.
fn digits_len(bytes: &[u8]) -> usize
    ensures value { result ≡ prefix_len is_ascii_digit bytes.now }
    ensures within { result ≤ length bytes.now }
{
    for (place, byte) in bytes.iter().enumerate() {
        if !byte.is_ascii_digit() {
            return place;
        }
    }
    bytes.len()
}

/// What stands behind so many slashes.
fn after_slashes(bytes: &[u8], count: usize) -> Option<&[u8]>
    requires { count ≤ 3 }
    ensures found { IfSome result (λ rest. bytes.now ≡ replicate count 47 ++ rest.now) }
    ensures only { (behind : List ℕ) → bytes.now ≡ replicate count 47 ++ behind → IsSomeAnd result (λ rest. rest.now ≡ behind) }
{
    bytes.strip_prefix(&b"///"[..count])
}
