ghost use Rattle.std.specs.Prelude.{◌≡◌, ◌-◌, ◌≤◌, ◌++◌, ◌∷◌, [], IfSome, length, map, replicate};
ghost use Rattle.std.specs.List.{AllByRecursion};
ghost use Rattle.game_def.specs.Game.{most_chips};
ghost use Rattle.game_def.specs.Entries.{values_or};
ghost use Rattle.game_def.specs.GameFile.{Defines};
ghost use Rattle.game_def.specs.WholeFile.{game_of};

use crate::entries::Entries;
use crate::game::GameDef;
use crate::key::Key;
use crate::limits::{MOST_CHIPS, ROUNDS};
use crate::whole_file::player_count;
use card_core::limits::PLAYERS;

/// An amount for each player, and 0 in the places behind the last.
fn amounts(values: &[u64]) -> [u32; PLAYERS]
    requires few { length values.now ≤ 10 }
    requires fitting { AllByRecursion (λ value. value ≤ most_chips) values.now }
    ensures { result ≡ values.now ++ replicate (10 - length values.now) 0 }
{
    let mut amounts = [0; PLAYERS];
    for (position, value) in values.iter().enumerate() {
        amounts[position] = *value as u32;
    }
    amounts
}

/// One amount for each of so many players, and 0 in the places behind the last.
fn amount_for_each(amount: u32, players: usize) -> [u32; PLAYERS]
    requires { players ≤ 10 }
    ensures { result ≡ replicate players amount ++ replicate (10 - players) 0 }
{
    let mut amounts = [0; PLAYERS];
    for position in 0..players {
        amounts[position] = amount;
    }
    amounts
}

/// An amount for each round.
fn sizes(values: &[u64]) -> [u32; ROUNDS]
    requires four { length values.now ≡ 4 }
    requires fitting { AllByRecursion (λ value. value ≤ most_chips) values.now }
    ensures { result ≡ values.now }
{
    [
        values[0] as u32,
        values[1] as u32,
        values[2] as u32,
        values[3] as u32,
    ]
}

/// A position for each round, counted from 0, of positions counted from 1.
fn positions(values: &[u64]) -> [usize; ROUNDS]
    requires { length values.now ≡ 4 }
    ensures { result ≡ map (λ position. position - 1) values.now }
{
    [
        values[0].saturating_sub(1) as usize,
        values[1].saturating_sub(1) as usize,
        values[2].saturating_sub(1) as usize,
        values[3].saturating_sub(1) as usize,
    ]
}

/// A number of raises for each round.
fn raises(values: &[u64]) -> [u8; ROUNDS]
    requires four { length values.now ≡ 4 }
    requires fitting { AllByRecursion (λ value. value ≤ 255) values.now }
    ensures { result ≡ values.now }
{
    [
        values[0] as u8,
        values[1] as u8,
        values[2] as u8,
        values[3] as u8,
    ]
}

/// The amounts that a key gives to the players, or one amount for each where it isn't set.
fn amounts_of(entries: &Entries, key: Key, otherwise: u32, players: usize) -> [u32; PLAYERS]
    requires few { players ≤ 10 }
    requires count { length (values_or entries.now key (replicate players otherwise)) ≡ players }
    requires fitting { AllByRecursion (λ amount. amount ≤ most_chips) (values_or entries.now key (replicate players otherwise)) }
    ensures { result ≡ values_or entries.now key (replicate players otherwise) ++ replicate (10 - players) 0 }
{
    match entries.values(key) {
        Some(values) => amounts(values),
        None => amount_for_each(otherwise, players),
    }
}

/// The sizes of the raises in a limit game.
fn raise_sizes(entries: &Entries) -> Option<[u32; ROUNDS]>
    requires four { IfSome (game_of entries.now).raise_sizes (λ sizes. length sizes ≡ 4) }
    requires fitting { IfSome (game_of entries.now).raise_sizes (AllByRecursion (λ size. size ≤ most_chips)) }
    ensures { result ≡ (game_of entries.now).raise_sizes }
{
    if entries.has_nolimit() {
        return None;
    }
    match entries.values(Key::RaiseSize) {
        Some(values) => Some(sizes(values)),
        None => None,
    }
}

/// The first positions, counted from 0.
fn first_players(entries: &Entries) -> [usize; ROUNDS]
    requires { length (game_of entries.now).first_players ≡ 4 }
    ensures { result ≡ (game_of entries.now).first_players }
{
    match entries.values(Key::FirstPlayer) {
        Some(values) => positions(values),
        None => [0; ROUNDS],
    }
}

/// The most raises of each round.
fn max_raises(entries: &Entries) -> [u8; ROUNDS]
    requires four { length (game_of entries.now).max_raises ≡ 4 }
    requires fitting { AllByRecursion (λ raises. raises ≤ 255) (game_of entries.now).max_raises }
    ensures { result ≡ (game_of entries.now).max_raises }
{
    match entries.values(Key::MaxRaises) {
        Some(values) => raises(values),
        None => [u8::MAX; ROUNDS],
    }
}

/// The game of entries that pass all tests.
pub(crate) fn build(entries: &Entries) -> GameDef
    requires { Defines entries.now (game_of entries.now) }
    ensures { result ≡ game_of entries.now }
{
    let players = player_count(entries) as usize;
    GameDef {
        players,
        stacks: amounts_of(entries, Key::Stack, MOST_CHIPS as u32, players),
        blinds: amounts_of(entries, Key::Blind, 0, players),
        raise_sizes: raise_sizes(entries),
        first_players: first_players(entries),
        max_raises: max_raises(entries),
    }
}
