ghost use Rattle.std.specs.Prelude.{◌≡◌, ◌||◌, Some, None, true, false, not, nat_le, nat_lt};
ghost use Rattle.std.specs.Option.{option_map};
ghost use Rattle.std.specs.List.{find, list_all};
ghost use Rattle.game_def.specs.Game.{most_chips};
ghost use Rattle.game_def.specs.Entries.{values_of, has_nolimit};
ghost use Rattle.game_def.specs.declared.key.Key.TheVariants.{FirstPlayer, Stack, RaiseSize};
ghost use Rattle.game_def.specs.WholeFile.{single, players_of, has_values, has_count, each_passes, greatest_blind, required, counts, playable, passed, all_passed};

use crate::entries::Entries;
use crate::fault::GameFault;
use crate::fault_kind::FaultKind;
use crate::key::Key;
use crate::limits::MOST_CHIPS;
use crate::test::Test;
use card_core::limits::PLAYERS;

/// The number of players; 0 where it is missing.
pub(crate) fn player_count(entries: &Entries) -> u64
    ensures { result ≡ players_of entries.now }
{
    match entries.values(Key::NumPlayers) {
        Some([players]) => *players,
        _ => 0,
    }
}

/// Whether a key has just these values.
fn has_values(entries: &Entries, key: Key, wanted: &[u64]) -> bool
    ensures { result ≡ has_values wanted.now (values_of entries.now key) }
{
    match entries.values(key) {
        Some(values) => values == wanted,
        None => false,
    }
}

/// Whether a key that is set has so many values.
fn has_count(entries: &Entries, key: Key, count: u64) -> bool
    ensures { result ≡ has_count count (values_of entries.now key) }
{
    match entries.values(key) {
        Some(values) => values.len() as u64 == count,
        None => true,
    }
}

fn greatest_blind(entries: &Entries) -> u64
    ensures { result ≡ greatest_blind entries.now }
{
    match entries.values(Key::Blind) {
        Some(blinds) => blinds
            .iter()
            .fold(0, |greatest, blind| greatest.max(*blind)),
        None => 0,
    }
}

fn none_exceeds(values: &[u64], most: u64) -> bool
    ensures { result ≡ list_all (λ value. nat_le value most) values.now }
{
    values.iter().all(|value| *value <= most)
}

fn all_exceed(values: &[u64], least: u64) -> bool
    ensures { result ≡ list_all (λ value. nat_lt least value) values.now }
{
    values.iter().all(|value| least < *value)
}

/// Whether each first position, counted from 1, is a player's.
fn first_players_play(entries: &Entries) -> bool
    ensures { result ≡ each_passes (λ position. nat_le position (players_of entries.now)) true (values_of entries.now FirstPlayer) }
{
    let players = player_count(entries);
    match entries.values(Key::FirstPlayer) {
        Some(positions) => none_exceeds(positions, players),
        None => true,
    }
}

/// Whether each stack is above the greatest blind.
fn stacks_exceed(entries: &Entries, blind: u64) -> bool
    ensures { result ≡ each_passes (λ stack. nat_lt blind stack) (nat_lt blind most_chips) (values_of entries.now Stack) }
{
    match entries.values(Key::Stack) {
        Some(stacks) => all_exceed(stacks, blind),
        None => blind < MOST_CHIPS,
    }
}

/// Whether the game is no-limit, or has raise sizes of at least 1.
fn raises_sized(entries: &Entries) -> bool
    ensures { result ≡ (has_nolimit entries.now || each_passes (λ size. nat_lt 0 size) false (values_of entries.now RaiseSize)) }
{
    if entries.has_nolimit() {
        return true;
    }
    match entries.values(Key::RaiseSize) {
        Some(sizes) => all_exceed(sizes, 0),
        None => false,
    }
}

/// The keys that must be there.
fn required(entries: &Entries) -> [Test; 6]
    ensures { result ≡ required entries.now }
{
    let players = player_count(entries);
    let kind = FaultKind::Unsupported;
    [
        Test {
            passes: 2 <= players && players <= PLAYERS as u64,
            kind,
            key: Key::NumPlayers,
        },
        Test {
            passes: has_values(entries, Key::NumRounds, &[4]),
            kind,
            key: Key::NumRounds,
        },
        Test {
            passes: has_values(entries, Key::NumSuits, &[4]),
            kind,
            key: Key::NumSuits,
        },
        Test {
            passes: has_values(entries, Key::NumRanks, &[13]),
            kind,
            key: Key::NumRanks,
        },
        Test {
            passes: has_values(entries, Key::NumHoleCards, &[2]),
            kind,
            key: Key::NumHoleCards,
        },
        Test {
            passes: has_values(entries, Key::NumBoardCards, &[0, 3, 1, 1]),
            kind,
            key: Key::NumBoardCards,
        },
    ]
}

/// The counts of values: one for each player, or one for each round.
fn counts(entries: &Entries) -> [Test; 5]
    ensures { result ≡ counts entries.now }
{
    let players = player_count(entries);
    let kind = FaultKind::WrongCount;
    [
        Test {
            passes: has_count(entries, Key::Stack, players),
            kind,
            key: Key::Stack,
        },
        Test {
            passes: has_count(entries, Key::Blind, players),
            kind,
            key: Key::Blind,
        },
        Test {
            passes: has_count(entries, Key::RaiseSize, 4),
            kind,
            key: Key::RaiseSize,
        },
        Test {
            passes: has_count(entries, Key::FirstPlayer, 4),
            kind,
            key: Key::FirstPlayer,
        },
        Test {
            passes: has_count(entries, Key::MaxRaises, 4),
            kind,
            key: Key::MaxRaises,
        },
    ]
}

/// What makes a game of the values.
fn playable(entries: &Entries) -> [Test; 4]
    ensures { result ≡ playable entries.now }
{
    let blind = greatest_blind(entries);
    [
        Test {
            passes: first_players_play(entries),
            kind: FaultKind::Unsupported,
            key: Key::FirstPlayer,
        },
        Test {
            passes: 1 <= blind,
            kind: FaultKind::NoBlind,
            key: Key::Blind,
        },
        Test {
            passes: stacks_exceed(entries, blind),
            kind: FaultKind::StackBelowBlind,
            key: Key::Stack,
        },
        Test {
            passes: raises_sized(entries),
            kind: FaultKind::NoRaiseSize,
            key: Key::RaiseSize,
        },
    ]
}

/// The first of the tests that fails, if one does.
fn first_failing(tests: &[Test]) -> Option<Test>
    ensures { result ≡ find (λ one. not one.passes) tests.now }
{
    tests.iter().copied().find(|test| !test.passes)
}

/// The fault of the first test that fails.
#[tactic(auto, unfolding(crate::specs::WholeFile::fault_of))]
fn passed(entries: &Entries, foot: usize, tests: &[Test]) -> Result<(), GameFault>
    ensures { result ≡ passed entries.now foot tests.now }
{
    match first_failing(tests) {
        Some(test) => Err(test.kind.at(entries.line_of(test.key, foot))),
        None => Ok(()),
    }
}

/// The fault of the first test of the whole file that fails; `foot` is the line of `END GAMEDEF`.
#[tactic(auto, unfolding(crate::specs::WholeFile::all_passed))]
pub(crate) fn all_passed(entries: &Entries, foot: usize) -> Result<(), GameFault>
    ensures { result ≡ all_passed entries.now foot }
{
    passed(entries, foot, &required(entries))?;
    passed(entries, foot, &counts(entries))?;
    passed(entries, foot, &playable(entries))
}
