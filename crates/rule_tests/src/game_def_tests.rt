use crate::asserting::same;
use crate::samples::game;
use game_def::GameDef;
use sample_games::{L2, L3, N2, N3};
use std::process::Abort;

/// Sees the seats' stacks and blinds.
fn has_seats(rt: &impl Abort, game: &GameDef, seats: &[(u32, u32)]) {
    assert!(rt; game.players() == seats.len());
    for position in 0..game.players() {
        same!(rt; (game.stack(position), game.blind(position)), seats[position]);
    }
}

/// Sees the size of each round's raises, the first player to act in it and how many raises it has at most.
fn has_rounds(rt: &impl Abort, game: &GameDef, rounds: &[(Option<u32>, usize, u8); 4]) {
    for round in 0..4usize {
        let found = (
            game.raise_size(round),
            game.first_player(round),
            game.max_raises(round),
        );
        same!(rt; found, rounds[round]);
    }
}

/// What a game's file says: whether it has limits, its greatest blind, each position's stack and blind, and each round's
/// size of raises, first player to act and most raises.
struct Said {
    file: &'static [u8],
    is_limit: bool,
    big_blind: u32,
    seats: &'static [(u32, u32)],
    rounds: [(Option<u32>, usize, u8); 4],
}

/// The sample games with limits.
static LIMIT_GAMES: [Said; 2] = [
    Said {
        file: L2,
        is_limit: true,
        big_blind: 10,
        seats: &[(2_147_483_647, 10), (2_147_483_647, 5)],
        rounds: [
            (Some(10), 1, 3),
            (Some(10), 0, 4),
            (Some(20), 0, 4),
            (Some(20), 0, 4),
        ],
    },
    Said {
        file: L3,
        is_limit: true,
        big_blind: 10,
        seats: &[(2_147_483_647, 5), (2_147_483_647, 10), (2_147_483_647, 0)],
        rounds: [
            (Some(10), 2, 3),
            (Some(10), 0, 4),
            (Some(20), 0, 4),
            (Some(20), 0, 4),
        ],
    },
];

/// The sample games without.
static NOLIMIT_GAMES: [Said; 2] = [
    Said {
        file: N2,
        is_limit: false,
        big_blind: 100,
        seats: &[(20_000, 100), (20_000, 50)],
        rounds: [
            (None, 1, 255),
            (None, 0, 255),
            (None, 0, 255),
            (None, 0, 255),
        ],
    },
    Said {
        file: N3,
        is_limit: false,
        big_blind: 100,
        seats: &[(1000, 50), (150, 100), (5000, 0)],
        rounds: [
            (None, 2, 255),
            (None, 0, 255),
            (None, 0, 255),
            (None, 0, 255),
        ],
    },
];

/// Sees that a game is what its file says.
fn is_said(rt: &impl Abort, game: &GameDef, said: &Said) {
    game.limits();
    same!(rt; game.is_limit(), said.is_limit);
    same!(rt; game.big_blind(), said.big_blind);
    has_seats(rt, game, said.seats);
    has_rounds(rt, game, &said.rounds);
}

#[test]
fn nolimit_games(rt: HostRuntime) {
    for said in &NOLIMIT_GAMES {
        is_said(&rt, &game(&rt, said.file), said);
    }
}

#[test]
fn limit_games(rt: HostRuntime) {
    for said in &LIMIT_GAMES {
        is_said(&rt, &game(&rt, said.file), said);
    }
}
