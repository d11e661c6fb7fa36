use betting::{Action, Play};
use game_def::GameDef;
use std::io;

/// A no-limit game of two players with deep stacks, so that a hand can have all of its 256 actions.
const GAME: &[u8] = b"GAMEDEF
nolimit
numPlayers 2
numRounds 4
stack 20000 20000
blind 2 1
firstPlayer 2 1 1 1
numSuits 4
numRanks 13
numHoleCards 2
numBoardCards 0 3 1 1
END GAMEDEF
";

/// How many actions are taken at least, over all hands.
const ACTIONS: u32 = 20_000_000;

/// What the players do.
#[derive(Clone, Copy, Debug)]
pub enum Policy {
    /// Call whatever comes: eight actions a hand.
    Call,
    /// Raise by as little as is allowed, and call where no raise is: 256 actions a hand.
    RaiseLeast,
}

/// Prints how many hands and actions were played.
pub fn print_played(rt: &impl Print, policy: Policy) -> io::Result<()> {
    match game_def::read(GAME) {
        Ok(game) => print_counts(rt, policy, play_hands(&game, policy)),
        Err(_) => rt.println("the game was refused"),
    }
}

/// Prints how many hands and actions were played by a policy.
fn print_counts(rt: &impl Print, policy: Policy, (hands, actions): (u32, u32)) -> io::Result<()> {
    println!(rt; "{policy:?}: {actions} actions in {hands} hands")
}

/// Plays hands until there were enough actions, and counts both.
fn play_hands(game: &GameDef, policy: Policy) -> (u32, u32) {
    let mut actions = 0u32;
    for hands in 0..ACTIONS {
        if actions >= ACTIONS {
            return (hands, actions);
        }
        actions = actions.wrapping_add(play_hand(game, policy));
    }
    (ACTIONS, actions)
}

/// Plays one hand, and counts its actions.
fn play_hand(game: &GameDef, policy: Policy) -> u32 {
    let mut play = Play::new(game);
    for actions in 0..256 {
        if play.act(choice(&play, policy)).is_err() {
            return actions;
        }
    }
    256
}

/// The next action.
fn choice(play: &Play, policy: Policy) -> Action {
    match (policy, play.raise_range()) {
        (Policy::RaiseLeast, Some((least, _))) => Action::Raise(least),
        _ => Action::Call,
    }
}
