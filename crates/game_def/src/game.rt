ghost use Rattle.std.specs.Prelude.{◌≡◌, ◌<◌, ◌≤◌, ◌↔◌, slice_index, IfSome, IsSome, IsTrue};
ghost use Rattle.game_def.specs.Game.{IsGame, most_chips, big_blind, stack_of, blind_of, raise_size_of};

use crate::limits::ROUNDS;
use card_core::limits::PLAYERS;
use std::marker::Model;

/// A game of Texas hold'em: players, stacks, blinds and the rules of raising.
///
/// Amounts are whole chips. Positions and rounds count from 0; position 0 is the first after the button.
/// Contracts see it as the record `Game`. The keys are those of the ACPC project's game definitions.
#[derive(Clone, Copy, Debug, PartialEq, Eq)]
pub struct GameDef {
    pub(crate) players: usize,
    pub(crate) stacks: [u32; PLAYERS],
    pub(crate) blinds: [u32; PLAYERS],
    pub(crate) raise_sizes: Option<[u32; ROUNDS]>,
    pub(crate) first_players: [usize; ROUNDS],
    pub(crate) max_raises: [u8; ROUNDS],
}

impl Model for GameDef {
    ghost use Rattle.game_def.specs.Game.{Game};

    ghost Value = { Game };

    ghost use Rattle.game_def.specs.GameDefInside.{IsKept, game_of, inside_of, inside_of-game_of};

    ghost view = { game_of };

    ghost invariant = { IsKept };

    ghost inverse = { inside_of };

    ghost inverse_ok = { inside_of-game_of };
}

impl GameDef {
    /// What holds of every game: the counts of its lists, and the bounds of each amount.
    pub fn limits(&self)
        ensures { IsGame self.now }
    {
        let _ = &self.players;
    }

    /// The number of players, 2 to 10.
    pub fn players(&self) -> usize
        ensures value { result ≡ self.now.players }
        ensures least { 2 ≤ result }
        ensures most { result ≤ 10 }
    {
        self.players
    }

    /// The stack of a position at the start of each hand, in chips: above the greatest blind.
    pub fn stack(&self, position: usize) -> u32
        requires { position < self.now.players }
        ensures value { result ≡ stack_of self.now position }
        ensures least { big_blind self.now < result }
        ensures most { result ≤ most_chips }
    {
        let stacks = &self.stacks[..self.players];
        stacks[position]
    }

    /// The blind that a position posts, in chips; 0 where it posts none.
    #[tactic(auto, using(crate::proofs::Amounts::blind_within))]
    pub fn blind(&self, position: usize) -> u32
        requires { position < self.now.players }
        ensures value { result ≡ blind_of self.now position }
        ensures most { result ≤ big_blind self.now }
    {
        let blinds = &self.blinds[..self.players];
        blinds[position]
    }

    /// The greatest blind, in chips: at least 1, and below each stack.
    #[tactic(auto, using(crate::proofs::Amounts::big_blind_within))]
    pub fn big_blind(&self) -> u32
        ensures value { result ≡ big_blind self.now }
        ensures least { 1 ≤ result }
        ensures most { result < most_chips }
    {
        let blinds = &self.blinds[..self.players];
        blinds
            .iter()
            .fold(0, |greatest, blind| greatest.max(*blind))
    }

    /// Whether raises are of a fixed size. It keeps the sizes to this file: `raise_size` gives them.
    pub fn is_limit(&self) -> bool
        ensures { IsTrue result ↔ IsSome self.now.raise_sizes }
    {
        self.raise_sizes.is_some()
    }

    /// The size of each raise of a round, in chips and at least 1, in a limit game.
    pub fn raise_size(&self, round: usize) -> Option<u32>
        requires { round < 4 }
        ensures value { result ≡ raise_size_of self.now round }
        ensures least { IfSome result (λ size. 1 ≤ size) }
        ensures most { IfSome result (λ size. size ≤ most_chips) }
    {
        match self.raise_sizes {
            Some(sizes) => Some(sizes[round]),
            None => None,
        }
    }

    /// The position from which the first player to act in a round is looked for, counted from 0.
    pub fn first_player(&self, round: usize) -> usize
        requires { round < 4 }
        ensures value { result ≡ slice_index self.now.first_players round }
        ensures most { result < self.now.players }
    {
        self.first_players[round]
    }

    /// The most raises of a round, 0 to 255.
    pub fn max_raises(&self, round: usize) -> u8
        requires { round < 4 }
        ensures { result ≡ slice_index self.now.max_raises round }
    {
        self.max_raises[round]
    }
}
