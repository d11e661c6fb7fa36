ghost use Rattle.std.specs.Prelude.{◌≡◌, ◌≤◌, ◌<◌, ◌↔◌, ◌⊎◌, length, slice_get, IsTrue, IsSome, Some, IfSome};
ghost use Rattle.std.specs.List.{All};
ghost use Rattle.game_def.specs.Game.{IsGame};
ghost use Rattle.match_log.specs.Names.{IsName, IsGameWord, AreNames};
ghost use Rattle.dealer_kind.specs.Sources.{HasDeals};
ghost use Rattle.dealer_kind.specs.Plans.{HasNodes, IsPlan};

use crate::source::Source;
use game_def::GameDef;
use match_log::{Name, SeatNames, is_game_word};
use slot_log::limits::HANDS;
use std::marker::Model;

/// A match and the nodes that deal it: what all nodes share, and where each node's own deals come from.
///
/// The match has 1 to 10000 hands and a name for each seat of its game. The nodes are three, five or seven; the list
/// of one that lists its deals has a deal for the game's players for each hand.
pub struct Config {
    game: GameDef,
    name: Name,
    game_word: Vec<u8>,
    names: SeatNames,
    hands: u32,
    sources: Vec<Source>,
}

/// By hand, so that letting one go is one call for whoever owns it (docs/ARCHITECTURE.md, Habits).
impl Drop for Config {
    fn drop(self) {
        let Config {
            game: _,
            name: _,
            game_word: _,
            names: _,
            hands: _,
            sources: _,
        } = self;
    }
}

impl Model for Config {
    ghost use Rattle.dealer_kind.specs.Plans.{Plan};

    ghost Value = { Plan };

    ghost use Rattle.dealer_kind.specs.ConfigInside.{IsKept, plan_of};

    ghost view = { plan_of };

    ghost invariant = { IsKept };
}

impl Config {
    ghost use Rattle.dealer_kind.specs.Plans.{plan};

    /// The match of this game, name and number of hands, whose log says `game_word` of its game (the name of the
    /// game's file), with the seats' names and the nodes' sources in their order; none where they aren't within limits.
    pub fn new(
        game: GameDef,
        name: Name,
        game_word: Vec<u8>,
        names: SeatNames,
        hands: u32,
        sources: Vec<Source>,
    ) -> Option<Config>
        ensures found { IsSome result ↔ IsPlan (plan game name game_word.items names hands sources.items) }
        ensures value { IfSome result (λ config. config ≡ plan game name game_word.items names hands sources.items) }
    {
        game.limits();
        let _name = name.as_bytes();
        let is_right = is_game_word(&game_word)
            && names.as_slice().len() == game.players()
            && (1..=HANDS).contains(&hands)
            && matches!(sources.len(), 3 | 5 | 7)
            && sources
                .iter()
                .all(|source| source.has_deals(game.players(), hands));
        if !is_right {
            return None;
        }
        Some(Config {
            game,
            name,
            game_word,
            names,
            hands,
            sources,
        })
    }

    /// What holds of every config: all of it is within its limits.
    pub fn limits(&self)
        ensures { IsPlan self.now }
    {
        let _ = &self.hands;
    }

    /// The game.
    pub fn game(&self) -> &GameDef
        ensures value { result.now ≡ self.now.setting.game }
    {
        &self.game
    }

    /// The name of the match.
    pub fn name(&self) -> &Name
        ensures value { result.now ≡ self.now.setting.title.name }
        ensures name { IsName result.now }
    {
        let _bytes = self.name.as_bytes();
        &self.name
    }

    /// What the log's header says of the game: 1 to 200 printable ASCII characters without space.
    pub fn game_word(&self) -> &[u8]
        ensures value { result.now ≡ self.now.setting.title.game }
        ensures word { IsGameWord result.now }
    {
        &self.game_word
    }

    /// The seats' names, one for each.
    pub fn names(&self) -> &SeatNames
        ensures value { result.now ≡ self.now.setting.names }
        ensures one_each { length result.now ≡ self.now.setting.game.players }
    {
        &self.names
    }

    /// How many hands the match has, 1 to 10000.
    pub fn hands(&self) -> u32
        ensures value { result ≡ self.now.setting.title.hands }
        ensures least { 1 ≤ result }
        ensures most { result ≤ 10000 }
    {
        self.hands
    }

    /// How many nodes there are, 3, 5 or 7: each has a source of deals. It keeps the sources to this file.
    pub fn nodes(&self) -> usize
        ensures value { result ≡ length self.now.sources }
        ensures nodes { HasNodes result }
    {
        self.sources.len()
    }

    /// Where a node's own deals come from; nodes are counted from 0.
    pub fn source(&self, node: usize) -> &Source
        requires { node < length self.now.sources }
        ensures value { slice_get self.now.sources node ≡ Some result.now }
        ensures deals { HasDeals self.now.setting.game.players self.now.setting.title.hands result.now }
    {
        &self.sources[node]
    }
}
