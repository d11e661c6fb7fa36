ghost use Rattle.std.specs.Prelude.{◌≡◌, MatchResult, Some, None, Ok, Err};
ghost use Rattle.std.specs.Option.{option_copied, option_map};
ghost use Rattle.game_def.specs.WholeFile.{read_game};
ghost use Rattle.match_file.specs.Matches.{SaysMatch, DefinesGame};
ghost use Rattle.match_file.specs.Refusals.{IsRefused, IsNoGame};

use crate::key::Key;
use crate::match_fault::MatchFault;
use crate::match_file::MatchFile;
use dealer_kind::Config;
use game_def::GameDef;
use std::alloc::Global;

impl MatchFile {
    ghost use Rattle.match_file.specs.MatchFile.{members};

    /// The match that the file and its game file say, and the nodes that deal it. `game` has the bytes of the game
    /// file, none where it can't be read.
    ///
    /// The fault is that of the first wrong one of these, in order: 101 `BadEntry` of `name` and of `game`, 104
    /// `Unreadable` where there are no bytes, 102 `Game` with the fault of the game file, 101 `BadEntry` of `hands`,
    /// `names` and `node`; or 92 `OutOfMemory`. What stands at other keys is of no account.
    pub fn config(&self, alloc: Global, game: Option<&[u8]>) -> Result<Config, MatchFault>
        ensures { MatchResult result (SaysMatch (option_copied game.entry) (members self.now)) (IsRefused (option_copied game.entry) (members self.now)) }
    {
        let Some(name) = self.title() else {
            return Err(MatchFault::BadEntry(Key::Name));
        };
        let Some(word) = self.word() else {
            return Err(MatchFault::BadEntry(Key::Game));
        };
        let game = read_game(game)?;
        let players = game.players();
        let Some(hands) = self.hands() else {
            return Err(MatchFault::BadEntry(Key::Hands));
        };
        let names = self.seat_names(alloc, players)?;
        let sources = self.sources(alloc, players, hands)?;
        let word = word.as_bytes().to_vec(alloc)?;
        game.limits();
        Ok(Config::new(game, name, word, names, hands, sources).unwrap())
    }
}

/// The game of a game file's bytes.
fn read_game(bytes: Option<&[u8]>) -> Result<GameDef, MatchFault>
    ensures { MatchResult result (DefinesGame (option_copied bytes.entry)) (IsNoGame (option_copied bytes.entry)) }
{
    match bytes {
        Some(bytes) => match game_def::read(bytes) {
            Ok(game) => Ok(game),
            Err(fault) => Err(MatchFault::Game(fault)),
        },
        None => Err(MatchFault::Unreadable),
    }
}
