ghost use Rattle.std.specs.Prelude.{◌≡◌, IfOk, Ok};
ghost use Rattle.game_def.specs.Game.{Game};
ghost use Rattle.game_def.specs.GameFile.{IsGameFile};
ghost use Rattle.game_def.specs.WholeFile.{game_from};
ghost use Rattle.game_def.specs.WholeFile.{read_game};

use crate::body::{after_gamedef, read_entries};
use crate::building::build;
use crate::entries::Entries;
use crate::fault::GameFault;
use crate::game::GameDef;
use crate::whole_file::all_passed;

/// The game of entries whose last line is followed by `END GAMEDEF` at the line `foot`.
#[tactic(auto, using(crate::proofs::Passing::passing_defines), unfolding(crate::specs::WholeFile::game_from))]
fn game_from(entries: &Entries, foot: usize) -> Result<GameDef, GameFault>
    ensures { result ≡ game_from entries.now foot }
{
    entries.limits();
    all_passed(entries, foot)?;
    Ok(build(entries))
}

/// The game that a game file defines.
#[tactic(auto, unfolding(crate::specs::WholeFile::read_game))]
fn read_all(text: &[u8]) -> Result<GameDef, GameFault>
    ensures { result ≡ read_game text.now }
{
    let (before, rest) = after_gamedef(text)?;
    let (entries, foot) = read_entries(rest, before)?;
    game_from(&entries, foot)
}

/// Reads a game file: bytes of the ACPC project's game definition format, of limit and no-limit games
/// of Texas hold'em for 2 to 10 players.
///
/// Lines end with LF, before which a CR is dropped; what follows a `#` is dropped; spaces and tabs part
/// words; letter case is of no account. The first line with a word is `GAMEDEF`. From there to
/// `END GAMEDEF` each line with a word sets a key: its name, an optional `=`, the values; each key at most
/// once, `limit` and `nolimit` being one. What follows `END GAMEDEF` isn't read. No memory is taken.
///
/// The fault is the first one: at the first line at fault 10 `NoGamedef`, 12 `UnknownKey`,
/// 19 `RepeatedKey`, 13 `BadNumber`, 14 `WrongCount` in this order; then 11 `NoEnd`; then, of the whole
/// file, 15 `Unsupported` (a required key), 14 `WrongCount`, 15 `Unsupported` (a first position above the
/// number of players), 16 `NoBlind`, 17 `StackBelowBlind`, 18 `NoRaiseSize`.
///
/// `read_all` does the work, by the steps of its definition; here stands what they mean, which is proved of the definition.
pub fn read(text: &[u8]) -> Result<GameDef, GameFault>
    // What is read is a game file of its game.
    ensures found { IfOk result (λ game. IsGameFile text.now game) }
    // A game file is read as its game.
    ensures only { (game : Game) → IsGameFile text.now game → result ≡ Ok game }
    // Which fault it is, and at which line.
    ensures exact { result ≡ read_game text.now }
{
    read_all(text)
}
