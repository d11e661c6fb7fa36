ghost use Rattle.std.specs.Prelude.{◌≡◌, ◌≤◌, ◌↔◌, IsTrue};
ghost use Rattle.match_log.specs.Names.{IsGameWord};

/// The most characters of a game's word.
const MOST_CHARACTERS: usize = 200;

/// Whether the bytes can stand for a game in a header, as the name of a game's file: 1 to 200 printable ASCII
/// characters without space.
pub fn is_game_word(bytes: &[u8]) -> bool
    ensures { IsTrue result ↔ IsGameWord bytes.now }
{
    !bytes.is_empty()
        && bytes.len() <= MOST_CHARACTERS
        && bytes.iter().all(|byte| byte.is_ascii_graphic())
}
