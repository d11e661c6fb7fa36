ghost use Rattle.std.specs.Prelude.{◌≡◌, ◌↔◌, IsSome, IfSome, IsTrue};
ghost use Rattle.match_log.specs.Names.{IsGameWord};

use match_log::is_game_word;
use std::marker::Model;

/// The word by which a log names its game: 1 to 200 printable ASCII characters without space.
///
/// Contracts see the word's bytes.
#[derive(Debug, Drop)]
pub struct GameWord<'a> {
    text: &'a str,
}

impl<'a> Model for GameWord<'a> {
    ghost use Rattle.std.specs.Prelude.{List, ℕ};
    ghost use Rattle.match_log.specs.Names.{IsGameWord};

    ghost Value = { List ℕ };

    ghost view = { λ d. d.text.now };

    ghost invariant = { λ d. IsGameWord d.text.now };
}

impl<'a> GameWord<'a> {
    /// The word of this text; none where it has another form.
    pub fn new(text: &'a str) -> Option<GameWord<'a>>
        ensures found { IsSome result ↔ IsGameWord text.entry.now }
        ensures value { IfSome result (λ word. word ≡ text.entry.now) }
    {
        if is_game_word(text.as_bytes()) {
            Some(GameWord { text })
        } else {
            None
        }
    }

    /// The word's bytes. The field itself is private, so that every word has the form.
    pub fn as_bytes(&self) -> &[u8]
        ensures value { result.now ≡ self.now }
        ensures form { IsGameWord self.now }
    {
        self.text.as_bytes()
    }
}
