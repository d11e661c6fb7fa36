//! What the bot says in a line, and what is said for it.

ghost use Rattle.std.specs.Prelude.{◌≡◌, ℕ, List, ◌∷◌, ◌++◌, option_map, IfOk, IfSome, IsSomeAnd, IsNone};
ghost use Rattle.relay_runs.specs.Heard.{IsMendedBy};
ghost use Rattle.relay_runs.specs.Meant.{IsRight};

use game_def::GameDef;
use seat_relay::mended_answer;
use std::alloc::{AllocError, Global};

/// What stands in front of what came from the bot, and what was done with it.
#[derive(Drop)]
pub(crate) enum Saying {
    /// No whole line.
    Nothing,
    /// A line that is too long: it was passed over, or as much of it as came. It is told once.
    TooLong,
    /// The rest of such a line.
    Rest,
    /// A comment.
    Comment(Vec<u8>),
    /// The version that it names, by which it gets its seat.
    Version(Vec<u8>),
    /// What it says instead of its version. It stays in front.
    WrongVersion(Vec<u8>),
    /// What was said to the relay's machine: this text, or another instead. It was kept, if it is an answer to the newest line,
    /// and none to it stands.
    Said {
        text: Vec<u8>,
        instead: Option<Vec<u8>>,
        kept: bool,
    },
}

/// What stands behind a line in a text that begins with it.
fn rest_behind<'a>(text: &'a [u8], line: &[u8]) -> Option<&'a [u8]>
    ensures found { IfSome result (λ rest. text.now ≡ line.now ++ rest.now) }
    ensures only { (rest : List ℕ) → text.now ≡ line.now ++ rest → IsSomeAnd result (λ found. found.now ≡ rest) }
{
    text.strip_prefix(line)
}

/// What stands behind a line and a colon in a text that begins with them.
fn field_behind<'a>(text: &'a [u8], line: &[u8]) -> Option<&'a [u8]>
    ensures found { IfSome result (λ field. text.now ≡ line.now ++ 58 ∷ field.now) }
    ensures only { (field : List ℕ) → text.now ≡ line.now ++ 58 ∷ field → IsSomeAnd result (λ found. found.now ≡ field) }
{
    match rest_behind(text, line)? {
        [b':', field @ ..] => Some(field),
        _ => None,
    }
}

/// What is said for the bot: its text, or another instead.
pub(crate) fn said_for<'a>(text: &'a [u8], instead: &'a Option<Vec<u8>>) -> &'a [u8]
    ensures own { IsNone instead.now → result.now ≡ text.now }
    ensures other { IfSome instead.now (λ other. result.now ≡ other.items) }
{
    match instead {
        Some(other) => other,
        None => text,
    }
}

/// What is said instead of a text of the bot: where it answers the line that the bot was given last, the answer that it is
/// mended to by the game. None where there is no game, or the text is right.
pub(crate) fn meant_by(
    alloc: Global,
    last: Option<&[u8]>,
    text: &[u8],
    mended: &Option<GameDef>,
) -> Result<Option<Vec<u8>>, AllocError>
    ensures some { IfOk result (λ found. IfSome found (λ said. IsMendedBy mended.now text.now said.items)) }
    ensures none { IfOk result (λ found. IsNone found → IsRight mended.now (option_map (λ line. line.now) last.entry) text.now) }
{
    let (Some(game), Some(last)) = (mended, last) else {
        return Ok(None);
    };
    let Some(field) = field_behind(text, last) else {
        return Ok(None);
    };
    match mended_answer(alloc, last, field, game)? {
        Some(answer) if answer.as_slice() != text => Ok(Some(answer)),
        _ => Ok(None),
    }
}
