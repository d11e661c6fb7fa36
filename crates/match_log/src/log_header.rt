ghost use Rattle.std.specs.Prelude.{◌≡◌, ◌+◌, ◌<◌, ◌≤◌, ◌++◌, vec_len, vec_capacity, OnOk, OnErr, ℕ, List, decimal, IfSome, IsNone, Some};
ghost use Rattle.match_log.specs.Names.{IsName, IsGameWord};
ghost use Rattle.match_log.specs.Lines.{header_line};
ghost use Rattle.match_log.specs.Check.{HasTitle};
ghost use Rattle.match_log.specs.Log.{Title};

use crate::front::after;
use crate::game_word::is_game_word;
use crate::name::is_name;
use matchstate::{cut, put, put_number, read_number};
use slot_log::limits::HANDS;
use std::alloc::AllocError;

/// No header has more bytes.
pub const MOST_HEADER: usize = 263;

/// Appends the first line of a log, `# name/game/hands NAME GAME HANDS` and LF. `name` is 1 to 32 of letters,
/// digits, `_`, `-` and `.`; `game` is 1 to 200 printable ASCII characters without space; `hands` is how
/// many hands the match has.
///
/// An `Err` comes only where memory was refused; then nothing has changed.
pub fn header(out: &mut Vec<u8>, name: &[u8], game: &[u8], hands: u32) -> Result<(), AllocError>
    requires name { IsName name.now }
    requires game { IsGameWord game.now }
    ensures ok { OnOk result (out.new.items ≡ out.old.items ++ header_line name.now game.now hands) }
    ensures err { OnErr result (out.new.items ≡ out.old.items) }
    ensures full { OnErr result (vec_capacity out.old < vec_len out.old + 263) }
{
    out.reserve(MOST_HEADER)?;
    header_reserved(out, name, game, hands);
    Ok(())
}

/// As `header`, where there is room for `MOST_HEADER` bytes.
#[tactic(auto, unfolding(crate::specs::Lines::header_line))]
pub fn header_reserved(out: &mut Vec<u8>, name: &[u8], game: &[u8], hands: u32)
    requires name { IsName name.now }
    requires game { IsGameWord game.now }
    requires room { vec_len out.old + 263 ≤ vec_capacity out.old }
    ensures items { out.new.items ≡ out.old.items ++ header_line name.now game.now hands }
    ensures len { vec_len out.new ≤ vec_len out.old + 263 }
    ensures capacity { vec_capacity out.old ≤ vec_capacity out.new }
{
    put(out, b"# name/game/hands ");
    put(out, name);
    put(out, b" ");
    put(out, game);
    put(out, b" ");
    put_number(out, hands);
    put(out, b"\n");
}

/// What a header says of the match, and what stands behind it.
#[derive(Clone, Copy)]
pub(crate) struct FoundHeader<'a> {
    /// How many hands the match has, 1 to 10000.
    pub(crate) hands: u32,
    pub(crate) behind: &'a [u8],
}

/// The header in front, `# name/game/hands NAME GAME HANDS` and LF; none where there is no header.
pub(crate) fn read_header(bytes: &[u8]) -> Option<FoundHeader<'_>>
    ensures found { IfSome result (λ header. (title : Title) × (title.hands ≡ header.hands) × HasTitle bytes.now title header.behind.now) }
    ensures none { IsNone result → (title : Title) (rest : List ℕ) → ¬ (HasTitle bytes.now title rest) }
{
    let words = after(bytes, b"# name/game/hands ")?;
    let Some((name, words)) = cut(words, b' ') else {
        return None;
    };
    let Some((game, words)) = cut(words, b' ') else {
        return None;
    };
    let Some((hands, behind)) = cut(words, b'\n') else {
        return None;
    };
    if !is_name(name) {
        return None;
    }
    if !is_game_word(game) {
        return None;
    }
    let hands = read_hands(hands)?;
    Some(FoundHeader { hands, behind })
}

/// The number of hands that a decimal says, 1 to 10000.
fn read_hands(bytes: &[u8]) -> Option<u32>
    ensures found { IfSome result (λ hands. bytes.now ≡ decimal hands) }
    ensures least { IfSome result (λ hands. 1 ≤ hands) }
    ensures most { IfSome result (λ hands. hands ≤ 10000) }
    ensures only { (hands : ℕ) → 1 ≤ hands → hands ≤ 10000 → bytes.now ≡ decimal hands → result ≡ Some hands }
{
    let hands = read_number(bytes)?;
    if 1 <= hands && hands <= HANDS {
        Some(hands)
    } else {
        None
    }
}
