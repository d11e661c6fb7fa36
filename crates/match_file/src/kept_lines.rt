//! The lines of a `match.kept`, before what they say is read; those of other kept files are read by the same calls.

ghost use Rattle.std.specs.Prelude.{◌≡◌, ◌++◌, ℕ, List, IfSome, IsSomeAnd};
ghost use Rattle.game_def.specs.Text.{HasNoFeed};
ghost use Rattle.match_file.specs.Kept.{line};

use matchstate::cut;

/// What the lines say, and what stands behind them.
#[derive(Clone, Copy)]
pub(crate) struct KeptLines<'a> {
    pub(crate) name: &'a [u8],
    pub(crate) game: &'a [u8],
    pub(crate) hands: &'a [u8],
    pub(crate) names: &'a [u8],
    pub(crate) nodes: &'a [u8],
    /// Behind the empty line: the game file.
    pub(crate) rest: &'a [u8],
}

impl<'a> KeptLines<'a> {
    ghost use Rattle.match_file.specs.KeptLines.{Said, said_in, text_of, IsOneEach};

    /// The lines of a text; none where others stand there.
    pub(crate) fn read(text: &'a [u8]) -> Option<KeptLines<'a>>
        ensures found { IfSome result (λ found. text.now ≡ text_of (said_in found)) }
        ensures only { (said : Said) → IsOneEach said → text.now ≡ text_of said → IsSomeAnd result (λ found. said_in found ≡ said) }
    {
        let text = after(text, b"# match.kept 1\n")?;
        let (name, text) = read_line(text, b"name ")?;
        let (game, text) = read_line(text, b"game ")?;
        let (hands, text) = read_line(text, b"hands ")?;
        let (names, text) = read_line(text, b"names ")?;
        let (nodes, text) = read_line(text, b"nodes ")?;
        let rest = after(text, b"\n")?;
        Some(KeptLines {
            name,
            game,
            hands,
            names,
            nodes,
            rest,
        })
    }
}

/// What a line in front says that begins with a word, and what stands behind the line; none where another stands there.
pub(crate) fn read_line<'a>(text: &'a [u8], word: &[u8]) -> Option<(&'a [u8], &'a [u8])>
    ensures found { IfSome result (λ parts. text.now ≡ line word.now parts.0.now parts.1.now) }
    ensures only { (value rest : List ℕ) → HasNoFeed value → text.now ≡ line word.now value rest → IsSomeAnd result (λ parts. (parts.0.now ≡ value) × (parts.1.now ≡ rest)) }
{
    match after(text, word) {
        Some(behind) => cut(behind, b'\n'),
        None => None,
    }
}

/// What stands behind these bytes; none where others stand in front. It is `strip_prefix`, said both ways, as a front
/// and what is behind it.
pub(crate) fn after<'a>(text: &'a [u8], front: &[u8]) -> Option<&'a [u8]>
    ensures found { IfSome result (λ behind. text.now ≡ front.now ++ behind.now) }
    ensures only { (behind : List ℕ) → text.now ≡ front.now ++ behind → IsSomeAnd result (λ rest. rest.now ≡ behind) }
{
    text.strip_prefix(front)
}
