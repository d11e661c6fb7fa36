ghost use Rattle.std.specs.Prelude.{◌≡◌, ℕ, ◌<◌, ◌≤◌, ◌∷◌, ◌++◌, ◌==◌, ◌↔◌, ◌+◌, List, IfSome, IsSomeAnd, IsNone, IsTrue, take, drop, length, not, codes};
ghost use Rattle.std.specs.List.{prefix_len};
ghost use Rattle.matchstate.specs.Line.{IsField};

/// The four fields of a line, behind the word.
#[derive(Clone, Copy)]
pub(crate) struct LineFields<'a> {
    pub(crate) position: &'a [u8],
    pub(crate) hand: &'a [u8],
    pub(crate) betting: &'a [u8],
    pub(crate) cards: &'a [u8],
}

/// What stands in front of the last `:`, and the field behind it.
pub(crate) fn cut_last_field(bytes: &[u8]) -> Option<(&[u8], &[u8])>
    ensures found { IfSome result (λ cut. (bytes.now ≡ cut.0.now ++ 58 ∷ cut.1.now) × IsField cut.1.now) }
    ensures only { (line field : List ℕ) → IsField field → bytes.now ≡ line ++ 58 ∷ field → IsSomeAnd result (λ cut. (cut.0.now ≡ line) × (cut.1.now ≡ field)) }
{
    let place = last_colon(bytes)?;
    Some((&bytes[..place], &bytes[place + 1..]))
}

/// Where the last `:` stands.
fn last_colon(bytes: &[u8]) -> Option<usize>
    ensures found { IfSome result (λ place. (place < length bytes.now) × (bytes.now ≡ take place bytes.now ++ 58 ∷ drop (place + 1) bytes.now) × IsField (drop (place + 1) bytes.now)) }
    ensures missing { IsNone result → IsField bytes.now }
{
    for place in (0..bytes.len()).rev() {
        if bytes[place] == b':' {
            return Some(place);
        }
    }
    None
}
