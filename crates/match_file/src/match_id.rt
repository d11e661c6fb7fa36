//! What stands in front of a `match.kept` where the nodes of the match run in processes of their own.

ghost use Rattle.std.specs.Prelude.{◌≡◌, ℕ, List, length, IfOk, IfSome, IsSomeAnd};
ghost use Rattle.hex.specs.Hex.{IsBytes};
ghost use Rattle.match_file.specs.Identities.{identified_text};

use crate::hex_lines::{put_hex, read_hex};
use std::alloc::{AllocError, Global};

/// The bytes of a match's identity.
pub const ID_BYTES: usize = 16;

/// What tells two matches apart whose files say the same: bytes that were drawn when the first node's store was made. All
/// machines of a match have the same.
#[derive(Clone, Copy, Debug, PartialEq, Eq)]
pub struct MatchId {
    pub bytes: [u8; ID_BYTES],
}

/// What such a `match.kept` has: a line with the identity, and the text of a kept match behind it. So `serve`, whose
/// `match.kept` has no such line, takes it for none, and the other way round.
pub fn identified_text(alloc: Global, id: &MatchId, kept: &[u8]) -> Result<Vec<u8>, AllocError>
    ensures { IfOk result (λ text. text.items ≡ identified_text id.now.bytes kept.now) }
{
    let mut text = Vec::new(alloc);
    put_hex(&mut text, b"# match.id ", &id.bytes)?;
    text.extend_from_slice(kept)?;
    Ok(text)
}

/// The identity in front of a text, and what stands behind its line; none of any other text.
pub fn read_identified(text: &[u8]) -> Option<(MatchId, &[u8])>
    ensures found { IfSome result (λ parts. text.now ≡ identified_text parts.0.bytes parts.1.now) }
    ensures only { (id kept : List ℕ) → IsBytes id → length id ≡ 16 → text.now ≡ identified_text id kept → IsSomeAnd result (λ parts. (parts.0.bytes ≡ id) × (parts.1.now ≡ kept)) }
{
    let (bytes, kept) = read_hex(text, b"# match.id ")?;
    Some((MatchId { bytes }, kept))
}
