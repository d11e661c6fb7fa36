ghost use Rattle.std.specs.Prelude.{◌≡◌, ℕ, ◌++◌, ◌↔◌, List, IfSome, IsSomeAnd, IsTrue};
ghost use Rattle.match_log.specs.Check.{BeginsLine};

use matchstate::cut;

/// What stands behind these bytes; none where others stand in front. It is `strip_prefix`, with the contract that the
/// readers of lines cite: both ways, as a front and what is behind it.
pub(crate) fn after<'a>(bytes: &'a [u8], front: &[u8]) -> Option<&'a [u8]>
    ensures found { IfSome result (λ behind. bytes.now ≡ front.now ++ behind.now) }
    ensures only { (behind : List ℕ) → bytes.now ≡ front.now ++ behind → IsSomeAnd result (λ rest. rest.now ≡ behind) }
{
    bytes.strip_prefix(front)
}

/// Whether a whole line, up to its LF, stands in front and begins with these letters.
pub(crate) fn begins_line(bytes: &[u8], letters: &[u8]) -> bool
    ensures { IsTrue result ↔ BeginsLine letters.now bytes.now }
{
    match after(bytes, letters) {
        Some(behind) => cut(behind, b'\n').is_some(),
        None => false,
    }
}
