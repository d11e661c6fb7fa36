ghost use Rattle.std.specs.Prelude.{◌≡◌, ◌≤◌, ◌↔◌, ◌||◌, ◌&&◌, length, true, IsSome, IfSome, OnSome, IsTrue};
ghost use Rattle.std.specs.List.{list_all};
ghost use Rattle.match_log.specs.Names.{IsName, is_name_byte};

use std::marker::Model;

/// The most bytes of a name.
const MOST_BYTES: usize = 32;

/// The name of a seat or of a match: 1 to 32 of letters, digits, `_`, `-` and `.`.
///
/// Contracts see a name as the list of its bytes.
#[derive(Clone, Copy, Debug, PartialEq, Eq)]
pub struct Name {
    bytes: [u8; MOST_BYTES],
    len: usize,
}

impl Model for Name {
    ghost use Rattle.std.specs.Prelude.{List, ℕ, take};

    ghost Value = { List ℕ };

    ghost use Rattle.match_log.specs.NameInside.{IsKept, inside_of, inside_of-view};

    ghost view = { λ d. take d.len d.bytes };

    ghost invariant = { IsKept };

    ghost inverse = { inside_of };

    ghost inverse_ok = { inside_of-view };
}

impl Name {
    /// The name of these bytes; none where they are no name.
    pub fn new(bytes: &[u8]) -> Option<Name>
        ensures found { IsSome result ↔ IsName bytes.now }
        ensures value { IfSome result (λ name. name ≡ bytes.now) }
    {
        if !is_name(bytes) {
            return None;
        }
        let mut kept = [0; MOST_BYTES];
        kept[..bytes.len()].copy_from_slice(bytes);
        Some(Name {
            bytes: kept,
            len: bytes.len(),
        })
    }

    /// The name's bytes, 1 to 32.
    pub fn as_bytes(&self) -> &[u8]
        ensures value { result.now ≡ self.now }
        ensures name { IsName self.now }
        ensures most { length result.now ≤ 32 }
    {
        &self.bytes[..self.len]
    }
}

/// Whether the bytes are a name.
#[tactic(auto, using(crate::proofs::Named::name_from_tests, crate::proofs::Named::tests_from_name))]
pub(crate) fn is_name(bytes: &[u8]) -> bool
    ensures { IsTrue result ↔ IsName bytes.now }
{
    !bytes.is_empty() && bytes.len() <= MOST_BYTES && are_name_bytes(bytes)
}

/// Whether each byte may stand in a name.
fn are_name_bytes(bytes: &[u8]) -> bool
    ensures { result ≡ list_all is_name_byte bytes.now }
{
    bytes.iter().all(|byte| byte.is_ascii_alphanumeric()
        || *byte == b'_'
        || *byte == b'-'
        || *byte == b'.')
}
