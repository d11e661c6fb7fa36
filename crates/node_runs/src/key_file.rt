//! What is in the file of the key that the processes of a match share.

ghost use Rattle.std.specs.Prelude.{◌≡◌, ◌∷◌, ◌++◌, ◌↔◌, ℕ, [], IfOk, IfSome, IsNone, IsErr};
ghost use Rattle.hex.specs.Hex.{encode_lower};
ghost use Rattle.node_runs.specs.KeyFiles.{keyed, without_feed};

use hex::FromHex;
use peer_codes::Key;
use std::alloc::{AllocError, Global};

/// The key in the text of a file: 64 hexadecimal digits, small or large, behind which one line feed may stand; none of any
/// other text.
pub fn read_key(text: &[u8]) -> Option<Key>
    ensures found { IfSome result (λ key. keyed text.now ≡ Ok key.bytes) }
    ensures missing { IsNone result → IsErr (keyed text.now) }
{
    match <[u8; 32]>::from_hex(without_feed(text)) {
        Ok(bytes) => Some(Key { bytes }),
        Err(_) => None,
    }
}

/// What the file of a key has.
pub fn key_text(alloc: Global, key: &Key) -> Result<Vec<u8>, AllocError>
    ensures { IfOk result (λ text. text.items ≡ encode_lower key.now.bytes ++ 10 ∷ []) }
{
    let mut text = hex::encode(alloc, key.bytes)?.into_bytes();
    text.extend_from_slice(b"\n")?;
    Ok(text)
}

/// A text without a line feed at its end.
fn without_feed(text: &[u8]) -> &[u8]
    ensures { result.now ≡ without_feed text.now }
{
    match text.split_last() {
        Some((last, front)) if *last == b'\n' => front,
        _ => text,
    }
}
