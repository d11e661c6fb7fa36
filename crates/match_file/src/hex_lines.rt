//! Lines that say bytes, in small hex digits.

ghost use Rattle.std.specs.Prelude.{◌≡◌, ◌≤◌, ◌↔◌, ◌++◌, ℕ, List, [], length, IsTrue, IfSome, IsSomeAnd, OnOk, Some};
ghost use Rattle.hex.specs.Hex.{IsBytes, encode_lower};
ghost use Rattle.match_file.specs.Kept.{line};

use crate::kept::put_line;
use crate::kept_lines::read_line;
use hex::FromHex;
use std::alloc::AllocError;

/// The most bytes that a line is read for.
const MOST_BYTES: usize = 32;

/// Appends a line: a word with a space behind it, and the digits of bytes.
pub(crate) fn put_hex(text: &mut Vec<u8>, word: &[u8], bytes: &[u8]) -> Result<(), AllocError>
    ensures { OnOk result (text.new.items ≡ text.old.items ++ line word.now (encode_lower bytes.now) []) }
{
    let digits = hex::encode(*text.allocator(), bytes)?;
    put_line(text, word, digits.as_bytes())
}

/// The bytes of a line in front that begins with a word, 32 at most, and what stands behind the line; none where another
/// stands there.
pub(crate) fn read_hex<'a, const N: usize>(
    text: &'a [u8],
    word: &[u8],
) -> Option<([u8; N], &'a [u8])>
    requires { N ≤ 32 }
    ensures found { IfSome result (λ parts. text.now ≡ line word.now (encode_lower parts.0) parts.1.now) }
    ensures only { (bytes rest : List ℕ) → IsBytes bytes → length bytes ≡ N → text.now ≡ line word.now (encode_lower bytes) rest → IsSomeAnd result (λ parts. (parts.0 ≡ bytes) × (parts.1.now ≡ rest)) }
{
    let (digits, rest) = read_line(text, word)?;
    let bytes = read_digits(digits)?;
    Some((bytes, rest))
}

/// The bytes that small digits say: large ones are refused, so that bytes stand there in one way.
fn read_digits<const N: usize>(digits: &[u8]) -> Option<[u8; N]>
    requires { N ≤ 32 }
    ensures found { IfSome result (λ bytes. digits.now ≡ encode_lower bytes) }
    ensures only { (bytes : List ℕ) → IsBytes bytes → length bytes ≡ N → digits.now ≡ encode_lower bytes → result ≡ Some bytes }
{
    let Ok(bytes) = <[u8; N]>::from_hex(digits) else {
        return None;
    };
    if are_digits_of(digits, &bytes) {
        Some(bytes)
    } else {
        None
    }
}

/// Whether these are the small digits of these bytes, of which there are 32 at most.
fn are_digits_of(digits: &[u8], bytes: &[u8]) -> bool
    requires { length bytes.now ≤ 32 }
    ensures { IsTrue result ↔ (digits.now ≡ encode_lower bytes.now) }
{
    let mut room = [0; 2 * MOST_BYTES];
    let own = &mut room[..2 * bytes.len()];
    let _ = hex::encode_to_slice(bytes, &mut *own);
    digits == own
}
