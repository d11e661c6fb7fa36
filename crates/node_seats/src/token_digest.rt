//! The token of a seat.

ghost use Rattle.std.specs.Prelude.{◌≡◌, ◌↔◌, IsTrue};
ghost use Rattle.std.specs.List.{list_all};
ghost use Rattle.sha2.specs.Sha256.{sha256};
ghost use Rattle.node_seats.specs.Tokens.{IsTokenLine, IsLineEnd, IsForm, is_token_digit, begins_well, has_end};

use sha2::{Digest, Sha256};

/// SHA-256 of a seat's token, which is the text of 64 hexadecimal digits.
#[derive(Clone, Copy, Debug, PartialEq, Eq)]
pub struct TokenDigest {
    pub bytes: [u8; 32],
}

/// What stands in front of a token.
const WORD: &[u8; 7] = b"#TOKEN ";

/// How many digits a token has.
const DIGITS: usize = 64;

/// Whether all bytes are hexadecimal digits, small where they are letters.
fn are_digits(text: &[u8]) -> bool
    ensures { result ≡ list_all is_token_digit text.now }
{
    text.iter().all(|byte| (48 <= *byte && *byte <= 57) || (97 <= *byte && *byte <= 102))
}

/// Whether these bytes end a line.
fn is_line_end(bytes: &[u8]) -> bool
    ensures { IsTrue result ↔ IsLineEnd bytes.now }
{
    bytes == b"\n".as_slice() || bytes == b"\r\n".as_slice()
}

/// Whether these are what stands in front of a token, its digits, and the end of its line.
fn is_form(word: &[u8], digits: &[u8], end: &[u8]) -> bool
    ensures { IsTrue result ↔ IsForm word.now digits.now end.now }
{
    word == WORD.as_slice() && is_line_end(end) && are_digits(digits)
}

/// Whether SHA-256 of these bytes is this digest.
fn is_digest_of(bytes: &[u8], digest: &TokenDigest) -> bool
    ensures { IsTrue result ↔ (sha256 bytes.now ≡ digest.now.bytes) }
{
    Sha256::digest(bytes) == digest.bytes
}

/// Whether a line, as far as it came, begins as one that shows a token.
pub(crate) fn begins_well(line: &[u8]) -> bool
    ensures { result ≡ begins_well line.now }
{
    if line.len() < WORD.len() {
        line == &WORD[..line.len()]
    } else {
        &line[..WORD.len()] == WORD.as_slice()
    }
}

/// Whether a line came to its end.
pub(crate) fn has_end(line: &[u8]) -> bool
    ensures { result ≡ has_end line.now }
{
    line.iter().any(|byte| *byte == 10)
}

/// Whether a line, with its end, shows the token of this digest.
#[tactic(auto, using(crate::proofs::Tokens::too_short))]
pub(crate) fn shows_token(line: &[u8], digest: &TokenDigest) -> bool
    ensures { IsTrue result ↔ IsTokenLine digest.now.bytes line.now }
{
    if line.len() < WORD.len() + DIGITS {
        return false;
    }
    let (word, rest) = line.split_at(WORD.len());
    let (digits, end) = rest.split_at(DIGITS);
    is_form(word, digits, end) && is_digest_of(digits, digest)
}
