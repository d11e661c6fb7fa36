//! What came over a connection, cut into lines.

ghost use Rattle.std.specs.Prelude.{◌≡◌, ◌<◌, ◌≤◌, length, true, false};
ghost use Rattle.relay_runs.specs.Said.{IsBeginning};
ghost use Rattle.relay_runs.specs.Heard.{IsTextOf, IsVersion, is_comment, IsOverText, IsNoQuorumText};

use crate::limits::LONGEST_LINE;
use matchstate::{are_digits, cut};

/// The text of a line that stood before a line feed: without the carriage return at its end.
pub(crate) fn text_of(raw: &[u8]) -> &[u8]
    ensures { IsTextOf raw.now result.now }
{
    match raw.split_last() {
        Some((last, text)) if *last == b'\r' => text,
        _ => raw,
    }
}

/// Whether what came without a line feed is the beginning of a line that is too long.
pub(crate) fn begins_too_long(came: &[u8]) -> bool
    ensures long { result ≡ true → 4097 < length came.now }
    ensures short { result ≡ false → length came.now ≤ 4097 }
{
    came.len() > LONGEST_LINE + 1
}

/// Whether what came is the beginning of one line that may go on.
pub(crate) fn is_beginning(came: &[u8]) -> bool
    ensures { result ≡ true → IsBeginning came.now }
{
    came.len() <= LONGEST_LINE + 1 && cut(came, b'\n').is_none()
}

/// Whether it is a comment, which nobody is to answer.
pub(crate) fn is_comment(text: &[u8]) -> bool
    ensures { result ≡ is_comment text.now }
{
    matches!(text, [b'#' | b';', ..])
}

/// Whether a node says by this line that the match is over.
pub(crate) fn is_over(text: &[u8]) -> bool
    ensures yes { result ≡ true → IsOverText text.now }
    ensures no { result ≡ false → ¬ IsOverText text.now }
{
    text == b"#OVER".as_slice()
}

/// Whether a node says by this line that it has another match's line at the place of the one that it was asked for.
pub(crate) fn says_other_match(text: &[u8]) -> bool {
    text == b"#OTHER".as_slice()
}

/// Whether a node says by this line that it has no quorum.
pub(crate) fn says_no_quorum(text: &[u8]) -> bool
    ensures yes { result ≡ true → IsNoQuorumText text.now }
    ensures no { result ≡ false → ¬ IsNoQuorumText text.now }
{
    text == b"#WAIT".as_slice()
}

/// Whether a line names version 2.0 of the protocol: `VERSION:2.0.` and a revision of 1 to 9 digits.
pub(crate) fn is_version(line: &[u8]) -> bool
    ensures { result ≡ true → IsVersion line.now }
{
    match line.strip_prefix(b"VERSION:2.0.") {
        Some(revision) => !revision.is_empty() && revision.len() <= 9 && are_digits(revision),
        None => false,
    }
}
