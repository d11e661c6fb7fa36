//! What is kept beside the logs of a node that runs in a process of its own: `nodeI.logs.kept`, which of them are of its store.

ghost use Rattle.std.specs.Prelude.{◌≡◌, IfOk, IfSome, Some};
ghost use Rattle.match_file.specs.Identities.{IsLogsKept, logs_kept_text};
ghost use Rattle.match_file.specs.declared.logs_kept.LogsKept.{LogsKept};

use crate::hex_lines::{put_hex, read_hex};
use crate::kept::put_number;
use crate::kept_lines::read_line;
use crate::node_kept::LIFE_BYTES;
use matchstate::read_number;
use std::alloc::{AllocError, Global};

/// Which of the logs that a node kept at its starts are of its store.
#[derive(Clone, Copy, Debug, PartialEq, Eq)]
pub struct LogsKept {
    /// The life of the store.
    pub life: [u8; LIFE_BYTES],
    /// The number from which on they are: those before it are of an earlier store, or of another match.
    pub first: u32,
}

/// What `nodeI.logs.kept` has: each on a line of its own.
pub fn logs_kept_text(alloc: Global, kept: &LogsKept) -> Result<Vec<u8>, AllocError>
    ensures { IfOk result (λ text. text.items ≡ logs_kept_text kept.now) }
{
    let mut text = Vec::new(alloc);
    put_hex(&mut text, b"life ", &kept.life)?;
    put_number(&mut text, b"first ", kept.first)?;
    Ok(text)
}

/// What the text of a `nodeI.logs.kept` says; none of any other text.
pub fn read_logs_kept(text: &[u8]) -> Option<LogsKept>
    ensures found { IfSome result (λ kept. text.now ≡ logs_kept_text kept) }
    ensures only { (kept : LogsKept) → IsLogsKept kept → text.now ≡ logs_kept_text kept → result ≡ Some kept }
{
    let (life, text) = read_hex(text, b"life ")?;
    let (number, text) = read_line(text, b"first ")?;
    let first = read_number(number)?;
    if text.is_empty() {
        Some(LogsKept { life, first })
    } else {
        None
    }
}
