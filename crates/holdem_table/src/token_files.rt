//! The tokens of a match's seats: `init` draws them, each into a file of its own, and prints what the match file has of them.

use crate::init::{print, read_config, refuse_present, sync_folder};
use crate::init_node::drawn;
use crate::kept_match::unmade_file;
use crate::made_files::{Readers, make};
use crate::notes::Notes;
use dealer_kind::Config;
use match_log::Name;
use node_runs::{key_text, tokens_line};
use node_seats::TokenDigest;
use operator_notes::NodeNote;
use peer_codes::Key;
use sha2::{Digest, Sha256};
use std::alloc::{AllocError, Global};
use streamed::Ending;

/// The digits of which examples have a token, sixty-four times the same.
const KNOWN_DIGITS: [u8; 2] = [b'1', b'2'];

/// Makes a token for each seat of a match, in the file `NAME.token` of this folder, which its owner alone may use, and prints
/// the entry `tokens` of the match file.
///
/// The match file's first six keys are looked at, and its game file, as of `init`. `StoreExists` (103) comes where one of the
/// files is there before any is made; then nothing is made. `Store` (63) comes where a file can't be made or written,
/// `StreamFailed` (107) where standard output can't be written; the files that were made stay. Notes go to standard error, as
/// of `init`.
pub(crate) fn init_tokens(rt: &HostRuntime, path: &str, folder: &str) -> Ending {
    match make_tokens(rt, path, folder, &mut Notes::new(rt, false)) {
        Ok(()) => Ending::Done,
        Err(ending) => ending,
    }
}

/// The steps of it. All places are looked at before a file is made.
fn make_tokens(
    rt: &HostRuntime,
    path: &str,
    folder: &str,
    notes: &mut Notes<'_>,
) -> Result<(), Ending> {
    let config = read_config(rt, path, notes)?;
    for name in config.names().as_slice() {
        let path = token_path(rt.alloc(), folder, name)?;
        refuse_present(rt, path.as_str(), notes)?;
    }
    let mut digests = Vec::new(rt.alloc());
    for name in config.names().as_slice() {
        let digest = make_token(rt, folder, name, notes)?;
        digests.reserve(1)?;
        digests.push_reserved(digest);
    }
    sync_folder(rt, folder, notes)?;
    print(rt, &tokens_line(rt.alloc(), &digests)?)
}

/// Makes the token of a seat, and answers its digest.
fn make_token(
    rt: &HostRuntime,
    folder: &str,
    name: &Name,
    notes: &mut Notes<'_>,
) -> Result<[u8; 32], Ending> {
    let path = token_path(rt.alloc(), folder, name)?;
    let bytes = drawn(rt, notes)?;
    let text = key_text(rt.alloc(), &Key { bytes })?;
    match make(rt, path.as_str(), &text, Readers::Owner) {
        Ok(()) => notes.tell_made(path.as_str()),
        Err(error) => return Err(unmade_file(path.as_str(), &error, notes)),
    }
    // The token is the digits, without the line feed behind them.
    Ok(Sha256::digest(&text[..text.len().saturating_sub(1)]))
}

/// Where the token of a seat is, in this folder.
fn token_path(alloc: Global, folder: &str, name: &Name) -> Result<String, AllocError> {
    let mut path = String::new(alloc);
    path.push_str(folder)?;
    path.push_str("/")?;
    for byte in name.as_bytes() {
        path.push(*byte as char)?;
    }
    path.push_str(".token")?;
    Ok(path)
}

/// Tells that the seats of a node have no tokens, or which has one that everybody knows from the examples.
pub(crate) fn tell_tokens(tokens: &Option<Vec<TokenDigest>>, notes: &mut Notes<'_>) {
    let Some(tokens) = tokens else {
        notes.tell_node(&NodeNote::NoTokens);
        return;
    };
    for (seat, token) in tokens.iter().enumerate() {
        if let (Ok(seat), true) = (u8::try_from(seat), is_known(token)) {
            notes.tell_node(&NodeNote::KnownToken(seat));
        }
    }
}

/// Whether an example has this token.
fn is_known(token: &TokenDigest) -> bool {
    KNOWN_DIGITS
        .iter()
        .any(|digit| token.bytes == Sha256::digest(&[*digit; 64]))
}
