//! What the file `nodeI.peerJ.kept` says of a peer's store: its life, and the greatest ballot that it is known to have promised.

ghost use Rattle.std.specs.Prelude.{◌≡◌, ◌↔◌, ◌++◌, Option, IfOk, OnOk, IfSome, IsTrue, Some, codes, decimal};
ghost use Rattle.paxos_wire.specs.declared.ballot.Ballot.{Ballot as OfBallot};
ghost use Rattle.node_runs.specs.KeptPeers.{IsKeptPeer, IsKept, IsPromised, IsLine, IsEnd, IsLined, IsSpaced, IsBallot, AreSpaces, Says, ballot_text};
ghost use Rattle.node_runs.specs.declared.kept_peer.KeptPeer.{KeptPeer as Kept};

use match_file::{life_text, read_life};
use matchstate::{cut, read_number};
use paxos_wire::Ballot;
use peer_codes::Life;
use std::alloc::{AllocError, Global};

/// As many bytes as a text has that says a ballot, whichever it says: so it can be written over an earlier one.
pub const KEPT_BYTES: usize = 64;

/// As many bytes as the first line has, its line feed among them.
pub const LIFE_LINE_BYTES: usize = 38;

/// What is known of a peer's store.
#[derive(Clone, Copy, Debug, PartialEq, Eq)]
pub struct KeptPeer {
    /// Its life.
    pub life: Life,
    /// The greatest ballot that it is known to have promised, if one is known.
    pub promised: Option<Ballot>,
}

/// What the file has: the line of the life, and where a ballot is known a line `promised R.N`, filled up with spaces.
pub fn kept_peer_text(alloc: Global, kept: &KeptPeer) -> Result<Vec<u8>, AllocError>
    ensures { IfOk result (λ text. IsKeptPeer text.items kept.now) }
{
    let mut text = life_text(alloc, &kept.life.bytes)?;
    if let Some(ballot) = kept.promised {
        put_promised(&mut text, ballot)?;
    }
    Ok(text)
}

/// Appends the line of a ballot, with spaces before its end, so many that the text has its length.
fn put_promised(text: &mut Vec<u8>, ballot: Ballot) -> Result<(), AllocError>
    ensures { OnOk result (IsLined text.new.items text.old.items ballot) }
{
    put_ballot(text, ballot)?;
    put_spaces(text)?;
    text.extend_from_slice(b"\n")?;
    Ok(())
}

/// Appends the word and the ballot, with a space behind it.
fn put_ballot(text: &mut Vec<u8>, ballot: Ballot) -> Result<(), AllocError>
    ensures { OnOk result (text.new.items ≡ text.old.items ++ (codes "promised " ++ decimal ballot.round ++ codes "." ++ decimal ballot.node ++ codes " ")) }
{
    let Ballot { round, node } = ballot;
    let said = format!(in *text.allocator(); "promised {round}.{node} ")?;
    text.extend_from_slice(said.as_bytes())
}

/// Appends spaces until one byte is left of the length.
fn put_spaces(text: &mut Vec<u8>) -> Result<(), AllocError>
    ensures { OnOk result (IsSpaced text.new.items text.old.items) }
{
    for _missing in text.len()..KEPT_BYTES - 1 {
        text.extend_from_slice(b" ")?;
    }
    Ok(())
}

/// What a text says of a peer's store; none where it is no such text, as of one that was written in part.
pub fn read_kept_peer(text: &[u8]) -> Option<KeptPeer>
    ensures found { IfSome result (λ kept. IsKeptPeer text.now kept) }
    ensures only { (kept : Kept) → IsKept kept → IsKeptPeer text.now kept → result ≡ Some kept }
{
    let (line, behind) = text.split_at_checked(LIFE_LINE_BYTES)?;
    let bytes = read_life(line)?;
    let promised = read_behind(behind)?;
    Some(KeptPeer {
        life: Life { bytes },
        promised,
    })
}

/// What stands behind the first line: nothing, or the line of a ballot.
fn read_behind(text: &[u8]) -> Option<Option<Ballot>>
    ensures found { IfSome result (λ promised. Says text.now promised) }
    ensures only { (promised : Option OfBallot) → IfSome promised IsBallot → Says text.now promised → result ≡ Some promised }
{
    if text.is_empty() {
        return Some(None);
    }
    match read_promised(text) {
        Some(ballot) => Some(Some(ballot)),
        None => None,
    }
}

/// The ballot that a line says.
fn read_promised(line: &[u8]) -> Option<Ballot>
    ensures found { IfSome result (λ ballot. IsPromised line.now ballot) }
    ensures only { (ballot : OfBallot) → IsBallot ballot → IsPromised line.now ballot → result ≡ Some ballot }
{
    let (word, said) = cut(line, b' ')?;
    let (ballot, behind) = cut(said, b' ')?;
    let (spaces, rest) = cut(behind, b'\n')?;
    if is_line(word, spaces, rest) {
        read_ballot(ballot)
    } else {
        None
    }
}

/// Whether a line has its word in front and spaces alone before its end, and nothing stands behind it.
fn is_line(word: &[u8], spaces: &[u8], rest: &[u8]) -> bool
    ensures { IsTrue result ↔ IsLine word.now spaces.now rest.now }
{
    is_word(word) && is_end(spaces, rest)
}

/// Whether it is the word in front of a ballot.
fn is_word(word: &[u8]) -> bool
    ensures { IsTrue result ↔ (word.now ≡ codes "promised") }
{
    word == b"promised".as_slice()
}

/// Whether spaces alone stand before the end of a line, and nothing behind it.
fn is_end(spaces: &[u8], rest: &[u8]) -> bool
    ensures { IsTrue result ↔ IsEnd spaces.now rest.now }
{
    are_spaces(spaces) && rest.is_empty()
}

/// Whether a text has spaces alone.
fn are_spaces(text: &[u8]) -> bool
    ensures { IsTrue result ↔ AreSpaces text.now }
{
    text.iter().all(|byte| *byte == b' ')
}

/// The ballot that a text says as `R.N`, its round and its node.
fn read_ballot(text: &[u8]) -> Option<Ballot>
    ensures found { IfSome result (λ ballot. text.now ≡ ballot_text ballot) }
    ensures only { (ballot : OfBallot) → IsBallot ballot → text.now ≡ ballot_text ballot → result ≡ Some ballot }
{
    let (round, node) = cut(text, b'.')?;
    let round = read_number(round)?;
    match read_number(node) {
        Some(node) if node < 256 => Some(Ballot {
            round,
            node: node as u8,
        }),
        _ => None,
    }
}
