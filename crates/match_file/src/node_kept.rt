//! What is kept beside the store of a node that runs in a process of its own: `nodeI.kept`, whose store it is, and
//! `nodeI.peerJ.kept`, which store of a peer the node knows.

ghost use Rattle.std.specs.Prelude.{◌≡◌, ◌<◌, ℕ, List, length, decimal, IfOk, IfSome, Some};
ghost use Rattle.hex.specs.Hex.{IsBytes};
ghost use Rattle.match_file.specs.Identities.{IsNodeKept, node_kept_text, life_text};
ghost use Rattle.match_file.specs.declared.node_kept.NodeKept.{NodeKept};

use crate::hex_lines::{put_hex, read_hex};
use crate::kept::put_number;
use crate::kept_lines::{after, read_line};
use matchstate::read_number;
use std::alloc::{AllocError, Global};

/// The bytes of a store's life.
pub const LIFE_BYTES: usize = 16;

/// The bytes of a digest.
pub const DIGEST_BYTES: usize = 32;

/// Whose store it is: of which node, made when, and dealing from what.
#[derive(Clone, Copy, Debug, PartialEq, Eq)]
pub struct NodeKept {
    /// The node's number.
    pub node: u8,
    /// Bytes that are drawn anew whenever the node's store is made, so that the others know one that was lost.
    pub life: [u8; LIFE_BYTES],
    /// The digest of where the node's deals come from (`source_digest`), which is the same for all of a node's time.
    pub decks: [u8; DIGEST_BYTES],
}

/// What `nodeI.kept` has: each on a line of its own.
pub fn node_kept_text(alloc: Global, kept: &NodeKept) -> Result<Vec<u8>, AllocError>
    ensures { IfOk result (λ text. text.items ≡ node_kept_text kept.now) }
{
    let mut text = Vec::new(alloc);
    text.extend_from_slice(b"# node.kept 1\n")?;
    put_number(&mut text, b"node ", kept.node as u32)?;
    put_hex(&mut text, b"life ", &kept.life)?;
    put_hex(&mut text, b"decks ", &kept.decks)?;
    Ok(text)
}

/// What the text of a `nodeI.kept` says; none of any other text.
pub fn read_node_kept(text: &[u8]) -> Option<NodeKept>
    ensures found { IfSome result (λ kept. text.now ≡ node_kept_text kept) }
    ensures only { (kept : NodeKept) → IsNodeKept kept → text.now ≡ node_kept_text kept → result ≡ Some kept }
{
    let text = after(text, b"# node.kept 1\n")?;
    let (number, text) = read_line(text, b"node ")?;
    let node = read_node(number)?;
    let (life, text) = read_hex(text, b"life ")?;
    let (decks, text) = read_hex(text, b"decks ")?;
    if text.is_empty() {
        Some(NodeKept { node, life, decks })
    } else {
        None
    }
}

/// The number of a node that a decimal says.
fn read_node(bytes: &[u8]) -> Option<u8>
    ensures found { IfSome result (λ node. bytes.now ≡ decimal node) }
    ensures only { (node : ℕ) → node < 256 → bytes.now ≡ decimal node → result ≡ Some node }
{
    match read_number(bytes) {
        Some(node) if node < 256 => Some(node as u8),
        _ => None,
    }
}

/// What `nodeI.peerJ.kept` has: a line with the life of the peer's store.
pub fn life_text(alloc: Global, life: &[u8; LIFE_BYTES]) -> Result<Vec<u8>, AllocError>
    ensures { IfOk result (λ text. text.items ≡ life_text life.now) }
{
    let mut text = Vec::new(alloc);
    put_hex(&mut text, b"life ", life)?;
    Ok(text)
}

/// The life that the text of a `nodeI.peerJ.kept` says; none of any other text, as of one that was written in part.
pub fn read_life(text: &[u8]) -> Option<[u8; LIFE_BYTES]>
    ensures found { IfSome result (λ life. text.now ≡ life_text life) }
    ensures only { (life : List ℕ) → IsBytes life → length life ≡ 16 → text.now ≡ life_text life → result ≡ Some life }
{
    let (life, rest) = read_hex(text, b"life ")?;
    if rest.is_empty() { Some(life) } else { None }
}
