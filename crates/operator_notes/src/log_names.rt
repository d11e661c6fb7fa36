//! What the logs are called that earlier starts left, and which log needn't be kept.

ghost use Rattle.std.specs.Prelude.{◌≡◌, ◌<◌, ◌^◌, ◌++◌, ◌↔◌, ℕ, List, IfOk, IfSome, IsSomeAnd, IsTrue, Some, string_bytes};
ghost use Rattle.operator_notes.specs.LogNames.{kept_log_name, kept_name, StandsIn};

use itoa::Buffer;
use matchstate::read_number;
use std::alloc::{AllocError, Global};

/// The name of a kept log of a node in this folder, of those of the node the one with this number: `node0.log.1`, and so
/// on.
pub fn kept_log_path(
    alloc: Global,
    folder: &str,
    node: u8,
    number: u32,
) -> Result<String, AllocError>
    ensures { IfOk result (λ path. string_bytes path ≡ kept_log_name folder.now node number) }
{
    let path = format!(in alloc; "{folder}/node{node}.log.{number}")?;
    Ok(path)
}

/// The number of a kept log of a node, by its name without the folder; none of another name.
pub fn kept_number(name: &str, node: u8) -> Option<u32>
    ensures found { IfSome result (λ number. name.now ≡ kept_name node number) }
    ensures only { (number : ℕ) → number < 2 ^ 32 → name.now ≡ kept_name node number → result ≡ Some number }
{
    let behind = after(name.as_bytes(), b"node")?;
    let behind = after(behind, Buffer::new().format(node).as_bytes())?;
    let number = after(behind, b".log.")?;
    read_number(number)
}

/// Whether all of a log stands at the front of a kept one: then nothing is lost with it.
pub fn stands_in(log: &[u8], kept: &[u8]) -> bool
    ensures { IsTrue result ↔ StandsIn log.now kept.now }
{
    after(kept, log).is_some()
}

/// What stands behind these bytes; none where others stand in front: `strip_prefix`, with the contract that both callers
/// above need.
fn after<'a>(bytes: &'a [u8], front: &[u8]) -> Option<&'a [u8]>
    ensures found { IfSome result (λ behind. bytes.now ≡ front.now ++ behind.now) }
    ensures only { (behind : List ℕ) → bytes.now ≡ front.now ++ behind → IsSomeAnd result (λ rest. rest.now ≡ behind) }
{
    bytes.strip_prefix(front)
}
