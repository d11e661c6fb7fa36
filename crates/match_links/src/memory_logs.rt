//! The logs of links in memory, one for each node.

ghost use Rattle.std.specs.Prelude.{◌≡◌, ◌≤◌, ◌<◌, ◌+◌, ◌++◌, ◌==◌, [], ℕ, if◌then◌else◌, length, nat_lt, Ok, IfOk, IfErr, OnOk, OnErr};
ghost use Rattle.match_links.specs.Room.{log_texts, log_text, log_room, reaching};
ghost use Rattle.match_links.specs.declared.links.LinkFault.TheVariants.{Failed};

use crate::links::LinkFault;
use std::alloc::{AllocError, Global};

/// The logs of so many nodes, with nothing in them.
#[tactic(auto, using(crate::proofs::Passed::none_more))]
pub(crate) fn empty_logs(alloc: Global, nodes: usize) -> Result<Vec<Vec<u8>>, AllocError>
    ensures empty { IfOk result (λ logs. (node : ℕ) → log_text logs.items node ≡ []) }
    ensures count { IfOk result (λ logs. length logs.items ≡ nodes) }
{
    let mut logs = Vec::new(alloc);
    for _ in 0..nodes {
        logs.push(Vec::new(alloc))?;
    }
    Ok(logs)
}

/// Makes the room of so many bytes more in each log.
pub(crate) fn reserve_logs(logs: &mut Vec<Vec<u8>>, text: usize) -> Result<(), AllocError>
    ensures same { log_texts logs.new.items ≡ log_texts logs.old.items }
    ensures room { OnOk result ((node : ℕ) → node < length logs.new.items → text ≤ log_room logs.new.items node) }
    ensures kept { (node : ℕ) → log_room logs.old.items node ≤ log_room logs.new.items node }
    ensures count { length logs.new.items ≡ length logs.old.items }
{
    for node in 0..logs.len() {
        logs[node].reserve(text)?;
    }
    Ok(())
}

/// Empties the log of this number; fails where there is none.
#[tactic(auto, using(crate::proofs::Passed::put_in))]
pub(crate) fn empty_one(logs: &mut Vec<Vec<u8>>, node: usize) -> Result<(), LinkFault>
    ensures emptied { OnOk result ((i : ℕ) → log_text logs.new.items i ≡ (if node == i then [] else log_text logs.old.items i)) }
    ensures failed { OnErr result (log_texts logs.new.items ≡ log_texts logs.old.items) }
    ensures missing { IfErr result (λ why. why ≡ Failed) }
    ensures kept { (i : ℕ) → log_room logs.old.items i ≤ log_room logs.new.items i }
{
    if node >= logs.len() {
        return Err(LinkFault::Failed);
    }
    logs[node].clear();
    Ok(())
}

/// Puts text behind the log of this number, into room that was made for it, and takes memory where there is none; fails
/// where there is no such log.
#[tactic(auto, using(crate::proofs::Passed::put_in))]
pub(crate) fn add_to_one(logs: &mut Vec<Vec<u8>>, node: usize, text: &[u8]) -> Result<(), LinkFault>
    ensures added { OnOk result ((i : ℕ) → log_text logs.new.items i ≡
        (if node == i then log_text logs.old.items i ++ text.now else log_text logs.old.items i)) }
    ensures failed { OnErr result (log_texts logs.new.items ≡ log_texts logs.old.items) }
    ensures ample { length text.now ≤ log_room logs.old.items node → result ≡ reaching (Ok tt) (nat_lt node (length logs.old.items)) }
    ensures used { (i : ℕ) → log_room logs.old.items i ≤ log_room logs.new.items i + (if node == i then length text.now else 0) }
{
    if node >= logs.len() {
        return Err(LinkFault::Failed);
    }
    match logs[node].extend_from_slice(text) {
        Ok(()) => Ok(()),
        Err(_) => Err(LinkFault::OutOfMemory),
    }
}
