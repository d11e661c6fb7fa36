//! What a node's files are called.

ghost use Rattle.std.specs.Prelude.{◌≡◌, IfOk, string_bytes};
ghost use Rattle.operator_notes.specs.NodeFiles.{log_name, store_name};

use std::alloc::{AllocError, Global};

/// The name of a node's store file in this folder: `node0.journal`, and so on.
pub fn store_path(alloc: Global, folder: &str, node: u8) -> Result<String, AllocError>
    ensures { IfOk result (λ path. string_bytes path ≡ store_name folder.now node) }
{
    let path = format!(in alloc; "{folder}/node{node}.journal")?;
    Ok(path)
}

/// The name of a node's log in this folder: `node0.log`, and so on.
pub fn log_path(alloc: Global, folder: &str, node: u8) -> Result<String, AllocError>
    ensures { IfOk result (λ path. string_bytes path ≡ log_name folder.now node) }
{
    let path = format!(in alloc; "{folder}/node{node}.log")?;
    Ok(path)
}
