//! What the files beside a node's store and its logs are called.

ghost use Rattle.std.specs.Prelude.{◌≡◌, IfOk, string_bytes};
ghost use Rattle.operator_notes.specs.BesideStore.{node_kept_name, life_name, logs_kept_name};

use std::alloc::{AllocError, Global};

/// The file in this folder of stores that says whose store a node's is: `node0.kept`, and so on.
pub fn node_kept_path(alloc: Global, folder: &str, node: u8) -> Result<String, AllocError>
    ensures { IfOk result (λ path. string_bytes path ≡ node_kept_name folder.now node) }
{
    let path = format!(in alloc; "{folder}/node{node}.kept")?;
    Ok(path)
}

/// The file in this folder that says which store a node knows of a peer: `node0.peer1.kept`, and so on.
pub fn life_path(alloc: Global, folder: &str, node: u8, peer: u8) -> Result<String, AllocError>
    ensures { IfOk result (λ path. string_bytes path ≡ life_name folder.now node peer) }
{
    let path = format!(in alloc; "{folder}/node{node}.peer{peer}.kept")?;
    Ok(path)
}

/// The file in this folder of logs that says which kept ones are of a node's store: `node0.logs.kept`, and so on.
pub fn logs_kept_path(alloc: Global, folder: &str, node: u8) -> Result<String, AllocError>
    ensures { IfOk result (λ path. string_bytes path ≡ logs_kept_name folder.now node) }
{
    let path = format!(in alloc; "{folder}/node{node}.logs.kept")?;
    Ok(path)
}
