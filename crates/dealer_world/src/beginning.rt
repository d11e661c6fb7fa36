//! The nodes of a cluster before they are started.

ghost use Rattle.std.specs.Prelude.{◌≡◌, ◌<◌, length, IfOk, IfErr};
ghost use Rattle.std.specs.List.{AllZip};
ghost use Rattle.dealer_world.specs.Beginning.{IsCreatedAt, IsReopenedAt, IsOver, AreEach, IsWant};

use dealer_kind::Config;
use dealer_node::{Node, NodeFault};
use promise_store::{Disk, StoreFault};
use std::alloc::Global;

/// A node over a new store.
fn created<D: Disk + Drop>(
    alloc: Global,
    config: &Config,
    number: usize,
    disk: D,
) -> Result<Node<D>, NodeFault>
    requires { number < length config.now.sources }
    ensures node { IfOk result (λ node. IsCreatedAt D.Disk config.now number node) }
    ensures failed { IfErr result IsWant }
{
    let mut node = Node::new(alloc, config, number, disk)?;
    node.create()?;
    Ok(node)
}

/// A node over the store that a disk has; it is down. The disk is synced, so that a crash leaves what it reads, and begun
/// anew.
pub fn reopened<D: Disk + Drop>(
    alloc: Global,
    config: &Config,
    number: usize,
    mut disk: D,
) -> Result<Node<D>, NodeFault>
    requires { number < length config.now.sources }
    ensures node { IfOk result (λ node. IsReopenedAt D.Disk config.now number node) }
    ensures over { IfOk result (λ node. IsOver D.Disk disk node) }
    ensures failed { IfErr result IsWant }
{
    match disk.sync() {
        Err(_) => Err(NodeFault::Store(StoreFault::Disk)),
        Ok(()) => {
            let mut node = Node::new(alloc, config, number, disk)?;
            node.begin();
            Ok(node)
        }
    }
}

/// A node over a new store for each disk.
pub(crate) fn created_all<D: Disk + Drop>(
    alloc: Global,
    config: &Config,
    disks: Vec<D>,
) -> Result<Vec<Node<D>>, NodeFault>
    requires { length disks.items ≡ length config.now.sources }
    ensures count { IfOk result (λ nodes. length nodes.items ≡ length config.now.sources) }
    ensures each { IfOk result (λ nodes. AreEach (IsCreatedAt D.Disk config.now) nodes.items) }
    ensures failed { IfErr result IsWant }
{
    let mut nodes = Vec::with_capacity(alloc, disks.len())?;
    for disk in disks {
        let node = created(alloc, config, nodes.len(), disk)?;
        match nodes.push(node) {
            Ok(()) => {}
            Err(_) => return Err(NodeFault::OutOfMemory),
        }
    }
    Ok(nodes)
}

/// A node over what each disk has.
pub(crate) fn reopened_all<D: Disk + Drop>(
    alloc: Global,
    config: &Config,
    disks: Vec<D>,
) -> Result<Vec<Node<D>>, NodeFault>
    requires { length disks.items ≡ length config.now.sources }
    ensures count { IfOk result (λ nodes. length nodes.items ≡ length config.now.sources) }
    ensures each { IfOk result (λ nodes. AreEach (IsReopenedAt D.Disk config.now) nodes.items) }
    ensures over { IfOk result (λ nodes. AllZip (IsOver D.Disk) disks.items nodes.items) }
    ensures failed { IfErr result IsWant }
{
    let mut nodes = Vec::with_capacity(alloc, disks.len())?;
    for disk in disks {
        let node = reopened(alloc, config, nodes.len(), disk)?;
        match nodes.push(node) {
            Ok(()) => {}
            Err(_) => return Err(NodeFault::OutOfMemory),
        }
    }
    Ok(nodes)
}
