ghost use Rattle.std.specs.Prelude.{◌≡◌, IfOk, map};
ghost use Rattle.std.specs.Option.{option_map};
ghost use Rattle.toml.specs.View.{view, items_of, table_view};
ghost use Rattle.match_file.specs.Unused.{is_used, is_used_in_node, node_at, unused_in};

use crate::entries::{array_at, at};
use crate::key::Key;
use crate::match_file::MatchFile;
use std::alloc::{AllocError, Global};
use toml::{Table, Value};

/// The keys that commands read.
const KEYS: [Key; 14] = [
    Key::Name,
    Key::Game,
    Key::Hands,
    Key::Names,
    Key::Node,
    Key::Stores,
    Key::Logs,
    Key::Port,
    Key::Outage,
    Key::Away,
    Key::KeyFile,
    Key::Tokens,
    Key::Patience,
    Key::Start,
];

/// The keys by which a node in a process of its own doesn't go: those of `serve` alone.
const UNUSED: [Key; 2] = [Key::Port, Key::Outage];

impl MatchFile {
    ghost use Rattle.match_file.specs.MatchFile.{members};
    ghost use Rattle.match_file.specs.Unused.{unused_keys, unused_by_node, is_there, node_table, unused_in_node};

    /// The keys that no command reads, in the table's order.
    pub fn unused(&self, alloc: Global) -> Result<Vec<&str>, AllocError>
        ensures { IfOk result (λ keys. map (λ key. key.now) keys.items ≡ unused_keys (members self.now)) }
    {
        let mut unused = Vec::new(alloc);
        for key in self.table.keys() {
            if !is_used(key.as_str()) {
                unused.push(key.as_str())?;
            }
        }
        Ok(unused)
    }

    /// The keys in the table of a node, counted from 0, that no command reads, in the table's order; none where there is no
    /// such table.
    pub fn unused_in_node(&self, alloc: Global, node: usize) -> Result<Vec<&str>, AllocError>
        ensures { IfOk result (λ keys. map (λ key. key.now) keys.items ≡ unused_in_node node (members self.now)) }
    {
        match self.node_table(node) {
            Some(table) => unused_in(alloc, table),
            None => Ok(Vec::new(alloc)),
        }
    }

    /// The table of a node.
    fn node_table(&self, node: usize) -> Option<&Table>
        ensures { option_map (λ table. table_view table.now) result ≡ node_table node (members self.now) }
    {
        match array_at(&self.table, Key::Node) {
            Some(values) => table_at(values, node),
            None => None,
        }
    }

    /// The keys that stand in the file and by which a node in a process of its own doesn't go: those of `port` and `outage`,
    /// in this order.
    pub fn unused_by_node(&self, alloc: Global) -> Result<Vec<Key>, AllocError>
        ensures { IfOk result (λ keys. keys.items ≡ unused_by_node (members self.now)) }
    {
        let mut unused = Vec::new(alloc);
        for key in &UNUSED {
            if self.is_there(*key) {
                unused.push(*key)?;
            }
        }
        Ok(unused)
    }

    /// Whether something stands at a key at the top.
    fn is_there(&self, key: Key) -> bool
        ensures { result ≡ is_there key (members self.now) }
    {
        at(&self.table, key).is_some()
    }
}

/// The table at this place.
fn table_at(values: &[Value], place: usize) -> Option<&Table>
    ensures { option_map (λ table. table_view table.now) result ≡ node_at place (items_of (map view values.now)) }
{
    match values.get(place) {
        Some(value) => value.as_table(),
        None => None,
    }
}

/// The keys of a node's table that no command reads.
fn unused_in(alloc: Global, table: &Table) -> Result<Vec<&str>, AllocError>
    ensures { IfOk result (λ keys. map (λ key. key.now) keys.items ≡ unused_in (table_view table.now)) }
{
    let mut unused = Vec::new(alloc);
    for key in table.keys() {
        if !is_used_in_node(key.as_str()) {
            unused.push(key.as_str())?;
        }
    }
    Ok(unused)
}

/// Whether some command reads what stands at a key of a node's table.
fn is_used_in_node(key: &str) -> bool
    ensures { result ≡ is_used_in_node key.now }
{
    key == "seed"
        || key == "deals"
        || key == Key::Peers.text()
        || key == Key::Seats.text()
        || key == Key::Status.text()
        || key == Key::From.text()
}

/// Whether some command reads what stands at a key.
fn is_used(key: &str) -> bool
    ensures { result ≡ is_used key.now }
{
    KEYS.iter().any(|used| key == used.text())
}
