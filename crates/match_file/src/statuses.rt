//! Where the nodes of a match are asked how they are.

ghost use Rattle.std.specs.Prelude.{◌≡◌, ◌≤◌, IfOk, MatchResult, map};
ghost use Rattle.toml.specs.View.{view};
ghost use Rattle.match_file.specs.Said.{IsAbsent, EachSays};
ghost use Rattle.match_file.specs.Refusals.{IsToldOf};
ghost use Rattle.match_file.specs.Addresses.{has_colon, with_host, SaysStatus, SaysStatuses};
ghost use Rattle.match_file.specs.declared.key.Key.TheVariants.{Status};

use crate::addresses::read_address;
use crate::entries::{array_at, text_of};
use crate::key::Key;
use crate::match_fault::MatchFault;
use crate::match_file::MatchFile;
use std::alloc::{AllocError, Global};
use std::net::SocketAddr;
use toml::Value;

/// What is told of a wrong entry.
const WRONG: MatchFault = MatchFault::BadEntry(Key::Status);

impl MatchFile {
    ghost use Rattle.match_file.specs.MatchFile.{members};

    /// The addresses at `status` of the nodes' tables.
    pub(crate) fn statuses(&self, alloc: Global) -> Result<Vec<Option<SocketAddr>>, MatchFault>
        ensures { MatchResult result (λ all. SaysStatuses (members self.now) all.items) (IsToldOf Status (IsAbsent (SaysStatuses (members self.now)))) }
    {
        match array_at(&self.table, Key::Node) {
            Some(values) => statuses_of(alloc, values),
            None => Err(WRONG),
        }
    }
}

/// The addresses that tables say.
fn statuses_of(alloc: Global, values: &[Value]) -> Result<Vec<Option<SocketAddr>>, MatchFault>
    ensures { MatchResult result (λ all. EachSays SaysStatus (map view values.now) all.items) (IsToldOf Status (IsAbsent (EachSays SaysStatus (map view values.now)))) }
{
    let mut addresses = Vec::new(alloc);
    for value in values {
        let address = status_of(alloc, value)?;
        addresses.push(address)?;
    }
    Ok(addresses)
}

/// The address that a table says.
fn status_of(alloc: Global, value: &Value) -> Result<Option<SocketAddr>, MatchFault>
    ensures { MatchResult result (SaysStatus (view value.now)) (IsToldOf Status (IsAbsent (SaysStatus (view value.now)))) }
{
    match value.get(Key::Status.text()) {
        Some(said) => match text_of(said) {
            Some(text) => match read_address(&with_host(alloc, text.as_bytes())?, true, 1) {
                Some(address) => Ok(Some(address)),
                None => Err(WRONG),
            },
            None => Err(WRONG),
        },
        None => Ok(None),
    }
}

/// The text of an address: a port alone is one of this machine.
fn with_host(alloc: Global, text: &[u8]) -> Result<Vec<u8>, AllocError>
    ensures { IfOk result (λ whole. whole.items ≡ with_host text.now) }
{
    if has_colon(text) {
        return text.to_vec(alloc);
    }
    let mut whole = Vec::new(alloc);
    whole.extend_from_slice(b"127.0.0.1:")?;
    whole.extend_from_slice(text)?;
    Ok(whole)
}

/// Whether a colon stands in a text.
fn has_colon(text: &[u8]) -> bool
    ensures { result ≡ has_colon text.now }
{
    text.iter().any(|character| *character == b':')
}
