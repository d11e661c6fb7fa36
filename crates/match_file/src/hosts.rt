//! From which IP addresses the nodes of a match dial, besides those at which they are reached.

ghost use Rattle.std.specs.Prelude.{◌≡◌, MatchOption, MatchResult, map};
ghost use Rattle.toml.specs.View.{view};
ghost use Rattle.match_file.specs.Said.{IsAbsent, EachSays};
ghost use Rattle.match_file.specs.Refusals.{IsToldOf};
ghost use Rattle.match_file.specs.Hosts.{SaysHost, SaysHosts, SaysFrom, SaysFroms};
ghost use Rattle.match_file.specs.declared.key.Key.TheVariants.{From};

use crate::entries::{array_at, array_of, text_of};
use crate::key::Key;
use crate::match_fault::MatchFault;
use crate::match_file::MatchFile;
use std::alloc::Global;
use std::net::IpAddr;
use toml::Value;

/// What is told of a wrong entry.
const WRONG: MatchFault = MatchFault::BadEntry(Key::From);

impl MatchFile {
    ghost use Rattle.match_file.specs.MatchFile.{members};

    /// The addresses at `from` of the nodes' tables.
    pub(crate) fn froms(&self, alloc: Global) -> Result<Vec<Vec<IpAddr>>, MatchFault>
        ensures { MatchResult result (λ all. SaysFroms (members self.now) all.items) (IsToldOf From (IsAbsent (SaysFroms (members self.now)))) }
    {
        match array_at(&self.table, Key::Node) {
            Some(values) => froms_of(alloc, values),
            None => Err(WRONG),
        }
    }
}

/// The addresses that tables say.
fn froms_of(alloc: Global, values: &[Value]) -> Result<Vec<Vec<IpAddr>>, MatchFault>
    ensures { MatchResult result (λ all. EachSays SaysFrom (map view values.now) all.items) (IsToldOf From (IsAbsent (EachSays SaysFrom (map view values.now)))) }
{
    let mut froms = Vec::new(alloc);
    for value in values {
        let hosts = from_of(alloc, value)?;
        froms.push(hosts)?;
    }
    Ok(froms)
}

/// The addresses that a table says, none where it has no entry.
fn from_of(alloc: Global, value: &Value) -> Result<Vec<IpAddr>, MatchFault>
    ensures { MatchResult result (SaysFrom (view value.now)) (IsToldOf From (IsAbsent (SaysFrom (view value.now)))) }
{
    match value.get(Key::From.text()) {
        Some(said) => hosts_of(alloc, said),
        None => Ok(Vec::new(alloc)),
    }
}

/// The addresses that an array of texts is, or one text.
fn hosts_of(alloc: Global, value: &Value) -> Result<Vec<IpAddr>, MatchFault>
    ensures { MatchResult result (λ hosts. SaysHosts (view value.now) hosts.items) (IsToldOf From (IsAbsent (SaysHosts (view value.now)))) }
{
    match array_of(value) {
        Some(values) => hosts_in(alloc, values),
        None => match host_of(value) {
            Some(host) => {
                let mut hosts = Vec::new(alloc);
                hosts.push(host)?;
                Ok(hosts)
            }
            None => Err(WRONG),
        },
    }
}

/// The addresses that texts are.
fn hosts_in(alloc: Global, values: &[Value]) -> Result<Vec<IpAddr>, MatchFault>
    ensures { MatchResult result (λ hosts. EachSays SaysHost (map view values.now) hosts.items) (IsToldOf From (IsAbsent (EachSays SaysHost (map view values.now)))) }
{
    let mut hosts = Vec::new(alloc);
    for value in values {
        match host_of(value) {
            Some(host) => hosts.push(host)?,
            None => return Err(WRONG),
        }
    }
    Ok(hosts)
}

/// The address that a text is.
fn host_of(value: &Value) -> Option<IpAddr>
    ensures { MatchOption result (IsAbsent (SaysHost (view value.now))) (SaysHost (view value.now)) }
{
    match text_of(value) {
        Some(text) => match IpAddr::parse_ascii(text.as_bytes()) {
            Ok(host) => Some(host),
            Err(_) => None,
        },
        None => None,
    }
}
