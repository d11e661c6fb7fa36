//! Where the nodes of a match are reached that run in processes of their own.

ghost use Rattle.std.specs.Prelude.{◌≡◌, ◌≤◌, ◌+◌, Some, IfOk, IfErr, MatchOption, MatchResult, map};
ghost use Rattle.std.specs.Net.Grammar.{IsSocketText};
ghost use Rattle.toml.specs.View.{view};
ghost use Rattle.match_file.specs.Said.{IsAbsent, EachSays};
ghost use Rattle.match_file.specs.Refusals.{IsToldOf};
ghost use Rattle.match_file.specs.Addresses.{has_key, is_usable, IsAddress, SaysAddress, SaysAddresses, SaysStatuses, IsUnreached};
ghost use Rattle.match_file.specs.Hosts.{SaysFroms};
ghost use Rattle.match_file.specs.declared.key.Key.TheVariants.{Peers, Seats};

use crate::entries::{array_at, at, text_of};
use crate::key::Key;
use crate::match_fault::MatchFault;
use crate::match_file::MatchFile;
use crate::trusted::is_trusted;
use std::alloc::Global;
use std::net::{IpAddr, SocketAddr};
use toml::Value;

/// Where the nodes of a match are reached, each in a process of its own, by number: addresses that are trusted, or any
/// where the nodes share a key.
#[derive(Drop)]
pub struct Addresses {
    /// Where each node awaits the others.
    pub peers: Vec<SocketAddr>,
    /// Where each node awaits the bot of seat 0; seat s is awaited at the port that is s higher.
    pub seats: Vec<SocketAddr>,
    /// Where each node awaits who asks how it is, any address; none where it can't be asked.
    pub status: Vec<Option<SocketAddr>>,
    /// From which addresses each node dials, besides that at which the others reach it; any addresses.
    pub from: Vec<Vec<IpAddr>>,
}

impl MatchFile {
    ghost use Rattle.match_file.specs.MatchFile.{members};

    /// Where the nodes are reached, in a match of so many players: what stands at `peers`, `seats`, `status` and
    /// `from` in each node's table. The fault is 101 `BadEntry` of the first of these that is wrong in one of the tables, or
    /// 92 `OutOfMemory`.
    pub fn addresses(&self, alloc: Global, players: usize) -> Result<Addresses, MatchFault>
        requires { players ≤ 10 }
        ensures peers { IfOk result (λ all. SaysAddresses Peers 1 (members self.now) all.peers.items) }
        ensures seats { IfOk result (λ all. SaysAddresses Seats players (members self.now) all.seats.items) }
        ensures status { IfOk result (λ all. SaysStatuses (members self.now) all.status.items) }
        ensures from { IfOk result (λ all. SaysFroms (members self.now) all.from.items) }
        ensures fault { IfErr result (IsUnreached players (members self.now)) }
    {
        let peers = self.addresses_at(alloc, Key::Peers, 1)?;
        let seats = self.addresses_at(alloc, Key::Seats, players)?;
        let status = self.statuses(alloc)?;
        let from = self.froms(alloc)?;
        Ok(Addresses {
            peers,
            seats,
            status,
            from,
        })
    }

    /// Whether the nodes share a key.
    pub(crate) fn has_key(&self) -> bool
        ensures { result ≡ has_key (members self.now) }
    {
        at(&self.table, Key::KeyFile).is_some()
    }

    /// The addresses at a key of the nodes' tables, each of which has so many ports one behind the other.
    fn addresses_at(
        &self,
        alloc: Global,
        key: Key,
        ports: usize,
    ) -> Result<Vec<SocketAddr>, MatchFault>
        requires { ports ≤ 10 }
        ensures { MatchResult result (λ all. SaysAddresses key ports (members self.now) all.items) (IsToldOf key (IsAbsent (SaysAddresses key ports (members self.now)))) }
    {
        match array_at(&self.table, Key::Node) {
            Some(values) => addresses_of(alloc, values, self.has_key(), key, ports),
            None => Err(MatchFault::BadEntry(key)),
        }
    }
}

/// The addresses that tables say at a key.
fn addresses_of(
    alloc: Global,
    values: &[Value],
    keyed: bool,
    key: Key,
    ports: usize,
) -> Result<Vec<SocketAddr>, MatchFault>
    requires { ports ≤ 10 }
    ensures { MatchResult result (λ all. EachSays (SaysAddress keyed key ports) (map view values.now) all.items) (IsToldOf key (IsAbsent (EachSays (SaysAddress keyed key ports) (map view values.now)))) }
{
    let mut addresses = Vec::new(alloc);
    for value in values {
        match address_of(value, keyed, key, ports) {
            Some(address) => addresses.push(address)?,
            None => return Err(MatchFault::BadEntry(key)),
        }
    }
    Ok(addresses)
}

/// The address that a table says at a key.
#[tactic(auto, using(crate::proofs::Addressing::not_there, crate::proofs::Addressing::no_text, crate::proofs::Addressing::no_address))]
fn address_of(value: &Value, keyed: bool, key: Key, ports: usize) -> Option<SocketAddr>
    requires { ports ≤ 10 }
    ensures { MatchOption result (IsAbsent (SaysAddress keyed key ports (view value.now))) (SaysAddress keyed key ports (view value.now)) }
{
    match value.get(key.text()) {
        Some(said) => match text_of(said) {
            Some(text) => read_address(text.as_bytes(), keyed, ports),
            None => None,
        },
        None => None,
    }
}

/// The address that a text is.
#[tactic(auto, using(crate::proofs::Addressing::not_usable, crate::proofs::Addressing::not_parsed))]
pub(crate) fn read_address(text: &[u8], keyed: bool, ports: usize) -> Option<SocketAddr>
    requires { ports ≤ 10 }
    ensures { MatchOption result (IsAbsent (IsAddress keyed ports text.now)) (IsAddress keyed ports text.now) }
{
    match SocketAddr::parse_ascii(text) {
        Ok(address) => {
            if is_usable(&address, keyed, ports) {
                Some(address)
            } else {
                None
            }
        }
        Err(_) => None,
    }
}

/// Whether an address has so many ports from its own on, 0 being none, and is trusted where there is no key.
fn is_usable(address: &SocketAddr, keyed: bool, ports: usize) -> bool
    requires { ports ≤ 10 }
    ensures { result ≡ is_usable keyed address.now ports }
{
    let port = address.port();
    1 <= port && port as usize + ports <= 65_536 && (keyed || is_trusted(address.ip()))
}
