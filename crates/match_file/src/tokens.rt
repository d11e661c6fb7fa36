//! The digests of the seats' tokens.

ghost use Rattle.std.specs.Prelude.{◌≡◌, MatchOption, MatchResult, map};
ghost use Rattle.std.specs.Option.{option_map};
ghost use Rattle.toml.specs.View.{view};
ghost use Rattle.match_file.specs.Said.{IsAbsent, EachSays};
ghost use Rattle.match_file.specs.Refusals.{IsToldOf};
ghost use Rattle.match_file.specs.Tokens.{is_one_far, is_open, SaysDigest, SaysTokens};
ghost use Rattle.match_file.specs.declared.key.Key.TheVariants.{Tokens};

use crate::entries::{array_of, at, text_of};
use crate::key::Key;
use crate::match_fault::MatchFault;
use crate::match_file::MatchFile;
use crate::trusted::is_loopback;
use hex::FromHex;
use std::alloc::Global;
use std::net::SocketAddr;
use toml::Value;

/// What is told of a wrong entry.
const WRONG: MatchFault = MatchFault::BadEntry(Key::Tokens);

impl MatchFile {
    ghost use Rattle.match_file.specs.MatchFile.{members};

    /// The digests of the tokens of so many players, whose seats are reached at these addresses; none where there is no
    /// entry.
    pub(crate) fn tokens(
        &self,
        alloc: Global,
        players: usize,
        seats: &[SocketAddr],
    ) -> Result<Option<Vec<[u8; 32]>>, MatchFault>
        ensures { MatchResult result (λ tokens. SaysTokens players seats.now (members self.now) (option_map (λ all. all.items) tokens)) (IsToldOf Tokens (IsAbsent (SaysTokens players seats.now (members self.now)))) }
    {
        match at(&self.table, Key::Tokens) {
            Some(value) => match array_of(value) {
                Some(values) if values.len() == players => Ok(Some(digests_of(alloc, values)?)),
                _ => Err(WRONG),
            },
            None if self.is_open(seats) => Err(WRONG),
            None => Ok(None),
        }
    }

    /// Whether nodes that share a key await bots from other machines at one of these addresses.
    fn is_open(&self, seats: &[SocketAddr]) -> bool
        ensures { result ≡ is_open (members self.now) seats.now }
    {
        self.has_key() && is_one_far(seats)
    }
}

/// Whether one of these addresses is reached from other machines.
fn is_one_far(addresses: &[SocketAddr]) -> bool
    ensures { result ≡ is_one_far addresses.now }
{
    addresses.iter().any(|address| !is_loopback(address.ip()))
}

/// The digests that texts are.
fn digests_of(alloc: Global, values: &[Value]) -> Result<Vec<[u8; 32]>, MatchFault>
    ensures { MatchResult result (λ all. EachSays SaysDigest (map view values.now) all.items) (IsToldOf Tokens (IsAbsent (EachSays SaysDigest (map view values.now)))) }
{
    let mut digests = Vec::new(alloc);
    for value in values {
        match digest_of(value) {
            Some(digest) => digests.push(digest)?,
            None => return Err(WRONG),
        }
    }
    Ok(digests)
}

/// The digest that a text is.
#[tactic(auto, using(crate::proofs::Tokening::no_digest))]
fn digest_of(value: &Value) -> Option<[u8; 32]>
    ensures { MatchOption result (IsAbsent (SaysDigest (view value.now))) (SaysDigest (view value.now)) }
{
    match text_of(value) {
        Some(text) => match <[u8; 32]>::from_hex(text.as_bytes()) {
            Ok(digest) => Some(digest),
            Err(_) => None,
        },
        None => None,
    }
}
