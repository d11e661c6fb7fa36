//! Where a node is reached, by whom, and how long it waits for one of them, as its match file says.

use super::Place;
use crate::key_file::key_at;
use crate::notes::Notes;
use crate::token_files::tell_tokens;
use match_file::{Absent, Addresses, Key as Entry, MatchFault, NodeEntries};
use match_runs::Unserved;
use node_links::Settings;
use node_seats::TokenDigest;
use operator_notes::NodeNote;
use peer_codes::Key;
use sha2::{Digest, Sha256};
use std::alloc::AllocError;
use std::net::{IpAddr, SocketAddr};

/// Where a node is reached, by whom, and how long it waits for one of them.
#[derive(Drop)]
pub(super) struct Access {
    /// Where each node awaits the others.
    pub(super) peers: Vec<SocketAddr>,
    /// From which addresses each dials besides.
    pub(super) from: Vec<Vec<IpAddr>>,
    /// Where seat 0 is awaited; seat s is at the port that is s higher.
    pub(super) seats: SocketAddr,
    /// Where it is told how the node is.
    pub(super) status: Option<SocketAddr>,
    /// What the nodes prove to each other to have.
    pub(super) key: Option<Key>,
    /// What the token of each seat is known by.
    pub(super) tokens: Option<Vec<TokenDigest>>,
    pub(super) times: Times,
}

/// How long seats are waited for, by the match file.
#[derive(Clone, Copy)]
pub(super) struct Times {
    /// After how many milliseconds a seat is played for, if the file says it.
    pub(super) patience: Option<u32>,
    /// How many milliseconds seats are waited for that haven't come yet, if the file says it.
    pub(super) start: Option<u32>,
    /// Whether a seat at which nobody is has all of its time too.
    pub(super) waits: bool,
}

impl Times {
    /// What the file of a node says of times and tokens, as its peers are told it: where one differs, a note tells it.
    pub(super) fn settings(self, tokens: &Option<Vec<TokenDigest>>) -> Settings {
        Settings {
            patience: self.patience.unwrap_or(0),
            start: self.start.unwrap_or(0),
            away: self.waits as u32,
            tokens: head_of(tokens),
        }
    }
}

/// The first bytes of the SHA-256 of all digests of tokens, in the order of seats.
fn head_of(tokens: &Option<Vec<TokenDigest>>) -> [u8; 8] {
    let mut all = Sha256::new();
    if let Some(tokens) = tokens {
        for token in tokens {
            all.update(token.bytes);
        }
    }
    let digest = all.finalize();
    let mut head = [0; 8];
    head.copy_from_slice(&digest[..8]);
    head
}

impl<'a> Place<'a> {
    /// What the entries say of it, with the key read from its file. Notes tell that none is named, and that there are no tokens,
    /// or which are known.
    pub(super) fn access(
        &self,
        entries: NodeEntries<'_>,
        notes: &mut Notes<'_>,
    ) -> Result<Access, Unserved> {
        let NodeEntries {
            addresses,
            key,
            tokens,
            away,
            patience,
            start,
            ..
        } = entries;
        let place = self.node as usize;
        let (Some(seats), Some(status)) = (
            addresses.seats.get(place).copied(),
            addresses.status.get(place).copied(),
        ) else {
            return Err(Unserved::Match(MatchFault::BadEntry(Entry::Seats)));
        };
        let key = self.key(key, notes)?;
        let tokens = self.digests(tokens)?;
        tell_tokens(&tokens, notes);
        let Addresses { peers, from, .. } = addresses;
        Ok(Access {
            peers,
            from,
            seats,
            status,
            key,
            tokens,
            times: Times {
                patience,
                start,
                waits: away == Some(Absent::Wait),
            },
        })
    }

    /// The key in the file that is named, if one is; a note tells that none is.
    fn key(&self, path: Option<&str>, notes: &mut Notes<'_>) -> Result<Option<Key>, Unserved> {
        match path {
            Some(path) => Ok(Some(key_at(self.rt, path, notes)?)),
            None => {
                notes.tell_node(&NodeNote::NoKey);
                Ok(None)
            }
        }
    }

    /// The same digests for the seats.
    fn digests(
        &self,
        tokens: Option<Vec<[u8; 32]>>,
    ) -> Result<Option<Vec<TokenDigest>>, AllocError> {
        let Some(tokens) = tokens else {
            return Ok(None);
        };
        let mut digests = Vec::with_capacity(self.rt.alloc(), tokens.len())?;
        for bytes in &tokens {
            digests.reserve(1)?;
            digests.push_reserved(TokenDigest { bytes: *bytes });
        }
        Ok(Some(digests))
    }
}
