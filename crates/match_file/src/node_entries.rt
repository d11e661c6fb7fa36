ghost use Rattle.std.specs.Prelude.{◌≡◌, ◌≤◌, IfOk, IfErr, MatchResult};
ghost use Rattle.std.specs.Option.{option_copied, option_map};
ghost use Rattle.match_file.specs.Matches.{SaysFolder};
ghost use Rattle.match_file.specs.Said.{IsAbsent};
ghost use Rattle.match_file.specs.Refusals.{IsToldOf};
ghost use Rattle.match_file.specs.Absences.{SaysAway};
ghost use Rattle.match_file.specs.Addresses.{SaysAddresses, SaysStatuses};
ghost use Rattle.match_file.specs.Hosts.{SaysFroms};
ghost use Rattle.match_file.specs.Tokens.{SaysTokens};
ghost use Rattle.match_file.specs.Times.{SaysTime};
ghost use Rattle.match_file.specs.NodeEntries.{SaysKey, IsUnrun};
ghost use Rattle.match_file.specs.declared.key.Key.TheVariants.{Stores, Logs, KeyFile, Peers, Seats, Patience, Start};

use crate::absent::Absent;
use crate::addresses::Addresses;
use crate::entries::{at, text_of};
use crate::key::Key;
use crate::match_fault::MatchFault;
use crate::match_file::MatchFile;
use std::alloc::Global;

/// What a node that runs in a process of its own needs besides the match's config.
#[derive(Drop)]
pub struct NodeEntries<'a> {
    /// The folder of the node's store, a path from the working folder.
    pub stores: &'a str,
    /// The folder of the node's log, a path from the working folder.
    pub logs: &'a str,
    /// What is done about seats where nobody acts, where the file says it.
    pub away: Option<Absent>,
    /// The file of the key that the nodes share, a path from the working folder; none where they trust one another by
    /// their addresses.
    pub key: Option<&'a str>,
    /// Where the nodes are reached.
    pub addresses: Addresses,
    /// Of each seat the SHA-256 of its token; none where seats are taken without.
    pub tokens: Option<Vec<[u8; 32]>>,
    /// How many milliseconds a seat that doesn't act is waited for before it is played for, 100 to 86400000; none: for ever.
    pub patience: Option<u32>,
    /// How many milliseconds seats are waited for that haven't come yet, 100 to 86400000, where the file says it.
    pub start: Option<u32>,
}

impl MatchFile {
    ghost use Rattle.match_file.specs.MatchFile.{members};

    /// What a node needs in a match of so many players. The fault is 101 `BadEntry` of the first wrong one of `stores`,
    /// `logs`, `away`, `key`, `peers`, `seats`, `status`, `from`, `tokens`, `patience` and `start`, or 92 `OutOfMemory`. What
    /// stands at `port` and `outage` is passed over, right or wrong.
    pub fn node_entries(&self, alloc: Global, players: usize) -> Result<NodeEntries<'_>, MatchFault>
        requires { players ≤ 10 }
        ensures stores { IfOk result (λ entries. SaysFolder Stores (members self.now) entries.stores.now) }
        ensures logs { IfOk result (λ entries. SaysFolder Logs (members self.now) entries.logs.now) }
        ensures away { IfOk result (λ entries. SaysAway (members self.now) entries.away) }
        ensures key { IfOk result (λ entries. SaysKey (members self.now) (option_copied entries.key)) }
        ensures peers { IfOk result (λ entries. SaysAddresses Peers 1 (members self.now) entries.addresses.peers.items) }
        ensures seats { IfOk result (λ entries. SaysAddresses Seats players (members self.now) entries.addresses.seats.items) }
        ensures status { IfOk result (λ entries. SaysStatuses (members self.now) entries.addresses.status.items) }
        ensures from { IfOk result (λ entries. SaysFroms (members self.now) entries.addresses.from.items) }
        ensures tokens { IfOk result (λ entries. SaysTokens players entries.addresses.seats.items (members self.now) (option_map (λ all. all.items) entries.tokens)) }
        ensures patience { IfOk result (λ entries. SaysTime Patience (members self.now) entries.patience) }
        ensures start { IfOk result (λ entries. SaysTime Start (members self.now) entries.start) }
        ensures fault { IfErr result (IsUnrun players (members self.now)) }
    {
        let stores = self.stores()?;
        let Some(logs) = self.logs() else {
            return Err(MatchFault::BadEntry(Key::Logs));
        };
        let away = self.away()?;
        let key = self.key_file()?;
        let addresses = self.addresses(alloc, players)?;
        let tokens = self.tokens(alloc, players, &addresses.seats)?;
        let patience = self.time(Key::Patience)?;
        let start = self.time(Key::Start)?;
        Ok(NodeEntries {
            stores,
            logs,
            away,
            key,
            addresses,
            tokens,
            patience,
            start,
        })
    }

    /// The file of the nodes' key; none where there is no entry.
    fn key_file(&self) -> Result<Option<&str>, MatchFault>
        ensures { MatchResult result (λ path. SaysKey (members self.now) (option_copied path)) (IsToldOf KeyFile (IsAbsent (SaysKey (members self.now)))) }
    {
        match at(&self.table, Key::KeyFile) {
            Some(value) => match text_of(value) {
                Some(path) => Ok(Some(path)),
                None => Err(MatchFault::BadEntry(Key::KeyFile)),
            },
            None => Ok(None),
        }
    }
}
