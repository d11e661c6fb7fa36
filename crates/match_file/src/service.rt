ghost use Rattle.std.specs.Prelude.{◌≡◌, IfOk, IfErr, MatchOption, MatchResult};
ghost use Rattle.dealer_kind.specs.Plans.{HasNodes};
ghost use Rattle.match_file.specs.Matches.{SaysFolder, SaysPort, SaysOutages};
ghost use Rattle.match_file.specs.Absences.{SaysAbsent};
ghost use Rattle.match_file.specs.Said.{IsAbsent};
ghost use Rattle.match_file.specs.Refusals.{HasNoStores, IsUnserved};
ghost use Rattle.match_file.specs.declared.key.Key.TheVariants.{Stores, Logs};

use crate::absent::Absent;
use crate::entries::{number_at, text_at};
use crate::key::Key;
use crate::match_fault::MatchFault;
use crate::match_file::MatchFile;
use crate::outage::Outage;
use std::alloc::Global;

/// The least and the greatest first port.
const LEAST_PORT: u64 = 1024;

const GREATEST_PORT: u64 = 65_000;

/// What a match that is served over TCP needs besides its config.
#[derive(Drop)]
pub struct Service<'a> {
    /// The folder of the nodes' stores, a path from the working folder.
    pub stores: &'a str,
    /// The folder of the nodes' logs, a path from the working folder.
    pub logs: &'a str,
    /// The first of the ports, 1024 to 65000.
    pub port: u16,
    /// When nodes are out.
    pub outages: Vec<Outage>,
    /// What is done about seats that were dropped.
    pub absent: Absent,
}

impl MatchFile {
    ghost use Rattle.match_file.specs.MatchFile.{members};

    /// The folder of the nodes' stores, a path from the working folder. The fault is 101 `BadEntry` of `stores`.
    pub fn stores(&self) -> Result<&str, MatchFault>
        ensures found { IfOk result (λ folder. SaysFolder Stores (members self.now) folder.now) }
        ensures fault { IfErr result (HasNoStores (members self.now)) }
    {
        match text_at(&self.table, Key::Stores) {
            Some(folder) => Ok(folder),
            None => Err(MatchFault::BadEntry(Key::Stores)),
        }
    }

    /// The folder of the nodes' logs, a path from the working folder; none where the key is missing or has no text.
    pub fn logs(&self) -> Option<&str>
        ensures { MatchOption result (IsAbsent (SaysFolder Logs (members self.now))) (λ folder. SaysFolder Logs (members self.now) folder.now) }
    {
        text_at(&self.table, Key::Logs)
    }

    /// What a match of so many nodes needs to be served. The fault is 101 `BadEntry` of the first wrong one of
    /// `stores`, `logs`, `port`, `outage` and `away`, or 92 `OutOfMemory`.
    pub fn service(&self, alloc: Global, nodes: usize) -> Result<Service<'_>, MatchFault>
        requires { HasNodes nodes }
        ensures stores { IfOk result (λ service. SaysFolder Stores (members self.now) service.stores.now) }
        ensures logs { IfOk result (λ service. SaysFolder Logs (members self.now) service.logs.now) }
        ensures port { IfOk result (λ service. SaysPort (members self.now) service.port) }
        ensures outages { IfOk result (λ service. SaysOutages nodes (members self.now) service.outages.items) }
        ensures absent { IfOk result (λ service. SaysAbsent (members self.now) service.absent) }
        ensures fault { IfErr result (IsUnserved nodes (members self.now)) }
    {
        let stores = self.stores()?;
        let Some(logs) = self.logs() else {
            return Err(MatchFault::BadEntry(Key::Logs));
        };
        let Some(port) = self.port() else {
            return Err(MatchFault::BadEntry(Key::Port));
        };
        let outages = self.outages(alloc, nodes)?;
        let Some(absent) = self.absent() else {
            return Err(MatchFault::BadEntry(Key::Away));
        };
        Ok(Service {
            stores,
            logs,
            port,
            outages,
            absent,
        })
    }

    /// The first of the ports.
    fn port(&self) -> Option<u16>
        ensures { MatchOption result (IsAbsent (SaysPort (members self.now))) (SaysPort (members self.now)) }
    {
        match number_at(&self.table, Key::Port) {
            Some(port) if LEAST_PORT <= port && port <= GREATEST_PORT => Some(port as u16),
            _ => None,
        }
    }
}
