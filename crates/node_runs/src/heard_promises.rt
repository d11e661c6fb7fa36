//! Which ballots of peers a keeper of promises is given, and when.

use crate::promise_keeper::PromiseKeeper;
use node_links::limits::NODES;
use node_service::NodeServer;
use node_wires::Wire;
use paxos_wire::Ballot;
use promise_store::Disk;

/// A second, in microseconds.
const SECOND: u64 = 1_000_000;

/// What a keeper has of what peers are known to have promised.
#[derive(Drop)]
pub(crate) struct HeardPromises {
    /// The greatest ballot of each peer that it keeps, if it keeps one, by the peer's number.
    kept: [Option<Ballot>; NODES],
    /// It is given nothing before this time, in microseconds.
    next: u64,
}

impl HeardPromises {
    /// It keeps nothing that is known here.
    pub(crate) fn new() -> HeardPromises {
        HeardPromises {
            kept: [None; NODES],
            next: 0,
        }
    }

    /// Gives the keeper what it doesn't keep of what a server knows at this time, in microseconds; a second after it was given
    /// something at the soonest.
    pub(crate) fn give<D: Disk + Drop, W: Wire + Drop, P: PromiseKeeper>(
        &mut self,
        server: &NodeServer<D, W>,
        promises: &mut P,
        now: u64,
    ) {
        if now < self.next {
            return;
        }
        for peer in 0..NODES {
            if let Some(ballot) = server.heard(peer as u8)
                && self.kept[peer] != Some(ballot)
            {
                self.next = now.saturating_add(SECOND);
                if promises.keep(peer as u8, ballot) {
                    self.kept[peer] = Some(ballot);
                }
            }
        }
    }
}
