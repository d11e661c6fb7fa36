ghost use Rattle.std.specs.Prelude.{◌≡◌, ℕ, ◌<◌, ◌≤◌, is_some};
ghost use Rattle.paxos_wire.specs.NodeSets.{has};
ghost use Rattle.proposer.specs.Told.{better, best_in};
ghost use Rattle.proposer.specs.Campaigns.{greatest_told, has_promised, has_quorum, with_promise, new_campaign, proposal_by, with_mark};

use crate::accept::Accept;
use crate::fault::ProposeFault;
use paxos_wire::limits::{NODES, PLACES, WINDOW};
use paxos_wire::{Ballot, Entries, Entry, NodeSet};
use slot_log::Command;

/// A ballot that a proposer began: what it was promised in it, and where it proposed.
#[derive(Drop)]
pub struct Campaign {
    /// The proposer's own.
    pub ballot: Ballot,
    /// The first of the 64 slots that its Prepare covers.
    pub first: u32,
    /// By node: what its promise tells, where it was counted.
    pub promises: [Option<Entries>; PLACES],
    /// By slot, from the first on: whether a command was proposed there.
    pub proposed: [bool; WINDOW],
}

/// The entry of the higher ballot of two at the slot, the one found before where both ballots are the same; an entry of
/// another slot is passed over.
fn better(best: Option<Entry>, slot: u32, entry: Entry) -> Option<Entry>
    ensures { result ≡ better best slot entry }
{
    if entry.slot != slot {
        return best;
    }
    match best {
        None => Some(entry),
        Some(other) => {
            if other.ballot.is_below(entry.ballot) {
                Some(entry)
            } else {
                Some(other)
            }
        }
    }
}

/// The entry of the highest ballot at the slot among these and the one found before.
fn best_in(best: Option<Entry>, slot: u32, entries: &[Entry]) -> Option<Entry>
    ensures { result ≡ best_in best slot entries.now }
{
    let mut best = best;
    for entry in entries {
        best = better(best, slot, *entry);
    }
    best
}

impl Campaign {
    /// A ballot that nobody promised yet.
    pub fn new(ballot: Ballot, first: u32) -> Campaign
        ensures { result ≡ new_campaign ballot first }
    {
        Campaign {
            ballot,
            first,
            promises: [None; PLACES],
            proposed: [false; WINDOW],
        }
    }

    /// Those of so many nodes whose promises were counted.
    fn promised(&self, nodes: u8) -> NodeSet
        requires { nodes ≤ NODES }
        ensures { (node : ℕ) → node < nodes → has result node ≡ has_promised self.now node }
    {
        let mut promised = NodeSet::empty();
        for node in 0..nodes {
            if self.promises[node as usize].is_some() {
                promised.add(node);
            }
        }
        promised
    }

    /// Whether more than half of the nodes promised it.
    pub fn has_quorum(&self, nodes: u8) -> bool
        requires { nodes ≤ NODES }
        ensures { result ≡ has_quorum nodes self.now }
    {
        self.promised(nodes).is_quorum(nodes)
    }

    /// Counts a promise: of this ballot and first slot, the first of its node, while no quorum has promised.
    pub fn on_promise(&mut self, nodes: u8, from: u8, ballot: Ballot, first: u32, told: &Entries)
        requires few { nodes ≤ NODES }
        requires from { from < nodes }
        ensures { self.new ≡ with_promise nodes self.old from ballot first told.now }
    {
        if self.has_quorum(nodes) || !ballot.is_same(self.ballot) || first != self.first {
            return;
        }
        let place = from as usize;
        if self.promises[place].is_none() {
            self.promises[place] = Some(*told);
        }
    }

    /// The entry of the highest ballot at the slot in what the nodes' promises tell, if there is one.
    pub(crate) fn told(&self, nodes: u8, slot: u32) -> Option<Entry>
        requires { nodes ≤ NODES }
        ensures { result ≡ greatest_told self.now slot nodes }
    {
        let mut best: Option<Entry> = None;
        for node in 0..nodes as usize {
            if let Some(told) = &self.promises[node] {
                best = best_in(best, slot, told.as_slice());
            }
        }
        best
    }

    /// What is proposed at the slot.
    pub fn propose(
        &mut self,
        nodes: u8,
        slot: u32,
        own: Option<Command>,
    ) -> Result<Option<Accept>, ProposeFault>
        requires { nodes ≤ NODES }
        ensures proposal { result ≡ proposal_by nodes self.old slot own }
        ensures marked { self.new ≡ with_mark self.old result }
    {
        if !self.has_quorum(nodes) {
            return Ok(None);
        }
        if slot < self.first || slot - self.first >= WINDOW as u32 {
            return Err(ProposeFault::OutOfWindow);
        }
        let place = (slot - self.first) as usize;
        if self.proposed[place] {
            return Ok(None);
        }
        let value = match self.told(nodes, slot) {
            Some(entry) => Some(entry.command),
            None => own,
        };
        match value {
            None => Ok(None),
            Some(command) => {
                self.proposed[place] = true;
                Ok(Some(Accept {
                    ballot: self.ballot,
                    slot,
                    command,
                }))
            }
        }
    }
}
