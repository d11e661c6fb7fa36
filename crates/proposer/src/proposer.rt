ghost use Rattle.std.specs.Prelude.{◌≡◌, ℕ, ◌<◌, ◌≤◌, ◌^◌, ◌-◌, ◌↔◌, None, false, IfOk, OnOk, OnErr, IsErr};
ghost use Rattle.proposer.specs.CommandRuns.{run_of, marked_run, most_commands};
ghost use Rattle.proposer.specs.Campaigns.{Proposing, next_ballot, begun, idle, refused, is_leading, ballot_in, counting, proposal_of, marked};

use crate::accept::Accept;
use crate::accept_run::AcceptRun;
use crate::campaign::Campaign;
use crate::fault::{BallotsSpent, ProposeFault};
use crate::prepare::Prepare;
use paxos_wire::limits::{NODES, WINDOW};
use paxos_wire::{Ballot, CommandList, Entries};
use slot_log::Command;
use std::marker::Model;

/// The proposer of one node: idle, or with a ballot that it prepares, and leads once more than half of the nodes
/// promised it.
///
/// It takes no memory. Contracts see its node, the count of nodes, and the ballot with what was promised and proposed.
#[derive(Drop)]
pub struct Proposer {
    node: u8,
    nodes: u8,
    campaign: Option<Campaign>,
}

impl Model for Proposer {
    ghost use Rattle.proposer.specs.Campaigns.{Proposing};

    ghost Value = { Proposing };

    ghost use Rattle.proposer.specs.ProposerInside.{IsKept, proposing_of};

    ghost view = { proposing_of };

    ghost invariant = { IsKept };
}

impl Proposer {
    /// The idle proposer of a node, of so many nodes.
    pub fn new(node: u8, nodes: u8) -> Proposer
        requires node { node < nodes }
        requires few { nodes ≤ NODES }
        ensures { result ≡ record { node = node; nodes = nodes; campaign = None } }
    {
        Proposer {
            node,
            nodes,
            campaign: None,
        }
    }

    /// Begins the node's ballot of the round after the greatest ballot seen, in place of the one before, and gives the
    /// Prepare of it that covers the 64 slots from the slot on.
    ///
    /// Nothing is counted yet: the node promises the ballot itself, and counts its own promise by `on_promise` as that
    /// of any other. Refused is 70 where there is no such round; then nothing has changed.
    pub fn begin(&mut self, seen: Ballot, slot: u32) -> Result<Prepare, BallotsSpent>
        ensures spent { IsErr result ↔ (seen.round ≡ 2 ^ 32 - 1) }
        ensures prepare { IfOk result (λ prepare. prepare ≡ record { ballot = next_ballot self.old.node seen; slot = slot }) }
        ensures begun { OnOk result (self.new ≡ begun self.old seen slot) }
        ensures unchanged { OnErr result (self.new ≡ self.old) }
    {
        if seen.round == u32::MAX {
            return Err(BallotsSpent);
        }
        let ballot = Ballot {
            round: seen.round + 1,
            node: self.node,
        };
        self.campaign = Some(Campaign::new(ballot, slot));
        Ok(Prepare { ballot, slot })
    }

    /// Gives the ballot up, with what was promised in it.
    pub fn turn_idle(&mut self)
        ensures { self.new ≡ idle self.old }
    {
        // A campaign has some 20 KB, which are written over where it is given up: nearly always there is none.
        if self.campaign.is_some() {
            self.campaign = None;
        }
    }

    /// Counts a promise of a node, with what it tells: of the ballot that was begun and its first slot, the first of
    /// that node, while no quorum has promised. Any other is passed over.
    pub fn on_promise(&mut self, from: u8, ballot: Ballot, slot: u32, told: &Entries)
        requires { from < self.old.nodes }
        ensures { self.new ≡ counting self.old from ballot slot told.now }
    {
        let nodes = self.nodes;
        if let Some(campaign) = &mut self.campaign {
            campaign.on_promise(nodes, from, ballot, slot, told);
        }
    }

    /// Gives the ballot up where a refusal tells that a ballot above it was promised.
    pub fn on_refuse(&mut self, promised: Ballot)
        ensures { self.new ≡ refused self.old promised }
    {
        let outbid = match &self.campaign {
            Some(campaign) => campaign.ballot.is_below(promised),
            None => false,
        };
        if outbid {
            self.turn_idle();
        }
    }

    /// Whether more than half of the nodes promised the ballot that was begun.
    pub fn is_leading(&self) -> bool
        ensures { result ≡ is_leading self.now }
    {
        match &self.campaign {
            Some(campaign) => campaign.has_quorum(self.nodes),
            None => false,
        }
    }

    /// The ballot that was begun, unless the proposer is idle.
    pub fn ballot(&self) -> Option<Ballot>
        ensures { result ≡ ballot_in self.now }
    {
        self.campaign.as_ref().map(|campaign| campaign.ballot)
    }

    /// What is to be proposed at the slot: the told command of the greatest ballot, or where the promises tell of none
    /// there, the own one. A slot is proposed at once in a ballot.
    ///
    /// None where no quorum has promised, where this ballot proposed at the slot already, and where there is no
    /// command. Refused is 71 where a quorum has promised and the slot isn't one of the 64 of the ballot's Prepare.
    pub fn propose(
        &mut self,
        slot: u32,
        own: Option<Command>,
    ) -> Result<Option<Accept>, ProposeFault>
        ensures proposal { result ≡ proposal_of self.old slot own }
        ensures marked { self.new ≡ marked self.old result }
    {
        let nodes = self.nodes;
        match &mut self.campaign {
            Some(campaign) => campaign.propose(nodes, slot, own),
            None => Ok(None),
        }
    }

    /// What is to be proposed at the slot and at those behind it, in one message: the told command of the greatest ballot,
    /// and those of the slots behind, up to the first that the ballot's Prepare doesn't cover, that isn't below 4,000,000,
    /// where this ballot proposed already, or of which the promises tell none. Where they tell of none at the slot, the
    /// own command alone. The commands, 64 at most, stand in the list that is handed in.
    ///
    /// None where no quorum has promised, where this ballot proposed at the slot already, and where there is no
    /// command. Refused is 71 where a quorum has promised and the slot isn't one of the 64 of the ballot's Prepare;
    /// never for a slot behind it. Nothing has changed then, but that the list may have been emptied.
    pub fn propose_run<'a>(
        &mut self,
        slot: u32,
        own: Option<Command>,
        run: &'a mut CommandList,
    ) -> Result<Option<AcceptRun<'a>>, ProposeFault>
        ensures proposal { result ≡ run_of self.old slot own }
        ensures marked { self.new ≡ marked_run self.old result }
    {
        let nodes = self.nodes;
        match &mut self.campaign {
            Some(campaign) => campaign.propose_run(nodes, slot, own, run),
            None => Ok(None),
        }
    }

    /// How many commands the next call of `propose_run` proposes at most, once promises with so many further entries
    /// were counted: from 1 to 64.
    pub fn most_commands(&self, further: usize) -> usize
        ensures { result ≡ most_commands self.now further }
    {
        let waiting = match &self.campaign {
            Some(campaign) => campaign.waiting(self.nodes),
            None => 0,
        };
        (waiting + further.min(WINDOW)).clamp(1, WINDOW)
    }
}
