//! Batches: one Accept with the told commands of slots that follow one another.

ghost use Rattle.std.specs.Prelude.{◌≡◌, ℕ, ◌+◌, ◌-◌, ◌++◌, ◌<◌, ◌≤◌, length, None, IsTrue};
ghost use Rattle.proposer.specs.CommandRuns.{may_follow, told_commands, commands_at, run_by, marked_places, with_marks, waiting_by};
ghost use Rattle.proposer.specs.Campaigns.{is_covered, greatest_told};

use crate::accept_run::AcceptRun;
use crate::campaign::Campaign;
use crate::fault::ProposeFault;
use paxos_wire::limits::{NODES, SLOTS, WINDOW};
use paxos_wire::{CommandList, Commands};
use slot_log::Command;

impl Campaign {
    /// Whether the slot is one of the 64 that its Prepare covers.
    fn covers(&self, slot: u32) -> bool
        ensures { result ≡ is_covered self.now.first slot }
    {
        self.first <= slot && slot - self.first < WINDOW as u32
    }

    /// Whether a further command may follow at the slot: it is covered, there is such a slot, and nothing was proposed
    /// there.
    fn may_follow(&self, slot: u32) -> bool
        ensures { result ≡ may_follow self.now slot }
    {
        self.covers(slot) && slot < SLOTS && !self.proposed[(slot - self.first) as usize]
    }

    /// Puts the told commands of the slots behind this one behind its command, up to the first slot where none may follow
    /// or of which none is told.
    fn push_told(&self, nodes: u8, slot: u32, run: &mut CommandList)
        requires few { nodes ≤ NODES }
        requires one { length run.old ≡ 1 }
        ensures run { run.new ≡ run.old ++ told_commands nodes self.now (WINDOW - 1) (slot + 1) }
        ensures most { length run.new ≤ WINDOW }
    {
        if slot >= SLOTS {
            return;
        }
        for step in 1..WINDOW {
            let behind = slot + step as u32;
            if !self.may_follow(behind) {
                return;
            }
            match self.told(nodes, behind) {
                None => return,
                Some(entry) => run.push(entry.command),
            }
        }
    }

    /// Marks that something is proposed at so many slots from this one on.
    fn mark(&mut self, slot: u32, count: usize)
        requires low { self.old.first ≤ slot }
        requires high { slot + count ≤ self.old.first + WINDOW }
        ensures { self.new ≡ record self.old { proposed = marked_places self.old.proposed (slot - self.old.first) count } }
    {
        let first_place = (slot - self.first) as usize;
        for step in 0..count {
            self.proposed[first_place + step] = true;
        }
    }

    /// Fills the list with the told command of the slot and those told behind it, or where none is told there with the own
    /// one, if there is one.
    fn fill(&self, nodes: u8, slot: u32, own: Option<Command>, run: &mut CommandList)
        requires { nodes ≤ NODES }
        ensures commands { run.new ≡ commands_at nodes self.now slot own }
        ensures covered { slot < self.now.first + WINDOW → slot + length run.new ≤ self.now.first + WINDOW }
    {
        run.clear();
        if let Some(entry) = self.told(nodes, slot) {
            run.push(entry.command);
            self.push_told(nodes, slot, run);
        } else if let Some(command) = own {
            run.push(command);
        }
    }

    /// What is proposed at the slot and at those behind it; its commands stand in the list.
    #[tactic(auto, using(crate::proofs::ToldCommands::some_made, crate::proofs::ToldCommands::none_made, crate::proofs::ToldCommands::covered_means))]
    pub fn propose_run<'a>(
        &mut self,
        nodes: u8,
        slot: u32,
        own: Option<Command>,
        run: &'a mut CommandList,
    ) -> Result<Option<AcceptRun<'a>>, ProposeFault>
        requires { nodes ≤ NODES }
        ensures proposal { result ≡ run_by nodes self.old slot own }
        ensures marked { self.new ≡ with_marks self.old result }
    {
        if !self.has_quorum(nodes) {
            return Ok(None);
        }
        if !self.covers(slot) {
            return Err(ProposeFault::OutOfWindow);
        }
        if self.proposed[(slot - self.first) as usize] {
            return Ok(None);
        }
        self.fill(nodes, slot, own, run);
        let commands = Commands::new(run.as_slice());
        if commands.len() == 0 {
            return Ok(None);
        }
        self.mark(slot, commands.len());
        Ok(Some(AcceptRun {
            ballot: self.ballot,
            slot,
            commands,
        }))
    }

    /// Whether no promise tells of an entry, and so of none at any slot.
    fn tells_nothing(&self, nodes: u8) -> bool
        requires { nodes ≤ NODES }
        ensures { IsTrue result → (slot : ℕ) → greatest_told self.now slot nodes ≡ None }
    {
        for node in 0..nodes as usize {
            if let Some(told) = &self.promises[node] {
                if !told.is_empty() {
                    return false;
                }
            }
        }
        true
    }

    /// At how many of its slots a told command may follow.
    pub fn waiting(&self, nodes: u8) -> usize
        requires { nodes ≤ NODES }
        ensures value { result ≡ waiting_by nodes self.now }
        ensures most { result ≤ WINDOW }
    {
        if self.first >= SLOTS {
            return 0;
        }
        // Mostly: a call that makes room asks each time, and a promise tells of what a leader before left open alone.
        if self.tells_nothing(nodes) {
            return 0;
        }
        let mut waiting: usize = 0;
        for place in 0..WINDOW {
            // Its mark is looked at first: where there is one, no promise need be searched.
            let slot = self.first + place as u32;
            if self.may_follow(slot) && self.told(nodes, slot).is_some() {
                waiting += 1;
            }
        }
        waiting
    }
}
