ghost use Rattle.std.specs.Prelude.{◌≡◌, ℕ, ◌+◌, ◌<◌, ◌≤◌, ◌⊎◌, true, length, IfOk, OnOk, OnErr};
ghost use Rattle.slot_log.specs.Slots.{Slots};
ghost use Rattle.learner.specs.CommandRuns.{answer_to_run, hearing_run};
ghost use Rattle.learner.specs.Learning.{new_learned, is_open, answer_to, hearing, answer_to_chosen, believing};

use crate::chosen::Chosen;
use crate::hearing;
use crate::tally::Tally;
use paxos_wire::Ballot;
use paxos_wire::limits::{NODES, WINDOW};
use slot_log::{Command, SlotFault, SlotLog};
use std::alloc::{AllocError, Global};
use std::marker::Model;

/// The learner of one node: for each of the 64 slots from the front on, which nodes accepted which command in which
/// ballot, and the log of what was chosen.
///
/// Contracts see the count of nodes, what was counted and what is known, and for how many further answers, and how many
/// further commands that become known, there is room without further memory.
pub struct Learner {
    nodes: u8,
    cells: Vec<Vec<Tally>>,
    log: SlotLog,
}

/// By hand, so that letting one go is one call for whoever owns it (docs/ARCHITECTURE.md, Habits).
impl Drop for Learner {
    fn drop(self) {
        let Learner {
            nodes: _,
            cells: _,
            log: _,
        } = self;
    }
}

impl Model for Learner {
    ghost use Rattle.learner.specs.Learning.{Learning};

    ghost Value = { Learning };

    ghost use Rattle.learner.specs.LearnerInside.{IsKept, learning_of};

    ghost view = { learning_of };

    ghost invariant = { IsKept };
}

impl Learner {
    /// The learner of a node, of so many nodes, that counted and knows nothing. What it takes further comes from this
    /// allocator.
    pub fn new(alloc: Global, nodes: u8) -> Result<Learner, AllocError>
        requires { nodes ≤ NODES }
        ensures { IfOk result (λ learner. learner.learned ≡ new_learned nodes) }
    {
        Ok(Learner {
            nodes,
            cells: hearing::new_cells(alloc)?,
            log: SlotLog::new(alloc),
        })
    }

    /// What is known as chosen, of which no slot is above the 63rd behind the front.
    pub fn log(&self) -> &SlotLog
        ensures { result.now.log ≡ self.now.learned.log }
    {
        &self.log
    }

    /// Makes room for so many answers, and for so many commands that become known: the calls that follow want no memory
    /// so far. An answer takes one of the answers, for one command or for a command run, and as many of the commands as it
    /// has; a Chosen takes one of the commands alone.
    ///
    /// An `Err` comes only where memory was refused; then the learner is as before.
    pub fn reserve(&mut self, answers: usize, commands: usize) -> Result<(), AllocError>
        ensures answers { OnOk result (answers ≤ self.new.answers) }
        ensures commands { OnOk result (commands ≤ self.new.commands) }
        ensures kept_answers { self.old.answers ≤ self.new.answers }
        ensures kept_commands { self.old.commands ≤ self.new.commands }
        ensures same { self.new.learned ≡ self.old.learned }
        ensures full { OnErr result ((self.old.answers < answers) ⊎ (self.old.commands < commands)) }
    {
        self.log.reserve(commands)?;
        hearing::reserve(&mut self.cells, answers)
    }

    /// Counts a node's answer that it accepted the command at the slot in the ballot, where the slot is one of the 64
    /// from the front on; any other is passed over. The answer that makes more than half of the nodes, of one ballot,
    /// slot and command, of what was no more than half is told what was chosen, which is then known at its slot; where
    /// the front moves on, what was counted of the slots that it passes is forgotten.
    ///
    /// Refused is 30 where that is so and another command is known at the slot; then nothing has changed. An `Err`
    /// outside comes only where memory was refused; then the learner is as before.
    pub fn on_accepted(
        &mut self,
        from: u8,
        ballot: Ballot,
        slot: u32,
        command: Command,
    ) -> Result<Result<Option<Chosen>, SlotFault>, AllocError>
        requires { from < self.old.learned.nodes }
        ensures answer { IfOk result (λ answer. answer ≡ answer_to self.old.learned from ballot slot command) }
        ensures learned { OnOk result (self.new.learned ≡ hearing self.old.learned from ballot slot command) }
        ensures nodes { self.new.learned.nodes ≡ self.old.learned.nodes }
        ensures answers { self.old.answers ≤ self.new.answers + 1 }
        ensures commands { self.old.commands ≤ self.new.commands + 1 }
        ensures err { OnErr result (self.new.learned ≡ self.old.learned) }
        ensures full { OnErr result ((self.old.answers ≡ 0) ⊎ (self.old.commands ≡ 0)) }
        ensures opened { OnErr result (is_open self.old.learned.log slot ≡ true) }
    {
        if !hearing::is_open(&self.log, slot) {
            return Ok(Ok(None));
        }
        self.log.reserve(1)?;
        hearing::reserve_at(&mut self.cells, slot)?;
        Ok(hearing::hear_answer(
            self.nodes,
            &mut self.cells,
            &mut self.log,
            from,
            ballot,
            slot,
            command,
        ))
    }

    /// Counts a node's answer, as `on_accepted` does, where there is room for it: this wants no memory.
    pub fn on_accepted_reserved(
        &mut self,
        from: u8,
        ballot: Ballot,
        slot: u32,
        command: Command,
    ) -> Result<Option<Chosen>, SlotFault>
        requires from { from < self.old.learned.nodes }
        requires answers { 1 ≤ self.old.answers }
        requires commands { 1 ≤ self.old.commands }
        ensures answer { result ≡ answer_to self.old.learned from ballot slot command }
        ensures learned { self.new.learned ≡ hearing self.old.learned from ballot slot command }
        ensures nodes { self.new.learned.nodes ≡ self.old.learned.nodes }
        ensures answers { self.old.answers ≤ self.new.answers + 1 }
        ensures commands { self.old.commands ≤ self.new.commands + 1 }
    {
        if !hearing::is_open(&self.log, slot) {
            return Ok(None);
        }
        hearing::hear_answer(
            self.nodes,
            &mut self.cells,
            &mut self.log,
            from,
            ballot,
            slot,
            command,
        )
    }

    /// Counts a node's answer that it accepted the commands in the ballot, the first at the slot and each further one at the
    /// slot behind, as `on_accepted` counts each: one after another, with the front as it stands then. By place it tells
    /// whether the slot's command was chosen by it; behind the last command all are false.
    ///
    /// Refused is 30 where `on_accepted` would refuse one of them; then nothing has changed. An `Err` outside comes only
    /// where memory was refused; then the learner is as before.
    pub fn on_accepted_run(
        &mut self,
        from: u8,
        ballot: Ballot,
        slot: u32,
        commands: &[Command],
    ) -> Result<Result<[bool; WINDOW], SlotFault>, AllocError>
        requires from { from < self.old.learned.nodes }
        requires most { length commands.now ≤ WINDOW }
        ensures answer { IfOk result (λ answer. answer ≡ answer_to_run self.old.learned from ballot slot commands.now) }
        ensures learned { OnOk result (self.new.learned ≡ hearing_run self.old.learned from ballot slot commands.now) }
        ensures nodes { self.new.learned.nodes ≡ self.old.learned.nodes }
        ensures answers { self.old.answers ≤ self.new.answers + 1 }
        ensures commands { self.old.commands ≤ self.new.commands + length commands.now }
        ensures err { OnErr result (self.new.learned ≡ self.old.learned) }
        ensures full { OnErr result ((self.old.answers ≡ 0) ⊎ (self.old.commands < length commands.now)) }
    {
        self.reserve(1, commands.len())?;
        Ok(self.on_accepted_run_reserved(from, ballot, slot, commands))
    }

    /// Counts a node's answer, as `on_accepted_run` does, where there is room for it and for its commands: this wants no
    /// memory.
    pub fn on_accepted_run_reserved(
        &mut self,
        from: u8,
        ballot: Ballot,
        slot: u32,
        commands: &[Command],
    ) -> Result<[bool; WINDOW], SlotFault>
        requires from { from < self.old.learned.nodes }
        requires most { length commands.now ≤ WINDOW }
        requires answers { 1 ≤ self.old.answers }
        requires commands { length commands.now ≤ self.old.commands }
        ensures answer { result ≡ answer_to_run self.old.learned from ballot slot commands.now }
        ensures learned { self.new.learned ≡ hearing_run self.old.learned from ballot slot commands.now }
        ensures nodes { self.new.learned.nodes ≡ self.old.learned.nodes }
        ensures answers { self.old.answers ≤ self.new.answers + 1 }
        ensures commands { self.old.commands ≤ self.new.commands + length commands.now }
    {
        hearing::hear_run(
            self.nodes,
            &mut self.cells,
            &mut self.log,
            from,
            ballot,
            slot,
            commands,
        )
    }

    /// Takes a node's word that the command was chosen at the slot, where the slot is one of the 64 from the front on;
    /// any other is passed over. It is then known; where the front moves on, what was counted of the slots that it
    /// passes is forgotten.
    ///
    /// Refused is 30 where another command is known at the slot; then nothing has changed. An `Err` outside comes only
    /// where memory was refused; then the learner is as before.
    pub fn on_chosen(
        &mut self,
        slot: u32,
        command: Command,
    ) -> Result<Result<(), SlotFault>, AllocError>
        ensures answer { IfOk result (λ answer. answer ≡ answer_to_chosen self.old.learned.log slot command) }
        ensures learned { OnOk result (self.new.learned ≡ believing self.old.learned slot command) }
        ensures nodes { self.new.learned.nodes ≡ self.old.learned.nodes }
        ensures answers { self.old.answers ≤ self.new.answers }
        ensures commands { self.old.commands ≤ self.new.commands + 1 }
        ensures err { OnErr result (self.new.learned ≡ self.old.learned) }
        ensures full { OnErr result (self.old.commands ≡ 0) }
        ensures opened { OnErr result (is_open self.old.learned.log slot ≡ true) }
    {
        if !hearing::is_open(&self.log, slot) {
            return Ok(Ok(()));
        }
        self.log.reserve(1)?;
        Ok(hearing::believe(&mut self.cells, &mut self.log, slot, command))
    }

    /// Takes a node's word, as `on_chosen` does, where there is room for a command: this wants no memory.
    pub fn on_chosen_reserved(&mut self, slot: u32, command: Command) -> Result<(), SlotFault>
        requires { 1 ≤ self.old.commands }
        ensures answer { result ≡ answer_to_chosen self.old.learned.log slot command }
        ensures learned { self.new.learned ≡ believing self.old.learned slot command }
        ensures nodes { self.new.learned.nodes ≡ self.old.learned.nodes }
        ensures answers { self.old.answers ≤ self.new.answers }
        ensures commands { self.old.commands ≤ self.new.commands + 1 }
    {
        if !hearing::is_open(&self.log, slot) {
            return Ok(());
        }
        hearing::believe(&mut self.cells, &mut self.log, slot, command)
    }
}
