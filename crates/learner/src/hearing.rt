ghost use Rattle.std.specs.Prelude.{◌≡◌, ◌≢◌, ℕ, ◌+◌, ◌-◌, ◌++◌, ◌%◌, ◌<◌, ◌≤◌, length, not, true, false, if◌then◌else◌, slice_index_or, slice_set, replicate, Ok, Err, IfOk, OnOk, OnErr, is_err, vec_len, []};
ghost use Rattle.slot_log.specs.Slots.{known_at};
ghost use Rattle.slot_log.specs.declared.slot_fault.SlotFault.TheVariants.{Conflict};
ghost use Rattle.learner.specs.Tallies.{is_completed, nodes_for, with_node};
ghost use Rattle.learner.specs.Cells.{tallies_in, learned_by, spare_at};
ghost use Rattle.learner.specs.CommandRuns.{tells, hearing_each, chosen_each, is_refused, hearing_run, answer_to_run};
ghost use Rattle.learner.specs.Learning.{is_open, is_other, known_with, tallies_at, emptied, answer_to, hearing, answer_to_chosen, believing};

use crate::chosen::Chosen;
use crate::tally::{self, Tally};
use paxos_wire::limits::{NODES, WINDOW};
use paxos_wire::{Ballot, NodeSet};
use slot_log::limits::SLOTS;
use slot_log::{Command, SlotFault, SlotLog};
use std::alloc::{AllocError, Global};

/// The cells of a learner, all empty.
pub(crate) fn new_cells(alloc: Global) -> Result<Vec<Vec<Tally>>, AllocError>
    ensures tallies { IfOk result (λ cells. tallies_in cells.items ≡ replicate WINDOW []) }
    ensures len { IfOk result (λ cells. length cells.items ≡ WINDOW) }
{
    let mut cells = Vec::new(alloc);
    for _ in 0..WINDOW {
        cells.push(Vec::new(alloc))?;
    }
    Ok(cells)
}

/// Makes room for so many further tallies in each cell.
pub(crate) fn reserve(cells: &mut Vec<Vec<Tally>>, votes: usize) -> Result<(), AllocError>
    ensures tallies { tallies_in cells.new.items ≡ tallies_in cells.old.items }
    ensures len { length cells.new.items ≡ length cells.old.items }
    ensures room { OnOk result ((place : ℕ) → place < length cells.new.items → votes ≤ spare_at cells.new.items place) }
    ensures kept { (place : ℕ) → spare_at cells.old.items place ≤ spare_at cells.new.items place }
    ensures full { OnErr result ((place : ℕ) × (place < length cells.old.items) × (spare_at cells.old.items place < votes)) }
{
    for place in 0..cells.len() {
        cells[place].reserve(votes)?;
    }
    Ok(())
}

/// Whether the slot is one of the 64 from the front on.
pub(crate) fn is_open(log: &SlotLog, slot: u32) -> bool
    ensures { result ≡ is_open log.now.log slot }
{
    let front = log.front();
    front <= slot && slot < front + WINDOW as u32 && slot < SLOTS
}

/// Lets a command be known at a slot, for which there is room, unless another is: `put_reserved` of the log, whose contract
/// is told here in the words of a learner.
fn put(log: &mut SlotLog, slot: u32, command: Command) -> Result<(), SlotFault>
    requires room { 1 ≤ log.old.room }
    requires slot { slot < SLOTS }
    ensures answer { result ≡ (if is_other (known_at log.old.log slot) command then Err Conflict else Ok tt) }
    ensures log { log.new.log ≡ (if is_other (known_at log.old.log slot) command then log.old.log else known_with log.old.log slot command) }
    ensures room { log.old.room ≤ log.new.room + 1 }
{
    log.put_reserved(slot, command)
}

/// Empties the cells of the slots that the front passed.
fn empty(cells: &mut Vec<Vec<Tally>>, from: u32, to: u32)
    requires { length cells.old.items ≡ WINDOW }
    ensures len { length cells.new.items ≡ length cells.old.items }
    ensures tallies { tallies_in cells.new.items ≡ emptied from (to - from) (tallies_in cells.old.items) }
    ensures kept { (place : ℕ) → spare_at cells.old.items place ≤ spare_at cells.new.items place }
{
    for slot in from..to {
        let cell = &mut cells[slot as usize % WINDOW];
        cell.clear();
    }
}

/// Makes room for one further tally in the cell of an open slot.
pub(crate) fn reserve_at(cells: &mut Vec<Vec<Tally>>, slot: u32) -> Result<(), AllocError>
    requires { length cells.old.items ≡ WINDOW }
    ensures len { length cells.new.items ≡ length cells.old.items }
    ensures tallies { tallies_in cells.new.items ≡ tallies_in cells.old.items }
    ensures room { OnOk result (1 ≤ spare_at cells.new.items (slot % WINDOW)) }
    ensures kept { (place : ℕ) → spare_at cells.old.items place ≤ spare_at cells.new.items place }
    ensures full { OnErr result (spare_at cells.old.items (slot % WINDOW) ≡ 0) }
{
    let cell = &mut cells[slot as usize % WINDOW];
    cell.reserve(1)
}

/// Which nodes' answers were counted of an open slot, for a command in a ballot.
fn answered_at(cells: &[Vec<Tally>], ballot: Ballot, slot: u32, command: &Command) -> NodeSet
    requires { length cells.now ≡ WINDOW }
    ensures { result ≡ nodes_for ballot command.now (tallies_at (tallies_in cells.now) slot) }
{
    tally::nodes_for(&cells[slot as usize % WINDOW], ballot, command)
}

/// Counts one more of them, for which there is room.
fn count_at(cells: &mut Vec<Vec<Tally>>, from: u8, ballot: Ballot, slot: u32, command: &Command)
    requires from { from < NODES }
    requires cells { length cells.old.items ≡ WINDOW }
    requires room { 1 ≤ spare_at cells.old.items (slot % WINDOW) }
    ensures len { length cells.new.items ≡ length cells.old.items }
    ensures tallies { tallies_in cells.new.items ≡ slice_set (tallies_in cells.old.items) (slot % WINDOW) (with_node ballot command.now from (tallies_at (tallies_in cells.old.items) slot)) }
    ensures others { (place : ℕ) → place ≢ slot % WINDOW → spare_at cells.old.items place ≤ spare_at cells.new.items place }
    ensures taken { (place : ℕ) → spare_at cells.old.items place ≤ spare_at cells.new.items place + 1 }
{
    let cell = &mut cells[slot as usize % WINDOW];
    tally::count(cell, ballot, command, from);
}

/// Counts a node's answer for an open slot, for which there is room; what it completes becomes known.
pub(crate) fn hear_answer(
    nodes: u8,
    cells: &mut Vec<Vec<Tally>>,
    log: &mut SlotLog,
    from: u8,
    ballot: Ballot,
    slot: u32,
    command: Command,
) -> Result<Option<Chosen>, SlotFault>
    requires few { nodes ≤ NODES }
    requires from { from < nodes }
    requires cells { length cells.old.items ≡ WINDOW }
    requires opened { is_open log.old.log slot ≡ true }
    requires cell_room { 1 ≤ spare_at cells.old.items (slot % WINDOW) }
    requires log_room { 1 ≤ log.old.room }
    ensures answer { result ≡ answer_to (learned_by nodes cells.old.items log.old.log) from ballot slot command }
    ensures len { length cells.new.items ≡ length cells.old.items }
    ensures learned { learned_by nodes cells.new.items log.new.log ≡ hearing (learned_by nodes cells.old.items log.old.log) from ballot slot command }
    ensures others { (place : ℕ) → place ≢ slot % WINDOW → spare_at cells.old.items place ≤ spare_at cells.new.items place }
    ensures taken { (place : ℕ) → spare_at cells.old.items place ≤ spare_at cells.new.items place + 1 }
    ensures log_room { log.old.room ≤ log.new.room + 1 }
{
    let answered = answered_at(cells, ballot, slot, &command);
    if !tally::is_completed(nodes, &answered, from) {
        count_at(cells, from, ballot, slot, &command);
        return Ok(None);
    }
    let front = log.front();
    match put(log, slot, command) {
        Ok(()) => {
            count_at(cells, from, ballot, slot, &command);
            empty(cells, front, log.front());
            Ok(Some(Chosen { slot, command }))
        }
        Err(fault) => Err(fault),
    }
}

/// Lets a command be known at an open slot, for which there is room, unless another is.
pub(crate) fn believe(
    cells: &mut Vec<Vec<Tally>>,
    log: &mut SlotLog,
    slot: u32,
    command: Command,
) -> Result<(), SlotFault>
    requires cells { length cells.old.items ≡ WINDOW }
    requires opened { is_open log.old.log slot ≡ true }
    requires room { 1 ≤ log.old.room }
    ensures answer { result ≡ answer_to_chosen log.old.log slot command }
    ensures kept { (place : ℕ) → spare_at cells.old.items place ≤ spare_at cells.new.items place }
    ensures len { length cells.new.items ≡ length cells.old.items }
    ensures learned { (nodes : ℕ) → learned_by nodes cells.new.items log.new.log ≡ believing (learned_by nodes cells.old.items log.old.log) slot command }
    ensures room { log.old.room ≤ log.new.room + 1 }
{
    let front = log.front();
    put(log, slot, command)?;
    empty(cells, front, log.front());
    Ok(())
}

/// Whether another command is known at a slot.
fn is_other(log: &SlotLog, slot: u32, command: &Command) -> bool
    ensures { result ≡ is_other (known_at log.now.log slot) command.now }
{
    match log.get(slot) {
        Some(known) => !known.is_same(command),
        None => false,
    }
}

/// Whether a node's answer for a slot would be refused.
fn is_refused_at(
    nodes: u8,
    cells: &[Vec<Tally>],
    log: &SlotLog,
    from: u8,
    ballot: Ballot,
    slot: u32,
    command: &Command,
) -> bool
    requires few { nodes ≤ NODES }
    requires from { from < nodes }
    requires cells { length cells.now ≡ WINDOW }
    ensures { result ≡ is_err (answer_to (learned_by nodes cells.now log.now.log) from ballot slot command.now) }
{
    if !is_open(log, slot) {
        return false;
    }
    let answered = answered_at(cells, ballot, slot, command);
    tally::is_completed(nodes, &answered, from) && is_other(log, slot, command)
}

/// Whether a node's answer for one of the slots of a command run would be refused.
fn is_refused(
    nodes: u8,
    cells: &[Vec<Tally>],
    log: &SlotLog,
    from: u8,
    ballot: Ballot,
    slot: u32,
    commands: &[Command],
) -> bool
    requires few { nodes ≤ NODES }
    requires from { from < nodes }
    requires cells { length cells.now ≡ WINDOW }
    requires slot { slot < SLOTS }
    requires most { length commands.now ≤ WINDOW }
    ensures { result ≡ is_refused (learned_by nodes cells.now log.now.log) from ballot slot commands.now }
{
    for (place, command) in commands.iter().enumerate() {
        let at = slot + place as u32;
        if is_refused_at(nodes, cells, log, from, ballot, at, command) {
            return true;
        }
    }
    false
}

/// Counts a node's answer for a slot, for which there is room, and tells whether it completed what became known. One for a
/// slot that isn't open, and one that is refused, change nothing.
fn hear_one(
    nodes: u8,
    cells: &mut Vec<Vec<Tally>>,
    log: &mut SlotLog,
    from: u8,
    ballot: Ballot,
    slot: u32,
    command: Command,
) -> bool
    requires few { nodes ≤ NODES }
    requires from { from < nodes }
    requires cells { length cells.old.items ≡ WINDOW }
    requires cell_room { 1 ≤ spare_at cells.old.items (slot % WINDOW) }
    requires log_room { 1 ≤ log.old.room }
    ensures told { result ≡ tells (answer_to (learned_by nodes cells.old.items log.old.log) from ballot slot command) }
    ensures len { length cells.new.items ≡ length cells.old.items }
    ensures learned { learned_by nodes cells.new.items log.new.log ≡ hearing (learned_by nodes cells.old.items log.old.log) from ballot slot command }
    ensures others { (place : ℕ) → place ≢ slot % WINDOW → spare_at cells.old.items place ≤ spare_at cells.new.items place }
    ensures taken { (place : ℕ) → spare_at cells.old.items place ≤ spare_at cells.new.items place + 1 }
    ensures log_room { log.old.room ≤ log.new.room + 1 }
{
    if !is_open(log, slot) {
        return false;
    }
    match hear_answer(nodes, cells, log, from, ballot, slot, command) {
        Ok(Some(_)) => true,
        Ok(None) | Err(_) => false,
    }
}

/// Counts a node's answers for the slots of a command run one after another, for which there is room: one place in each
/// cell, and one in the log for each command. By place, whether it completed what became known.
fn hear_each(
    nodes: u8,
    cells: &mut Vec<Vec<Tally>>,
    log: &mut SlotLog,
    from: u8,
    ballot: Ballot,
    slot: u32,
    commands: &[Command],
) -> [bool; WINDOW]
    requires few { nodes ≤ NODES }
    requires from { from < nodes }
    requires cells { length cells.old.items ≡ WINDOW }
    requires slot { slot < SLOTS }
    requires most { length commands.now ≤ WINDOW }
    requires cell_room { (place : ℕ) → place < WINDOW → 1 ≤ spare_at cells.old.items place }
    requires log_room { length commands.now ≤ log.old.room }
    ensures chosen { result ≡ chosen_each (learned_by nodes cells.old.items log.old.log) from ballot slot commands.now ++ replicate (WINDOW - length commands.now) false }
    ensures learned { learned_by nodes cells.new.items log.new.log ≡ hearing_each (learned_by nodes cells.old.items log.old.log) from ballot slot commands.now }
    ensures len { length cells.new.items ≡ length cells.old.items }
    ensures taken { (place : ℕ) → place < WINDOW → spare_at cells.old.items place ≤ spare_at cells.new.items place + 1 }
    ensures log_room { log.old.room ≤ log.new.room + length commands.now }
{
    let mut chosen = [false; WINDOW];
    for (place, command) in commands.iter().enumerate() {
        let at = slot + place as u32;
        chosen[place] = hear_one(nodes, cells, log, from, ballot, at, *command);
    }
    chosen
}

/// Counts a node's answer for the slots of a command run, for which there is room; where one of them is refused, nothing is
/// counted.
pub(crate) fn hear_run(
    nodes: u8,
    cells: &mut Vec<Vec<Tally>>,
    log: &mut SlotLog,
    from: u8,
    ballot: Ballot,
    slot: u32,
    commands: &[Command],
) -> Result<[bool; WINDOW], SlotFault>
    requires few { nodes ≤ NODES }
    requires from { from < nodes }
    requires cells { length cells.old.items ≡ WINDOW }
    requires most { length commands.now ≤ WINDOW }
    requires cell_room { (place : ℕ) → place < WINDOW → 1 ≤ spare_at cells.old.items place }
    requires log_room { length commands.now ≤ log.old.room }
    ensures answer { result ≡ answer_to_run (learned_by nodes cells.old.items log.old.log) from ballot slot commands.now }
    ensures learned { learned_by nodes cells.new.items log.new.log ≡ hearing_run (learned_by nodes cells.old.items log.old.log) from ballot slot commands.now }
    ensures len { length cells.new.items ≡ length cells.old.items }
    ensures taken { (place : ℕ) → place < WINDOW → spare_at cells.old.items place ≤ spare_at cells.new.items place + 1 }
    ensures log_room { log.old.room ≤ log.new.room + length commands.now }
{
    if slot >= SLOTS {
        return Ok([false; WINDOW]);
    }
    if is_refused(nodes, cells, log, from, ballot, slot, commands) {
        return Err(SlotFault::Conflict);
    }
    Ok(hear_each(nodes, cells, log, from, ballot, slot, commands))
}
