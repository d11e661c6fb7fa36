ghost use Rattle.std.specs.Prelude.{◌≡◌, ◌+◌, ◌^◌, ◌<◌, ◌≤◌, ◌++◌, ℕ, length, true, not, None, IsErrOf, IfOk, IsSome, IfSome, MatchResult};
ghost use Rattle.std.specs.List.{AllByRecursion};
ghost use Rattle.paxos_wire.specs.Fits.{IsSlot, IsInRange, IsEntry, AreEntries};
ghost use Rattle.paxos_wire.specs.declared.limits.TheConstants.{SLOTS};
ghost use Rattle.promise_store.specs.Keeping.{held_of};
ghost use Rattle.promise_store.specs.Room.{placed_in};
ghost use Rattle.promise_store.specs.Shown.{placed_ballot, pair_ballot};
ghost use Rattle.promise_store.specs.declared.fault.StoreFault.TheVariants.{Closed};
ghost use Rattle.promise_store.specs.Keeping.{is_closed};
ghost use Rattle.promise_store.specs.Shown.{vote_pair};
ghost use Rattle.protocol_model.specs.Votes.{told_by};
ghost use Rattle.acceptor.specs.Answers.{told_pair, command_found, command_in, stored_command, commands_told, is_placed_in};
ghost use Rattle.acceptor.specs.Taken.{Read};

use paxos_wire::limits::WINDOW;
use paxos_wire::{Ballot, CommandList, Commands, Entries, Entry};
use promise_store::{Disk, Held, Store, StoreFault};
use slot_log::Command;

/// Reads what was accepted at a slot: `Store::entry`, said as the readers here say what they read.
fn vote_at<D: Disk>(
    store: &mut Store<D>,
    slot: u32,
) -> Result<Option<(Ballot, Command)>, StoreFault>
    ensures read { Read D.Disk (λ held. vote_pair (held.votes slot)) store.old store.new result }
    ensures closed { is_closed store.old ≡ true → IsErrOf result Closed }
    ensures range { IfOk result (λ found. IfSome found (λ vote. IsEntry (record { slot = slot; ballot = vote.0; command = vote.1 }))) }
    ensures shown { IfOk result (λ found. pair_ballot found ≡ placed_ballot (placed_in (held_of store.old) slot)) }
{
    store.entry(slot)
}

/// Puts what was found at a slot behind the other entries.
fn push_entry(entries: &mut Entries, slot: u32, found: Option<(Ballot, Command)>)
    requires { length entries.old < WINDOW }
    ensures entries { entries.new ≡ entries.old ++ told_pair slot found }
    ensures few { length entries.new ≤ length entries.old + 1 }
{
    if let Some((ballot, command)) = found {
        entries.push(Entry {
            slot,
            ballot,
            command,
        });
    }
}

/// Reads what was accepted at the 64 slots from the first on.
pub(crate) fn entries_from<D: Disk>(store: &mut Store<D>, first: u32) -> Result<Entries, StoreFault>
    requires { IsSlot first }
    ensures read { Read D.Disk (λ held. told_by held first) store.old store.new result }
    ensures closed { is_closed store.old ≡ true → IsErrOf result Closed }
    ensures range { IfOk result (λ entries. AreEntries first entries) }
{
    let mut entries = Entries::new();
    for place in 0..WINDOW as u32 {
        let slot = first + place;
        let found = vote_at(store, slot)?;
        push_entry(&mut entries, slot, found);
    }
    Ok(entries)
}

/// The command of what was found at a slot.
fn command_of(found: Option<(Ballot, Command)>) -> Option<Command>
    ensures { result ≡ command_found found }
{
    match found {
        Some((_, command)) => Some(command),
        None => None,
    }
}

/// Reads the command that was accepted at a slot in this very ballot.
pub(crate) fn stored_in<D: Disk>(
    store: &mut Store<D>,
    ballot: Ballot,
    slot: u32,
) -> Result<Option<Command>, StoreFault>
    ensures read { Read D.Disk (λ held. stored_command ballot (held.votes slot)) store.old store.new result }
    ensures closed { is_closed store.old ≡ true → MatchResult result (λ stored. (stored ≡ None) × (store.new ≡ store.old)) (λ fault. fault ≡ Closed) }
    ensures range { IfOk result (λ stored. IfSome stored IsInRange) }
{
    let Some(placed) = store.held().find(slot) else {
        return Ok(None);
    };
    if !placed.ballot.is_same(ballot) {
        return Ok(None);
    }
    let found = vote_at(store, slot)?;
    Ok(command_of(found))
}

/// Whether a slot has a vote of this very ballot, by the index alone.
pub(crate) fn is_voted(held: &Held, ballot: Ballot, slot: u32) -> bool
    ensures { result ≡ is_placed_in ballot (placed_in held.now slot) }
{
    match held.find(slot) {
        Some(placed) => placed.ballot.is_same(ballot),
        None => false,
    }
}

/// How many of so many slots, from the first on, are alike in whether they have a vote of this very ballot: up to the
/// first one that isn't as asked for, by the index alone.
pub(crate) fn beginning_of(
    held: &Held,
    ballot: Ballot,
    first: u32,
    count: usize,
    voted: bool,
) -> usize
    requires { first + count ≤ SLOTS }
    ensures most { result ≤ count }
    ensures alike { (k : ℕ) → first ≤ k → k < first + result → is_placed_in ballot (placed_in held.now k) ≡ voted }
    ensures ends { result < count → is_placed_in ballot (placed_in held.now (first + result)) ≡ not voted }
{
    for place in 0..count {
        if is_voted(held, ballot, first + place as u32) != voted {
            return place;
        }
    }
    count
}

/// Puts the command of what was found at a slot behind the others.
fn tell_command(told: &mut CommandList, found: Option<(Ballot, Command)>)
    requires { length told.old < WINDOW }
    ensures { told.new ≡ told.old ++ command_in found }
{
    if let Some((_, command)) = found {
        told.push(command);
    }
}

/// Reads the commands that were accepted at so many slots from the first on, each of which has one.
pub(crate) fn commands_from<'a, D: Disk>(
    store: &mut Store<D>,
    first: u32,
    count: usize,
    told: &'a mut CommandList,
) -> Result<Commands<'a>, StoreFault>
    requires count { count ≤ WINDOW }
    requires slots { first + count ≤ SLOTS }
    ensures read { Read D.Disk (λ held. commands_told held first count) store.old store.new result }
    ensures closed { 1 ≤ count → is_closed store.old ≡ true → IsErrOf result Closed }
    ensures range { IfOk result (λ commands. AllByRecursion IsInRange commands) }
    ensures most { IfOk result (λ commands. length commands ≤ count) }
    ensures all { ((k : ℕ) → first ≤ k → k < first + count → IsSome (placed_in (held_of store.old) k)) → IfOk result (λ commands. length commands ≡ count) }
{
    told.clear();
    for place in 0..count {
        let found = vote_at(store, first + place as u32)?;
        tell_command(told, found);
    }
    Ok(Commands::new(told.as_slice()))
}
