//! Entries in the order of their slots.

ghost use Rattle.std.specs.Prelude.{◌≡◌, ◌+◌, ◌^◌, ◌<◌, ◌≤◌, ℕ, true, false, Option, Some, if◌then◌else◌, nat_eq, length, slice_index_or, slice_set};
ghost use Rattle.std.specs.List.{flat_map};
ghost use Rattle.std.specs.Vec.{vec_len, vec_capacity};
ghost use Rattle.paxos_wire.specs.Fits.{IsBallot, IsSlot};
ghost use Rattle.paxos_wire.specs.Spelling.{command_text};
ghost use Rattle.paxos_wire.specs.declared.limits.TheConstants.{SLOTS};
ghost use Rattle.promise_store.specs.Holding.{Kept, placed_of, with_votes};
ghost use Rattle.promise_store.specs.Index.{Rise, IsPosition, found, later};
ghost use Rattle.paxos_wire.specs.Order.{is_below};
ghost use Rattle.promise_store.specs.Ranges.{AreInRange};
ghost use Rattle.promise_store.specs.declared.placed.Placed.{Placed};

use crate::placed::Placed;
use paxos_wire::{Ballot, command_len};
use slot_log::Command;

/// The place of the first entry of this slot or a higher one.
pub fn position(entries: &[Placed], slot: u32) -> usize
    requires { Rise 0 entries.now }
    ensures { IsPosition slot entries.now result }
{
    let mut low = 0;
    let mut high = entries.len();
    if high > 0 && entries[high - 1].slot < slot {
        return high;
    }
    while low < high {
        let middle = low + (high - low) / 2;
        if entries[middle].slot < slot {
            low = middle + 1;
        } else {
            high = middle;
        }
    }
    low
}

/// Where the entry of a slot stands; `None` where it has none.
pub fn find(entries: &[Placed], slot: u32) -> Option<Placed>
    requires { Rise 0 entries.now }
    ensures { result ≡ found slot entries.now }
{
    let place = position(entries, slot);
    if place >= entries.len() {
        return None;
    }
    let entry = entries[place];
    if entry.slot == slot {
        Some(entry)
    } else {
        None
    }
}

/// Puts an entry in place of another one, unless that is of a greater ballot.
fn replace(entries: &mut Vec<Placed>, place: usize, placed: Placed)
    requires { place < vec_len entries.old }
    ensures kept { (old : Placed) → old ≡ slice_index_or entries.old.items place old → is_below placed.ballot old.ballot ≡ true → entries.new.items ≡ entries.old.items }
    ensures replaced { (old : Placed) → old ≡ slice_index_or entries.old.items place old → is_below placed.ballot old.ballot ≡ false → entries.new.items ≡ slice_set entries.old.items place placed }
    ensures capacity { vec_capacity entries.new ≡ vec_capacity entries.old }
    ensures len { vec_len entries.new ≡ vec_len entries.old }
{
    if placed.ballot.is_below(entries[place].ballot) {
        return;
    }
    entries[place] = placed;
}

/// Puts an entry at its slot, in place of the one that is there unless that is of a greater ballot.
pub fn put(entries: &mut Vec<Placed>, placed: Placed)
    requires rising { Rise 0 entries.old.items }
    requires room { vec_len entries.old < vec_capacity entries.old }
    ensures rising { Rise 0 entries.new.items }
    ensures found { (slot : ℕ) → found slot entries.new.items ≡ (if nat_eq slot placed.slot then Some (later (λ e. e.ballot) (found slot entries.old.items) placed) else found slot entries.old.items) }
    ensures range { IsBallot placed.ballot → IsSlot placed.slot → AreInRange entries.old.items → AreInRange entries.new.items }
    ensures capacity { vec_capacity entries.new ≡ vec_capacity entries.old }
    ensures len { vec_len entries.new ≤ vec_len entries.old + 1 }
{
    let place = position(entries, placed.slot);
    if place < entries.len() && entries[place].slot == placed.slot {
        replace(entries, place, placed);
        return;
    }
    match entries.insert(place, placed) {
        Ok(()) => (),
        Err(_) => unreachable!(),
    }
}

/// Puts an entry for each of a record's commands, the first of which stands here.
pub fn put_run(entries: &mut Vec<Placed>, first: Placed, commands: &[Command])
    requires rising { Rise 0 entries.old.items }
    requires room { vec_len entries.old + length commands.now ≤ vec_capacity entries.old }
    requires slots { first.slot + length commands.now ≤ SLOTS }
    requires inside { first.inside + length (flat_map command_text commands.now) < 2 ^ 16 }
    ensures rising { Rise 0 entries.new.items }
    ensures found { (held : ℕ → Option Kept) → ((slot : ℕ) → found slot entries.old.items ≡ placed_of (held slot))
        → (slot : ℕ) → found slot entries.new.items ≡ placed_of (with_votes first commands.now held slot) }
    ensures range { IsBallot first.ballot → AreInRange entries.old.items → AreInRange entries.new.items }
    ensures capacity { vec_capacity entries.new ≡ vec_capacity entries.old }
    ensures len { vec_len entries.new ≤ vec_len entries.old + length commands.now }
{
    let mut placed = first;
    for command in commands {
        put(entries, placed);
        placed = Placed {
            slot: placed.slot + 1,
            inside: placed.inside + command_len(command) as u16,
            ..placed
        };
    }
}
