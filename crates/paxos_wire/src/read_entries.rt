//! Entries, read from the front of bytes: a command with its slot and its ballot.

ghost use Rattle.std.specs.Prelude.{◌+◌, ◌≤◌, ◌<◌, IfSome};
ghost use Rattle.paxos_wire.specs.Reading.{Gives, entry_at, entry_within, entries_at};

use crate::entries::Entries;
use crate::entry::Entry;
use crate::limits::{SLOTS, WINDOW};
use crate::read_command_bytes::read_command;
use crate::read_numbers::{read_ballot, read_slot};
use crate::version::Version;

/// An entry, and the bytes after it.
#[tactic(auto, unfolding(crate::specs::Reading::entry_at))]
fn read_entry(version: Version, bytes: &[u8]) -> Option<(Entry, &[u8])>
    ensures { Gives (λ x. (x.0, x.1.now)) result (entry_at version bytes.now) }
{
    let (slot, rest) = read_slot(bytes)?;
    let (ballot, rest) = read_ballot(version, rest)?;
    let Some((command, rest)) = read_command(rest) else {
        return None;
    };
    Some((
        Entry {
            slot,
            ballot,
            command,
        },
        rest,
    ))
}

/// An entry with a slot from `from` on and below `limit`, and the bytes after it.
#[tactic(auto, unfolding(crate::specs::Reading::entry_within))]
fn read_entry_within(
    version: Version,
    from: u32,
    limit: u32,
    bytes: &[u8],
) -> Option<(Entry, &[u8])>
    ensures below { IfSome result (λ x. x.0.slot < limit) }
    ensures exact { Gives (λ x. (x.0, x.1.now)) result (entry_within version from limit bytes.now) }
{
    let Some((entry, rest)) = read_entry(version, bytes) else {
        return None;
    };
    if from <= entry.slot && entry.slot < limit {
        Some((entry, rest))
    } else {
        None
    }
}

/// `count` entries, with slots that rise from `slot` on and stay below its 64 slots, and the bytes after them.
pub(crate) fn read_entries(
    version: Version,
    slot: u32,
    count: u8,
    bytes: &[u8],
) -> Option<(Entries, &[u8])>
    requires slot { slot < SLOTS }
    requires count { count ≤ WINDOW }
    ensures { Gives (λ x. (x.0, x.1.now)) result (entries_at version count slot (slot + WINDOW) bytes.now) }
{
    let limit = slot + WINDOW as u32;
    let mut entries = Entries::new();
    let mut from = slot;
    let mut rest = bytes;
    for _ in 0..count {
        let Some((entry, after)) = read_entry_within(version, from, limit, rest) else {
            return None;
        };
        let slot = entry.slot;
        entries.push(entry);
        from = slot + 1;
        rest = after;
    }
    Some((entries, rest))
}
