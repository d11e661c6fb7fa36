//! Entries, written behind other bytes: a command with its slot and its ballot.

ghost use Rattle.std.specs.Prelude.{◌≡◌, ◌+◌, ◌≤◌, ◌++◌, length, map};
ghost use Rattle.std.specs.Vec.{vec_len, vec_capacity};
ghost use Rattle.std.specs.List.{flat_map, AllByRecursion};
ghost use Rattle.paxos_wire.specs.Fits.{IsDealt};
ghost use Rattle.paxos_wire.specs.Spelling.{entry_text};

use crate::entry::Entry;
use crate::write_command_bytes::put_command;
use crate::write_numbers::{put_ballot, put_number};

/// Puts an entry behind the last byte.
fn put_entry(out: &mut Vec<u8>, entry: &Entry)
    requires { vec_len out.old + length (entry_text entry.now) ≤ vec_capacity out.old }
    ensures items { out.new.items ≡ out.old.items ++ entry_text entry.now }
    ensures capacity { vec_capacity out.old ≤ vec_capacity out.new }
    ensures dealt { IsDealt entry.now.command }
{
    put_number(out, entry.slot);
    put_ballot(out, entry.ballot);
    put_command(out, &entry.command);
}

/// Puts entries behind the last byte.
pub(crate) fn put_entries(out: &mut Vec<u8>, entries: &[Entry])
    requires { vec_len out.old + length (flat_map entry_text entries.now) ≤ vec_capacity out.old }
    ensures items { out.new.items ≡ out.old.items ++ flat_map entry_text entries.now }
    ensures capacity { vec_capacity out.old ≤ vec_capacity out.new }
    ensures dealt { AllByRecursion IsDealt (map (λ e. e.command) entries.now) }
{
    for entry in entries {
        put_entry(out, entry);
    }
}
