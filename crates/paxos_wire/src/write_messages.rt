//! The fields of messages, written behind other bytes.

ghost use Rattle.std.specs.Prelude.{◌≡◌, ◌+◌, ◌≤◌, ◌++◌, length};
ghost use Rattle.std.specs.Vec.{vec_len, vec_capacity};
ghost use Rattle.std.specs.List.{AllByRecursion};
ghost use Rattle.paxos_wire.specs.Fits.{IsDealt, commands};
ghost use Rattle.paxos_wire.specs.Spelling.{ballot_text, slot_text, body};
ghost use Rattle.paxos_wire.specs.declared.version.Version.TheVariants.{New};

use crate::ballot::Ballot;
use crate::message::Message;
use crate::write_command_bytes::{put_command, put_commands};
use crate::write_entries::put_entries;
use crate::write_numbers::{put_ballot, put_number};

/// The ballot and the slot that the kinds 1 to 5 begin with.
fn put_place(out: &mut Vec<u8>, ballot: Ballot, slot: u32)
    requires { vec_len out.old + 9 ≤ vec_capacity out.old }
    ensures items { out.new.items ≡ out.old.items ++ (ballot_text ballot ++ slot_text slot) }
    ensures capacity { vec_capacity out.old ≤ vec_capacity out.new }
{
    put_ballot(out, ballot);
    put_number(out, slot);
}

/// The fields of a message.
pub(crate) fn put_body(out: &mut Vec<u8>, message: &Message)
    requires { vec_len out.old + length (body New message.now) ≤ vec_capacity out.old }
    ensures items { out.new.items ≡ out.old.items ++ body New message.now }
    ensures capacity { vec_capacity out.old ≤ vec_capacity out.new }
    ensures dealt { AllByRecursion IsDealt (commands message.now) }
{
    match message {
        Message::Prepare { ballot, slot } => put_place(out, *ballot, *slot),
        Message::Promise {
            ballot,
            slot,
            entries,
        } => {
            put_place(out, *ballot, *slot);
            out.push_reserved(entries.len() as u8);
            put_entries(out, entries.as_slice());
        }
        Message::Refuse {
            ballot,
            slot,
            promised,
        } => {
            put_place(out, *ballot, *slot);
            put_ballot(out, *promised);
        }
        Message::Accept {
            ballot,
            slot,
            commands,
        }
        | Message::Accepted {
            ballot,
            slot,
            commands,
        } => {
            put_place(out, *ballot, *slot);
            out.push_reserved(commands.len() as u8);
            put_commands(out, commands.as_slice());
        }
        Message::Chosen { slot, command } => {
            put_number(out, *slot);
            put_command(out, command);
        }
        Message::Ask { slot } => put_number(out, *slot),
        Message::Forward { command } => put_command(out, command),
    }
}
