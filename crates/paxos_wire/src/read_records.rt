//! Ballots, slots and commands by themselves, read from the front of bytes as they stand in the records of a journal.
//!
//! They are the public forms of what frames are read by, with what the crates above need of them: what is read is what was
//! written, and what was written is read.

ghost use Rattle.std.specs.Prelude.{◌≡◌, ◌+◌, ◌≤◌, ◌++◌, length, ◌<◌, IsSome, IfSome, ℕ, List, IsSomeAnd};
ghost use Rattle.std.specs.List.{flat_map, AllByRecursion};
ghost use Rattle.slot_log.specs.Range.{IsInRange};
ghost use Rattle.slot_log.specs.declared.command.Command.{Command};
ghost use Rattle.paxos_wire.specs.Fits.{IsCommand, IsDealt, IsBallot, IsSlot};
ghost use Rattle.paxos_wire.specs.Spelling.{ballot_text, slot_text, command_text};
ghost use Rattle.paxos_wire.specs.Reading.{Gives, command_at, commands_at, below_at, ballot_at};
ghost use Rattle.paxos_wire.specs.declared.limits.TheConstants.{SLOTS};
ghost use Rattle.paxos_wire.specs.declared.ballot.Ballot.{Ballot};
ghost use Rattle.paxos_wire.specs.Versions.{nodes_in};

use crate::ballot::Ballot;
use crate::command_list::CommandList;
use crate::limits::WINDOW;
use crate::version::Version;
use crate::{read_command_bytes, read_numbers};
use slot_log::Command;

/// The ballot in front, and the bytes after it; `None` where its five bytes aren't there, its round is 0 or its
/// node is none of this version.
pub fn read_ballot(version: Version, bytes: &[u8]) -> Option<(Ballot, &[u8])>
    ensures found { IfSome result (λ x. IsBallot x.0 × (x.0.node < nodes_in version) × (bytes.now ≡ ballot_text x.0 ++ x.1.now)) }
    ensures only { (b : Ballot) (rest : List ℕ) → IsBallot b → b.node < nodes_in version → bytes.now ≡ ballot_text b ++ rest → IsSomeAnd result (λ x. (x.0 ≡ b) × (x.1.now ≡ rest)) }
    ensures exact { Gives (λ x. (x.0, x.1.now)) result (ballot_at version bytes.now) }
{
    read_numbers::read_ballot(version, bytes)
}

/// The slot in front, and the bytes after it; `None` where its four bytes aren't there or it is 4,000,000 or more.
pub fn read_slot(bytes: &[u8]) -> Option<(u32, &[u8])>
    ensures found { IfSome result (λ x. IsSlot x.0 × (bytes.now ≡ slot_text x.0 ++ x.1.now)) }
    ensures only { (s : ℕ) (rest : List ℕ) → IsSlot s → bytes.now ≡ slot_text s ++ rest → IsSomeAnd result (λ x. (x.0 ≡ s) × (x.1.now ≡ rest)) }
    ensures exact { Gives (λ x. (x.0, x.1.now)) result (below_at 4 SLOTS bytes.now) }
{
    read_numbers::read_slot(bytes)
}

/// The command in front, and the bytes after it; `None` where no command with all its numbers in range is there.
pub fn read_command(bytes: &[u8]) -> Option<(Command, &[u8])>
    ensures found { IfSome result (λ x. IsCommand x.0 × (bytes.now ≡ command_text x.0 ++ x.1.now)) }
    ensures only { (c : Command) (rest : List ℕ) → IsCommand c → bytes.now ≡ command_text c ++ rest → IsSomeAnd result (λ x. (x.0 ≡ c) × (x.1.now ≡ rest)) }
    ensures exact { Gives (λ x. (x.0, x.1.now)) result (command_at bytes.now) }
{
    read_command_bytes::read_command(bytes)
}

/// Reads the `count` commands in front into the room, in place of what it held, and gives the bytes after them; `None`
/// where no such commands with all their numbers in range are there, and then the room holds some of them.
pub fn read_commands<'b>(bytes: &'b [u8], count: usize, room: &mut CommandList) -> Option<&'b [u8]>
    requires { count ≤ WINDOW }
    ensures found { IfSome result (λ rest. bytes.now ≡ flat_map command_text room.new ++ rest.now) }
    ensures len { IsSome result → length room.new ≡ count }
    ensures range { IsSome result → AllByRecursion IsInRange room.new }
    ensures dealt { IsSome result → AllByRecursion IsDealt room.new }
    ensures only { (cs : List Command) (rest : List ℕ) → length cs ≡ count → AllByRecursion IsInRange cs → AllByRecursion IsDealt cs → bytes.now ≡ flat_map command_text cs ++ rest
        → IsSomeAnd result (λ x. (room.new ≡ cs) × (x.now ≡ rest)) }
    ensures exact { Gives (λ rest. (room.new, rest.now)) result (commands_at count bytes.now) }
{
    read_command_bytes::read_commands(bytes, count, room)
}
