//! Ballots and commands by themselves, written behind other bytes as they stand in the records of a journal.
//!
//! The reserved ones are the public forms of what frames are written by. They want numbers in their ranges, so that what
//! is written reads back.

ghost use Rattle.std.specs.Prelude.{◌≡◌, ◌+◌, ◌≤◌, ◌++◌, length, OnOk, IsOk, OnErr};
ghost use Rattle.std.specs.Vec.{vec_len, vec_capacity};
ghost use Rattle.slot_log.specs.Range.{IsInRange};
ghost use Rattle.paxos_wire.specs.Fits.{IsCommand, IsBallot};
ghost use Rattle.paxos_wire.specs.Spelling.{ballot_text, command_text};

use crate::ballot::Ballot;
use crate::count_bytes::command_len;
use crate::limits::BALLOT_BYTES;
use crate::write_command_bytes::put_command;
use crate::write_numbers::put_ballot;
use slot_log::Command;
use std::alloc::AllocError;

/// Appends the five bytes of a ballot. An `Err`, for want of memory, changes no byte.
pub fn write_ballot(out: &mut Vec<u8>, ballot: Ballot) -> Result<(), AllocError>
    requires { IsBallot ballot }
    ensures ok { OnOk result (out.new.items ≡ out.old.items ++ ballot_text ballot) }
    ensures err { OnErr result (out.new.items ≡ out.old.items) }
    // It fails only where the room is missing.
    ensures room { vec_len out.old + 5 ≤ vec_capacity out.old → IsOk result }
{
    out.reserve(BALLOT_BYTES)?;
    write_ballot_reserved(out, ballot);
    Ok(())
}

/// Appends the five bytes of a ballot, where the room for them is there already.
pub fn write_ballot_reserved(out: &mut Vec<u8>, ballot: Ballot)
    requires ballot { IsBallot ballot }
    requires room { vec_len out.old + 5 ≤ vec_capacity out.old }
    ensures text { out.new.items ≡ out.old.items ++ ballot_text ballot }
    ensures capacity { vec_capacity out.old ≤ vec_capacity out.new }
{
    put_ballot(out, ballot);
}

/// Appends the bytes of a command. An `Err`, for want of memory, changes no byte.
pub fn write_command(out: &mut Vec<u8>, command: &Command) -> Result<(), AllocError>
    requires { IsInRange command.now }
    ensures ok { OnOk result (out.new.items ≡ out.old.items ++ command_text command.now) }
    ensures err { OnErr result (out.new.items ≡ out.old.items) }
    // It fails only where the room is missing.
    ensures room { vec_len out.old + length (command_text command.now) ≤ vec_capacity out.old → IsOk result }
    // The cards of a deal are dealt too, so that the bytes read back as the command.
    ensures command { OnOk result (IsCommand command.now) }
{
    out.reserve(command_len(command))?;
    write_command_reserved(out, command);
    Ok(())
}

/// Appends the bytes of a command, where the room for them (`command_len`) is there already.
pub fn write_command_reserved(out: &mut Vec<u8>, command: &Command)
    requires range { IsInRange command.now }
    requires room { vec_len out.old + length (command_text command.now) ≤ vec_capacity out.old }
    ensures text { out.new.items ≡ out.old.items ++ command_text command.now }
    ensures capacity { vec_capacity out.old ≤ vec_capacity out.new }
    // The cards of a deal are dealt too, so that the bytes read back as the command.
    ensures command { IsCommand command.now }
{
    put_command(out, command);
}
