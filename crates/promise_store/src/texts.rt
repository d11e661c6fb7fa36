//! The bytes of records.

ghost use Rattle.std.specs.Prelude.{◌≡◌, ◌∷◌, ◌++◌, [], ◌+◌, ◌*◌, ◌≤◌, length, IfSome, Some};
ghost use Rattle.std.specs.List.{flat_map, AllByRecursion};
ghost use Rattle.arrayvec.specs.ArrayVec.{array_vec_len};
ghost use Rattle.paxos_wire.specs.Fits.{IsDealt};
ghost use Rattle.paxos_wire.specs.Spelling.{command_text};
ghost use Rattle.promise_store.specs.Records.{IsRecord, IsStorable, payload, record_text};
ghost use Rattle.promise_store.specs.declared.records.Record.{Record};

use crate::records::{MOST_PAYLOAD, MOST_RECORD, Record};
use arrayvec::ArrayVec;
use paxos_wire::limits::{MOST_COMMAND, SLOTS, WINDOW};
use paxos_wire::{
    CommandList, Commands, Version, ballot_bytes, command_bytes, command_len, push_all,
    read_ballot, read_command, read_commands, read_slot, slot_bytes,
};
use slot_log::Command;

/// How many bytes these commands take.
fn commands_len(commands: &[Command]) -> usize
    requires { length commands.now ≤ WINDOW }
    ensures value { result ≡ length (flat_map command_text commands.now) }
    ensures most { result ≤ MOST_COMMAND * length commands.now }
{
    let mut sum = 0;
    for command in commands {
        sum += command_len(command);
    }
    sum
}

/// How many bytes a record's payload has.
fn payload_len(addition: &Record<'_>) -> usize
    requires { IsStorable addition.now }
    ensures value { result ≡ length (payload addition.now) }
    ensures most { result ≤ MOST_PAYLOAD }
{
    match addition {
        Record::Promised(_) => 6,
        Record::VotedOne { .. } => unreachable!(),
        Record::Opened => 1,
        Record::Voted { commands, .. } => 11 + commands_len(commands.as_slice()),
    }
}

/// Puts commands behind the last byte.
fn push_commands(bytes: &mut ArrayVec<u8, MOST_RECORD>, commands: &[Command])
    requires { array_vec_len bytes.old + MOST_COMMAND * length commands.now ≤ MOST_RECORD }
    ensures items { bytes.new.items ≡ bytes.old.items ++ flat_map command_text commands.now }
    ensures len { array_vec_len bytes.new ≤ array_vec_len bytes.old + MOST_COMMAND * length commands.now }
    ensures dealt { AllByRecursion IsDealt commands.now }
{
    for command in commands {
        push_all(bytes, &command_bytes(command));
    }
}

/// Puts a record's payload behind the last byte.
fn push_payload(bytes: &mut ArrayVec<u8, MOST_RECORD>, addition: &Record<'_>)
    requires storable { IsStorable addition.now }
    requires room { array_vec_len bytes.old + MOST_PAYLOAD ≤ MOST_RECORD }
    ensures items { bytes.new.items ≡ bytes.old.items ++ payload addition.now }
    ensures len { array_vec_len bytes.new ≤ array_vec_len bytes.old + MOST_PAYLOAD }
    ensures sure { IsRecord addition.now }
{
    match addition {
        Record::Promised(ballot) => {
            bytes.push(1);
            push_all(bytes, &ballot_bytes(*ballot));
        }
        Record::VotedOne { .. } => unreachable!(),
        Record::Opened => bytes.push(3),
        Record::Voted {
            ballot,
            slot,
            commands,
        } => {
            bytes.push(4);
            push_all(bytes, &ballot_bytes(*ballot));
            push_all(bytes, &slot_bytes(*slot));
            bytes.push(commands.len() as u8);
            push_commands(bytes, commands.as_slice());
        }
    }
}

/// Puts a record, and the shut gate behind it, into an empty list.
pub fn put_record(bytes: &mut ArrayVec<u8, MOST_RECORD>, addition: &Record<'_>)
    requires storable { IsStorable addition.now }
    requires empty { bytes.old.items ≡ [] }
    ensures text { bytes.new.items ≡ record_text addition.now ++ 0 ∷ [] }
    ensures sure { IsRecord addition.now }
{
    let length = payload_len(addition);
    bytes.push((length / 256) as u8);
    bytes.push((length % 256) as u8);
    push_payload(bytes, addition);
    bytes.push(0);
}

/// The record of a payload; `None` where it is none. A run's commands stand in the room.
pub fn read_payload<'a>(bytes: &[u8], room: &'a mut CommandList) -> Option<Record<'a>>
    ensures found { IfSome result (λ r. IsRecord r × (bytes.now ≡ payload r)) }
    ensures range { IfSome result (λ r. IsRecord r) }
    ensures only { (r : Record) → IsRecord r → bytes.now ≡ payload r → result ≡ Some r }
{
    match bytes {
        [1, rest @ ..] => read_promise(rest),
        [2, rest @ ..] => read_vote(rest),
        [3] => Some(Record::Opened),
        [4, rest @ ..] => read_run(rest, room),
        _ => None,
    }
}

/// The promise whose ballot is all of the bytes.
fn read_promise<'a>(bytes: &[u8]) -> Option<Record<'a>>
    ensures found { IfSome result (λ r. IsRecord r × (1 ∷ bytes.now ≡ payload r)) }
    ensures only { (r : Record) → IsRecord r → 1 ∷ bytes.now ≡ payload r → result ≡ Some r }
{
    let (ballot, rest) = read_ballot(Version::New, bytes)?;
    if rest.is_empty() {
        Some(Record::Promised(ballot))
    } else {
        None
    }
}

/// The accept of version 1 whose ballot, slot and command are all of the bytes.
fn read_vote<'a>(bytes: &[u8]) -> Option<Record<'a>>
    ensures found { IfSome result (λ r. IsRecord r × (2 ∷ bytes.now ≡ payload r)) }
    ensures only { (r : Record) → IsRecord r → 2 ∷ bytes.now ≡ payload r → result ≡ Some r }
{
    let (ballot, rest) = read_ballot(Version::New, bytes)?;
    let (slot, rest) = read_slot(rest)?;
    let Some((command, rest)) = read_command(rest) else {
        return None;
    };
    if rest.is_empty() {
        Some(Record::VotedOne {
            ballot,
            slot,
            command,
        })
    } else {
        None
    }
}

/// The accept of a run whose ballot, slot, count and commands are all of the bytes.
fn read_run<'a>(bytes: &[u8], room: &'a mut CommandList) -> Option<Record<'a>>
    ensures found { IfSome result (λ r. IsRecord r × (4 ∷ bytes.now ≡ payload r)) }
    ensures only { (r : Record) → IsRecord r → 4 ∷ bytes.now ≡ payload r → result ≡ Some r }
{
    let (ballot, rest) = read_ballot(Version::New, bytes)?;
    let (slot, rest) = read_slot(rest)?;
    let [count, rest @ ..] = rest else {
        return None;
    };
    let count = *count as usize;
    if count == 0 || count > WINDOW || slot as usize + count > SLOTS as usize {
        return None;
    }
    let rest = read_commands(rest, count, room)?;
    if rest.is_empty() {
        Some(Record::Voted {
            ballot,
            slot,
            commands: Commands::new(room.as_slice()),
        })
    } else {
        None
    }
}
