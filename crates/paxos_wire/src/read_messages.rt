//! Messages, read from the bytes behind a frame's header.

ghost use Rattle.std.specs.Prelude.{◌≡◌, ◌≤◌, ◌<◌, IfSome};
ghost use Rattle.paxos_wire.specs.Reading.{Gives, promise_at, refuse_at, behind_count, proposed_at, accept_at, of_ballot_at, chosen_at, ask_at, forward_at, message_at, body_of};
ghost use Rattle.paxos_wire.specs.Kinds.{kind_byte};
ghost use Rattle.paxos_wire.specs.declared.message.Message.TheVariants.{Accept, Accepted};
ghost use Rattle.paxos_wire.specs.declared.limits.TheConstants.{SLOTS};

use crate::ballot::Ballot;
use crate::command_list::{CommandList, Commands};
use crate::entries::{Entries, ToldEntries};
use crate::kind::Kind;
use crate::limits::{SLOTS, WINDOW};
use crate::message::Message;
use crate::message_room::MessageRoom;
use crate::read_command_bytes::{read_command, read_commands};
use crate::read_entries::read_entries;
use crate::read_numbers::{read_ballot, read_byte, read_slot};
use crate::version::Version;
use slot_log::Command;

/// The rest of a Promise behind its slot, whose entries stand in the room, and the bytes after it.
#[tactic(auto, unfolding(crate::specs::Reading::promise_at))]
fn read_promise<'a, 'b>(
    version: Version,
    ballot: Ballot,
    slot: u32,
    bytes: &'b [u8],
    room: &'a mut Entries,
) -> Option<(Message<'a>, &'b [u8])>
    requires { slot < SLOTS }
    ensures { Gives (λ x. (x.0, x.1.now)) result (promise_at version ballot slot bytes.now) }
{
    let (count, rest) = read_byte(bytes)?;
    if count as usize > WINDOW {
        return None;
    }
    let Some((entries, rest)) = read_entries(version, slot, count, rest) else {
        return None;
    };
    *room = entries;
    Some((
        Message::Promise {
            ballot,
            slot,
            entries: ToldEntries::new(room),
        },
        rest,
    ))
}

/// The rest of a Refuse behind its slot, and the bytes after it.
#[tactic(auto, unfolding(crate::specs::Reading::refuse_at))]
fn read_refuse<'a, 'b>(
    version: Version,
    ballot: Ballot,
    slot: u32,
    bytes: &'b [u8],
) -> Option<(Message<'a>, &'b [u8])>
    ensures { Gives (λ x. (x.0, x.1.now)) result (refuse_at version ballot slot bytes.now) }
{
    let (promised, rest) = read_ballot(version, bytes)?;
    Some((
        Message::Refuse {
            ballot,
            slot,
            promised,
        },
        rest,
    ))
}

/// How many commands an Accept has, and the bytes after their count: frames of the old version have no count, and one
/// command.
#[tactic(auto, unfolding(crate::specs::Reading::behind_count))]
fn read_count(version: Version, bytes: &[u8]) -> Option<(u8, &[u8])>
    ensures most { IfSome result (λ x. x.0 ≤ WINDOW) }
    ensures exact { Gives (λ x. (x.0, x.1.now)) result (behind_count version bytes.now) }
{
    match version {
        Version::Old => Some((1, bytes)),
        Version::New => {
            let (count, rest) = read_byte(bytes)?;
            if count > 0 && count as usize <= WINDOW {
                Some((count, rest))
            } else {
                None
            }
        }
    }
}

/// The commands of an Accept or an Accepted, for the slots from this one on, which stand in the room, and the bytes after
/// them.
#[tactic(auto, unfolding(crate::specs::Reading::proposed_at))]
fn read_proposed<'a, 'b>(
    version: Version,
    slot: u32,
    bytes: &'b [u8],
    room: &'a mut CommandList,
) -> Option<(Commands<'a>, &'b [u8])>
    requires { slot < SLOTS }
    ensures { Gives (λ x. (x.0, x.1.now)) result (proposed_at version slot bytes.now) }
{
    let (count, rest) = read_count(version, bytes)?;
    let Some(rest) = read_commands(rest, count as usize, room) else {
        return None;
    };
    if slot + count as u32 <= SLOTS {
        Some((Commands::new(room.as_slice()), rest))
    } else {
        None
    }
}

/// The rest of an Accept behind its slot, and the bytes after it.
#[tactic(auto, unfolding(crate::specs::Reading::accept_at))]
fn read_accept<'a, 'b>(
    version: Version,
    ballot: Ballot,
    slot: u32,
    bytes: &'b [u8],
    room: &'a mut CommandList,
) -> Option<(Message<'a>, &'b [u8])>
    requires { slot < SLOTS }
    ensures { Gives (λ x. (x.0, x.1.now)) result (accept_at version Accept ballot slot bytes.now) }
{
    let Some((commands, rest)) = read_proposed(version, slot, bytes, room) else {
        return None;
    };
    Some((
        Message::Accept {
            ballot,
            slot,
            commands,
        },
        rest,
    ))
}

/// The rest of an Accepted behind its slot, and the bytes after it.
#[tactic(auto, unfolding(crate::specs::Reading::accept_at))]
fn read_accepted<'a, 'b>(
    version: Version,
    ballot: Ballot,
    slot: u32,
    bytes: &'b [u8],
    room: &'a mut CommandList,
) -> Option<(Message<'a>, &'b [u8])>
    requires { slot < SLOTS }
    ensures { Gives (λ x. (x.0, x.1.now)) result (accept_at version Accepted ballot slot bytes.now) }
{
    let Some((commands, rest)) = read_proposed(version, slot, bytes, room) else {
        return None;
    };
    Some((
        Message::Accepted {
            ballot,
            slot,
            commands,
        },
        rest,
    ))
}

/// The fields of a message of the kinds 1 to 5, which begin with a ballot and a slot, and the bytes after them.
#[tactic(auto, unfolding(crate::specs::Reading::of_ballot_at))]
fn read_of_ballot<'a, 'b>(
    version: Version,
    kind: Kind,
    bytes: &'b [u8],
    room: &'a mut MessageRoom,
) -> Option<(Message<'a>, &'b [u8])>
    requires { kind_byte kind ≤ 5 }
    ensures { Gives (λ x. (x.0, x.1.now)) result (of_ballot_at version (kind_byte kind) bytes.now) }
{
    let (ballot, rest) = read_ballot(version, bytes)?;
    let (slot, rest) = read_slot(rest)?;
    match kind {
        Kind::Prepare => Some((Message::Prepare { ballot, slot }, rest)),
        Kind::Promise => read_promise(version, ballot, slot, rest, &mut room.entries),
        Kind::Refuse => read_refuse(version, ballot, slot, rest),
        Kind::Accept => read_accept(version, ballot, slot, rest, &mut room.commands),
        _ => read_accepted(version, ballot, slot, rest, &mut room.commands),
    }
}

/// The fields of a Chosen, and the bytes after them.
#[tactic(auto, unfolding(crate::specs::Reading::chosen_at))]
fn read_chosen<'a, 'b>(bytes: &'b [u8]) -> Option<(Message<'a>, &'b [u8])>
    ensures { Gives (λ x. (x.0, x.1.now)) result (chosen_at bytes.now) }
{
    let (slot, rest) = read_slot(bytes)?;
    let Some((command, rest)) = read_command(rest) else {
        return None;
    };
    Some((Message::Chosen { slot, command }, rest))
}

/// The fields of an Ask, and the bytes after them.
#[tactic(auto, unfolding(crate::specs::Reading::ask_at))]
fn read_ask<'a, 'b>(bytes: &'b [u8]) -> Option<(Message<'a>, &'b [u8])>
    ensures { Gives (λ x. (x.0, x.1.now)) result (ask_at bytes.now) }
{
    let (slot, rest) = read_slot(bytes)?;
    Some((Message::Ask { slot }, rest))
}

/// The fields of a Forward, and the bytes after them.
#[tactic(auto, unfolding(crate::specs::Reading::forward_at))]
fn read_forward<'a, 'b>(bytes: &'b [u8]) -> Option<(Message<'a>, &'b [u8])>
    ensures { Gives (λ x. (x.0, x.1.now)) result (forward_at bytes.now) }
{
    let Some((command, rest)) = read_command(bytes) else {
        return None;
    };
    match command {
        Command::Deal { .. } => None,
        Command::Act { .. } | Command::Away { .. } => Some((Message::Forward { command }, rest)),
    }
}

/// The fields of a message of this kind, and the bytes after them.
#[tactic(auto, unfolding(crate::specs::Reading::message_at))]
fn read_message<'a, 'b>(
    version: Version,
    kind: Kind,
    bytes: &'b [u8],
    room: &'a mut MessageRoom,
) -> Option<(Message<'a>, &'b [u8])>
    ensures { Gives (λ x. (x.0, x.1.now)) result (message_at version (kind_byte kind) bytes.now) }
{
    match kind {
        Kind::Chosen => read_chosen(bytes),
        Kind::Ask => read_ask(bytes),
        Kind::Forward => read_forward(bytes),
        _ => read_of_ballot(version, kind, bytes, room),
    }
}

/// The message of this kind with this body, all of the bytes. Its lists stand in the room.
#[tactic(auto, unfolding(crate::specs::Reading::body_of))]
pub(crate) fn message_of_body<'a>(
    version: Version,
    kind: Kind,
    bytes: &[u8],
    room: &'a mut MessageRoom,
) -> Option<Message<'a>>
    ensures { result ≡ body_of version (kind_byte kind) bytes.now }
{
    let Some((message, rest)) = read_message(version, kind, bytes, room) else {
        return None;
    };
    if rest.is_empty() { Some(message) } else { None }
}
