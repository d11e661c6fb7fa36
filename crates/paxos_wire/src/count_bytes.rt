//! How many bytes a text takes, counted before it is written.

ghost use Rattle.std.specs.Prelude.{◌≡◌, ◌+◌, ◌≤◌, length, ◌*◌};
ghost use Rattle.std.specs.List.{flat_map};
ghost use Rattle.paxos_wire.specs.Spelling.{command_text, entry_text, payload, frame};
ghost use Rattle.paxos_wire.specs.Fits.{IsSingle, most_bytes};
ghost use Rattle.paxos_wire.specs.declared.version.Version.TheVariants.{New};

use crate::entry::Entry;
use crate::limits::{LENGTH_BYTES, MOST_COMMAND, MOST_FRAME, MOST_SINGLE_FRAME, WINDOW};
use crate::message::Message;
use slot_log::Command;

/// How many bytes a command takes in a frame or a record: 15 to 31 for a deal, 12 for an act, 7
/// for a player who is away.
pub fn command_len(command: &Command) -> usize
    ensures value { result ≡ length (command_text command.now) }
    ensures most { result ≤ MOST_COMMAND }
{
    match command {
        Command::Deal { deal, .. } => {
            prove_eq!(deal.cards().len(), 2 * deal.players() + 5);
            6 + deal.cards().len()
        }
        Command::Act { .. } => 12,
        Command::Away { .. } => 7,
    }
}

/// How many bytes these entries take.
fn entries_len(entries: &[Entry]) -> usize
    requires { length entries.now ≤ WINDOW }
    ensures value { result ≡ length (flat_map entry_text entries.now) }
    ensures most { result ≤ 40 * length entries.now }
{
    let mut sum = 0;
    for entry in entries {
        sum += 9 + command_len(&entry.command);
    }
    sum
}

/// How many bytes these commands take.
fn commands_len(commands: &[Command]) -> usize
    requires { length commands.now ≤ WINDOW }
    ensures value { result ≡ length (flat_map command_text commands.now) }
    ensures most { result ≤ MOST_COMMAND * length commands.now }
{
    let mut sum = 0;
    for command in commands {
        sum += command_len(command);
    }
    sum
}

/// How many bytes stand in a message's frame behind the length.
pub(crate) fn payload_len(message: &Message) -> usize
    ensures value { result ≡ length (payload New message.now) }
    ensures most { LENGTH_BYTES + result ≤ MOST_FRAME }
    ensures single { IsSingle message.now → LENGTH_BYTES + result ≤ MOST_SINGLE_FRAME }
    ensures kind { LENGTH_BYTES + result ≤ most_bytes message.now }
{
    match message {
        Message::Prepare { .. } => 11,
        Message::Promise { entries, .. } => 12 + entries_len(entries.as_slice()),
        Message::Refuse { .. } => 16,
        Message::Accept { commands, .. } | Message::Accepted { commands, .. } => {
            12 + commands_len(commands.as_slice())
        }
        Message::Chosen { command, .. } => 6 + command_len(command),
        Message::Ask { .. } => 6,
        Message::Forward { command } => 2 + command_len(command),
    }
}

/// How many bytes a message's frame takes, its length's four among them: at most 2576 for a Promise, 31 for each command
/// and 16 more for an Accept or an Accepted, and 47 for every other message.
#[tactic(auto, unfolding(crate::specs::Spelling::frame_of))]
pub fn frame_len(message: &Message) -> usize
    ensures value { result ≡ length (frame message.now) }
    ensures most { result ≤ MOST_FRAME }
    ensures single { IsSingle message.now → result ≤ MOST_SINGLE_FRAME }
    ensures kind { result ≤ most_bytes message.now }
{
    LENGTH_BYTES + payload_len(message)
}
