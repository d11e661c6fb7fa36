//! Commands, written behind other bytes.

ghost use Rattle.std.specs.Prelude.{◌≡◌, ◌+◌, ◌≤◌, ◌++◌, length};
ghost use Rattle.std.specs.Vec.{vec_len, vec_capacity};
ghost use Rattle.std.specs.List.{flat_map, AllByRecursion};
ghost use Rattle.slot_log.specs.Range.{IsInRange};
ghost use Rattle.arrayvec.specs.ArrayVec.{array_vec_len};
ghost use Rattle.paxos_wire.specs.Fits.{IsCommand, IsDealt, AreDealt};
ghost use Rattle.paxos_wire.specs.Spelling.{action_text, deal_text, command_text};

use crate::limits::MOST_COMMAND;
use crate::write_numbers::{push_number, push_short};
use arrayvec::ArrayVec;
use betting::Action;
use card_core::Deal;
use slot_log::Command;

/// Puts an action behind the last byte.
fn push_action(out: &mut ArrayVec<u8, MOST_COMMAND>, action: Action)
    requires { array_vec_len out.old + 5 ≤ MOST_COMMAND }
    ensures { out.new.items ≡ out.old.items ++ action_text action }
{
    let (kind, amount) = match action {
        Action::Fold => (0, 0),
        Action::Call => (1, 0),
        Action::Raise(amount) => (2, amount),
    };
    out.push(kind);
    push_number(out, amount);
}

/// Puts a deal behind the last byte.
fn push_deal(out: &mut ArrayVec<u8, MOST_COMMAND>, deal: &Deal)
    requires { array_vec_len out.old + 26 ≤ MOST_COMMAND }
    ensures items { out.new.items ≡ out.old.items ++ deal_text deal.now }
    ensures dealt { AreDealt deal.now }
{
    let cards = deal.cards();
    out.push((2 * deal.players() + 5) as u8);
    for card in cards {
        out.push(card.number());
    }
}

/// The bytes of a command: 15 to 31 for a deal, 12 for an act, 7 for a player who is away.
pub fn command_bytes(command: &Command) -> ArrayVec<u8, MOST_COMMAND>
    ensures text { result.items ≡ command_text command.now }
    ensures dealt { IsDealt command.now }
    // With numbers in their ranges it is a command of frames, since its cards are dealt: the bytes read back as it.
    ensures command { IsInRange command.now → IsCommand command.now }
{
    let mut bytes = ArrayVec::new();
    match command {
        Command::Deal { hand, deal } => {
            bytes.push(1);
            push_number(&mut bytes, *hand);
            push_deal(&mut bytes, deal);
        }
        Command::Act {
            hand,
            index,
            action,
        } => {
            bytes.push(2);
            push_number(&mut bytes, *hand);
            push_short(&mut bytes, *index);
            push_action(&mut bytes, *action);
        }
        Command::Away { hand, index } => {
            bytes.push(3);
            push_number(&mut bytes, *hand);
            push_short(&mut bytes, *index);
        }
    }
    bytes
}

/// Puts a command behind the last byte.
pub(crate) fn put_command(out: &mut Vec<u8>, command: &Command)
    requires { vec_len out.old + length (command_text command.now) ≤ vec_capacity out.old }
    ensures items { out.new.items ≡ out.old.items ++ command_text command.now }
    ensures capacity { vec_capacity out.old ≤ vec_capacity out.new }
    ensures dealt { IsDealt command.now }
{
    out.extend_from_slice(&command_bytes(command)).unwrap();
}

/// Puts commands behind the last byte.
pub(crate) fn put_commands(out: &mut Vec<u8>, commands: &[Command])
    requires { vec_len out.old + length (flat_map command_text commands.now) ≤ vec_capacity out.old }
    ensures items { out.new.items ≡ out.old.items ++ flat_map command_text commands.now }
    ensures capacity { vec_capacity out.old ≤ vec_capacity out.new }
    ensures dealt { AllByRecursion IsDealt commands.now }
{
    for command in commands {
        put_command(out, command);
    }
}
