//! How messages print, each on one line.

ghost use Rattle.std.specs.Prelude.{Some};
ghost use Rattle.std.specs.List.{flat_map};
ghost use Rattle.paxos_wire.specs.Lines.{action_line, command_line, further_line, commands_line, slots_line, run_line, message_line};

use crate::command_list::Commands;
use crate::message::Message;
use betting::Action;
use slot_log::Command;
use std::fmt;

/// An action, to be printed.
#[derive(Clone, Copy)]
struct ActionLine(Action);

/// A command, to be printed.
#[derive(Clone, Copy)]
struct CommandLine(Command);

/// Commands behind another one, to be printed.
#[derive(Clone, Copy)]
struct FurtherLine<'a>(&'a [Command]);

/// Commands for slots that follow one another, to be printed.
#[derive(Clone, Copy)]
struct CommandsLine<'a>(&'a [Command]);

/// The slots from one on, to be printed.
#[derive(Clone, Copy)]
struct SlotsLine {
    slot: u32,
    count: u8,
}

/// A command run at its slots, to be printed.
#[derive(Clone, Copy)]
struct RunLine<'a> {
    slot: u32,
    commands: &'a Commands<'a>,
}

impl fmt::Display for ActionLine {
    ghost output = { λ line. Some (action_line line.0) };

    fn fmt<W: fmt::Write>(&self, f: &mut fmt::Formatter<W>) -> fmt::Result {
        match self.0 {
            Action::Fold => f.write_str("fold"),
            Action::Call => f.write_str("call"),
            Action::Raise(amount) => write!(f, "raise to {amount}"),
        }
    }
}

impl fmt::Display for CommandLine {
    ghost output = { λ line. Some (command_line line.0) };

    fn fmt<W: fmt::Write>(&self, f: &mut fmt::Formatter<W>) -> fmt::Result {
        match self.0 {
            Command::Deal { hand, .. } => write!(f, "deal of hand {hand}"),
            Command::Act {
                hand,
                index,
                action,
            } => {
                write!(f, "act {index} of hand {hand}: ")?;
                write!(f, "{}", ActionLine(action))
            }
            Command::Away { hand, index } => write!(f, "away at act {index} of hand {hand}"),
        }
    }
}

impl<'a> fmt::Display for FurtherLine<'a> {
    ghost output = { λ line. Some (flat_map further_line line.0.now) };

    fn fmt<W: fmt::Write>(&self, f: &mut fmt::Formatter<W>) -> fmt::Result {
        let commands = self.0;
        for command in commands {
            write!(f, ", {}", CommandLine(*command))?;
        }
        Ok(())
    }
}

impl<'a> fmt::Display for CommandsLine<'a> {
    ghost output = { λ line. Some (commands_line line.0.now) };

    fn fmt<W: fmt::Write>(&self, f: &mut fmt::Formatter<W>) -> fmt::Result {
        match self.0 {
            [] => Ok(()),
            [first, others @ ..] => write!(f, "{}{}", CommandLine(*first), FurtherLine(others)),
        }
    }
}

impl fmt::Display for SlotsLine {
    ghost output = { λ line. Some (slots_line line.slot line.count) };

    fn fmt<W: fmt::Write>(&self, f: &mut fmt::Formatter<W>) -> fmt::Result {
        if self.count < 2 {
            return write!(f, "{}", self.slot);
        }
        let last = self.slot as u64 + self.count as u64 - 1;
        write!(f, "{} to {last}", self.slot)
    }
}

impl<'a> fmt::Display for RunLine<'a> {
    ghost output = { λ line. Some (run_line line.slot line.commands.now) };

    fn fmt<W: fmt::Write>(&self, f: &mut fmt::Formatter<W>) -> fmt::Result {
        let slots = SlotsLine {
            slot: self.slot,
            count: self.commands.len() as u8,
        };
        write!(f, "{slots}: {}", CommandsLine(self.commands.as_slice()))
    }
}

impl<'a> fmt::Display for Message<'a> {
    ghost output = { λ m. Some (message_line m) };

    fn fmt<W: fmt::Write>(&self, f: &mut fmt::Formatter<W>) -> fmt::Result {
        match self {
            Message::Prepare { ballot, slot } => write!(f, "Prepare {ballot} from {slot}"),
            Message::Promise {
                ballot,
                slot,
                entries,
            } => write!(
                f,
                "Promise {ballot} from {slot}: {} accepted",
                entries.len()
            ),
            Message::Refuse {
                ballot,
                slot,
                promised,
            } => write!(f, "Refuse {ballot} at {slot}: promised {promised}"),
            Message::Accept {
                ballot,
                slot,
                commands,
            } => {
                let run = RunLine {
                    slot: *slot,
                    commands,
                };
                write!(f, "Accept {ballot} at {run}")
            }
            Message::Accepted {
                ballot,
                slot,
                commands,
            } => {
                let run = RunLine {
                    slot: *slot,
                    commands,
                };
                write!(f, "Accepted {ballot} at {run}")
            }
            Message::Chosen { slot, command } => write!(
                f,
                "Chosen at {slot}: {}",
                CommandLine(*command)
            ),
            Message::Ask { slot } => write!(f, "Ask from {slot}"),
            Message::Forward { command } => write!(f, "Forward {}", CommandLine(*command)),
        }
    }
}
