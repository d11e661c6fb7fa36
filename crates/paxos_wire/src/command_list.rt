ghost use Rattle.std.specs.Prelude.{◌≡◌, ◌<◌, ◌≤◌, ◌++◌, ◌∷◌, [], length};

use crate::limits::WINDOW;
use betting::Action;
use slot_log::Command;
use std::marker::Model;

/// At most 64 commands, for slots that follow one another, which take no memory of their own.
///
/// The list is made once and emptied and filled again, since making it fills each of its places. Contracts see it as
/// the list of the commands.
#[derive(Debug, Drop)]
pub struct CommandList {
    commands: [Command; WINDOW],
    count: usize,
}

/// What stands in each place of a new list.
const BLANK: Command = Command::Act {
    hand: 0,
    index: 0,
    action: Action::Fold,
};

impl Model for CommandList {
    ghost use Rattle.std.specs.Prelude.{List, take};
    ghost use Rattle.slot_log.specs.declared.command.Command.{Command};

    ghost Value = { List Command };

    ghost use Rattle.paxos_wire.specs.CommandsInside.{IsKept};

    ghost view = { λ l. take l.count l.commands };

    ghost invariant = { IsKept };
}

impl CommandList {
    /// No command.
    pub fn new() -> CommandList
        ensures { result ≡ [] }
    {
        CommandList {
            commands: [BLANK; WINDOW],
            count: 0,
        }
    }

    /// These commands.
    pub fn from_slice(commands: &[Command]) -> CommandList
        requires { length commands.now ≤ WINDOW }
        ensures { result ≡ commands.now }
    {
        let mut list = CommandList::new();
        for command in commands {
            list.push(*command);
        }
        list
    }

    /// How many there are.
    pub fn len(&self) -> usize
        ensures value { result ≡ length self.now }
        ensures most { result ≤ WINDOW }
    {
        self.as_slice().len()
    }

    /// Takes all commands out.
    pub fn clear(&mut self)
        ensures { self.new ≡ [] }
    {
        self.count = 0;
    }

    /// Puts a command behind the last one.
    pub fn push(&mut self, command: Command)
        requires { length self.old < WINDOW }
        ensures { self.new ≡ self.old ++ command ∷ [] }
    {
        self.commands[self.count] = command;
        self.count += 1;
    }

    /// The commands in order.
    pub fn as_slice(&self) -> &[Command]
        ensures value { result.now ≡ self.now }
        ensures most { length self.now ≤ WINDOW }
    {
        &self.commands[..self.count]
    }
}

/// At most 64 commands that are borrowed, for slots that follow one another.
///
/// Contracts see them as the list of the commands.
#[derive(Debug, Drop)]
pub struct Commands<'a> {
    items: &'a [Command],
}

impl<'a> Model for Commands<'a> {
    ghost use Rattle.std.specs.Prelude.{List, ◌≤◌, length};
    ghost use Rattle.slot_log.specs.declared.command.Command.{Command};
    ghost use Rattle.paxos_wire.specs.declared.limits.TheConstants.{WINDOW};

    ghost Value = { List Command };

    ghost view = { λ c. c.items.now };

    ghost invariant = { λ c. length c.items.now ≤ WINDOW };
}

impl<'a> Commands<'a> {
    /// These commands.
    pub fn new(items: &'a [Command]) -> Commands<'a>
        requires { length items.now ≤ WINDOW }
        ensures { result ≡ items.now }
    {
        Commands { items }
    }

    /// How many there are.
    pub fn len(&self) -> usize
        ensures value { result ≡ length self.now }
        ensures most { result ≤ WINDOW }
    {
        self.items.len()
    }

    /// The commands in order.
    pub fn as_slice(&self) -> &'a [Command]
        ensures value { result.now ≡ self.now }
        ensures most { length self.now ≤ WINDOW }
    {
        self.items
    }
}
