//! What the list of commands says of the acts of each seat.

ghost use Rattle.std.specs.Prelude.{◌≡◌, ◌<◌, ◌≤◌, ℕ, List, [], ◌∷◌, length, take, reverse};
ghost use Rattle.slot_log.specs.declared.command.Command.{Command as Order};
ghost use Rattle.node_service.specs.declared.limits.TheConstants.{SEATS as COUNT};
ghost use Rattle.node_service.specs.Acts.{no_acts, and_act, acts_at, AreActsBy, Gains};

use crate::limits::{PLACES, SEATS};
use crate::newest_hand::NewestHand;
use clockwork::Acts;
use game_def::GameDef;
use slot_log::Command;

/// No act is known.
const NONE: Acts = Acts {
    has_acted: false,
    defaults: 0,
};

/// What the commands that a node applied say of the acts of each seat, as far as they were followed.
#[derive(Drop)]
pub(crate) struct SeatActs {
    pub(crate) newest: NewestHand,
    /// So many commands were followed.
    pub(crate) followed: usize,
    pub(crate) all: [Acts; PLACES],
}

/// The acts of a seat once a command of it took effect: a default action is one more in a row, and an act that it said itself
/// ends the row.
fn and_act(acts: Acts, command: &Command) -> Acts
    ensures { result ≡ and_act command.now acts }
{
    match command {
        Command::Deal { .. } => acts,
        Command::Act { .. } => Acts {
            has_acted: true,
            defaults: 0,
        },
        Command::Away { .. } => Acts {
            has_acted: acts.has_acted,
            defaults: acts.defaults.saturating_add(1),
        },
    }
}

impl SeatActs {
    /// No command was followed, of a match of at most 10000 hands.
    pub(crate) fn new(game: GameDef, count: u32) -> SeatActs
        requires { count ≤ 10000 }
        ensures by { AreActsBy result [] }
        ensures game { result.newest.game ≡ game }
        ensures count { result.newest.count ≡ count }
        ensures followed { result.followed ≡ 0 }
    {
        SeatActs {
            newest: NewestHand::new(game, count),
            followed: 0,
            all: [NONE; PLACES],
        }
    }

    /// The acts of a seat.
    pub(crate) fn at(&self, seat: u8) -> Acts
        ensures { result ≡ acts_at self.now.all seat }
    {
        match self.all.get(seat as usize) {
            Some(acts) => *acts,
            None => NONE,
        }
    }

    /// A command of this seat took effect.
    fn note(&mut self, seat: Option<u8>, command: &Command)
        ensures same { self.new ≡ record self.old { all = self.new.all } }
        ensures gains { Gains seat command.now self.old.all self.new.all }
    {
        if let Some(seat) = seat {
            if seat < SEATS {
                self.all[seat as usize] = and_act(self.at(seat), command);
            }
        }
    }

    /// Follows one command more.
    fn take(&mut self, command: &Command)
        ensures by { (commands : List Order) → AreActsBy self.old commands → AreActsBy self.new (command.now ∷ commands) }
        ensures game { self.new.newest.game ≡ self.old.newest.game }
        ensures count { self.new.newest.count ≡ self.old.newest.count }
        ensures followed { self.new.followed ≡ self.old.followed }
    {
        let seat = self.newest.actor(command);
        self.newest.take(command);
        self.note(seat, command);
    }

    /// Follows those of these commands, that of slot 0 first, that weren't followed yet.
    pub(crate) fn follow(&mut self, commands: &[Command])
        ensures by { AreActsBy self.old (reverse (take self.old.followed commands.now)) → self.old.followed ≤ length commands.now → AreActsBy self.new (reverse commands.now) }
        ensures followed { self.old.followed ≤ length commands.now → self.new.followed ≡ length commands.now }
        ensures game { self.new.newest.game ≡ self.old.newest.game }
        ensures count { self.new.newest.count ≡ self.old.newest.count }
    {
        for place in self.followed..commands.len() {
            self.take(&commands[place]);
            self.followed = place + 1;
        }
    }
}
