ghost use Rattle.std.specs.Prelude.{◌≡◌, ℕ, ◌+◌, ◌*◌, ◌≤◌, List, length, is_none};
ghost use Rattle.game_def.specs.Game.{Game};
ghost use Rattle.node_rules.specs.Applying.{kept, taking, taking_all};
ghost use Rattle.slot_log.specs.declared.command.Command.{Command as Order};
ghost use Rattle.slot_log.specs.Hand.{Hand};
ghost use Rattle.slot_log.specs.Dealer.{effect_of, reason_of};
ghost use Rattle.dealer_kind.specs.Kind.{Setting};
ghost use Rattle.dealer_node.specs.Rooms.{HasSpace, Grows};
ghost use Rattle.dealer_node.specs.Turned.{talks};
ghost use Rattle.dealer_node.specs.Scenes.{IsTableOf, IsTableAt, PlaysOn, StaysInRange};

use crate::lines::show_news;
use crate::member::Member;
use crate::reader::Reader;
use crate::texts::Texts;
use seat_session::Session;
use slot_log::{Command, Effect, Table};

/// Forgets an act that waits and doesn't fit.
fn forget(pending: &mut Option<Command>, table: &Table)
    ensures kept { (setting : Setting) (applied : List Order) → IsTableOf setting applied table.now → pending.new ≡ kept setting applied pending.old }
    ensures act { StaysInRange pending.old pending.new }
{
    if let Some(act) = pending {
        if !table.fits(act) {
            *pending = None;
        }
    }
}

/// Whether a command took effect, by what it did.
fn took_effect(effect: Effect) -> bool
    ensures { (game : Game) (count : ℕ) (hands : List Hand) (command : Order) → effect ≡ effect_of game count hands command
        → result ≡ is_none (reason_of game count hands command) }
{
    !matches!(effect, Effect::None(_))
}

/// Applies a command: one that takes effect is shown, and an act that waits is forgotten once it doesn't fit.
fn apply_command(
    table: &mut Table,
    pending: &mut Option<Command>,
    member: &Member,
    sessions: &[Option<Session>],
    command: &Command,
    shown: &mut Texts<Reader>,
)
    requires played { IsTableAt member.now.setting (length sessions.now) table.old }
    requires room { 1 ≤ table.old.room }
    requires space { HasSpace shown.old 11 45716 }
    ensures scene { PlaysOn member.now.setting (taking member.now.setting (talks sessions.now) command.now) table.old pending.old shown.old.texts table.new pending.new shown.new.texts }
    ensures game { table.new.game ≡ table.old.game }
    ensures count { table.new.count ≡ table.old.count }
    ensures room { table.old.room ≤ table.new.room + 1 }
    ensures grows { Grows shown.old shown.new 11 45716 }
    ensures act { StaysInRange pending.old pending.new }
{
    let took = took_effect(table.apply_reserved(command));
    show_news(shown, took, member, table, sessions);
    forget(pending, table);
}

/// Applies commands in order, for all of which there is room.
pub(crate) fn apply_commands(
    table: &mut Table,
    pending: &mut Option<Command>,
    member: &Member,
    sessions: &[Option<Session>],
    commands: &[Command],
    shown: &mut Texts<Reader>,
)
    requires played { IsTableAt member.now.setting (length sessions.now) table.old }
    requires room { length commands.now ≤ table.old.room }
    requires space { HasSpace shown.old (11 * length commands.now) (45716 * length commands.now) }
    ensures scene { PlaysOn member.now.setting (taking_all member.now.setting (talks sessions.now) commands.now) table.old pending.old shown.old.texts table.new pending.new shown.new.texts }
    ensures game { table.new.game ≡ table.old.game }
    ensures count { table.new.count ≡ table.old.count }
    ensures room { table.old.room ≤ table.new.room + length commands.now }
    ensures grows { Grows shown.old shown.new (11 * length commands.now) (45716 * length commands.now) }
    ensures act { StaysInRange pending.old pending.new }
{
    for command in commands {
        apply_command(table, pending, member, sessions, command, shown);
    }
}
