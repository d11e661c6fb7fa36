//! All room that a call of a node needs, made before anything changes.

ghost use Rattle.std.specs.Prelude.{◌≡◌, ◌+◌, ◌≤◌, IfOk, OnOk};
ghost use Rattle.dealer_node.specs.declared.limits.TheConstants.{COMMANDS_OF_A_CALL};
ghost use Rattle.dealer_node.specs.Outs.{told_by, nothing_told, HasRoom};
ghost use Rattle.dealer_node.specs.Members.{Membership};
ghost use Rattle.dealer_node.specs.Running.{IsAt, ahead_of};

use crate::made::{Made, Need};
use crate::up::Up;
use promise_store::Disk;
use std::alloc::{AllocError, Global};

/// Nothing made, with the room of what an earlier call made if there is such.
fn emptied(alloc: Global, earlier: Option<Made>) -> Made
    ensures { told_by result ≡ nothing_told }
{
    match earlier {
        Some(mut made) => {
            made.clear();
            made
        }
        None => Made::new(alloc),
    }
}

impl<D: Disk + Drop> Up<D> {
    ghost use Rattle.dealer_node.specs.Working.{store_room};
    ghost use Rattle.dealer_node.specs.Calling.{Unmoved, ChangesRoomAlone, HasCallRoom};

    /// Makes room to count so many answers more, with so many commands in all, and for as many votes in the store. An `Err`
    /// changes room alone.
    fn reserve(&mut self, answers: usize, commands: usize) -> Result<(), AllocError>
        requires { commands ≤ COMMANDS_OF_A_CALL }
        ensures unmoved { Unmoved D.Disk self.old self.new }
        ensures at { (member : Membership) → IsAt member self.old.running → IsAt member self.new.running }
        ensures alone { ChangesRoomAlone self.old.running self.new.running }
        ensures answers { OnOk result (answers ≤ self.new.running.learner.answers) }
        ensures commands { OnOk result (commands ≤ self.new.running.learner.commands) }
        ensures table { OnOk result (ahead_of self.new.running + commands ≤ self.new.running.table.room) }
        ensures store { OnOk result (commands ≤ store_room self.new) }
    {
        self.acceptor.reserve(commands)?;
        self.running.reserve(answers, commands)
    }

    /// Makes room for so much, in what an earlier call made if there is such, and where it goes in the end, to count so many
    /// answers with so many commands in all, and for as many votes in the store. An `Err` changes room alone.
    pub(crate) fn ready(
        &mut self,
        alloc: Global,
        earlier: Option<Made>,
        answers: usize,
        commands: usize,
        need: &Need,
        out: &mut Made,
    ) -> Result<Made, AllocError>
        requires { commands ≤ COMMANDS_OF_A_CALL }
        ensures unmoved { Unmoved D.Disk self.old self.new }
        ensures at { (member : Membership) → IsAt member self.old.running → IsAt member self.new.running }
        ensures alone { ChangesRoomAlone self.old.running self.new.running }
        ensures same { told_by out.new ≡ told_by out.old }
        ensures nothing { IfOk result (λ made. told_by made ≡ nothing_told) }
        ensures room { IfOk result (λ made. HasCallRoom self.new made need.now answers commands) }
        ensures room_out { OnOk result (HasRoom out.new need.now) }
    {
        let mut made = emptied(alloc, earlier);
        made.reserve(need)?;
        out.reserve(need)?;
        self.reserve(answers, commands)?;
        Ok(made)
    }
}
