//! What a node that runs does with a message of another node.

ghost use Rattle.std.specs.Prelude.{◌≡◌, ℕ, ◌+◌, ◌*◌, ◌≤◌, ◌<◌, OnOk};
ghost use Rattle.paxos_wire.specs.Fits.{IsMessage};
ghost use Rattle.paxos_wire.specs.declared.limits.TheConstants.{MOST_SINGLE_FRAME};
ghost use Rattle.node_rules.specs.Rules.{taking, on_message};
ghost use Rattle.proposer.specs.CommandRuns.{IsBounded};
ghost use Rattle.dealer_node.specs.Members.{place_at};
ghost use Rattle.dealer_node.specs.Outs.{told_by, nothing_told};
ghost use Rattle.dealer_node.specs.declared.limits.TheConstants.{FRAMES_TO_ALL, FRAMES_OF_AN_ANSWER};
ghost use Rattle.dealer_node.specs.Rooms.{HasSpace};
ghost use Rattle.dealer_node.specs.Running.{IsBoundedBehind, IsAt, CanLearn};
ghost use Rattle.dealer_node.specs.Handling.{IsWithin};
ghost use Rattle.dealer_node.specs.Calling.{commands_in, frame_need};
ghost use Rattle.dealer_node.specs.Working.{Spends};

use crate::fault::NodeFault;
use crate::made::Made;
use crate::member::Member;
use crate::rooms::Lists;
use crate::running::Running;
use crate::up::Up;
use paxos_wire::{CommandList, Message};
use promise_store::Disk;

impl<D: Disk + Drop> Up<D> {
    ghost use Rattle.dealer_node.specs.Working.{Follows, store_room, EndsPart};
    ghost use Rattle.dealer_node.specs.Calling.{CanTake};

    /// What each message asks of a node.
    fn take_message(
        &mut self,
        member: &Member,
        from: u8,
        message: &Message,
        told: &mut CommandList,
        made: &mut Made,
    ) -> Result<(), NodeFault>
        requires at { IsAt member.now self.old.running }
        requires from { from < member.now.nodes }
        requires message { IsMessage message.now }
        requires store { commands_in message.now ≤ store_room self.old }
        requires learn { CanLearn self.old.running made.old 1 (commands_in message.now) }
        requires space { HasSpace made.old.frames FRAMES_OF_AN_ANSWER (MOST_SINGLE_FRAME * (FRAMES_OF_AN_ANSWER + FRAMES_TO_ALL * commands_in message.now)) }
        ensures works { Follows D.Disk member.now (taking (place_at member.now) from message.now) self.old self.new (told_by made.old) (told_by made.new) result }
        ensures ends { EndsPart D.Disk self.old self.new result }
        ensures at { IsAt member.now self.new.running }
        ensures bounded { (most : ℕ) → IsBoundedBehind self.old.running.proposer message.now most → IsBounded self.new.running.proposer most }
        ensures room { store_room self.old ≤ store_room self.new + commands_in message.now }
        ensures left { Spends self.old.running self.new.running made.old made.new 1 (commands_in message.now) (FRAMES_OF_AN_ANSWER + FRAMES_TO_ALL * commands_in message.now) }
    {
        match message {
            Message::Prepare { ballot, slot } => self.prepare(from, *ballot, *slot, made),
            Message::Accept {
                ballot,
                slot,
                commands,
            } => self.accept(
                member,
                from,
                *ballot,
                *slot,
                commands.as_slice(),
                told,
                made,
            ),
            Message::Promise { .. }
            | Message::Refuse { .. }
            | Message::Accepted { .. }
            | Message::Chosen { .. }
            | Message::Ask { .. }
            | Message::Forward { .. } => self.take_storeless(member, from, message, made),
        }
    }

    /// Takes a message of another node, into room that was made, and closes the call; last it asks for what it doesn't know.
    pub(crate) fn on_message(
        &mut self,
        member: &Member,
        from: u8,
        message: &Message,
        lists: &mut Lists,
        made: &mut Made,
    ) -> Result<(), NodeFault>
        requires at { IsAt member.now self.old.running }
        requires from { from < member.now.nodes }
        requires message { IsMessage message.now }
        requires room { (most : ℕ) × CanTake self.old made.old message.now most }
        ensures works { Follows D.Disk member.now (on_message (place_at member.now) from message.now) self.old self.new (told_by made.old) (told_by made.new) result }
        ensures ends { EndsPart D.Disk self.old self.new result }
        ensures at { IsAt member.now self.new.running }
        ensures within { (most : ℕ) → CanTake self.old made.old message.now most → told_by made.old ≡ nothing_told
            → OnOk result (IsWithin made.new (frame_need self.old.running (commands_in message.now) most)) }
    {
        self.running.see(message);
        match self.take_message(member, from, message, &mut lists.told, made) {
            Err(fault) => Err(fault),
            Ok(()) => match self.close_call(member, lists, made) {
                Err(fault) => Err(fault),
                Ok(()) => {
                    self.running.ask_behind(from, message, made);
                    Ok(())
                }
            },
        }
    }
}
