ghost use Rattle.std.specs.Prelude.{◌≡◌, ℕ, ◌+◌, ◌*◌, ◌<◌, OnOk, OnErr, Err};
ghost use Rattle.paxos_wire.specs.Fits.{IsMessage};
ghost use Rattle.node_rules.specs.Standings.{Standing};
ghost use Rattle.node_rules.specs.Rules.{taking};
ghost use Rattle.dealer_node.specs.Members.{place_at};
ghost use Rattle.dealer_node.specs.Outs.{told_by};
ghost use Rattle.dealer_node.specs.declared.limits.TheConstants.{FRAMES_TO_ALL, FRAMES_OF_AN_ANSWER, FRAME_BYTES_OF_AN_ANSWER};
ghost use Rattle.dealer_node.specs.Rooms.{HasSpace, Grows};
ghost use Rattle.proposer.specs.CommandRuns.{IsBounded};
ghost use Rattle.dealer_node.specs.Running.{IsRunning, IsBoundedBehind, IsAt, CanLearn, ClashesBy, Learns};
ghost use Rattle.dealer_node.specs.Storeless.{IsStoreless, TakesStoreless};
ghost use Rattle.dealer_node.specs.Calling.{commands_in};
ghost use Rattle.dealer_node.specs.Working.{Spends};

use crate::fault::NodeFault;
use crate::made::Made;
use crate::member::Member;
use crate::running::Running;
use crate::up::Up;
use paxos_wire::Message;
use promise_store::Disk;
use slot_log::SlotFault;

impl Running {
    /// Takes a message of another node that asks nothing of the store. An `Err` is 30: another command is known at its
    /// slot.
    pub(crate) fn take_storeless(
        &mut self,
        member: &Member,
        from: u8,
        message: &Message,
        made: &mut Made,
    ) -> Result<(), SlotFault>
        requires at { IsAt member.now self.old }
        requires from { from < member.now.nodes }
        requires message { IsMessage message.now }
        requires storeless { IsStoreless message.now }
        requires learn { CanLearn self.old made.old 1 (commands_in message.now) }
        requires space { HasSpace made.old.frames FRAMES_OF_AN_ANSWER FRAME_BYTES_OF_AN_ANSWER }
        ensures ok { OnOk result ((s : Standing) → IsRunning member.now self.old s
            → TakesStoreless member.now self.new (told_by made.old) (told_by made.new) s (taking (place_at member.now) from message.now s)) }
        ensures err { OnErr result (ClashesBy member.now (taking (place_at member.now) from message.now) self.old) }
        ensures at { IsAt member.now self.new }
        ensures bounded { (most : ℕ) → IsBoundedBehind self.old.proposer message.now most → IsBounded self.new.proposer most }
        ensures learns { Learns (commands_in message.now) self.old self.new made.old made.new }
        ensures frames { Grows made.old.frames made.new.frames FRAMES_OF_AN_ANSWER FRAME_BYTES_OF_AN_ANSWER }
        ensures faults { made.new.faults ≡ made.old.faults }
    {
        match message {
            Message::Promise {
                ballot,
                slot,
                entries,
            } => {
                self.count_promise(from, *ballot, *slot, entries.list());
                Ok(())
            }
            Message::Refuse { promised, .. } => {
                self.hear_refusal(*promised);
                Ok(())
            }
            Message::Accepted {
                ballot,
                slot,
                commands,
            } => self.count_votes(member, from, *ballot, *slot, commands.as_slice(), made),
            Message::Chosen { slot, command } => self.believe(member, from, *slot, *command, made),
            Message::Ask { slot } => {
                self.tell_chosen(from, *slot, made);
                Ok(())
            }
            Message::Forward { command } => {
                self.take_over(command);
                Ok(())
            }
            Message::Prepare { .. } | Message::Accept { .. } => unreachable!(),
        }
    }
}

impl<D: Disk + Drop> Up<D> {
    ghost use Rattle.dealer_node.specs.Working.{Follows, EndsPart};

    /// Takes a message of another node that asks nothing of the store.
    pub(crate) fn take_storeless(
        &mut self,
        member: &Member,
        from: u8,
        message: &Message,
        made: &mut Made,
    ) -> Result<(), NodeFault>
        requires at { IsAt member.now self.old.running }
        requires from { from < member.now.nodes }
        requires message { IsMessage message.now }
        requires storeless { IsStoreless message.now }
        requires learn { CanLearn self.old.running made.old 1 (commands_in message.now) }
        requires space { HasSpace made.old.frames FRAMES_OF_AN_ANSWER FRAME_BYTES_OF_AN_ANSWER }
        ensures works { Follows D.Disk member.now (taking (place_at member.now) from message.now) self.old self.new (told_by made.old) (told_by made.new) result }
        ensures ends { EndsPart D.Disk self.old self.new result }
        ensures same { self.new.acceptor ≡ self.old.acceptor }
        ensures at { IsAt member.now self.new.running }
        ensures bounded { (most : ℕ) → IsBoundedBehind self.old.running.proposer message.now most → IsBounded self.new.running.proposer most }
        ensures left { Spends self.old.running self.new.running made.old made.new 1 (commands_in message.now) (FRAMES_OF_AN_ANSWER + FRAMES_TO_ALL * commands_in message.now) }
    {
        match self.running.take_storeless(member, from, message, made) {
            Ok(()) => Ok(()),
            Err(_) => Err(NodeFault::Conflict),
        }
    }
}
