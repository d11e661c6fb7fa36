ghost use Rattle.std.specs.Prelude.{◌≡◌, ◌+◌, ◌*◌, ◌≤◌, ◌++◌, length, map, OnOk, OnErr, Err};
ghost use Rattle.node_rules.specs.Sending.{to_others};
ghost use Rattle.dealer_node.specs.Turned.{framed};
ghost use Rattle.dealer_node.specs.Fitting.{AreMessages};
ghost use Rattle.paxos_wire.specs.Fits.{IsBallot, IsCommandRun};
ghost use Rattle.paxos_wire.specs.declared.limits.TheConstants.{MOST_SINGLE_FRAME};
ghost use Rattle.dealer_node.specs.Members.{place_at};
ghost use Rattle.dealer_node.specs.Outs.{told_by};
ghost use Rattle.dealer_node.specs.Rooms.{HasSpace, Grows};
ghost use Rattle.dealer_node.specs.Running.{TakesRule, ClashesBy, IsAt, CanLearn, Learns};
ghost use Rattle.dealer_node.specs.Voting.{message_with, telling_votes};
ghost use Rattle.dealer_node.specs.declared.limits.TheConstants.{FRAMES_TO_ALL};

use crate::made::Made;
use crate::member::Member;
use crate::running::Running;
use crate::sending::send_to_others;
use crate::texts::Texts;
use paxos_wire::limits::WINDOW;
use paxos_wire::{Ballot, Commands, Message};
use slot_log::{Command, SlotFault};

/// What a message says of the commands that it has.
#[derive(Clone, Copy)]
pub(crate) enum Kind {
    /// They are proposed: an Accept.
    Proposed,
    /// This node accepted them: an Accepted.
    Voted,
}

/// The message of this kind that has commands in a ballot, the first at the slot and each further one at the slot behind.
fn message_with<'a>(kind: Kind, ballot: Ballot, slot: u32, commands: &'a [Command]) -> Message<'a>
    requires { length commands.now ≤ WINDOW }
    ensures { result ≡ message_with kind ballot slot commands.now }
{
    let commands = Commands::new(commands);
    match kind {
        Kind::Proposed => Message::Accept {
            ballot,
            slot,
            commands,
        },
        Kind::Voted => Message::Accepted {
            ballot,
            slot,
            commands,
        },
    }
}

/// Sends the others a message of this kind with commands in a ballot, the first at the slot and each further one at the
/// slot behind. The frame of each counts as one for each of its commands.
pub(crate) fn send_commands(
    frames: &mut Texts<u8>,
    member: &Member,
    kind: Kind,
    ballot: Ballot,
    slot: u32,
    commands: &[Command],
)
    requires ballot { IsBallot ballot }
    requires run { IsCommandRun slot commands.now }
    requires space { HasSpace frames.old FRAMES_TO_ALL (MOST_SINGLE_FRAME * (FRAMES_TO_ALL * length commands.now)) }
    ensures texts { frames.new.texts ≡ frames.old.texts ++ map framed (to_others (place_at member.now) (message_with kind ballot slot commands.now)) }
    ensures fits { AreMessages (to_others (place_at member.now) (message_with kind ballot slot commands.now)) }
    ensures grows { Grows frames.old frames.new FRAMES_TO_ALL (MOST_SINGLE_FRAME * (FRAMES_TO_ALL * length commands.now)) }
{
    let nodes = member.nodes();
    let message = message_with(kind, ballot, slot, commands);
    send_to_others(frames, nodes, member.node(), &message);
}

impl Running {
    /// Tells the others that the node accepted commands in a ballot, the first at the slot and each further one at the slot
    /// behind, and counts that as the votes of any other node. An `Err` is 30: another command is known at one of the slots.
    pub(crate) fn tell_votes(
        &mut self,
        member: &Member,
        ballot: Ballot,
        slot: u32,
        commands: &[Command],
        made: &mut Made,
    ) -> Result<(), SlotFault>
        requires at { IsAt member.now self.old }
        requires ballot { IsBallot ballot }
        requires run { IsCommandRun slot commands.now }
        requires room { CanLearn self.old made.old 1 (length commands.now) }
        requires space { HasSpace made.old.frames FRAMES_TO_ALL (MOST_SINGLE_FRAME * (FRAMES_TO_ALL * length commands.now)) }
        ensures ok { OnOk result (TakesRule member.now (telling_votes (place_at member.now) ballot slot commands.now) self.old self.new (told_by made.old) (told_by made.new)) }
        ensures err { OnErr result (ClashesBy member.now (telling_votes (place_at member.now) ballot slot commands.now) self.old) }
        ensures at { IsAt member.now self.new }
        ensures proposer { self.new.proposer ≡ self.old.proposer }
        ensures learns { Learns (length commands.now) self.old self.new made.old made.new }
        ensures frames { Grows made.old.frames made.new.frames FRAMES_TO_ALL (MOST_SINGLE_FRAME * (FRAMES_TO_ALL * length commands.now)) }
        ensures rest { made.new ≡ record made.old { frames = made.new.frames; shown = made.new.shown } }
    {
        send_commands(
            &mut made.frames,
            member,
            Kind::Voted,
            ballot,
            slot,
            commands,
        );
        self.count_votes(member, member.node(), ballot, slot, commands, made)
    }
}
