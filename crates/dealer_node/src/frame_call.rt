//! The call with a frame: what a node that runs does with its bytes.

ghost use Rattle.std.specs.Prelude.{◌≡◌, ◌+◌, ◌≤◌, ◌<◌, IfOk, IsTrue, IsErr};
ghost use Rattle.paxos_wire.specs.Fits.{IsMessage};
ghost use Rattle.paxos_wire.specs.Faults.{reading};
ghost use Rattle.node_rules.specs.Standings.{Standing};
ghost use Rattle.node_rules.specs.Calls.{Frame as Letter};
ghost use Rattle.dealer_node.specs.Outs.{told_by};
ghost use Rattle.dealer_node.specs.Running.{IsAt};
ghost use Rattle.dealer_node.specs.Handling.{AnswersUp};
ghost use Rattle.dealer_node.specs.Calling.{commands_in, frame_need};
ghost use Rattle.dealer_node.specs.declared.limits.TheConstants.{ANSWERS_OF_A_CALL};
ghost use Rattle.paxos_wire.specs.declared.limits.TheConstants.{WINDOW};
ghost use Rattle.dealer_node.specs.Most.{most_after, most_applied_behind, most_applied_by, ShowsWithin};

use crate::fault::NodeFault;
use crate::limits::{ANSWERS_OF_A_CALL, FRAMES_OF_A_CLOSE, FRAMES_OF_AN_ANSWER, FRAMES_TO_ALL};
use crate::made::{Made, Need};
use crate::member::Member;
use crate::most_shown::{MostShown, most_after};
use crate::rooms::Rooms;
use crate::running::Running;
use crate::up::Up;
use paxos_wire::{FrameFault, Message, MessageRoom, decode};
use promise_store::Disk;
use std::alloc::Global;

/// What the bytes of a frame say, and that a message which was read has a frame, as all that takes it asks. The lists of a
/// message stand in the room.
fn read<'a>(bytes: &[u8], room: &'a mut MessageRoom) -> Result<Message<'a>, FrameFault>
    ensures value { result ≡ reading bytes.now }
    ensures message { IfOk result (λ message. IsMessage message) }
{
    decode(bytes, room)
}

/// How many commands a message has that may be voted for or learned: those that it asks to accept, or tells to be
/// accepted, 64 at most, and else one.
fn commands_in(message: &Message) -> usize
    ensures value { result ≡ commands_in message.now }
    ensures most { result ≤ WINDOW }
{
    match message {
        Message::Accept { commands, .. } | Message::Accepted { commands, .. } => commands.len(),
        Message::Prepare { .. }
        | Message::Promise { .. }
        | Message::Refuse { .. }
        | Message::Chosen { .. }
        | Message::Ask { .. }
        | Message::Forward { .. } => 1,
    }
}

/// How much the call of a message shows at most.
fn most_shown_behind(running: &Running, message: &Message) -> MostShown
    ensures { result ≡ most_after (most_applied_behind running.now message.now) }
{
    let commands = commands_in(message) + running.most_proposed_behind(message);
    most_after(running.most_applied(commands))
}

/// What a message of another node makes at most that has so many commands, where the close proposes no more than so many.
fn frame_need(running: &Running, commands: usize, most: usize) -> Need
    requires commands { commands ≤ WINDOW }
    requires most { most ≤ WINDOW }
    ensures { result ≡ frame_need running.now commands most }
{
    let frames = FRAMES_OF_AN_ANSWER + FRAMES_TO_ALL * commands + FRAMES_OF_A_CLOSE * most + 1;
    running.need(commands + most, frames)
}

impl<D: Disk + Drop> Up<D> {
    ghost use Rattle.dealer_node.specs.Working.{IsUp, GoesOn};
    ghost use Rattle.dealer_node.specs.Calling.{HandlesCall};

    /// How much the call of a frame of these bytes shows at most. The lists of its message stand in the room.
    pub(crate) fn most_shown_by(&self, bytes: &[u8], room: &mut MessageRoom) -> MostShown
        ensures { result ≡ most_after (most_applied_by self.now.running (reading bytes.now)) }
    {
        match read(bytes, room) {
            Ok(message) => most_shown_behind(&self.running, &message),
            Err(_) => self.running.most_shown(),
        }
    }

    /// Takes the bytes of a frame of another node, and closes the call. What it makes goes to `out` at the end, where it
    /// didn't fail.
    pub(crate) fn on_frame(
        &mut self,
        alloc: Global,
        member: &Member,
        from: u8,
        bytes: &[u8],
        rooms: &mut Rooms,
        out: &mut Made,
    ) -> Result<(), NodeFault>
        requires at { IsAt member.now self.old.running }
        requires from { from < member.now.nodes }
        ensures handles { (s : Standing) → IsTrue D.is_honest → IsUp D.Disk member.now self.old s
            → HandlesCall D.Disk member.now s (Letter from bytes.now) self.old self.new (told_by out.old) (told_by out.new) result }
        ensures goes_on { GoesOn D.Disk self.old self.new result }
        ensures answers { AnswersUp self.old self.new result }
        ensures at { IsAt member.now self.new.running }
        ensures unmade { IsErr result → told_by out.new ≡ told_by out.old }
        ensures shows { ShowsWithin (most_after (most_applied_by self.old.running (reading bytes.now))) (told_by out.old) (told_by out.new) }
    {
        match read(bytes, &mut rooms.message) {
            Err(fault) => Err(NodeFault::BadFrame(fault)),
            Ok(message) => {
                let commands = commands_in(&message);
                let most = self.running.most_proposed_behind(&message);
                let need = frame_need(&self.running, commands, most);
                let earlier = rooms.made.take();
                let mut made = self.ready(
                    alloc,
                    earlier,
                    ANSWERS_OF_A_CALL,
                    commands + most,
                    &need,
                    out,
                )?;
                self.on_message(member, from, &message, &mut rooms.lists, &mut made)?;
                out.append(&mut made);
                rooms.made = Some(made);
                Ok(())
            }
        }
    }
}
