//! Catching up: when a node asks another for what was chosen, and how it answers one that asks. It asks behind a message
//! that speaks of a slot above its front, and where the front came to a multiple of 64 by what that node told. A start asks
//! all others, from the first slot on (`starting::greet`).

ghost use Rattle.std.specs.Prelude.{◌≡◌, ◌+◌, ◌-◌, ◌*◌, ◌≤◌, ◌<◌, ◌++◌, ℕ, map, min, Some};
ghost use Rattle.paxos_wire.specs.Fits.{IsInRange, IsMessage, IsSlot};
ghost use Rattle.paxos_wire.specs.declared.limits.TheConstants.{MOST_SINGLE_FRAME};
ghost use Rattle.paxos_wire.specs.declared.message.Message.TheVariants.{Ask as Asking};
ghost use Rattle.slot_log.specs.Slots.{front, known_at};
ghost use Rattle.slot_log.specs.declared.command.Command.{Command as Order};
ghost use Rattle.node_rules.specs.Sending.{one};
ghost use Rattle.node_rules.specs.Learning.{asking_on, asking_above, next_window, telling, telling_from};
ghost use Rattle.node_rules.specs.Rules.{asking};
ghost use Rattle.dealer_node.specs.declared.limits.TheConstants.{FRAMES_OF_AN_ANSWER, FRAME_BYTES_OF_AN_ANSWER};
ghost use Rattle.dealer_node.specs.Outs.{told_by};
ghost use Rattle.dealer_node.specs.Rooms.{HasSpace, Grows};
ghost use Rattle.dealer_node.specs.Turned.{framed};
ghost use Rattle.dealer_node.specs.Fitting.{AreMessages};
ghost use Rattle.dealer_node.specs.Running.{AreInRange, TakesBeside};

use crate::made::Made;
use crate::running::Running;
use crate::sending::send;
use crate::texts::Texts;
use paxos_wire::limits::{SLOTS, WINDOW};
use paxos_wire::{Message, frame_len};
use slot_log::SlotLog;

/// Asks a node for what was chosen from a slot on.
pub(crate) fn send_ask(frames: &mut Texts<u8>, to: u8, slot: u32)
    requires slot { IsSlot slot }
    requires space { HasSpace frames.old 1 MOST_SINGLE_FRAME }
    ensures texts { frames.new.texts ≡ frames.old.texts ++ map framed (one to (Asking slot)) }
    ensures fits { AreMessages (one to (Asking slot)) }
    ensures grows { Grows frames.old frames.new 1 MOST_SINGLE_FRAME }
{
    let message = Message::Ask { slot };
    let _len = frame_len(&message);
    send(frames, to, &message);
}

/// How many slots an Ask for a slot is answered with: those from the slot on that lie below the front and below the
/// next multiple of 64 above the slot.
pub(crate) fn told_slots(log: &SlotLog, slot: u32) -> u32
    requires { IsSlot slot }
    ensures value { result ≡ min (front log.now.log) (next_window slot) - slot }
    ensures most { result ≤ WINDOW }
    ensures within { slot + result ≤ front log.now.log + slot }
{
    let window = WINDOW as u32;
    let next = (slot / window + 1) * window;
    log.front().min(next).saturating_sub(slot)
}

/// Tells a node the command of a slot as chosen, where it is known.
fn tell_slot(frames: &mut Texts<u8>, to: u8, log: &SlotLog, slot: u32)
    requires slot { IsSlot slot }
    requires commands { (command : Order) → known_at log.now.log slot ≡ Some command → IsInRange command }
    requires space { HasSpace frames.old 1 MOST_SINGLE_FRAME }
    ensures texts { frames.new.texts ≡ frames.old.texts ++ map framed (telling_from log.now.log to slot 1) }
    ensures fits { AreMessages (telling_from log.now.log to slot 1) }
    ensures grows { Grows frames.old frames.new 1 MOST_SINGLE_FRAME }
{
    match log.get(slot) {
        None => return,
        Some(command) => {
            let message = Message::Chosen {
                slot,
                command: *command,
            };
            let _len = frame_len(&message);
            send(frames, to, &message);
        }
    }
}

/// Tells a node the commands of so many slots from one on as chosen, each that is known.
pub(crate) fn send_chosen(frames: &mut Texts<u8>, to: u8, log: &SlotLog, slot: u32, slots: u32)
    requires slots { slot + slots ≤ SLOTS }
    requires commands { (one : ℕ) (command : Order) → known_at log.now.log one ≡ Some command → IsInRange command }
    requires space { HasSpace frames.old slots (MOST_SINGLE_FRAME * slots) }
    ensures texts { frames.new.texts ≡ frames.old.texts ++ map framed (telling_from log.now.log to slot slots) }
    ensures fits { AreMessages (telling_from log.now.log to slot slots) }
    ensures grows { Grows frames.old frames.new slots (MOST_SINGLE_FRAME * slots) }
{
    for step in 0..slots {
        tell_slot(frames, to, log, slot + step);
    }
}

impl Running {
    /// Asks a node that speaks of a slot above the front, in a Prepare, an Accept or an Accepted, for what was chosen from
    /// the front on.
    pub(crate) fn ask_behind(&self, from: u8, message: &Message, made: &mut Made)
        requires message { IsMessage message.now }
        requires space { HasSpace made.old.frames 1 MOST_SINGLE_FRAME }
        ensures taken { TakesBeside (asking from message.now) self.now (told_by made.old) (told_by made.new) }
        ensures frames { Grows made.old.frames made.new.frames 1 MOST_SINGLE_FRAME }
        ensures rest { made.new ≡ record made.old { frames = made.new.frames } }
    {
        match message {
            Message::Prepare { slot, .. }
            | Message::Accept { slot, .. }
            | Message::Accepted { slot, .. } => self.ask_above(from, *slot, made),
            Message::Promise { .. }
            | Message::Refuse { .. }
            | Message::Chosen { .. }
            | Message::Ask { .. }
            | Message::Forward { .. } => return,
        }
    }

    /// Asks a node for what was chosen from the front on, where that is below a slot.
    fn ask_above(&self, from: u8, slot: u32, made: &mut Made)
        requires slot { IsSlot slot }
        requires space { HasSpace made.old.frames 1 MOST_SINGLE_FRAME }
        ensures taken { TakesBeside (asking_above from slot) self.now (told_by made.old) (told_by made.new) }
        ensures frames { Grows made.old.frames made.new.frames 1 MOST_SINGLE_FRAME }
        ensures rest { made.new ≡ record made.old { frames = made.new.frames } }
    {
        let front = self.front();
        if front < slot {
            send_ask(&mut made.frames, from, front);
        }
    }

    /// Asks a node for more where the front came from a slot to a multiple of 64 at which there is a slot.
    pub(crate) fn ask_on(&self, from: u8, before: u32, made: &mut Made)
        requires space { HasSpace made.old.frames 1 MOST_SINGLE_FRAME }
        ensures taken { TakesBeside (asking_on from before) self.now (told_by made.old) (told_by made.new) }
        ensures frames { Grows made.old.frames made.new.frames 1 MOST_SINGLE_FRAME }
        ensures rest { made.new ≡ record made.old { frames = made.new.frames } }
    {
        let front = self.front();
        if before < front && front % WINDOW as u32 == 0 && front < SLOTS {
            send_ask(&mut made.frames, from, front);
        }
    }

    /// Tells a node what was chosen at the slots that it asks for: 64 at most.
    pub(crate) fn tell_chosen(&self, from: u8, slot: u32, made: &mut Made)
        requires slot { IsSlot slot }
        requires commands { AreInRange self.now.learner.learned.log }
        requires space { HasSpace made.old.frames FRAMES_OF_AN_ANSWER FRAME_BYTES_OF_AN_ANSWER }
        ensures taken { TakesBeside (telling from slot) self.now (told_by made.old) (told_by made.new) }
        ensures frames { Grows made.old.frames made.new.frames FRAMES_OF_AN_ANSWER FRAME_BYTES_OF_AN_ANSWER }
        ensures rest { made.new ≡ record made.old { frames = made.new.frames } }
    {
        let slots = told_slots(self.learner.log(), slot);
        send_chosen(&mut made.frames, from, self.learner.log(), slot, slots);
    }
}
