ghost use Rattle.std.specs.Prelude.{◌≡◌, ◌+◌, ◌++◌, map, option_map};
ghost use Rattle.paxos_wire.specs.Fits.{Fits, IsBallot, IsSlot, AreEntries};
ghost use Rattle.paxos_wire.specs.declared.limits.TheConstants.{MOST_FRAME, MOST_SINGLE_FRAME};
ghost use Rattle.paxos_wire.specs.declared.message.Message.TheVariants.{Promise as Promising, Refuse as Refusing};
ghost use Rattle.node_rules.specs.Sending.{one};
ghost use Rattle.dealer_node.specs.Rooms.{HasSpace, Grows};
ghost use Rattle.dealer_node.specs.Turned.{framed};
ghost use Rattle.dealer_node.specs.Answering.{message_of, is_promise, accepted_in};
ghost use Rattle.dealer_node.specs.Fitting.{AreMessages};

use crate::sending::send;
use crate::texts::Texts;
use acceptor::{PrepareAnswer, RunAnswer};
use paxos_wire::{Ballot, Entries, Message, ToldEntries, frame_len};
use slot_log::Command;

/// Sends a node the promise of a ballot, with what was accepted at the slots from one on.
pub(crate) fn send_promise(
    frames: &mut Texts<u8>,
    to: u8,
    ballot: Ballot,
    slot: u32,
    entries: &Entries,
)
    requires ballot { IsBallot ballot }
    requires slot { IsSlot slot }
    requires entries { AreEntries slot entries.now }
    requires space { HasSpace frames.old 1 MOST_FRAME }
    ensures texts { frames.new.texts ≡ frames.old.texts ++ map framed (one to (Promising ballot slot entries.now)) }
    ensures grows { Grows frames.old frames.new 1 MOST_FRAME }
    ensures fits { AreMessages (one to (Promising ballot slot entries.now)) }
{
    let message = Message::Promise {
        ballot,
        slot,
        entries: ToldEntries::new(entries),
    };
    let _len = frame_len(&message);
    send(frames, to, &message);
}

/// Sends a node the refusal of a ballot, with the one that was promised.
pub(crate) fn send_refusal(
    frames: &mut Texts<u8>,
    to: u8,
    ballot: Ballot,
    slot: u32,
    promised: Ballot,
)
    requires ballot { IsBallot ballot }
    requires slot { IsSlot slot }
    requires promised { IsBallot promised }
    requires space { HasSpace frames.old 1 MOST_SINGLE_FRAME }
    ensures texts { frames.new.texts ≡ frames.old.texts ++ map framed (one to (Refusing ballot slot promised)) }
    ensures grows { Grows frames.old frames.new 1 MOST_SINGLE_FRAME }
    ensures fits { AreMessages (one to (Refusing ballot slot promised)) }
{
    let message = Message::Refuse {
        ballot,
        slot,
        promised,
    };
    let _len = frame_len(&message);
    send(frames, to, &message);
}

/// Sends a node what the acceptor answers its Prepare with, and tells whether that is a promise.
pub(crate) fn send_prepare_answer(frames: &mut Texts<u8>, to: u8, answer: &PrepareAnswer) -> bool
    requires fits { Fits (message_of answer.now) }
    requires space { HasSpace frames.old 1 MOST_FRAME }
    ensures promised { result ≡ is_promise answer.now }
    ensures texts { frames.new.texts ≡ frames.old.texts ++ map framed (one to (message_of answer.now)) }
    ensures grows { Grows frames.old frames.new 1 MOST_FRAME }
    ensures fits { AreMessages (one to (message_of answer.now)) }
{
    match answer {
        PrepareAnswer::Promise {
            ballot,
            slot,
            entries,
        } => {
            send_promise(frames, to, *ballot, *slot, entries);
            true
        }
        PrepareAnswer::Refuse {
            ballot,
            slot,
            promised,
        } => {
            send_refusal(frames, to, *ballot, *slot, *promised);
            false
        }
    }
}

/// The commands that the acceptor accepted; none where it refuses.
pub(crate) fn accepted_commands<'a>(answer: &RunAnswer<'a>) -> Option<&'a [Command]>
    ensures { option_map (λ commands. commands.now) result ≡ accepted_in answer.now }
{
    match answer {
        RunAnswer::Accepted { commands, .. } => Some(commands.as_slice()),
        RunAnswer::Refuse { .. } => None,
    }
}
