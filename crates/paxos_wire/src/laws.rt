//! Laws of frames.

ghost use Rattle.std.specs.Prelude.{◌≡◌, ◌≤◌, List, ℕ, ◌++◌, length, Ok};
ghost use Rattle.slot_log.specs.declared.command.Command.{Command};
ghost use Rattle.paxos_wire.specs.declared.ballot.Ballot.{Ballot};
ghost use Rattle.paxos_wire.specs.declared.message.Message.{Message};
ghost use Rattle.paxos_wire.specs.declared.message.Message.TheVariants.{Accept, Accepted};
ghost use Rattle.paxos_wire.specs.Fits.{IsMessage, IsSingle, IsOld, HasCommands, most_bytes};
ghost use Rattle.paxos_wire.specs.Spelling.{frame, old_frame, IsText};
ghost use Rattle.paxos_wire.specs.Faults.{reading};

use crate::limits::{MOST_FRAME, MOST_RUN_FRAME, MOST_SINGLE_FRAME};

/// What is encoded decodes to the message: reading a message's frame gives that message.
pub fn frames_read_back()
    ensures { (m : Message) → IsMessage m → reading (frame m) ≡ Ok m }
{}

/// What was encoded in the old version decodes to the message too.
pub fn old_frames_read_back()
    ensures { (m : Message) → IsMessage m → IsOld m → reading (old_frame m) ≡ Ok m }
{}

/// No frame begins another one, of either version, so the frames of a stream are told apart.
pub fn frames_are_told_apart()
    ensures { (m n : Message) (x y a b : List ℕ) → IsMessage m → IsMessage n → IsText m x → IsText n y → x ++ a ≡ y ++ b → (m ≡ n) × (a ≡ b) }
{}

/// What is read of an Accept or an Accepted has 1 to 64 commands.
pub fn readings_have_commands()
    ensures { (bytes : List ℕ) (m : Message) → reading bytes ≡ Ok m → HasCommands m }
{}

/// A frame takes 2576 bytes at most, and 47 where it is of one command or none: so much room is enough for it. That of an
/// Accept or an Accepted takes 31 at most for each of its commands, and 16 more, so 2000 at most.
pub fn frames_are_short()
    ensures each { (m : Message) → IsMessage m → length (frame m) ≤ MOST_FRAME }
    ensures single { (m : Message) → IsMessage m → IsSingle m → length (frame m) ≤ MOST_SINGLE_FRAME }
    ensures kind { (m : Message) → IsMessage m → length (frame m) ≤ most_bytes m }
    ensures runs { (ballot : Ballot) (slot : ℕ) (commands : List Command) → IsMessage (Accept ballot slot commands)
        → (length (frame (Accept ballot slot commands)) ≤ MOST_RUN_FRAME) × (length (frame (Accepted ballot slot commands)) ≤ MOST_RUN_FRAME) }
{}
