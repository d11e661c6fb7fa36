//! What a node's process reaches outside of itself: its peers, its seats, its log, and the clock.

ghost use Rattle.std.specs.Prelude.{◌≡◌, ◌≤◌, ◌<◌, List, ◌∷◌, [], ◌++◌, length, take, IsTrue, true, false, IfOk, IfErr, IfSome, IsNone, OnOk, OnErr};
ghost use Rattle.node_wires.specs.Passages.{Passage, Began, Came, Wrote, Gave, Logged, Closed, Saw, Waited, Called, halted_as, latest_in, AreInOrder};
ghost use Rattle.node_wires.specs.declared.line.Line.TheVariants.{Peer, Caller, Seat, Guest, Asker};
ghost use Rattle.node_wires.specs.declared.way.Way.TheVariants.{Reading, Writing};

use crate::halt::Halt;
use crate::line::Line;
use std::net::IpAddr;

/// Why a call of a wire did nothing.
#[derive(Clone, Copy, Debug, PartialEq, Eq)]
pub enum WireFault {
    /// It failed.
    Failed,
    /// Memory was refused.
    OutOfMemory,
}

/// The wires of a node's process: a line to each peer that it dials, a line of each place where one who dialled it stands,
/// a line to the bot of each seat, a line of each place where a guest of a seat stands or one who asks for the node's
/// status, and its log. Nodes, places and seats are counted from 0.
///
/// No call waits but `wait`. Nothing is said of what comes, nor when: what is promised of a node holds whatever its wires
/// answer. What passed is said: which connections began, which were found to have ended or were closed by `close`, the pieces
/// that came and that were written, which reads and writes did nothing, what the log got, which moments were seen, which waits
/// there were, and when the node was called. Another call that does nothing adds nothing to it.
pub trait Wire {
    /// What passed so far, in order.
    ghost passed: { Self → List Passage };

    /// The present moment, in whole microseconds since one that stays the same as long as the process lives. None is below one
    /// that was seen before.
    fn now(&mut self) -> u64
        ensures saw { passed self.new ≡ passed self.old ++ Saw result ∷ [] }
        ensures later { latest_in (passed self.old) ≤ result };

    /// Waits until something may have come, or be written where there was no room, for so many microseconds at most.
    fn wait(&mut self, most: u64)
        ensures { passed self.new ≡ passed self.old ++ Waited most ∷ [] };

    /// The node was called: that is put down, and nothing else is done.
    fn called(&mut self)
        ensures { passed self.new ≡ passed self.old ++ Called ∷ [] };

    /// Bytes that the system drew, for a number that is used once; none where it gives none.
    fn draw(&mut self) -> Option<[u8; 32]>
        ensures { passed self.new ≡ passed self.old };

    /// The address at the other end of a line's connection, where it is known.
    fn source(&mut self, line: Line) -> Option<IpAddr>
        ensures { passed self.new ≡ passed self.old };

    /// Begins a connection to a peer, in place of the one that its line has. Whether it is answered shows by a later read or
    /// write. By a number that is greater by `NODES` a second one to it is begun, beside that; wires that have one line to each
    /// peer alone fail then.
    fn dial(&mut self, peer: u8) -> Result<(), WireFault>
        ensures began { OnOk result (passed self.new ≡ passed self.old ++ Began (Peer peer) ∷ []) }
        ensures failed { OnErr result (passed self.new ≡ passed self.old) };

    /// Takes in the next one who dialled this node and for whom there is a place, if there is one, and answers his place.
    /// Those for whom there is none are turned away, and who is behind many of them may wait for a later call. One who stands there
    /// and isn't known (`know`) may be let go of for him.
    fn accept(&mut self) -> Option<u8>
        ensures began { IfSome result (λ place. passed self.new ≡ passed self.old ++ Began (Caller place) ∷ []) }
        ensures none { IsNone result → passed self.new ≡ passed self.old };

    /// How many who dialled were turned away so far: closed at once, since there was no place for them. Wires that turn nobody
    /// away say 0.
    fn turned_away(&self) -> u64 {
        0
    }

    /// Takes in the next one who came to a seat's port, in place of the one that its line has; false where there is none.
    fn accept_seat(&mut self, seat: u8) -> bool
        ensures began { result ≡ true → passed self.new ≡ passed self.old ++ Began (Seat seat) ∷ [] }
        ensures none { result ≡ false → passed self.new ≡ passed self.old };

    /// Takes in the next one who came to a seat's port as a guest, if there is one and a place for him, and answers his
    /// place. One who stands there may be let go of for him.
    fn accept_guest(&mut self, seat: u8) -> Option<u8>
        ensures began { IfSome result (λ place. passed self.new ≡ passed self.old ++ Began (Guest place) ∷ []) }
        ensures none { IsNone result → passed self.new ≡ passed self.old };

    /// Gives the connection of the guest at a place to a seat's line, in place of the one that that has; the guest's line
    /// has none any more. False where there is no such guest or it failed: then all is as it was.
    fn seat_guest(&mut self, place: u8, seat: u8) -> bool
        ensures gave { result ≡ true → passed self.new ≡ passed self.old ++ Gave place seat ∷ [] }
        ensures none { result ≡ false → passed self.new ≡ passed self.old };

    /// Takes in the next one who came to the status port, if there is one and a place for him, and answers his place. One
    /// who stands there may be let go of for him.
    fn accept_asker(&mut self) -> Option<u8>
        ensures began { IfSome result (λ place. passed self.new ≡ passed self.old ++ Began (Asker place) ∷ []) }
        ensures none { IsNone result → passed self.new ≡ passed self.old };

    /// Reads the next piece that came over a line, no more than the buffer holds, and answers how many bytes it has: 0 where it
    /// holds none, whatever became of the connection.
    fn read(&mut self, line: Line, piece: &mut [u8]) -> Result<usize, Halt>
        ensures within { IfOk result (λ count. count ≤ length piece.new) }
        ensures came { IfOk result (λ count. passed self.new ≡ passed self.old ++ Came line (take count piece.new) ∷ []) }
        ensures halted { IfErr result (λ halt. passed self.new ≡ passed self.old ++ halted_as Reading line halt ∷ []) }
        ensures room { OnErr result (0 < length piece.new) };

    /// Writes to a line as many of these bytes as there is room for, and answers how many.
    fn write(&mut self, line: Line, bytes: &[u8]) -> Result<usize, Halt>
        ensures within { IfOk result (λ count. count ≤ length bytes.now) }
        ensures wrote { IfOk result (λ count. passed self.new ≡ passed self.old ++ Wrote line (take count bytes.now) ∷ []) }
        ensures halted { IfErr result (λ halt. passed self.new ≡ passed self.old ++ halted_as Writing line halt ∷ []) };

    /// Sends what was written and not sent yet: a wire may gather what is written to one line, so that it is sent by one call.
    /// A write to another line and `wait` do so too. What of it there is no room for is sent by a later one.
    fn flush(&mut self)
        ensures { passed self.new ≡ passed self.old };

    /// It is known who has the connection of a line: of those of whom it isn't, each address has only a few.
    fn know(&mut self, line: Line)
        ensures { passed self.new ≡ passed self.old };

    /// Closes the connection that a line has, if it has one; what was written is sent.
    fn close(&mut self, line: Line)
        ensures { passed self.new ≡ passed self.old ++ Closed line ∷ [] };

    /// Puts text behind what the log has, and has it in the file when it answers.
    fn add_to_log(&mut self, text: &[u8]) -> Result<(), WireFault>
        ensures logged { OnOk result (passed self.new ≡ passed self.old ++ Logged text.now ∷ []) }
        ensures failed { OnErr result (passed self.new ≡ passed self.old) };

    /// Of all moments that were seen none is below the one before.
    ghost in_order: { (wire : Self) → AreInOrder (passed wire) };
}
