//! What a server reaches outside of its nodes: seats, the connections between nodes, and logs.

ghost use Rattle.std.specs.Prelude.{◌≡◌, ◌≤◌, List, [], ◌∷◌, ◌++◌, length, take, IfOk, OnOk, OnErr};
ghost use Rattle.match_links.specs.Passages.{Passage, Told, Emptied, Logged, sat, came};
ghost use Rattle.match_links.specs.declared.links.LinkFault.TheVariants.{OutOfMemory};

use std::alloc::AllocError;

/// Why a call of a link did nothing.
#[derive(Clone, Copy, Debug, PartialEq, Eq)]
pub enum LinkFault {
    /// The link failed.
    Failed,
    /// Nothing came while it was waited for, and nothing was taken: the same call may be made again. `accept` and `read`
    /// alone answer so; of any other call it is as `Failed`.
    Slow,
    /// Memory was refused before anything was taken from the link: the same call may be made again.
    OutOfMemory,
}

impl From<AllocError> for LinkFault {
    ghost from_gives = { λ _ answer. answer ≡ OutOfMemory };

    fn from(_: AllocError) -> LinkFault {
        LinkFault::OutOfMemory
    }
}

/// The links of a match: the connections of seats to nodes, one for each ordered pair of nodes, and a log for each
/// node. Nodes and seats are counted from 0.
///
/// Any call may fail, and nothing is said of what a link gives: what is promised of a server holds whatever its links
/// answer. What passed is said: who was seated, the pieces that came, the lines that seats were told, and what logs were given. A call
/// that fails adds nothing to it.
pub trait Links {
    /// What passed so far, in order.
    ghost passed: { Self → List Passage };

    /// Makes the room that the links want in memory to tell seats so many lines more, of at most 4,096 bytes each, to put
    /// so many bytes more of text into each log, and to carry one frame. It is called before anything of an event is taken
    /// or given. By an `Err` nothing has changed but room, and the same call may be made again.
    fn reserve(&mut self, lines: usize, text: usize) -> Result<(), AllocError>
        ensures { passed self.new ≡ passed self.old };

    /// Waits for a connection of a seat at a node, which has sent something; slow where none comes in the time that a wait
    /// takes at most. Those that ended before they sent anything are passed over.
    ///
    /// It may want memory, for what the seat will send: then the connection waits on.
    fn accept(&mut self, node: u8, seat: u8) -> Result<(), LinkFault>
        ensures sat { OnOk result (passed self.new ≡ passed self.old ++ sat node seat ∷ []) }
        ensures failed { OnErr result (passed self.new ≡ passed self.old) };

    /// Waits for the next piece of what a seat sent, up to and with its first line feed, and no more than the buffer
    /// holds; at the connection's end what is left, and then nothing. The answer is how many bytes it has. Slow where it
    /// isn't there in the time that a wait takes at most; what came of it is kept.
    fn read(&mut self, node: u8, seat: u8, piece: &mut [u8]) -> Result<usize, LinkFault>
        ensures within { IfOk result (λ count. count ≤ length piece.new) }
        ensures came { IfOk result (λ count. passed self.new ≡ passed self.old ++ came node seat (take count piece.new)) }
        ensures failed { OnErr result (passed self.new ≡ passed self.old) };

    /// Sends a line to a seat, with CR LF behind it.
    fn write(&mut self, node: u8, seat: u8, line: &[u8]) -> Result<(), LinkFault>
        ensures told { OnOk result (passed self.new ≡ passed self.old ++ Told node seat line.now ∷ []) }
        ensures failed { OnErr result (passed self.new ≡ passed self.old) };

    /// Turns away, from now on and to the end, whoever comes for a seat: in each wait, of an accept and of a read, at every
    /// node that runs.
    fn turn_away(&mut self, seat: u8)
        ensures { passed self.new ≡ passed self.old };

    /// Closes the connection of a seat to a node.
    fn hang_up(&mut self, node: u8, seat: u8)
        ensures { passed self.new ≡ passed self.old };

    /// Writes a frame to the connection of two nodes.
    fn send(&mut self, from: u8, to: u8, frame: &[u8]) -> Result<(), LinkFault>
        ensures { passed self.new ≡ passed self.old };

    /// Fills the buffer from the other end of the connection of two nodes.
    fn receive(&mut self, from: u8, to: u8, frame: &mut [u8]) -> Result<(), LinkFault>
        ensures { passed self.new ≡ passed self.old };

    /// Empties the log of a node.
    fn empty_log(&mut self, node: u8) -> Result<(), LinkFault>
        ensures emptied { OnOk result (passed self.new ≡ passed self.old ++ Emptied node ∷ []) }
        ensures failed { OnErr result (passed self.new ≡ passed self.old) };

    /// Puts text behind what the log of a node has, and has it in the file when it answers.
    fn add_to_log(&mut self, node: u8, text: &[u8]) -> Result<(), LinkFault>
        ensures logged { OnOk result (passed self.new ≡ passed self.old ++ Logged node text.now ∷ []) }
        ensures failed { OnErr result (passed self.new ≡ passed self.old) };

    /// Opens the seats' ports of a node that is to start.
    fn open(&mut self, node: u8) -> Result<(), LinkFault>
        ensures { passed self.new ≡ passed self.old };

    /// Takes leave of the seats of a node behind their last lines: each may read to the end what it was told, and what it
    /// still sends is dropped.
    fn part(&mut self, node: u8)
        ensures { passed self.new ≡ passed self.old };

    /// Closes the seats' ports of a node, and the connections to it.
    fn close_node(&mut self, node: u8)
        ensures { passed self.new ≡ passed self.old };
}
