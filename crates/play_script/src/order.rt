/// What a line of a script says. Nodes, seats and frames are counted from 0.
#[derive(Clone, Copy, Debug, PartialEq, Eq)]
pub enum Order<'a> {
    /// `tick I`: the node ticks.
    Tick {
        node: usize,
    },
    /// `away I`: it is ordered at the node that the player to act is played for.
    Away {
        node: usize,
    },
    /// `deliver K`: the frame is delivered, again if it was before.
    Deliver {
        frame: u64,
    },
    /// `flush N`: at most so many times the first frame that was never delivered is.
    Flush {
        most: u64,
    },
    /// `connect I S`: the seat gets a new session at the node.
    Connect {
        node: usize,
        seat: usize,
    },
    /// `drop I S`: the seat's session at the node ends.
    Drop {
        node: usize,
        seat: usize,
    },
    /// `line I S TEXT`: the seat sends the text and CR LF to the node.
    Line {
        node: usize,
        seat: usize,
        text: &'a [u8],
    },
    /// `stop I PICK`: the node stops, and its disk keeps what the pick says.
    Stop {
        node: usize,
        pick: u64,
    },
    /// `start I`: the node starts.
    Start {
        node: usize,
    },
}
