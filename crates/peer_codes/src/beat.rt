/// How the speaker is, told again and again while a connection is open.
#[derive(Clone, Copy, Debug, PartialEq, Eq)]
pub struct Beat {
    /// The beat's number on this connection.
    pub number: u32,
    /// The number of the last beat that the speaker got; 0 where it got none.
    pub got: u32,
    /// The first slot that the speaker knows nothing chosen of.
    pub front: u32,
    /// Whether the speaker campaigns.
    pub campaigns: bool,
    /// Whether the match is over at the speaker.
    pub over: bool,
    /// The seats that sit at the speaker, a bit each, seat 0 the lowest.
    pub seats: u16,
}
