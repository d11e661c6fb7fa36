//! What a process did over its wires.

/// What a process did, and when.
#[derive(Drop)]
pub struct Act {
    pub moment: u64,
    pub what: What,
}

/// What a process did at a connection, by its number, or with its log.
#[derive(Drop)]
pub enum What {
    /// It dialled this peer.
    Dialled { connection: u32, peer: u8 },
    /// It took in one who came, at this place of its lines.
    Taken { connection: u32, place: usize },
    /// It read these bytes.
    Read { connection: u32, bytes: Vec<u8> },
    /// It wrote these bytes.
    Wrote { connection: u32, bytes: Vec<u8> },
    /// It closed it.
    Closed { connection: u32 },
    /// The log got this text.
    Logged { text: Vec<u8> },
}
