/// A call that changed a file in memory, or what a crash may leave of it.
#[derive(Drop)]
pub enum Call {
    /// These bytes were to be written at an offset. Where that failed, no read gives them.
    Wrote {
        at: usize,
        bytes: Vec<u8>,
        done: bool,
    },
    /// A sync succeeded.
    Synced,
    /// The machine stopped, with this pick, and came back.
    Stopped {
        pick: u64,
    },
}
