/// A run found no memory: 92.
#[derive(Clone, Copy, Debug)]
pub struct Stopped {
    /// The number of the event that found none, counted from 0; it and those behind it changed nothing.
    pub at: usize,
}
