/// Which way bytes were to go over a line.
#[derive(Clone, Copy, Debug, PartialEq, Eq)]
pub enum Way {
    /// To this process.
    Reading,
    /// From it.
    Writing,
}
