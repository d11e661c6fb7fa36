/// Who reads what a node shows.
#[derive(Clone, Copy, Debug, PartialEq, Eq)]
pub enum Reader {
    /// A seat, counted from 0: it gets a line, without its line end.
    Seat(usize),
    /// The log: it gets whole lines, each with its LF.
    Log,
}
