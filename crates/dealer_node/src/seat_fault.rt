use seat_session::SessionFault;

/// What is wrong with what a seat sent.
#[derive(Clone, Copy, Debug, PartialEq, Eq)]
pub struct SeatFault {
    /// Counted from 0.
    pub seat: usize,
    /// 80 to 85.
    pub fault: SessionFault,
}
