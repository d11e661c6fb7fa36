/// Whether something is due now: a tick, or an order that the seat to act is played for.
#[derive(Clone, Copy, Debug, PartialEq, Eq)]
pub enum Due {
    /// It is.
    Now,
    /// It isn't. It is asked again at this moment, whenever something came or a connection opened or ended, and with each
    /// beat.
    Nothing { until: u64 },
}
