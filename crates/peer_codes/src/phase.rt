use crate::connection_fault::ConnectionFault;
use crate::hello::Hello;
use crate::records::Proof;
use crate::way::Way;

/// Both ways of a connection, as one side has them.
#[derive(Drop)]
pub struct Ways {
    /// The way on which the other speaks.
    pub reading: Way,
    /// The way on which this side speaks.
    pub writing: Way,
}

/// How far a connection is.
#[derive(Drop)]
pub enum Phase {
    /// Waits for the other's Hello. The caller has an own one already, the called has none yet.
    Greeting(Option<Hello>),
    /// The called knows who calls, and has to answer with its own Hello.
    Asked(Hello),
    /// The called got no Hello of a connection with codes, which closes it by 122. It may still answer with its own Hello,
    /// so that the caller sees why.
    Refused,
    /// Both Hellos are said. Waits for the other's proof, which has to be this one.
    Proving(Proof, Ways),
    /// The other's proof is right; this side's own may still have to be written.
    Open(Ways),
    /// Closed by a fault.
    Closed(ConnectionFault),
}
