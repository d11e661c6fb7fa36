use crate::session_fault::SessionFault;

/// What a session waits for.
#[derive(Clone, Copy)]
pub(crate) enum Phase {
    /// The line that names the protocol's version.
    Greeting,
    /// Lines of the game.
    Ready,
    /// Nothing more: this fault closed it.
    Closed(SessionFault),
}
