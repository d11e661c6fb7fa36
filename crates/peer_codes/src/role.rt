ghost use Rattle.std.specs.Prelude.{◌≡◌};
ghost use Rattle.peer_codes.specs.Codes.{role_byte};

/// The two sides of a connection.
#[derive(Clone, Copy, Debug, PartialEq, Eq)]
pub enum Role {
    /// The side that dialled.
    Caller = 0,
    /// The side that was dialled.
    Called = 1,
}

impl Role {
    /// The byte that tells it in a proof and in the key of a way.
    pub(crate) fn byte(self) -> u8
        ensures { result ≡ role_byte self }
    {
        self as u8
    }
}
