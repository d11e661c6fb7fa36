ghost use Rattle.std.specs.Prelude.{◌≡◌};
ghost use Rattle.relay_runs.specs.Ending.{status_of};

/// Why a relay ends.
#[derive(Clone, Copy, Debug, PartialEq, Eq)]
pub enum RelayEnd {
    /// The match is over, and the bot has all lines up to its last.
    Over,
    /// Each node that is reached has had another match for ten seconds.
    OtherMatch,
    /// The bot ended its connection.
    BotLeft,
    /// The bot named no version 2.0 of the protocol.
    WrongVersion,
    /// No node was reached for as long as it was to wait.
    NotReached,
    /// Memory was refused.
    OutOfMemory,
}

impl RelayEnd {
    /// The exit status of the relay's process: 0 where the match is over, and else 1.
    pub fn status(self) -> u8
        ensures { result ≡ status_of self }
    {
        match self {
            RelayEnd::Over => 0,
            RelayEnd::OtherMatch
            | RelayEnd::BotLeft
            | RelayEnd::WrongVersion
            | RelayEnd::NotReached
            | RelayEnd::OutOfMemory => 1,
        }
    }

    /// What the relay's last note says.
    pub fn text(self) -> &'static str {
        match self {
            RelayEnd::Over => "the match is over",
            RelayEnd::OtherMatch =>
                "the nodes have another match: the bot's last line isn't theirs",
            RelayEnd::BotLeft => "the bot ended its connection",
            RelayEnd::WrongVersion => "the bot's first line isn't VERSION:2.0.0",
            RelayEnd::NotReached => "no node was reached",
            RelayEnd::OutOfMemory => "92 OutOfMemory",
        }
    }
}
