use std::net::IpAddr;

/// What a note of a relay is made of.
#[derive(Drop)]
pub enum RelayNotice {
    /// A bot came to the local port, from this address where it is known.
    BotCame { address: Option<IpAddr> },
    /// The bot's connection ended; so many of its lines were passed over as no answers to the line that it was given
    /// last, or further ones, and so many were
    /// longer than a line may be.
    BotGone { unfit: u64, too_long: u64 },
    /// The first line of a node came over its connection.
    Sits { node: u8 },
    /// The connection to a node ended over which lines had come, and not by the relay.
    Lost { node: u8 },
    /// A node began with a line before which lines may be missing: its connection was ended.
    Ahead { node: u8 },
    /// A node said that the match is over.
    Over { node: u8 },
    /// A node said that it has another match's line at the place of the bot's last one.
    OtherMatch { node: u8 },
    /// A node said that it has no quorum: it is dialled again each half second. Noted once until it tells a line.
    NoQuorum { node: u8 },
    /// A node said what is neither a dealer's line nor a comment: its connection was ended.
    NotLine { node: u8 },
    /// A node said a line that is too long: its connection was ended.
    TooLong { node: u8 },
    /// The bot's first line that is no answer to the line that it was given last, or a further one where the first stands: it was
    /// passed over, as all further ones.
    Unfit,
    /// Another action was said for the bot than it said.
    Mended { said: Vec<u8>, instead: Vec<u8> },
    /// No line followed an answer, or the connection ended over which it was said: it was said to this node too.
    SaidAgain { node: u8 },
    /// Connections end as soon as nodes take them: another client has this seat. No node is dialled for so many seconds.
    AnotherClient { seconds: u64 },
    /// Nodes end connections before any line. No node is dialled for so many seconds.
    TurnedAway { seconds: u64 },
    /// So many notices before this one were left out.
    LeftOut { count: u64 },
}
