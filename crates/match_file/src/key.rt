ghost use Rattle.std.specs.Prelude.{◌≡◌};
ghost use Rattle.match_file.specs.Keys.{key_text};

/// A key of a match file. They are tested in this order.
#[derive(Clone, Copy, Debug, PartialEq, Eq)]
pub enum Key {
    /// The name of the match.
    Name,
    /// The name of the game's file.
    Game,
    /// The number of hands.
    Hands,
    /// The seats' names.
    Names,
    /// The nodes, each with the source of its deals.
    Node,
    /// The folder of the nodes' stores.
    Stores,
    /// The folder of the nodes' logs.
    Logs,
    /// The first of the ports.
    Port,
    /// When nodes are out.
    Outage,
    /// What is done about seats that were dropped.
    Away,
    /// The file of the key that the nodes of a match share.
    KeyFile,
    /// Where a node awaits the others, in its table.
    Peers,
    /// Where a node awaits the bots of seats, in its table.
    Seats,
    /// Where a node awaits who asks how it is, in its table.
    Status,
    /// From which addresses a node dials, in its table.
    From,
    /// The digests of the seats' tokens.
    Tokens,
    /// How long a seat that doesn't act is waited for.
    Patience,
    /// How long seats are waited for that haven't come yet.
    Start,
}

impl Key {
    /// The key as it stands in the file.
    pub fn text(self) -> &'static str
        ensures { result.now ≡ key_text self }
    {
        match self {
            Key::Name => "name",
            Key::Game => "game",
            Key::Hands => "hands",
            Key::Names => "names",
            Key::Node => "node",
            Key::Stores => "stores",
            Key::Logs => "logs",
            Key::Port => "port",
            Key::Outage => "outage",
            Key::Away => "away",
            Key::KeyFile => "key",
            Key::Peers => "peers",
            Key::Seats => "seats",
            Key::Status => "status",
            Key::From => "from",
            Key::Tokens => "tokens",
            Key::Patience => "patience",
            Key::Start => "start",
        }
    }
}
