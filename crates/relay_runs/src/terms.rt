use game_def::GameDef;

/// What a relay goes by.
#[derive(Drop)]
pub struct Terms {
    /// How many nodes there are; node n is dialled as peer n.
    pub nodes: u8,
    /// What stands behind `#TOKEN ` in the line by which the seat's token is shown, where the seats have tokens.
    pub token: Option<Vec<u8>>,
    /// The game of the match, where wrong actions are mended.
    pub mended: Option<GameDef>,
    /// Whether the first bot's lines may begin with the newest, and not with the first deal alone. Those of further bots do.
    pub newest: bool,
    /// Whether a further bot is awaited where one has left.
    pub stays: bool,
    /// For how many microseconds no node need be reached before the relay gives up.
    pub give_up: u64,
    /// Whether the lines to and from the bot are traced.
    pub traces: bool,
    /// How many microseconds after the beginning of 1970 the wires' moment 0 was: the trace counts from there.
    pub epoch: u64,
}
