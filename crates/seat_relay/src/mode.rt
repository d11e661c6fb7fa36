//! How a relay serves its bot.

/// How a relay serves its bot.
#[derive(Clone, Copy)]
pub struct Mode {
    /// Whether the bot's lines may begin anywhere in the match, and not with the first deal alone.
    pub newest: bool,
    /// Whether the bot's first answer to a line stands: a further one to that line is passed over.
    pub first_stands: bool,
}
