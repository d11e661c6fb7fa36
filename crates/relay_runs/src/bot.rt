//! What is counted of a bot.

/// How many lines of a bot were passed over.
#[derive(Clone, Copy, Drop)]
pub(crate) struct Bot {
    /// How many of its lines were no answers to the line that it was given last.
    pub(crate) unfit: u64,
    /// How many of its lines were too long.
    pub(crate) too_long: u64,
}

impl Bot {
    /// Nothing was passed over yet.
    pub(crate) fn new() -> Bot {
        Bot {
            unfit: 0,
            too_long: 0,
        }
    }
}
