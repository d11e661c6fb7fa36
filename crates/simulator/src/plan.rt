//! What a script says: a match, and what happens when.

ghost use Rattle.std.specs.Prelude.{◌≡◌, ◌<◌, length};

use dealer_kind::{Config, Source};
use match_log::{Name, SeatNames};
use node_links::Settings;
use node_seats::TokenDigest;
use sha2::{Digest, Sha256};
use std::alloc::{AllocError, Global};

/// The match's name, in the headers of logs.
const NAME: &[u8] = b"m1";

/// How long seats are waited for at the start, where nothing is said.
const START: u64 = 600_000_000;

/// A match.
#[derive(Drop)]
pub struct Plan {
    pub nodes: u8,
    pub hands: u32,
    /// The seed of node 0's deals; each further node has the next.
    pub seed: u64,
    /// How long a seat may hold the table.
    pub patience: Option<u64>,
    /// The nodes share a key.
    pub has_key: bool,
    /// Seats have tokens.
    pub has_tokens: bool,
    /// How long seats are waited for that haven't come yet.
    pub start: u64,
    /// A seat at which nobody is isn't given up.
    pub waits: bool,
    /// The node whose match file says other settings than those of the others, if one does.
    pub differs: Option<u8>,
    /// The path of the game's file, and what it has.
    pub game_word: Vec<u8>,
    pub game: Vec<u8>,
    pub names: Vec<u8>,
}

impl Plan {
    /// The match of a line `match NODES HANDS SEED PATIENCE KEY GAME NAMES`, perhaps with `TOKENS START AWAY DIFFERS` behind it, of which
    /// TOKENS may be `tokens`, AWAY `waits` and DIFFERS a node, without the game; none where it says none.
    pub fn read(alloc: Global, line: &str) -> Result<Option<Plan>, AllocError> {
        let mut words = line.split(' ');
        let (Some("match"), Some(nodes), Some(hands), Some(seed)) = (
            words.next(),
            words.next(),
            words.next(),
            words.next(),
        ) else {
            return Ok(None);
        };
        let (Some(patience), Some(key), Some(game), Some(names)) = (
            words.next(),
            words.next(),
            words.next(),
            words.next(),
        ) else {
            return Ok(None);
        };
        let (Ok(nodes), Ok(hands), Ok(seed)) = (
            nodes.parse::<u8>(),
            hands.parse::<u32>(),
            seed.parse::<u64>(),
        ) else {
            return Ok(None);
        };
        Ok(Some(Plan {
            nodes,
            hands,
            seed,
            patience: patience.parse::<u64>().ok(),
            has_key: key == "key",
            has_tokens: matches!(words.next(), Some("tokens")),
            start: number_of(words.next()).unwrap_or(START),
            waits: matches!(words.next(), Some("waits")),
            differs: byte_of(words.next()),
            game_word: Vec::from_slice(alloc, game.as_bytes())?,
            game: Vec::new(alloc),
            names: Vec::from_slice(alloc, names.as_bytes())?,
        }))
    }

    /// The digit of which the token of a seat is made.
    pub(crate) fn token_digit(seat: u8) -> u8 {
        b'0' + seat % 10
    }

    /// The digests of the tokens of so many seats, if they have tokens.
    pub(crate) fn tokens(
        &self,
        alloc: Global,
        seats: u8,
    ) -> Result<Option<Vec<TokenDigest>>, AllocError> {
        if !self.has_tokens {
            return Ok(None);
        }
        let mut tokens = Vec::new(alloc);
        for seat in 0..seats {
            let bytes = Sha256::digest(&[Plan::token_digit(seat); 64]);
            tokens.push(TokenDigest { bytes })?;
        }
        Ok(Some(tokens))
    }

    /// What the match file of a node says beside the match.
    pub(crate) fn settings(&self, node: u8) -> Settings {
        let differs = self.differs == Some(node);
        let more = differs as u32;
        Settings {
            patience: milliseconds(self.patience.unwrap_or(0)).saturating_add(more),
            start: milliseconds(self.start).saturating_add(more),
            away: (self.waits != differs) as u32,
            tokens: [differs as u8; 8],
        }
    }

    /// The match as nodes know it; none where it isn't within limits.
    pub(crate) fn config(&self, alloc: Global) -> Result<Option<Config>, AllocError> {
        let mut sources = Vec::new(alloc);
        for node in 0..self.nodes as u64 {
            sources.push(Source::Seed(self.seed.wrapping_add(node)))?;
        }
        let word = Vec::from_slice(alloc, &self.game_word)?;
        Ok(self.configured(word, sources))
    }

    /// The same, with the log's word for the game and the sources of deals.
    fn configured(&self, word: Vec<u8>, sources: Vec<Source>) -> Option<Config> {
        let game = game_def::read(&self.game).ok()?;
        let name = Name::new(NAME)?;
        let names = SeatNames::read(&self.names, game.players())?;
        Config::new(game, name, word, names, self.hands, sources)
    }
}

/// The number of a word; none where it is none.
fn number_of(word: Option<&str>) -> Option<u64> {
    match word?.parse::<u64>() {
        Ok(number) => Some(number),
        Err(_) => None,
    }
}

/// The same where it fits into a byte.
fn byte_of(word: Option<&str>) -> Option<u8> {
    match word?.parse::<u8>() {
        Ok(number) => Some(number),
        Err(_) => None,
    }
}

/// A time in microseconds as whole milliseconds.
fn milliseconds(time: u64) -> u32 {
    (time / 1_000).min(u32::MAX as u64) as u32
}
