//! The seeds from which nodes draw their deals: how one is drawn, and which can be guessed.

ghost use Rattle.std.specs.Prelude.{◌≡◌, ◌≤◌, ◌<◌, ◌^◌, ◌++◌, ◌∷◌, [], codes, decimal, IfOk};
ghost use Rattle.match_runs.specs.Seeds.{drawn_seed, is_short, short_seeds};

use dealer_kind::{Config, Source};
use std::alloc::{AllocError, Global};

/// Seeds below this one can be tried one after another, until one deals a hand that was seen.
const LEAST: u64 = 1 << 55;

/// So many are not below it, of those that a match file can have.
const COUNT: u128 = 255 << 55;

/// The seed that random bytes make, 2^55 to 2^63 - 1. Of all bytes that there are, as many make one seed as another, or one
/// in 2^64 more.
pub fn drawn_seed(bytes: [u8; 16]) -> u64
    ensures value { result ≡ drawn_seed bytes }
    ensures least { 2 ^ 55 ≤ result }
    ensures most { result < 2 ^ 63 }
{
    let number = u128::from_le_bytes(bytes) % COUNT;
    LEAST + number as u64
}

/// A seed as it stands in a node's table, on a line.
pub fn seed_line(alloc: Global, seed: u64) -> Result<Vec<u8>, AllocError>
    ensures { IfOk result (λ line. line.items ≡ codes "seed = " ++ decimal seed ++ 10 ∷ []) }
{
    let text = format!(in alloc; "seed = {seed}\n")?;
    Ok(text.into_bytes())
}

/// Whether a source is a seed that can be guessed: one below 2^55.
pub fn is_short(source: &Source) -> bool
    ensures { result ≡ is_short source.now }
{
    match source {
        Source::Seed(seed) => *seed < LEAST,
        Source::Listed(_) => false,
    }
}

/// The nodes of a match whose seeds can be guessed, by number.
pub fn short_seeds(alloc: Global, config: &Config) -> Result<Vec<u8>, AllocError>
    ensures { IfOk result (λ nodes. nodes.items ≡ short_seeds config.now.sources) }
{
    let mut nodes = Vec::new(alloc);
    for node in 0..config.nodes() {
        if is_short(config.source(node)) {
            nodes.push(node as u8)?;
        }
    }
    Ok(nodes)
}
