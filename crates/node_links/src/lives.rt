//! The lives that a node tells of the stores of its match, as a record of a further kind.

ghost use Rattle.std.specs.Prelude.{◌≡◌, ◌≤◌, ◌+◌, length, Err, Ok};
ghost use Rattle.std.specs.List.{list_all};
ghost use Rattle.peer_codes.specs.Fits.{are_zeros};
ghost use Rattle.peer_codes.specs.Reading.{kept_of};
ghost use Rattle.node_links.specs.Lives.{lives_of, life_text, lives_text, lives_more};

use crate::limits::{LIVES, LIVES_BYTES, NODES};
use arrayvec::ArrayVec;
use paxos_wire::push_all;
use peer_codes::limits::LIFE_BYTES;
use peer_codes::{Life, More, RecordFault};

/// The lives that a node tells: its own, those that it keeps, and of other nodes those that it heard of.
#[derive(Clone, Copy, Debug, PartialEq, Eq)]
pub struct Lives {
    /// How many nodes the match has.
    pub nodes: u8,
    /// Of each node, by its number, the life of its store, where one is told.
    pub lives: [Option<Life>; NODES],
}

/// Whether each byte is 0.
fn are_zeros(bytes: &[u8]) -> bool
    ensures { result ≡ are_zeros bytes.now }
{
    bytes.iter().all(|byte| *byte == 0)
}

/// The life with these bytes; none where they are zeros.
fn life_of(bytes: &[u8]) -> Option<Life>
    requires { length bytes.now ≡ LIFE_BYTES }
    ensures { result ≡ kept_of bytes.now }
{
    if are_zeros(bytes) {
        return None;
    }
    let mut life = [0; LIFE_BYTES];
    life.copy_from_slice(bytes);
    Some(Life { bytes: life })
}

/// The bytes of a life; zeros of none.
fn life_bytes(life: Option<Life>) -> [u8; LIFE_BYTES]
    ensures { result ≡ life_text life }
{
    match life {
        Some(life) => life.bytes,
        None => [0; LIFE_BYTES],
    }
}

/// The lives of so many nodes with these bytes, all of them; 120 `BadLength` where there are more or fewer.
pub fn lives_of(nodes: u8, bytes: &[u8]) -> Result<Lives, RecordFault>
    ensures { result ≡ lives_of nodes bytes.now }
{
    let count = nodes as usize;
    if count > NODES || bytes.len() != LIFE_BYTES * count {
        return Err(RecordFault::BadLength);
    }
    let mut lives = [None; NODES];
    for number in 0..count {
        let at = LIFE_BYTES * number;
        lives[number] = life_of(&bytes[at..at + LIFE_BYTES]);
    }
    Ok(Lives { nodes, lives })
}

impl Lives {
    /// Their bytes: of each node of the match a life, or zeros.
    #[tactic(auto, using(crate::proofs::LivesLaws::one_written))]
    fn text(&self) -> ArrayVec<u8, LIVES_BYTES>
        ensures { result.items ≡ lives_text self.now }
    {
        let mut text = ArrayVec::new();
        let count = (self.nodes as usize).min(NODES);
        for number in 0..count {
            push_all(&mut text, &life_bytes(self.lives[number]));
        }
        text
    }

    /// The record that tells them.
    pub(crate) fn more(&self) -> More
        ensures { result ≡ lives_more self.now }
    {
        let text = self.text();
        match More::new(LIVES, text.as_slice()) {
            Some(more) => more,
            None => unreachable!(),
        }
    }
}
