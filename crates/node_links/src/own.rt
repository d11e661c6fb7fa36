ghost use Rattle.std.specs.Prelude.{◌≡◌};
ghost use Rattle.node_links.specs.Knowing.{and_life};

use crate::judging::is_same;
use peer_codes::{Key, Life, MatchDigest};

/// What a process knows of its own node, by which it judges who speaks to it.
#[derive(Clone, Copy)]
pub struct Own {
    /// Its number, counted from 0.
    pub number: u8,
    /// How many nodes its match has.
    pub nodes: u8,
    /// The match that it plays.
    pub digest: MatchDigest,
    /// The life of its store.
    pub life: Life,
    /// The key that the nodes of its match share: with it connections have codes, without it none has.
    pub key: Option<Key>,
}

/// The lives of a node's store that are known.
#[derive(Clone, Copy, Debug, PartialEq, Eq)]
pub enum Known {
    /// None is.
    Nothing,
    /// This one alone.
    One(Life),
    /// Two that differ, or more: the store was lost and made anew.
    Two,
}

/// What a process knows of another node before it reads a Hello of it.
#[derive(Clone, Copy, Debug, PartialEq, Eq)]
pub struct Met {
    /// The lives of its store: the first that was seen, and those that other nodes tell.
    pub lives: Known,
    /// Whether another connection of it is open, and it was heard over that.
    pub is_here: bool,
}

impl Known {
    /// This life is known too, where one is given.
    pub fn and(self, life: Option<Life>) -> Known
        ensures { result ≡ and_life self life }
    {
        let Some(life) = life else {
            return self;
        };
        match self {
            Known::Nothing => Known::One(life),
            Known::One(first) => {
                if is_same(&first.bytes, &life.bytes) {
                    Known::One(first)
                } else {
                    Known::Two
                }
            }
            Known::Two => Known::Two,
        }
    }
}
