use crate::key::Key;
use arrayvec::ArrayVec;
use card_core::limits::PLAYERS;

/// The most values of a key: one for each player.
pub(crate) const MOST_VALUES: usize = PLAYERS;

/// A line that sets a key: its number, counted from 1, and the values.
#[derive(Drop)]
pub(crate) struct Entry {
    pub(crate) key: Key,
    pub(crate) line: usize,
    pub(crate) values: ArrayVec<u64, MOST_VALUES>,
}

impl Default for Entry {
    fn default() -> Entry {
        Entry {
            key: Key::Limit,
            line: 0,
            values: ArrayVec::new(),
        }
    }
}
