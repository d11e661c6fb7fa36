ghost use Rattle.std.specs.Prelude.{◌≡◌, ◌∷◌, [], ◌++◌, false, IsTrue, MatchOption};
ghost use Rattle.std.specs.List.{list_all};
ghost use Rattle.game_def.specs.Key.{fits};
ghost use Rattle.std.specs.Option.{option_map};
ghost use Rattle.game_def.specs.Entries.{entry_of, is_set, values_of, line_of, has_nolimit, AreEntries};

use crate::entry::Entry;
use crate::key::Key;
use arrayvec::ArrayVec;
use std::marker::Model;

/// The most entries of a game file: one for each key, `limit` and `nolimit` being one.
const MOST_ENTRIES: usize = 12;

/// The entries of a game file in the order of their lines, each key once.
#[derive(Drop)]
pub(crate) struct Entries {
    list: ArrayVec<Entry, MOST_ENTRIES>,
}

impl Model for Entries {
    ghost use Rattle.std.specs.Prelude.{List};
    ghost use Rattle.game_def.specs.declared.entry.Entry.{Entry};

    ghost Value = { List Entry };

    ghost use Rattle.game_def.specs.Entries.{AreEntries};

    ghost view = { λ entries. entries.list.items };

    ghost invariant = { λ entries. AreEntries entries.list.items };
}

impl Entries {
    pub(crate) fn new() -> Entries
        ensures { result ≡ [] }
    {
        Entries {
            list: ArrayVec::new(),
        }
    }

    /// What holds of the entries: each key is set once, to numbers that it may have.
    pub(crate) fn limits(&self)
        ensures { AreEntries self.now }
    {
        let _ = &self.list;
    }

    /// Whether a key is set.
    pub(crate) fn has(&self, key: Key) -> bool
        ensures { result ≡ is_set self.now key }
    {
        self.list.iter().any(|entry| entry.key.same(key))
    }

    /// Whether the key `nolimit` is set.
    pub(crate) fn has_nolimit(&self) -> bool
        ensures { result ≡ has_nolimit self.now }
    {
        self.list.iter().any(|entry| entry.key.is_nolimit())
    }

    /// Adds an entry of a key that isn't set yet. This is the only way to add one: so the list keeps what holds of
    /// entries.
    pub(crate) fn push(&mut self, entry: Entry)
        requires new_key { is_set self.old entry.key ≡ false }
        requires fitting { IsTrue (list_all (fits entry.key) entry.values.items) }
        ensures { self.new ≡ self.old ++ entry ∷ [] }
    {
        self.list.push(entry);
    }

    fn entry(&self, key: Key) -> Option<&Entry>
        ensures { option_map (λ e. e.now) result ≡ entry_of self.now key }
    {
        self.list.iter().find(|entry| entry.key.same(key))
    }

    /// The values that a key is set to.
    pub(crate) fn values(&self, key: Key) -> Option<&[u64]>
        ensures { option_map (λ v. v.now) result ≡ values_of self.now key }
    {
        self.entry(key).map(|entry| entry.values.as_slice())
    }

    /// The line that sets a key, or another line where none does.
    pub(crate) fn line_of(&self, key: Key, otherwise: usize) -> usize
        ensures { result ≡ line_of self.now key otherwise }
    {
        match self.entry(key) {
            Some(entry) => entry.line,
            None => otherwise,
        }
    }
}
