ghost use Rattle.std.specs.Prelude.{◌≡◌};
ghost use Rattle.game_def.specs.Key.{name_of, place_of, same_key, key_named, fits, allows, is_nolimit};

use crate::entry::MOST_VALUES;
use crate::limits::MOST_CHIPS;
use card_core::limits::PLAYERS;

/// What a line of a game file sets.
#[derive(Clone, Copy, PartialEq, Eq)]
pub(crate) enum Key {
    Limit,
    Nolimit,
    NumPlayers,
    NumRounds,
    Stack,
    Blind,
    RaiseSize,
    FirstPlayer,
    MaxRaises,
    NumSuits,
    NumRanks,
    NumHoleCards,
    NumBoardCards,
}

/// Every key, for a word to be compared with their names.
const KEYS: [Key; 13] = [
    Key::Limit,
    Key::Nolimit,
    Key::NumPlayers,
    Key::NumRounds,
    Key::Stack,
    Key::Blind,
    Key::RaiseSize,
    Key::FirstPlayer,
    Key::MaxRaises,
    Key::NumSuits,
    Key::NumRanks,
    Key::NumHoleCards,
    Key::NumBoardCards,
];

impl Key {
    /// The key's name in small letters.
    fn name(self) -> &'static [u8]
        ensures { result.now ≡ name_of self }
    {
        match self {
            Key::Limit => b"limit",
            Key::Nolimit => b"nolimit",
            Key::NumPlayers => b"numplayers",
            Key::NumRounds => b"numrounds",
            Key::Stack => b"stack",
            Key::Blind => b"blind",
            Key::RaiseSize => b"raisesize",
            Key::FirstPlayer => b"firstplayer",
            Key::MaxRaises => b"maxraises",
            Key::NumSuits => b"numsuits",
            Key::NumRanks => b"numranks",
            Key::NumHoleCards => b"numholecards",
            Key::NumBoardCards => b"numboardcards",
        }
    }

    /// The key that a word names, in capital or small letters.
    #[tactic(auto, unfolding(crate::specs::Key::key_named))]
    pub(crate) fn named(word: &[u8]) -> Option<Key>
        ensures { result ≡ key_named word.now }
    {
        KEYS.iter()
            .copied()
            .find(|key| word.eq_ignore_ascii_case(key.name()))
    }

    /// Which of the keys it is that a game file has at most once, `limit` and `nolimit` being one.
    fn place(self) -> usize
        ensures { result ≡ place_of self }
    {
        match self {
            Key::Limit | Key::Nolimit => 0,
            Key::NumPlayers => 1,
            Key::NumRounds => 2,
            Key::Stack => 3,
            Key::Blind => 4,
            Key::RaiseSize => 5,
            Key::FirstPlayer => 6,
            Key::MaxRaises => 7,
            Key::NumSuits => 8,
            Key::NumRanks => 9,
            Key::NumHoleCards => 10,
            Key::NumBoardCards => 11,
        }
    }

    /// Whether both are one key; `limit` and `nolimit` are.
    pub(crate) fn same(self, other: Key) -> bool
        ensures { result ≡ same_key self other }
    {
        self.place() == other.place()
    }

    pub(crate) fn is_nolimit(self) -> bool
        ensures { result ≡ is_nolimit self }
    {
        matches!(self, Key::Nolimit)
    }

    /// Whether a number may be a value of the key.
    pub(crate) fn fits(self, number: u64) -> bool
        ensures { result ≡ fits self number }
    {
        match self {
            Key::Stack | Key::Blind | Key::RaiseSize => number <= MOST_CHIPS,
            Key::FirstPlayer => number >= 1 && number <= PLAYERS as u64,
            Key::MaxRaises => number <= 255,
            _ => true,
        }
    }

    /// Whether a line of the key may have so many values.
    pub(crate) fn allows(self, count: usize) -> bool
        ensures { result ≡ allows self count }
    {
        match self {
            Key::Limit | Key::Nolimit => count == 0,
            Key::Stack
            | Key::Blind
            | Key::RaiseSize
            | Key::FirstPlayer
            | Key::MaxRaises
            | Key::NumBoardCards => count >= 1 && count <= MOST_VALUES,
            _ => count == 1,
        }
    }
}
