ghost use Rattle.std.specs.Prelude.{◌≡◌, ◌≤◌, ℕ, List, MatchOption, MatchResult, IfOk, IfErr, IsUtf8};
ghost use Rattle.match_file.specs.Matches.{HasMembers, SaysTitle, SaysGame, SaysHands};
ghost use Rattle.match_file.specs.Said.{IsAbsent};
ghost use Rattle.match_file.specs.Refusals.{IsNoToml, IsUnnamed};

use crate::entries::{number_at, text_at};
use crate::key::Key;
use crate::match_fault::MatchFault;
use match_log::{Name, is_game_word};
use slot_log::limits::HANDS;
use std::alloc::Global;
use toml::Table;

/// A match file that is TOML; whether its entries are right is asked one by one.
///
/// Contracts see the members of its table, `members file`.
pub struct MatchFile {
    pub(crate) table: Table,
}

/// By hand, so that letting one go is one call for whoever owns it (docs/ARCHITECTURE.md, Habits).
impl Drop for MatchFile {
    fn drop(self) {
        let MatchFile { table: _ } = self;
    }
}

impl MatchFile {
    ghost use Rattle.match_file.specs.MatchFile.{members};

    /// Reads a match file's text, TOML 1.1 in UTF-8.
    ///
    /// The fault is 100 `NotToml` where it is neither, or 92 `OutOfMemory`.
    pub fn read(alloc: Global, text: &[u8]) -> Result<MatchFile, MatchFault>
        ensures { MatchResult result (λ file. HasMembers text.now (members file)) (IsNoToml text.now) }
    {
        match toml::table_from_slice(alloc, text) {
            Ok(table) => Ok(MatchFile { table }),
            Err(error) if error.is_memory() => Err(MatchFault::OutOfMemory),
            Err(_) => Err(MatchFault::NotToml),
        }
    }

    /// The name of the game's file, a path from the working folder: 1 to 200 printable ASCII characters without
    /// space. It is what logs say of the game, too.
    ///
    /// The fault is 101 `BadEntry` of `name` or, where that is right, of `game`.
    pub fn game(&self) -> Result<&str, MatchFault>
        ensures found { IfOk result (λ word. SaysGame (members self.now) word.now) }
        ensures named { IfOk result (λ _. (name : List ℕ) × SaysTitle (members self.now) name) }
        ensures fault { IfErr result (IsUnnamed (members self.now)) }
    {
        match self.title() {
            Some(_) => self.word().ok_or(MatchFault::BadEntry(Key::Game)),
            None => Err(MatchFault::BadEntry(Key::Name)),
        }
    }

    /// The name of the match.
    pub(crate) fn title(&self) -> Option<Name>
        ensures { MatchOption result (IsAbsent (SaysTitle (members self.now))) (SaysTitle (members self.now)) }
    {
        match text_at(&self.table, Key::Name) {
            Some(text) => Name::new(text.as_bytes()),
            None => None,
        }
    }

    /// The name of the game's file.
    pub(crate) fn word(&self) -> Option<&str>
        ensures { MatchOption result (IsAbsent (SaysGame (members self.now))) (λ word. SaysGame (members self.now) word.now) }
    {
        match text_at(&self.table, Key::Game) {
            Some(text) if is_game_word(text.as_bytes()) => Some(text),
            _ => None,
        }
    }

    /// The number of hands, 1 to 10000.
    pub(crate) fn hands(&self) -> Option<u32>
        ensures { MatchOption result (IsAbsent (SaysHands (members self.now))) (SaysHands (members self.now)) }
    {
        match number_at(&self.table, Key::Hands) {
            Some(hands) if 1 <= hands && hands <= HANDS as u64 => Some(hands as u32),
            _ => None,
        }
    }
}
