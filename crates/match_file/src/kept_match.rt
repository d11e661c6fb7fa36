//! The match that a `match.kept` says.

ghost use Rattle.std.specs.Prelude.{◌≡◌, ◌≤◌, ℕ, List, decimal, Some, IfSome, IsSomeAnd, MatchOption};
ghost use Rattle.dealer_kind.specs.Plans.{HasNodes};
ghost use Rattle.match_file.specs.Kept.{Kept, Keeps, IsFirst, kept_of};

use crate::difference::{Counts, Difference};
use crate::kept_lines::KeptLines;
use crate::sameness::{are_same_games, are_same_names};
use dealer_kind::Config;
use game_def::GameDef;
use match_log::{Name, SeatNames, is_game_word};
use matchstate::read_number;
use slot_log::limits::HANDS;

/// A match, and how many nodes deal it.
#[derive(Drop)]
pub(crate) struct KeptMatch<'a> {
    name: Name,
    game_word: &'a [u8],
    hands: u32,
    names: SeatNames,
    nodes: u32,
    game: GameDef,
}

impl<'a> KeptMatch<'a> {
    ghost use Rattle.match_file.specs.KeptMatch.{kept_in};

    /// The match of a text; none of a text that keeps none.
    pub(crate) fn read(text: &'a [u8]) -> Option<KeptMatch<'a>>
        ensures found { IfSome result (λ found. Keeps text.now (kept_in found)) }
        ensures only { (kept : Kept) → Keeps text.now kept → IsSomeAnd result (λ found. kept_in found ≡ kept) }
    {
        let lines = KeptLines::read(text)?;
        let name = Name::new(lines.name)?;
        if !is_game_word(lines.game) {
            return None;
        }
        let hands = read_hands(lines.hands)?;
        let nodes = read_nodes(lines.nodes)?;
        let Ok(game) = game_def::read(lines.rest) else {
            return None;
        };
        game.limits();
        let names = SeatNames::read(lines.names, game.players())?;
        Some(KeptMatch {
            name,
            game_word: lines.game,
            hands,
            names,
            nodes,
            game,
        })
    }

    /// The first thing in which it is another than this match; none where it is that.
    pub(crate) fn difference(&self, config: &Config) -> Option<Difference>
        ensures { MatchOption result (kept_in self.now ≡ kept_of config.now) (IsFirst (kept_in self.now) (kept_of config.now)) }
    {
        match self.title_difference(config) {
            Some(difference) => Some(difference),
            None => self.later_difference(config),
        }
    }

    /// The first thing among what a log's header says.
    fn title_difference(&self, config: &Config) -> Option<Difference>
        ensures { MatchOption result ((kept_in self.now).setting.title ≡ config.now.setting.title) (IsFirst (kept_in self.now) (kept_of config.now)) }
    {
        if self.name.as_bytes() != config.name().as_bytes() {
            return Some(Difference::Name);
        }
        if self.game_word != config.game_word() {
            return Some(Difference::Game);
        }
        if self.hands != config.hands() {
            return Some(Difference::Hands(Counts {
                kept: self.hands,
                expected: config.hands(),
            }));
        }
        None
    }

    /// The first thing behind that.
    fn later_difference(&self, config: &Config) -> Option<Difference>
        ensures { (kept_in self.now).setting.title ≡ config.now.setting.title → MatchOption result (kept_in self.now ≡ kept_of config.now) (IsFirst (kept_in self.now) (kept_of config.now)) }
    {
        if !are_same_names(self.names.as_slice(), config.names().as_slice()) {
            return Some(Difference::Names);
        }
        let nodes = config.nodes() as u32;
        if self.nodes != nodes {
            return Some(Difference::Nodes(Counts {
                kept: self.nodes,
                expected: nodes,
            }));
        }
        if !are_same_games(&self.game, config.game()) {
            return Some(Difference::Values);
        }
        None
    }
}

/// The number of hands that a decimal says, 1 to 10000.
fn read_hands(bytes: &[u8]) -> Option<u32>
    ensures found { IfSome result (λ hands. bytes.now ≡ decimal hands) }
    ensures least { IfSome result (λ hands. 1 ≤ hands) }
    ensures most { IfSome result (λ hands. hands ≤ 10000) }
    ensures only { (hands : ℕ) → 1 ≤ hands → hands ≤ 10000 → bytes.now ≡ decimal hands → result ≡ Some hands }
{
    match read_number(bytes) {
        Some(hands) if 1 <= hands && hands <= HANDS => Some(hands),
        _ => None,
    }
}

/// The count of nodes that a decimal says, three, five or seven.
fn read_nodes(bytes: &[u8]) -> Option<u32>
    ensures found { IfSome result (λ nodes. bytes.now ≡ decimal nodes) }
    ensures nodes { IfSome result HasNodes }
    ensures only { (nodes : ℕ) → HasNodes nodes → bytes.now ≡ decimal nodes → result ≡ Some nodes }
{
    match read_number(bytes) {
        Some(nodes) if matches!(nodes, 3 | 5 | 7) => Some(nodes),
        _ => None,
    }
}
