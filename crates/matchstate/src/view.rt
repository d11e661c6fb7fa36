ghost use Rattle.std.specs.Prelude.{◌≡◌, ℕ, ◌+◌, ◌-◌, ◌<◌, ◌≤◌, ◌++◌, ◌↔◌, [], map, length, replicate, reverse, unwrap_or, slice_index_or, IsTrue, Result, Ok, OnOk, OnErr, vec_len, vec_capacity};
ghost use Rattle.std.specs.List.{concat};
ghost use Rattle.game_def.specs.Game.{IsGame};
ghost use Rattle.matchstate.specs.Cards.{AreSeen};
ghost use Rattle.matchstate.specs.SeenCards.{holes_in, boards_in};
ghost use Rattle.matchstate.specs.View.{View as Sight, IsView, sees, rounds_seen};
ghost use Rattle.matchstate.specs.Line.{ReadsAs, line_text};
ghost use Rattle.matchstate.specs.declared.line_fault.LineFault.{LineFault};

use crate::comparison::{are_same_actions, are_same_cards};
use crate::laws::a_view_has_one_line;
use crate::seen_cards::{SeenCards, gather, gather_board};
use betting::limits::ACTIONS;
use betting::{Action, Play};
use card_core::Card;
use game_def::GameDef;
use std::marker::Model;

/// What a line shows to a viewer of a game: the position that it is for, the hand's number, the actions so
/// far, the hole cards that he sees and the board of the rounds that have begun.
///
/// Contracts see these parts: the actions newest first, the hole cards by position (none where they aren't
/// seen), and the board cards of each later round. `seat_view`, `read` and `read_answer` alone make one.
#[derive(Drop)]
pub struct View {
    pub(crate) game: GameDef,
    pub(crate) position: usize,
    pub(crate) hand: u32,
    pub(crate) actions: [Action; ACTIONS],
    /// How many `/` stand behind each in the betting text.
    pub(crate) slashes: [u8; ACTIONS],
    pub(crate) count: usize,
    pub(crate) seen: SeenCards,
}

impl Model for View {
    ghost use Rattle.matchstate.specs.View.{View};

    ghost Value = { View };

    ghost use Rattle.matchstate.specs.ViewInside.{IsKept, view_in};

    ghost view = { view_in };

    ghost invariant = { IsKept };
}

impl View {
    /// What is seen at a position, counted from 0, in a hand of this number after the actions of a play.
    pub(crate) fn of(position: usize, hand: u32, play: &Play, seen: SeenCards) -> View
        requires seated { position < play.now.game.players }
        requires numbered { hand ≤ 9999 }
        requires seen { AreSeen play.now.game.players (sees play.now.game play.now.past position) (rounds_seen play.now.game play.now.past) (holes_in play.now.game.players seen) (boards_in seen) }
        ensures { result ≡ record { game = play.now.game; position = position; hand = hand; past = play.now.past; holes = holes_in play.now.game.players seen; boards = boards_in seen } }
    {
        let taken = play.actions();
        let mut actions = [Action::Fold; ACTIONS];
        actions[..taken.len()].copy_from_slice(taken);
        let mut slashes = [0; ACTIONS];
        slashes[..taken.len()].copy_from_slice(play.slashes());
        View {
            game: *play.game(),
            position,
            hand,
            actions,
            slashes,
            count: taken.len(),
            seen,
        }
    }

    /// What holds of every view: it shows what its viewer could see of some hand of its game, and whatever its
    /// line reads as is the view again.
    pub fn reads_back(&self)
        ensures game { IsGame self.now.game }
        ensures view { IsView self.now }
        ensures back { (result : Result Sight LineFault) → ReadsAs self.now.game (line_text self.now) result → result ≡ Ok self.now }
    {
        self.game.limits();
        a_view_has_one_line();
    }

    /// The position that it is for, counted from 0.
    pub fn position(&self) -> usize
        ensures { result ≡ self.now.position }
    {
        self.position
    }

    /// The hand's number, counted from 0.
    pub fn hand(&self) -> u32
        ensures { result ≡ self.now.hand }
    {
        self.hand
    }

    /// The actions so far, oldest first.
    pub fn actions(&self) -> &[Action]
        ensures { result.now ≡ reverse self.now.past }
    {
        &self.actions[..self.count]
    }

    /// The two hole cards of a position, counted from 0; none where they aren't seen, or the game hasn't that
    /// position.
    pub fn hole(&self, position: usize) -> Option<[Card; 2]>
        ensures { unwrap_or result [] ≡ slice_index_or self.now.holes position [] }
    {
        if position < self.game.players() {
            self.seen.holes[position]
        } else {
            None
        }
    }

    /// The board: the flop's three cards, the turn and the river, none at the places that aren't seen yet.
    pub fn board(&self) -> [Option<Card>; 5]
        ensures { result ≡ map Some (concat self.now.boards) ++ replicate (5 - length (concat self.now.boards)) None }
    {
        let (cards, count) = gather_board(&self.seen);
        let mut board = [None; 5];
        for place in 0..count {
            let card = cards[place];
            board[place] = Some(card);
        }
        board
    }

    /// Whether two views of one game are equal.
    pub fn is_same(&self, other: &View) -> bool
        requires { self.now.game ≡ other.now.game }
        ensures { IsTrue result ↔ self.now ≡ other.now }
    {
        if self.position != other.position || self.hand != other.hand {
            return false;
        }
        if !are_same_actions(self.actions(), other.actions()) {
            return false;
        }
        let (cards, count) = gather(&self.seen, self.game.players());
        let (others, other_count) = gather(&other.seen, other.game.players());
        are_same_cards(&cards[..count], &others[..other_count])
    }
}
