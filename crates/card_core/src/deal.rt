ghost use Rattle.std.specs.Prelude.{◌≡◌, ◌≢◌, ◌+◌, ◌*◌, ◌++◌, ◌<◌, ◌≤◌, ◌↔◌, length, IsTrue, IsOk, IfOk, OnOk, IsErrOf, nat_eq};
ghost use Rattle.std.specs.List.{IsDistinct, AllByRecursion, list_any};
ghost use Rattle.card_core.specs.Deal.{IsDeal, player_count, hole_of, board_of};
ghost use Rattle.card_core.specs.declared.fault.DealFault.TheVariants.{WrongCount, Repeated};

use crate::card::Card;
use crate::fault::DealFault;
use crate::limits::CARDS;
use std::marker::Model;

/// The cards of one hand of Texas hold'em: two hole cards for each position from 0 on, then the five
/// board cards (flop, turn, river). No card stands there twice.
///
/// Contracts see a deal as the list of its cards in that order.
#[derive(Clone, Copy, Debug, PartialEq, Eq)]
pub struct Deal {
    cards: [Card; CARDS],
    players: usize,
}

impl Model for Deal {
    ghost use Rattle.std.specs.Prelude.{List, ℕ, ◌+◌, ◌*◌, ◌-◌, ◌++◌, take, length, replicate};
    ghost use Rattle.std.specs.Coded.{coded_ℕ, coded_list};

    ghost Value = { List ℕ };

    ghost use Rattle.card_core.specs.DealInside.{IsKept, inside_of, inside_of-view};

    ghost view = { λ d. take (2 * d.players + 5) d.cards };

    ghost invariant = { IsKept };

    ghost inverse = { inside_of };

    ghost inverse_ok = { inside_of-view };
}

impl Deal {
    /// The deal of these cards for `players` players (2 to 10): the hole cards by position, then the board.
    ///
    /// Refused are `WrongCount` (1) unless there are two cards for each player and five more, and then
    /// `Repeated` (2) where a card stands there twice.
    pub fn new(players: usize, cards: &[Card]) -> Result<Deal, DealFault>
        requires least { 2 ≤ players }
        requires most { players ≤ 10 }
        ensures ok { IsOk result ↔ (length cards.now ≡ 2 * players + 5) × IsDistinct nat_eq cards.now }
        ensures value { IfOk result (λ deal. deal ≡ cards.now) }
        ensures deal { OnOk result (IsDeal players cards.now) }
        ensures wrong_count { IsErrOf result WrongCount ↔ (length cards.now ≢ 2 * players + 5) }
        ensures repeated { IsErrOf result Repeated ↔ (length cards.now ≡ 2 * players + 5) × ¬ (IsDistinct nat_eq cards.now) }
    {
        if cards.len() != 2 * players + 5 {
            return Err(DealFault::WrongCount);
        }
        if !are_distinct(cards) {
            return Err(DealFault::Repeated);
        }
        let mut kept = [Card::from_number(0); CARDS];
        kept[..cards.len()].copy_from_slice(cards);
        Ok(Deal {
            cards: kept,
            players,
        })
    }

    /// For how many players the deal is, 2 to 10.
    pub fn players(&self) -> usize
        ensures value { result ≡ player_count self.now }
        ensures least { 2 ≤ result }
        ensures most { result ≤ 10 }
    {
        self.players
    }

    /// All cards, two for each of 2 to 10 players and five more: the hole cards by position, then the board.
    pub fn cards(&self) -> &[Card]
        ensures value { result.now ≡ self.now }
        ensures deal { IsDeal (player_count self.now) self.now }
        ensures least { 2 ≤ player_count self.now }
        ensures most { player_count self.now ≤ 10 }
    {
        &self.cards[..2 * self.players + 5]
    }

    /// The two hole cards of a position, counted from 0. With the board they are seven distinct cards.
    pub fn hole(&self, position: usize) -> [Card; 2]
        requires { position < player_count self.now }
        ensures value { result ≡ hole_of self.now position }
        ensures cards_of_the_pack { AllByRecursion (λ card. card < 52) result }
        ensures distinct { IsDistinct nat_eq (hole_of self.now position ++ board_of self.now) }
    {
        let cards = self.cards();
        [cards[2 * position], cards[2 * position + 1]]
    }

    /// The five board cards: the flop's three, the turn and the river.
    pub fn board(&self) -> [Card; 5]
        ensures value { result ≡ board_of self.now }
        ensures cards_of_the_pack { AllByRecursion (λ card. card < 52) result }
    {
        let first = 2 * self.players;
        [
            self.cards[first],
            self.cards[first + 1],
            self.cards[first + 2],
            self.cards[first + 3],
            self.cards[first + 4],
        ]
    }

    /// The seven cards of a position, counted from 0: its two hole cards and then the board.
    pub fn seven(&self, position: usize) -> [Card; 7]
        requires { position < player_count self.now }
        ensures value { result ≡ hole_of self.now position ++ board_of self.now }
        ensures distinct { IsDistinct nat_eq result }
    {
        let hole = self.hole(position);
        let board = self.board();
        [
            hole[0], hole[1], board[0], board[1], board[2], board[3], board[4],
        ]
    }

    /// Whether another deal has the same cards at the same places. What `==` of deals says is in no contract.
    pub fn is_same(&self, other: &Deal) -> bool
        ensures { IsTrue result ↔ (self.now ≡ other.now) }
    {
        self.cards() == other.cards()
    }
}

/// Whether no card stands twice among these, of which there may be any number, or none.
pub fn are_distinct(cards: &[Card]) -> bool
    ensures distinct { IsTrue result ↔ IsDistinct nat_eq cards.now }
    ensures cards_of_the_pack { IsTrue result → AllByRecursion (λ card. card < 52) cards.now }
{
    match cards {
        [] => true,
        [first, rest @ ..] => !has_number(rest, first.number()) && are_distinct(rest),
    }
}

/// Whether one of these cards, of which there may be any number, or none, has this number.
pub fn has_number(cards: &[Card], number: u8) -> bool
    ensures { result ≡ list_any (λ card. nat_eq number card) cards.now }
{
    cards.iter().any(|card| card.number() == number)
}
