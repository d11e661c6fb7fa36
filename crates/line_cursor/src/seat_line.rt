ghost use Rattle.std.specs.Prelude.{◌≡◌, ◌+◌, ◌*◌, ◌<◌, ◌≤◌, ◌++◌, ◌∷◌, ℕ, [], if◌then◌else◌, take, length, decimal, replicate, reverse, slice_index};
ghost use Rattle.betting.specs.Text.{text, action_text, slash_counts};
ghost use Rattle.card_core.specs.Deal.{IsDeal, hole_of, player_count};
ghost use Rattle.matchstate.specs.Cards.{cards_text, holes_text, board_text, holes_seen, boards_of};
ghost use Rattle.matchstate.specs.SeenCards.{separator};
ghost use Rattle.matchstate.specs.Line.{line_text};
ghost use Rattle.matchstate.specs.View.{is_showdown, sees, rounds_seen, view_of};

use betting::laws::slashes_stand_behind_actions;
use betting::{Action, Play};
use card_core::{Card, Deal};
use game_def::GameDef;
use itoa::Buffer;
use matchstate::MOST_LINE;
use std::marker::Model;

/// A buffer for a line of the dealer to a seat, without a line end, as the ACPC protocol 2.0.0 writes it. It takes no memory.
/// Whoever is told many lines keeps one and lends it, so that none is made anew for each line.
///
/// Contracts see its bytes.
#[derive(Debug, Drop)]
pub struct SeatLine {
    bytes: [u8; MOST_LINE],
    len: usize,
}

impl Model for SeatLine {
    ghost use Rattle.std.specs.Prelude.{List, ℕ, take, ◌≤◌};

    ghost Value = { List ℕ };

    ghost view = { λ d. take d.len d.bytes };

    ghost invariant = { λ d. d.len ≤ 4096 };
}

impl SeatLine {
    /// No bytes yet.
    pub fn new() -> SeatLine
        ensures { result ≡ [] }
    {
        SeatLine {
            bytes: [0; MOST_LINE],
            len: 0,
        }
    }

    /// The bytes, at most 4096.
    pub fn as_bytes(&self) -> &[u8]
        ensures value { result.now ≡ self.now }
        ensures most { length self.now ≤ 4096 }
    {
        &self.bytes[..self.len]
    }

    /// Makes it the line of what the player at a position sees of a hand after the actions of a play.
    pub(crate) fn write(&mut self, position: usize, hand: u32, deal: &Deal, play: &Play)
        requires few { play.now.game.players ≤ 10 }
        requires below { position < play.now.game.players }
        requires dealt { IsDeal play.now.game.players deal.now }
        ensures { self.new ≡ line_text (view_of play.now.game position hand (record { deal = deal.now; past = play.now.past })) }
    {
        self.clear();
        self.put(b"MATCHSTATE:");
        self.put_number(position as u32);
        self.put(b":");
        self.put_number(hand);
        self.put(b":");
        self.put_betting(play);
        self.put(b":");
        self.put_holes(deal, play, position);
        self.put_board(deal, play.round());
    }

    /// Takes its bytes away.
    fn clear(&mut self)
        ensures { self.new ≡ [] }
    {
        self.len = 0;
    }

    /// Appends the betting text of a play.
    fn put_betting(&mut self, play: &Play)
        requires { length self.old + 3584 ≤ 4096 }
        ensures text { self.new ≡ self.old ++ text play.now.game play.now.past }
        ensures len { length self.new ≤ length self.old + 3584 }
    {
        self.put_actions(play.game(), play.actions(), play.slashes());
    }

    /// Appends the betting text of actions, oldest first, with so many `/` behind each.
    fn put_actions(&mut self, game: &GameDef, actions: &[Action], slashes: &[u8])
        requires few { length actions.now ≤ 256 }
        requires places { length slashes.now ≡ length actions.now }
        requires slashes { slashes.now ≡ reverse (slash_counts game.now (reverse actions.now)) }
        requires few_slashes { (index : ℕ) → slice_index slashes.now index ≤ 3 }
        requires room { length self.old + 3584 ≤ 4096 }
        ensures text { self.new ≡ self.old ++ text game.now (reverse actions.now) }
        ensures len { length self.new ≤ length self.old + 3584 }
    {
        slashes_stand_behind_actions();
        for place in 0..actions.len() {
            self.put_action(game, actions[place], slashes[place]);
        }
    }

    /// Appends an action's text, and so many `/`.
    fn put_action(&mut self, game: &GameDef, action: Action, slashes: u8)
        requires few { slashes ≤ 3 }
        requires room { length self.old + 14 ≤ 4096 }
        ensures text { self.new ≡ self.old ++ action_text game.now action ++ replicate slashes 47 }
        ensures len { length self.new ≤ length self.old + 14 }
    {
        self.put_word(game, action);
        self.put(&b"///"[..slashes as usize]);
    }

    /// Appends an action's text: `f`, `c`, and `r`, with the amount in a no-limit game.
    #[tactic(auto, unfolding(betting::specs::Text::action_text))]
    fn put_word(&mut self, game: &GameDef, action: Action)
        requires { length self.old + 11 ≤ 4096 }
        ensures text { self.new ≡ self.old ++ action_text game.now action }
        ensures len { length self.new ≤ length self.old + 11 }
    {
        match action {
            Action::Fold => self.put(b"f"),
            Action::Call => self.put(b"c"),
            Action::Raise(amount) => {
                self.put(b"r");
                if !game.is_limit() {
                    self.put_number(amount);
                }
            }
        }
    }

    /// Appends the hole cards by position, with `|` between them, none where they aren't seen.
    fn put_holes(&mut self, deal: &Deal, play: &Play, viewer: usize)
        requires dealt { IsDeal play.now.game.players deal.now }
        requires room { length self.old + 50 ≤ 4096 }
        ensures text { self.new ≡ self.old ++ holes_text (holes_seen play.now.game.players (sees play.now.game play.now.past viewer) deal.now) }
        ensures len { length self.new ≤ length self.old + 50 }
    {
        for position in 0..play.players() {
            self.put_separator(position);
            self.put_hole(deal, position, is_in_sight(play, viewer, position));
        }
    }

    /// Appends what comes before the hole cards of a position: `|`, but nothing before the first.
    fn put_separator(&mut self, position: usize)
        requires { length self.old + 1 ≤ 4096 }
        ensures text { self.new ≡ self.old ++ separator position }
        ensures len { length self.new ≤ length self.old + 1 }
    {
        if position > 0 {
            self.put(b"|");
        }
    }

    /// Appends the hole cards of a position where they are seen.
    fn put_hole(&mut self, deal: &Deal, position: usize, is_seen: bool)
        requires position { position < player_count deal.now }
        requires room { length self.old + 4 ≤ 4096 }
        ensures text { self.new ≡ self.old ++ cards_text (if is_seen then hole_of deal.now position else []) }
        ensures len { length self.new ≤ length self.old + 4 }
    {
        if is_seen {
            self.put_cards(&deal.hole(position));
        }
    }

    /// Appends the cards of each of the first so many later rounds.
    fn put_board(&mut self, deal: &Deal, rounds: usize)
        requires rounds { rounds ≤ 3 }
        requires room { length self.old + 13 ≤ 4096 }
        ensures text { self.new ≡ self.old ++ board_text (take rounds (boards_of deal.now)) }
        ensures len { length self.new ≤ length self.old + 13 }
    {
        let [first, second, third, turn, river] = deal.board();
        self.put_street(&[first, second, third], rounds >= 1);
        self.put_street(&[turn], rounds >= 2);
        self.put_street(&[river], rounds >= 3);
    }

    /// Appends `/` and the cards of a round where it has begun.
    fn put_street(&mut self, cards: &[Card], has_begun: bool)
        requires { length self.old + (2 * length cards.now + 1) ≤ 4096 }
        ensures text { self.new ≡ self.old ++ board_text (if has_begun then cards.now ∷ [] else []) }
        ensures len { length self.new ≤ length self.old + (2 * length cards.now + 1) }
    {
        if has_begun {
            self.put(b"/");
            self.put_cards(cards);
        }
    }

    /// Appends cards by their two letters each.
    fn put_cards(&mut self, cards: &[Card])
        requires { length self.old + 2 * length cards.now ≤ 4096 }
        ensures text { self.new ≡ self.old ++ cards_text cards.now }
        ensures len { length self.new ≡ length self.old + 2 * length cards.now }
    {
        for card in cards {
            self.put(&card.text());
        }
    }

    /// Appends a number in decimal digits.
    fn put_number(&mut self, number: u32)
        requires { length self.old + 10 ≤ 4096 }
        ensures text { self.new ≡ self.old ++ decimal number }
        ensures len { length self.new ≤ length self.old + 10 }
    {
        self.put(Buffer::new().format(number).as_bytes());
    }

    /// Appends bytes.
    fn put(&mut self, piece: &[u8])
        requires { length self.old + length piece.now ≤ 4096 }
        ensures text { self.new ≡ self.old ++ piece.now }
        ensures len { length self.new ≡ length self.old + length piece.now }
    {
        let end = self.len + piece.len();
        self.bytes[self.len..end].copy_from_slice(piece);
        self.len = end;
    }
}

/// Whether a viewer sees a position's hole cards.
fn is_in_sight(play: &Play, viewer: usize, position: usize) -> bool
    requires { position < play.now.game.players }
    ensures { result ≡ sees play.now.game play.now.past viewer position }
{
    position == viewer || (has_come_to_showdown(play) && !play.folded(position))
}

/// Whether the hand is over with two or more players who haven't folded.
fn has_come_to_showdown(play: &Play) -> bool
    ensures { result ≡ is_showdown play.now.game play.now.past }
{
    play.finished() && 2 <= play.unfolded()
}
