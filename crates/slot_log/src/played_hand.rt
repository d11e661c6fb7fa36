ghost use Rattle.std.specs.Prelude.{◌≡◌, ℕ, ◌+◌, ◌*◌, [], ◌∷◌, length};
ghost use Rattle.betting.specs.Betting.{history};
ghost use Rattle.betting.specs.Legal.{CanAct};
ghost use Rattle.slot_log.specs.Away.{away_action};
ghost use Rattle.slot_log.specs.PlayedHand.{IsOf};

use betting::{Action, Play};
use card_core::Deal;
use game_def::GameDef;

/// A hand that was dealt, with its betting.
#[derive(Drop)]
pub(crate) struct PlayedHand {
    pub(crate) deal: Deal,
    pub(crate) play: Play,
}

impl PlayedHand {
    /// A hand that begins.
    pub(crate) fn new(game: &GameDef, deal: Deal) -> PlayedHand
        requires { length deal ≡ 2 * game.now.players + 5 }
        ensures value { result ≡ record { deal = deal; play = record { game = game.now; past = [] } } }
        ensures kept { IsOf game.now result }
    {
        prove!(deal.cards().len() == 2 * game.players() + 5);
        PlayedHand {
            deal,
            play: Play::new(game),
        }
    }

    /// What is done for the player to act where he is away: he folds where he faces something, and else calls.
    pub(crate) fn away_action(&self) -> Action
        ensures { result ≡ away_action self.now.play.game (history self.now.play) }
    {
        match self.play.fault(Action::Fold) {
            None => Action::Fold,
            Some(_) => Action::Call,
        }
    }

    /// Takes an action that is allowed: `Play::take_action`, said of the hand, whose deal stays.
    pub(crate) fn act(&mut self, action: Action)
        requires { CanAct self.old.play.game (history self.old.play) action }
        ensures deal { self.new.deal ≡ self.old.deal }
        ensures play { self.new.play ≡ record { game = self.old.play.game; past = action ∷ self.old.play.past } }
    {
        self.play.take_action(action);
    }
}
