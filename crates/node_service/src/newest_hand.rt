//! The newest hand of a match, by the commands that were applied, as the dealer's table has it.

ghost use Rattle.std.specs.Prelude.{◌≡◌, ◌+◌, ◌≤◌, ℕ, min, List, [], ◌∷◌, is_none, Some, None};
ghost use Rattle.slot_log.specs.declared.command.Command.{Command as Order};
ghost use Rattle.slot_log.specs.Hand.{Hand};
ghost use Rattle.slot_log.specs.Dealer.{hands_of, is_running, finished_count, deal_reason, act_reason, act_for, reason_of, with_action};
ghost use Rattle.slot_log.specs.Played.{AreHands};

use betting::laws::allowed_without_fault;
use betting::{Action, Play};
use card_core::Deal;
use game_def::GameDef;
use slot_log::Command;
use slot_log::laws::commands_make_hands;

/// The newest hand of a match, and how many were dealt.
#[derive(Drop)]
pub(crate) struct NewestHand {
    pub(crate) game: GameDef,
    /// How many hands the match has.
    pub(crate) count: u32,
    dealt: u32,
    play: Option<Play>,
    ghost most: { count ≤ 10000 },
}

impl NewestHand {
    ghost use Rattle.node_service.specs.Acts.{seat_of, actor_of, IsNewestOf, IsNewestBy};

    /// No hand was dealt yet, of a match of at most 10000 hands.
    pub(crate) fn new(game: GameDef, count: u32) -> NewestHand
        requires { count ≤ 10000 }
        ensures by { IsNewestBy result [] }
        ensures game { result.game ≡ game }
        ensures count { result.count ≡ count }
    {
        NewestHand {
            game,
            count,
            dealt: 0,
            play: None,
        }
    }

    /// Whether a hand runs.
    fn runs(&self) -> bool
        ensures { (hands : List Hand) → IsNewestOf self.now hands → result ≡ is_running self.now.game hands }
    {
        match &self.play {
            Some(play) => !play.finished(),
            None => false,
        }
    }

    /// How many hands are finished.
    fn finished(&self) -> u32
        ensures { (hands : List Hand) → AreHands self.now.game self.now.count hands → IsNewestOf self.now hands → result ≡ finished_count self.now.game hands }
    {
        if self.runs() {
            self.dealt.saturating_sub(1)
        } else {
            self.dealt
        }
    }

    /// Whether a deal of a hand fits where the match goes on.
    fn takes_deal(&self, hand: u32, deal: &Deal) -> bool
        ensures { (hands : List Hand) → AreHands self.now.game self.now.count hands → IsNewestOf self.now hands → result ≡ is_none (deal_reason self.now.game hands hand deal.now) }
    {
        if self.runs() {
            return false;
        }
        if hand != self.finished() {
            return false;
        }
        deal.cards().len() == 2 * self.game.players() + 5
    }

    /// Whether an act of a hand fits where the match goes on.
    fn takes_act(&self, hand: u32, index: u16, action: Action) -> bool
        ensures { (hands : List Hand) → IsNewestOf self.now hands → result ≡ is_none (act_reason self.now.game hands hand index action) }
    {
        let Some(play) = &self.play else {
            return false;
        };
        if play.finished() {
            return false;
        }
        if hand as u64 + 1 != self.dealt as u64 {
            return false;
        }
        if index as usize != play.actions().len() {
            return false;
        }
        play.fault(action).is_none()
    }

    /// What is done for the player to act where he is away: he folds where he faces something, and else calls.
    fn away_action(&self) -> Action
        ensures { (hands : List Hand) → IsNewestOf self.now hands → result ≡ act_for self.now.game hands }
    {
        match &self.play {
            Some(play) => match play.fault(Action::Fold) {
                None => Action::Fold,
                Some(_) => Action::Call,
            },
            None => Action::Call,
        }
    }

    /// Whether a command takes effect now.
    fn fits(&self, command: &Command) -> bool
        ensures { (hands : List Hand) → AreHands self.now.game self.now.count hands → IsNewestOf self.now hands → result ≡ is_none (reason_of self.now.game self.now.count hands command.now) }
    {
        if self.count <= self.finished() {
            return false;
        }
        match command {
            Command::Deal { hand, deal } => self.takes_deal(*hand, deal),
            Command::Act {
                hand,
                index,
                action,
            } => self.takes_act(*hand, *index, *action),
            Command::Away { hand, index } => self.takes_act(*hand, *index, self.away_action()),
        }
    }

    /// The seat to act; none where no hand runs.
    fn seat_to_act(&self) -> Option<u8>
        ensures { (hands : List Hand) → IsNewestOf self.now hands → result ≡ seat_of self.now.game hands }
    {
        let play = self.play.as_ref()?;
        let players = play.players();
        let position = play.to_act()?;
        let hand = self.dealt.saturating_sub(1) as usize;
        Some(((position + hand) % players) as u8)
    }

    /// Whose act a command is: where it takes effect now, that of the seat to act.
    pub(crate) fn actor(&self, command: &Command) -> Option<u8>
        ensures { (commands : List Order) → IsNewestBy self.now commands → result ≡ actor_of self.now.game self.now.count (hands_of self.now.game self.now.count commands) command.now }
    {
        commands_make_hands();
        if self.fits(command) {
            self.seat_to_act()
        } else {
            None
        }
    }

    /// Takes the action of the player to act, where it is allowed.
    fn act(&mut self, action: Action)
        ensures plays { (hands : List Hand) (hand index : ℕ) → IsNewestOf self.old hands → act_reason self.old.game hands hand index action ≡ None → IsNewestOf self.new (with_action hands action) }
        ensures game { self.new.game ≡ self.old.game }
        ensures count { self.new.count ≡ self.old.count }
    {
        allowed_without_fault();
        if let Some(play) = &mut self.play {
            let _ = play.act(action);
        }
    }

    /// A hand is dealt.
    fn deal(&mut self)
        ensures { self.new ≡ record self.old { dealt = min 4294967295 (self.old.dealt + 1); play = Some (record { game = self.old.game; past = [] }) } }
    {
        self.dealt = self.dealt.saturating_add(1);
        self.play = Some(Play::new(&self.game));
    }

    /// A command takes effect, where it fits.
    pub(crate) fn take(&mut self, command: &Command)
        ensures by { (commands : List Order) → IsNewestBy self.old commands → IsNewestBy self.new (command.now ∷ commands) }
        ensures game { self.new.game ≡ self.old.game }
        ensures count { self.new.count ≡ self.old.count }
    {
        commands_make_hands();
        if !self.fits(command) {
            return;
        }
        match command {
            Command::Deal { .. } => self.deal(),
            Command::Act { action, .. } => self.act(*action),
            Command::Away { .. } => self.act(self.away_action()),
        }
    }
}
