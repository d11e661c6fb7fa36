ghost use Rattle.std.specs.Prelude.{◌≡◌, ℕ, ◌+◌, ◌*◌, ◌<◌, ◌≤◌, ◌↔◌, false, [], ◌∷◌, length, nat_le, IsTrue, is_none, None, IfOk, OnOk, OnErr, IfSome};
ghost use Rattle.std.specs.Option.{option_map, option_copied};
ghost use Rattle.card_core.specs.Deal.{IsDeal};
ghost use Rattle.slot_log.specs.declared.effect.Effect.TheVariants.{Dealt};
ghost use Rattle.slot_log.specs.Hand.{Hand};
ghost use Rattle.slot_log.specs.PlayedHand.{hand_of, IsOf};
ghost use Rattle.slot_log.specs.TableInside.{NewestAllows};
ghost use Rattle.game_def.specs.Game.{IsGame};
ghost use Rattle.slot_log.specs.declared.command.Command.{Command as Order};
ghost use Rattle.slot_log.specs.Played.{AreHands};
ghost use Rattle.slot_log.specs.Range.{IsInRange};
ghost use Rattle.slot_log.specs.Dealer.{Fits, finished_count, is_running, is_match_over, deal_reason, act_reason, act_for, next_away, reason_of, hands_after, effect_of, effect_of_action, hand_at, with_deal, with_action, IsDealing};

use crate::command::Command;
use crate::effect::Effect;
use crate::laws::fitting_is_in_range;
use crate::played_hand::PlayedHand;
use crate::reason::Reason;
use betting::{Action, Play, laws};
use card_core::Deal;
use game_def::GameDef;
use std::alloc::{AllocError, Global};
use std::marker::Model;

/// The sequential dealer of a match: every hand that was dealt, from the first on.
///
/// Contracts see the game, the number of hands of the match, the hands dealt so far (newest first, each
/// with its actions newest first), and for how many more hands there is room without further memory.
pub struct Table {
    game: GameDef,
    count: u32,
    earlier: Vec<PlayedHand>,
    newest: Option<PlayedHand>,
}

/// By hand, so that letting one go is one call for whoever owns it (docs/ARCHITECTURE.md, Habits).
impl Drop for Table {
    fn drop(self) {
        let Table {
            game: _,
            count: _,
            earlier: _,
            newest: _,
        } = self;
    }
}

impl Model for Table {
    ghost use Rattle.slot_log.specs.Hand.{Match};

    ghost Value = { Match };

    ghost use Rattle.slot_log.specs.TableInside.{IsKept, match_of};

    ghost view = { match_of };

    ghost invariant = { IsKept };
}

impl Table {
    /// The table of a match before its first hand. The match has 1 to 10000 hands.
    ///
    /// It takes no memory yet; what `apply` and `reserve` take comes from this allocator.
    pub fn new(alloc: Global, game: GameDef, hands: u32) -> Table
        requires least { 1 ≤ hands }
        requires most { hands ≤ 10000 }
        ensures { result ≡ record { game = game; count = hands; hands = []; room = 0 } }
    {
        Table {
            game,
            count: hands,
            earlier: Vec::new(alloc),
            newest: None,
        }
    }

    /// The game.
    pub fn game(&self) -> &GameDef
        ensures { result.now ≡ self.now.game }
    {
        &self.game
    }

    /// How many hands the match has, 1 to 10000.
    pub fn hands(&self) -> u32
        ensures value { result ≡ self.now.count }
        ensures least { 1 ≤ result }
        ensures most { result ≤ 10000 }
    {
        self.count
    }

    /// How many hands were dealt, the one that runs among them: 0 to `hands()`.
    pub fn dealt(&self) -> u32
        ensures value { result ≡ length self.now.hands }
        ensures within { result ≤ self.now.count }
        ensures most { result ≤ 10000 }
    {
        match &self.newest {
            Some(_) => self.earlier.len() as u32 + 1,
            None => self.earlier.len() as u32,
        }
    }

    /// How many hands are finished: 0 to `hands()`.
    pub fn finished(&self) -> u32
        ensures value { result ≡ finished_count self.now.game self.now.hands }
        ensures within { result ≤ self.now.count }
        ensures most { result ≤ 10000 }
    {
        let earlier = self.earlier.len() as u32;
        match &self.newest {
            Some(hand) if hand.play.finished() => earlier + 1,
            _ => earlier,
        }
    }

    /// Whether a hand runs: one was dealt, and its betting isn't over.
    pub fn running(&self) -> bool
        ensures { result ≡ is_running self.now.game self.now.hands }
    {
        match &self.newest {
            Some(hand) => !hand.play.finished(),
            None => false,
        }
    }

    /// Whether all hands of the match are finished.
    pub fn over(&self) -> bool
        ensures { result ≡ is_match_over self.now.game self.now.count self.now.hands }
    {
        self.count <= self.finished()
    }

    fn hand(&self, hand: u32) -> Option<&PlayedHand>
        ensures value { option_map (λ found. hand_of found.now) result ≡ hand_at self.now.hands hand }
        ensures kept { IfSome result (λ found. IsOf self.now.game found.now) }
    {
        let place = hand as usize;
        if place == self.earlier.len() {
            self.newest.as_ref()
        } else {
            self.earlier.get(place)
        }
    }

    /// Why a command does nothing now, the first reason in the order of `Reason`'s use: for a deal
    /// `MatchDone`, `HandRunning`, `WrongHand`, `WrongCards`; for an act `MatchDone`, `NoHand`,
    /// `WrongHand`, `WrongIndex`, `Illegal`; the same for what plays for a player who is away, but
    /// never `Illegal`. None where it fits.
    pub fn reason(&self, command: &Command) -> Option<Reason>
        ensures { result ≡ reason_of self.now.game self.now.count self.now.hands command.now }
    {
        if self.over() {
            return Some(Reason::MatchDone);
        }
        match command {
            Command::Deal { hand, deal } => self.deal_reason(*hand, deal),
            Command::Act {
                hand,
                index,
                action,
            } => self.act_reason(*hand, *index, *action),
            Command::Away { hand, index } => { self.act_reason(*hand, *index, self.away_action()) }
        }
    }

    /// What is done for the player to act of the newest hand where he is away.
    fn away_action(&self) -> Action
        ensures { result ≡ act_for self.now.game self.now.hands }
    {
        match &self.newest {
            Some(newest) => newest.away_action(),
            None => Action::Call,
        }
    }

    /// The command by which the player to act is played for; none where no hand runs.
    pub fn away(&self) -> Option<Command>
        ensures value { option_map (λ command. command) result ≡ next_away self.now.game self.now.hands }
    {
        let Some(newest) = &self.newest else {
            return None;
        };
        if newest.play.finished() {
            return None;
        }
        Some(Command::Away {
            hand: self.earlier.len() as u32,
            index: newest.play.actions().len() as u16,
        })
    }

    fn deal_reason(&self, hand: u32, deal: &Deal) -> Option<Reason>
        ensures { result ≡ deal_reason self.now.game self.now.hands hand deal.now }
    {
        if self.running() {
            Some(Reason::HandRunning)
        } else if hand != self.finished() {
            Some(Reason::WrongHand)
        } else if deal.cards().len() != 2 * self.game.players() + 5 {
            Some(Reason::WrongCards)
        } else {
            None
        }
    }

    fn act_reason(&self, hand: u32, index: u16, action: Action) -> Option<Reason>
        ensures { result ≡ act_reason self.now.game self.now.hands hand index action }
    {
        let Some(newest) = &self.newest else {
            return Some(Reason::NoHand);
        };
        if newest.play.finished() {
            Some(Reason::NoHand)
        } else if hand as usize != self.earlier.len() {
            Some(Reason::WrongHand)
        } else if index as usize != newest.play.actions().len() {
            Some(Reason::WrongIndex)
        } else {
            newest.play.fault(action).map(Reason::Illegal)
        }
    }

    /// What holds of every table: its game's limits, and that its hands are legal, all but the newest finished and no
    /// more than the match has. So the numbers of a command that fits are within their ranges.
    pub fn limits(&self)
        ensures game { IsGame self.now.game }
        ensures hands { AreHands self.now.game self.now.count self.now.hands }
        ensures most { self.now.count ≤ 10000 }
        ensures range { (command : Order) → Fits self.now.game self.now.count self.now.hands command → IsInRange command }
    {
        fitting_is_in_range();
        self.game.limits();
        let _ = &self.count;
    }

    /// Whether a command would take effect now.
    pub fn fits(&self, command: &Command) -> bool
        ensures fitting { IsTrue result ↔ (Fits self.now.game self.now.count self.now.hands command.now) }
        ensures reasonless { result ≡ is_none (reason_of self.now.game self.now.count self.now.hands command.now) }
        ensures range { IsTrue result → IsInRange command.now }
    {
        laws::allowed_without_fault();
        self.limits();
        self.reason(command).is_none()
    }

    /// The deal of a hand, counted from 0 in the order of dealing. None where that hand hasn't been dealt.
    pub fn deal(&self, hand: u32) -> Option<&Deal>
        ensures value { option_map (λ deal. deal.now) result ≡ option_map (λ found. found.deal) (hand_at self.now.hands hand) }
        ensures deal { IfSome result (λ deal. IsDeal self.now.game.players deal.now) }
    {
        self.hand(hand).map(|found| &found.deal)
    }

    /// The betting of a hand, finished or running, counted from 0 in the order of dealing. None where that
    /// hand hasn't been dealt.
    pub fn play(&self, hand: u32) -> Option<&Play>
        ensures value { option_map (λ play. play.now.past) result ≡ option_map (λ found. found.past) (hand_at self.now.hands hand) }
        ensures game { IfSome result (λ play. play.now.game ≡ self.now.game) }
    {
        self.hand(hand).map(|found| &found.play)
    }

    /// Takes a command: where it fits, it takes effect; any other does nothing, and the effect says why.
    ///
    /// An `Err` comes only at a deal that fits, where memory for a further hand was refused; then nothing has
    /// changed. Room is taken only by a hand that begins.
    pub fn apply(&mut self, command: &Command) -> Result<Effect, AllocError>
        ensures effect { IfOk result (λ effect. effect ≡ effect_of self.old.game self.old.count self.old.hands command.now) }
        ensures hands { OnOk result (self.new.hands ≡ hands_after self.old.game self.old.count self.old.hands command.now) }
        ensures game { self.new.game ≡ self.old.game }
        ensures count { self.new.count ≡ self.old.count }
        // Each call takes up the room of one hand at the most, and only where it deals one.
        ensures room { OnOk result (self.old.room ≤ self.new.room + 1) }
        ensures dealt { OnOk result (self.old.room + length self.old.hands ≤ self.new.room + length self.new.hands) }
        ensures err { OnErr result (self.new ≡ self.old) }
        ensures full { OnErr result (self.old.room ≡ 0) }
        ensures deal { OnErr result (IsDealing command.now) }
        ensures fitting { OnErr result (reason_of self.old.game self.old.count self.old.hands command.now ≡ None) }
    {
        laws::allowed_without_fault();
        if let Some(reason) = self.reason(command) {
            return Ok(Effect::None(reason));
        }
        match command {
            Command::Deal { deal, .. } => self.begin(*deal),
            Command::Act { action, .. } => Ok(self.act(*action)),
            Command::Away { .. } => {
                let action = self.away_action();
                Ok(self.act(action))
            }
        }
    }

    /// Takes a command where there is room for a hand, as `apply` does: this can't fail.
    pub fn apply_reserved(&mut self, command: &Command) -> Effect
        requires { 1 ≤ self.old.room }
        ensures effect { result ≡ effect_of self.old.game self.old.count self.old.hands command.now }
        ensures hands { self.new.hands ≡ hands_after self.old.game self.old.count self.old.hands command.now }
        ensures game { self.new.game ≡ self.old.game }
        ensures count { self.new.count ≡ self.old.count }
        ensures room { self.old.room ≤ self.new.room + 1 }
        ensures dealt { self.old.room + length self.old.hands ≤ self.new.room + length self.new.hands }
    {
        match self.apply(command) {
            Ok(effect) => effect,
            Err(_) => unreachable!(),
        }
    }

    /// Makes room for so many hands: the next that many calls of `apply` don't want memory.
    ///
    /// An `Err` comes only where memory was refused; then nothing has changed. It keeps the list of hands to this file.
    pub fn reserve(&mut self, hands: usize) -> Result<(), AllocError>
        ensures room { OnOk result (hands ≤ self.new.room) }
        ensures kept { self.old.room ≤ self.new.room }
        ensures same { self.new ≡ record self.old { room = self.new.room } }
        ensures err { OnErr result (self.new ≡ self.old) }
        ensures full { OnErr result (self.old.room < hands) }
    {
        self.earlier.reserve(hands)
    }

    /// Begins a hand.
    fn begin(&mut self, deal: Deal) -> Result<Effect, AllocError>
        requires none_runs { is_running self.old.game self.old.hands ≡ false }
        requires goes_on { finished_count self.old.game self.old.hands < self.old.count }
        requires cards { length deal ≡ 2 * self.old.game.players + 5 }
        ensures effect { IfOk result (λ effect. effect ≡ Dealt) }
        ensures hands { OnOk result (self.new.hands ≡ with_deal self.old.hands deal) }
        ensures game { self.new.game ≡ self.old.game }
        ensures count { self.new.count ≡ self.old.count }
        ensures room { OnOk result (self.old.room ≤ self.new.room + 1) }
        ensures err { OnErr result (self.new ≡ self.old) }
        ensures full { OnErr result (self.old.room ≡ 0) }
    {
        self.earlier.reserve(1)?;
        if let Some(finished) = self.newest.take() {
            self.earlier.push_reserved(finished);
        }
        self.newest = Some(PlayedHand::new(&self.game, deal));
        Ok(Effect::Dealt)
    }

    /// Takes the action of the player to act.
    fn act(&mut self, action: Action) -> Effect
        requires { NewestAllows self.old.game self.old.hands action }
        ensures hands { self.new.hands ≡ with_action self.old.hands action }
        ensures effect { result ≡ effect_of_action self.old.game self.old.count self.new.hands }
        ensures game { self.new.game ≡ self.old.game }
        ensures count { self.new.count ≡ self.old.count }
        ensures room { self.old.room ≡ self.new.room }
    {
        if let Some(hand) = &mut self.newest {
            hand.act(action);
        }
        if self.running() {
            Effect::Acted
        } else if self.over() {
            Effect::MatchOver
        } else {
            Effect::HandOver
        }
    }
}
