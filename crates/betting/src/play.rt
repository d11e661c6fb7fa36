ghost use Rattle.std.specs.Prelude.{◌≡◌, ◌∷◌, [], Some, None, IsSome, ◌<◌, ◌≤◌, ◌↔◌, ℕ, List, length, reverse, slice_index, is_ok, IsOk, IsTrue, IfErr, IfSome, MatchOption, if◌then◌else◌};
ghost use Rattle.game_def.specs.Game.{stack_of};
ghost use Rattle.betting.specs.Turns.{spent, folded, unfolded_count, max_spent};
ghost use Rattle.betting.specs.Rounds.{current_round, over, to_act};
ghost use Rattle.betting.specs.Legal.{CanAct, IsRaiseRange, Legal, fault_of, least_raise, greatest_raise, no_raise, fault_of_raise, fault_at};
ghost use Rattle.betting.specs.Text.{slash_counts};
ghost use Rattle.betting.specs.Betting.{history};

use crate::action::Action;
use crate::fault::ActFault;
use crate::limits::ACTIONS;
use crate::totals::Totals;
use game_def::GameDef;
use std::marker::Model;

/// The betting of one hand: its game, and the actions so far, each of which was allowed.
///
/// Contracts see a play as its game and the list of its actions, newest first.
#[derive(Debug, Drop)]
pub struct Play {
    game: GameDef,
    actions: [Action; ACTIONS],
    slashes: [u8; ACTIONS],
    count: usize,
    totals: Totals,
}

/// The room for a hand's actions.
fn room_for_actions() -> [Action; ACTIONS]
    ensures { length result ≡ 256 }
{
    [Action::Fold; ACTIONS]
}

/// The room for the numbers of slashes behind them.
fn room_for_slashes() -> [u8; ACTIONS]
    ensures { length result ≡ 256 }
{
    [0; ACTIONS]
}

impl Model for Play {
    ghost use Rattle.betting.specs.Betting.{Betting};

    ghost Value = { Betting };

    ghost use Rattle.betting.specs.PlayInside.{betting_of, IsKept};

    ghost view = { betting_of };

    ghost invariant = { IsKept };
}

impl Play {
    /// A hand of a game before its first action.
    pub fn new(game: &GameDef) -> Play
        ensures { result ≡ record { game = game.now; past = [] } }
    {
        game.limits();
        Play {
            game: *game,
            actions: room_for_actions(),
            slashes: room_for_slashes(),
            count: 0,
            totals: Totals::new(game),
        }
    }

    /// Takes an action of the player to act, and the turn passes on. A fault leaves the play as it was:
    /// 20 the hand is over; for a fold 21 where nothing is faced; for a raise the first of 22 the round has had its
    /// raises, 26 the round has no room for a raise and its answers, 23 fewer than two players could bet on, 25 the
    /// player's stack isn't above the greatest amount, and then 24 and 25 with the ends of the legal amounts.
    pub fn act(&mut self, action: Action) -> Result<(), ActFault>
        ensures allowed { IsOk result ↔ CanAct self.old.game (history self.old) action }
        ensures fault { IfErr result (λ fault. fault_of self.old.game (history self.old) action ≡ Some fault) }
        ensures after { self.new ≡ (if is_ok result then record { game = self.old.game; past = action ∷ self.old.past } else self.old) }
    {
        if let Some(fault) = self.fault(action) {
            return Err(fault);
        }
        self.take_action(action);
        Ok(())
    }

    /// Takes an action of the player to act that is known to be allowed, as `act` does where there is no fault.
    pub fn take_action(&mut self, action: Action)
        requires { CanAct self.old.game (history self.old) action }
        ensures { self.new ≡ record { game = self.old.game; past = action ∷ self.old.past } }
    {
        let Some(position) = self.totals.next else {
            unreachable!();
        };
        let round = self.totals.round;
        self.actions[self.count] = action;
        self.totals.act(&self.game, position, action);
        self.slashes[self.count] = self.totals.round.saturating_sub(round) as u8;
        self.count += 1;
    }

    /// The least and the greatest amount that the player to act may raise to, in chips over the whole hand: the
    /// same twice in a limit game; none where no raise is allowed.
    pub fn raise_range(&self) -> Option<(u32, u32)>
        ensures ends { MatchOption result ((amount : ℕ) → ¬ CanAct self.now.game (history self.now) (Action.Raise amount)) (λ ends. IsRaiseRange self.now.game (history self.now) ends.0 ends.1) }
        ensures fixed { IsSome self.now.game.raise_sizes → IfSome result (λ ends. ends.0 ≡ ends.1) }
    {
        let position = self.totals.next?;
        match self.no_raise(position) {
            Some(_) => None,
            None => Some(self.raise_ends(position)),
        }
    }

    /// The game.
    pub fn game(&self) -> &GameDef
        ensures { result.now ≡ self.now.game }
    {
        &self.game
    }

    /// The number of players of its game, 2 to 10: with its bounds, for callers that have a play in hand.
    pub fn players(&self) -> usize
        ensures value { result ≡ self.now.game.players }
        ensures least { 2 ≤ result }
        ensures most { result ≤ 10 }
    {
        self.game.players()
    }

    /// The position to act; none once the hand is over.
    pub fn to_act(&self) -> Option<usize>
        ensures value { result ≡ to_act self.now.game (history self.now) }
        ensures seat { IfSome result (λ position. position < self.now.game.players) }
    {
        self.totals.next
    }

    /// What a position has in, in chips over the whole hand: at most its stack.
    pub fn spent(&self, position: usize) -> u32
        requires { position < self.now.game.players }
        ensures value { result ≡ spent self.now.game (history self.now) position }
        ensures most { result ≤ stack_of self.now.game position }
        ensures greatest { result ≤ max_spent self.now.game (history self.now) }
    {
        let spent = &self.totals.spent;
        spent[position]
    }

    /// Whether a position has given the hand up.
    pub fn folded(&self, position: usize) -> bool
        requires { position < self.now.game.players }
        ensures { result ≡ folded (history self.now) position }
    {
        let folded = &self.totals.folded;
        folded[position]
    }

    /// How many positions haven't given the hand up. The totals count them; here it is said of the actions.
    pub fn unfolded(&self) -> usize
        ensures { result ≡ unfolded_count self.now.game (history self.now) }
    {
        self.totals.unfolded_count(&self.game)
    }

    /// The last of the rounds that the betting text shows, 0 to 3: the one that has begun, the last one after
    /// an all-in that ends the hand, and that of the fold after the fold that ends it.
    pub fn round(&self) -> usize
        ensures value { result ≡ current_round self.now.game (history self.now) }
        ensures last { result ≤ 3 }
    {
        self.totals.round
    }

    /// Whether the hand is over.
    pub fn finished(&self) -> bool
        ensures { result ≡ over self.now.game (history self.now) }
    {
        let next = &self.totals.next;
        next.is_none()
    }

    /// The actions so far, oldest first; at most 256.
    pub fn actions(&self) -> &[Action]
        ensures value { result.now ≡ reverse self.now.past }
        ensures most { length result.now ≤ 256 }
        ensures legal { Legal self.now.game self.now.past }
    {
        &self.actions[..self.count]
    }

    /// How many `/` stand behind each action in the betting text of the ACPC protocol 2.0.0, oldest first: one for
    /// each further round that the text then shows, 0 to 3.
    pub fn slashes(&self) -> &[u8]
        ensures value { result.now ≡ reverse (slash_counts self.now.game self.now.past) }
        ensures places { length result.now ≡ length self.now.past }
        ensures few { (index : ℕ) → slice_index result.now index ≤ 3 }
    {
        &self.slashes[..self.count]
    }

    /// Why an action isn't allowed, as `act` would say; none where it is allowed.
    pub fn fault(&self, action: Action) -> Option<ActFault>
        ensures { result ≡ fault_of self.now.game (history self.now) action }
    {
        let Some(position) = self.totals.next else {
            return Some(ActFault::Finished);
        };
        match action {
            Action::Fold => self.fault_of_fold(position),
            Action::Call => None,
            Action::Raise(amount) => self.fault_of_raise(position, amount),
        }
    }

    /// Why the position to act may not fold.
    fn fault_of_fold(&self, position: usize) -> Option<ActFault>
        requires { position < self.now.game.players }
        ensures { result ≡ fault_at self.now.game (history self.now) position Action.Fold }
    {
        if self.spent(position) < self.totals.max_spent {
            None
        } else {
            Some(ActFault::FoldNotFacing)
        }
    }

    /// Why the position to act may not raise to an amount.
    fn fault_of_raise(&self, position: usize, amount: u32) -> Option<ActFault>
        requires { position < self.now.game.players }
        ensures { result ≡ fault_of_raise self.now.game (history self.now) position amount }
    {
        if let Some(fault) = self.no_raise(position) {
            return Some(fault);
        }
        let (least, greatest) = self.raise_ends(position);
        if amount < least {
            Some(ActFault::RaiseTooSmall(least))
        } else if amount > greatest {
            Some(ActFault::RaiseTooLarge(greatest))
        } else {
            None
        }
    }

    /// Why the position to act may not raise at all: what the totals say, said of the actions.
    fn no_raise(&self, position: usize) -> Option<ActFault>
        requires { position < self.now.game.players }
        ensures { result ≡ no_raise self.now.game (history self.now) position }
    {
        self.totals.no_raise(&self.game, position)
    }

    /// The least and the greatest amount of a raise of the position to act: what the totals say, said of the actions.
    fn raise_ends(&self, position: usize) -> (u32, u32)
        requires { position < self.now.game.players }
        ensures least { result.0 ≡ least_raise self.now.game (history self.now) position }
        ensures greatest { result.1 ≡ greatest_raise self.now.game (history self.now) position }
    {
        self.totals.raise_ends(&self.game, position)
    }
}
