ghost use Rattle.std.specs.Prelude.{◌≡◌, ◌+◌, ◌-◌, ◌*◌, ◌<◌, ◌≤◌, min, if◌then◌else◌, None, ℕ, [], length, slice_index};
ghost use Rattle.game_def.specs.Game.{big_blind, stack_of, blind_of, most_chips};
ghost use Rattle.betting.specs.Turns.{count_below};
ghost use Rattle.betting.specs.Rounds.{first_from, first_cyclic};
ghost use Rattle.betting.specs.TotalsInside.{IsTotals, least_by, greatest_by, no_raise_by, seat_lives, lives_in, stays_in, folds, calls, puts_in, raises_to, takes, round_after, ends_hand, enters, looks_from, advances, GoesUp};

use crate::action::Action;
use crate::fault::ActFault;
use crate::limits::ACTIONS_OF_A_ROUND;
use card_core::limits::PLAYERS;
use game_def::GameDef;
use game_def::limits::ROUNDS;

/// The last round of a hand; rounds count from 0.
const LAST_ROUND: usize = ROUNDS - 1;

/// The running totals of a hand: what a list of its actions would have to be searched for.
#[derive(Clone, Copy, Debug)]
pub(crate) struct Totals {
    /// What each position has in, in chips over the whole hand.
    pub(crate) spent: [u32; PLAYERS],
    /// Who has given the hand up.
    pub(crate) folded: [bool; PLAYERS],
    /// The greatest amount that anyone has in.
    pub(crate) max_spent: u32,
    /// The least amount of a full raise.
    pub(crate) min_to: u64,
    /// The round that has begun.
    pub(crate) round: usize,
    /// The raises of that round.
    pub(crate) raises: usize,
    /// The actions of that round.
    pub(crate) actions: usize,
    /// How many have yet to act since the last raise.
    pub(crate) owing: usize,
    /// The position to act; none once the hand is over.
    pub(crate) next: Option<usize>,
}

/// What each position has in before the first action.
fn blinds(game: &GameDef) -> [u32; PLAYERS]
    ensures each { (position : ℕ) → position < game.now.players → slice_index result position ≡ blind_of game.now position }
    ensures places { length result ≡ 10 }
{
    let mut blinds = [0; PLAYERS];
    for position in 0..game.players() {
        blinds[position] = game.blind(position);
    }
    blinds
}

impl Totals {
    /// The totals before the first action: the blinds are in, and everybody has yet to act.
    pub(crate) fn new(game: &GameDef) -> Totals
        ensures { IsTotals game.now [] result }
    {
        game.limits();
        let big_blind = game.big_blind();
        Totals {
            spent: blinds(game),
            folded: [false; PLAYERS],
            max_spent: big_blind,
            min_to: 2 * u64::from(big_blind),
            round: 0,
            raises: 0,
            actions: 0,
            owing: game.players(),
            next: Some(game.first_player(0)),
        }
    }

    /// Whether a position is in the hand and has chips left.
    fn is_live(&self, game: &GameDef, position: usize) -> bool
        requires seat { position < game.now.players }
        requires room { position < 10 }
        ensures { result ≡ seat_lives game.now self.now position }
    {
        !self.folded[position] && self.spent[position] < game.stack(position)
    }

    /// How many positions are live.
    fn live_count(&self, game: &GameDef) -> usize
        ensures value { result ≡ lives_in game.now self.now }
        ensures most { result ≤ game.now.players }
    {
        let mut count = 0;
        for position in 0..game.players() {
            if self.is_live(game, position) {
                count += 1;
            }
        }
        count
    }

    /// How many positions but one are live.
    fn others_live(&self, game: &GameDef, position: usize) -> usize
        requires seat { position < game.now.players }
        requires array { position < 10 }
        ensures { result ≡ lives_in game.now self.now - (if seat_lives game.now self.now position then 1 else 0) }
    {
        let live = self.live_count(game);
        if self.is_live(game, position) {
            live - 1
        } else {
            live
        }
    }

    /// How many positions haven't folded.
    pub(crate) fn unfolded_count(&self, game: &GameDef) -> usize
        ensures { result ≡ stays_in game.now self.now }
    {
        let mut count = 0;
        for position in 0..game.players() {
            if !self.folded[position] {
                count += 1;
            }
        }
        count
    }

    /// The first live position from one on and below another.
    fn first_live(&self, game: &GameDef, from: usize, to: usize) -> Option<usize>
        requires seats { to ≤ game.now.players }
        requires room { to ≤ 10 }
        ensures { result ≡ first_from (seat_lives game.now self.now) from (to - from) }
    {
        for position in from..to {
            if self.is_live(game, position) {
                return Some(position);
            }
        }
        None
    }

    /// The first live position from one onwards, cyclic.
    fn next_live(&self, game: &GameDef, start: usize) -> Option<usize>
        requires { start ≤ game.now.players }
        ensures { result ≡ first_cyclic (seat_lives game.now self.now) game.now.players start }
    {
        match self.first_live(game, start, game.players()) {
            Some(position) => Some(position),
            None => self.first_live(game, 0, start),
        }
    }

    /// The least and the greatest amount of a raise by a position that may raise.
    pub(crate) fn raise_ends(&self, game: &GameDef, position: usize) -> (u32, u32)
        requires seat { position < game.now.players }
        requires round { self.now.round ≤ 3 }
        ensures least { result.0 ≡ least_by game.now self.now position }
        ensures greatest { result.1 ≡ greatest_by game.now self.now position }
    {
        let stack = game.stack(position);
        match game.raise_size(self.round) {
            Some(size) => {
                let amount = self.limit_to(stack, size);
                (amount, amount)
            }
            None => (self.min_to.min(u64::from(stack)) as u32, stack),
        }
    }

    /// The amount of a limit raise.
    fn limit_to(&self, stack: u32, size: u32) -> u32
        ensures { result ≡ min (self.now.max_spent + size) stack }
    {
        let full = u64::from(self.max_spent) + u64::from(size);
        full.min(u64::from(stack)) as u32
    }

    /// Why a position may not raise at all.
    pub(crate) fn no_raise(&self, game: &GameDef, position: usize) -> Option<ActFault>
        requires seat { position < game.now.players }
        requires round { self.now.round ≤ 3 }
        requires actions { self.now.actions ≤ 64 }
        ensures { result ≡ no_raise_by game.now self.now position }
    {
        let stack = game.stack(position);
        if self.raises >= usize::from(game.max_raises(self.round)) {
            Some(ActFault::TooManyRaises)
        } else if self.actions + game.players() > ACTIONS_OF_A_ROUND {
            Some(ActFault::RoundFull)
        } else if self.live_count(game) < 2 {
            Some(ActFault::NobodyToCall)
        } else if stack <= self.max_spent {
            Some(ActFault::RaiseTooLarge(stack))
        } else {
            None
        }
    }

    /// Gives a position's hand up.
    fn fold(&mut self, position: usize)
        requires seat { position < 10 }
        requires acts { 1 ≤ self.old.owing }
        requires room { self.old.actions < 64 }
        ensures { self.new ≡ folds self.old position }
    {
        self.folded[position] = true;
        self.actions += 1;
        self.owing -= 1;
    }

    /// Puts a position at the greatest amount, or all in.
    fn call(&mut self, game: &GameDef, position: usize)
        requires seat { position < game.now.players }
        requires array { position < 10 }
        requires acts { 1 ≤ self.old.owing }
        requires room { self.old.actions < 64 }
        ensures { self.new ≡ calls game.now self.old position }
    {
        self.spent[position] = self.max_spent.min(game.stack(position));
        self.actions += 1;
        self.owing -= 1;
    }

    /// Puts a position at an amount above all others; every other live player owes an answer.
    fn raise(&mut self, game: &GameDef, position: usize, amount: u32)
        requires seat { position < game.now.players }
        requires array { position < 10 }
        requires above { self.old.max_spent < amount }
        requires room { self.old.actions < 64 }
        requires raises { self.old.raises < 64 }
        ensures { self.new ≡ raises_to game.now self.old position amount }
    {
        let least = 2 * u64::from(amount) - u64::from(self.max_spent);
        self.min_to = self.min_to.max(least);
        self.spent[position] = amount;
        self.max_spent = amount;
        self.raises += 1;
        self.actions += 1;
        self.owing = self.others_live(game, position);
    }

    /// Whether the hand is over after an action, by how many haven't folded and how many are live.
    fn ends_hand(&self, unfolded: usize, live: usize) -> bool
        ensures { result ≡ ends_hand self.now unfolded live }
    {
        unfolded < 2 || self.owing == 0 && (live < 2 || self.round == LAST_ROUND)
    }

    /// The round that has begun after an action: the next one at a round's end, and the last one where
    /// fewer than two players can bet on.
    fn round_after(&self, unfolded: usize, live: usize) -> usize
        requires { self.now.round ≤ 3 }
        ensures value { result ≡ round_after self.now unfolded live }
        ensures last { result ≤ 3 }
    {
        if unfolded < 2 || self.owing > 0 {
            self.round
        } else if live > 1 {
            LAST_ROUND.min(self.round + 1)
        } else {
            LAST_ROUND
        }
    }

    /// Begins a round, where it isn't the one that runs.
    fn enter(&mut self, game: &GameDef, round: usize, live: usize)
        ensures { self.new ≡ enters game.now self.old round live }
    {
        if round != self.round {
            self.round = round;
            self.raises = 0;
            self.actions = 0;
            self.owing = live;
            self.min_to = u64::from(self.max_spent) + u64::from(game.big_blind());
        }
    }

    /// From where the next to act is looked for: from behind the last one, or the first of a new round.
    fn looks_from(&self, game: &GameDef, round: usize, position: usize) -> usize
        requires seat { position < game.now.players }
        requires array { position < 10 }
        requires last { round ≤ 3 }
        ensures value { result ≡ looks_from game.now self.now round position }
        ensures most { result ≤ game.now.players }
    {
        if round == self.round {
            position + 1
        } else {
            game.first_player(round)
        }
    }

    /// The next to act from a position onwards; none where the hand is over.
    fn next_from(&self, game: &GameDef, start: usize, is_over: bool) -> Option<usize>
        requires { start ≤ game.now.players }
        ensures { result ≡ (if is_over then None else first_cyclic (seat_lives game.now self.now) game.now.players start) }
    {
        if is_over {
            None
        } else {
            self.next_live(game, start)
        }
    }

    /// After an action of a position: the round goes on, ends, or ends the hand.
    fn advance(&mut self, game: &GameDef, position: usize)
        requires seat { position < game.now.players }
        requires array { position < 10 }
        requires round { self.old.round ≤ 3 }
        ensures { self.new ≡ advances game.now self.old position }
    {
        let unfolded = self.unfolded_count(game);
        let live = self.live_count(game);
        let round = self.round_after(unfolded, live);
        let start = self.looks_from(game, round, position);
        let next = self.next_from(game, start, self.ends_hand(unfolded, live));
        self.enter(game, round, live);
        self.next = next;
    }

    /// One more action, of the position to act.
    pub(crate) fn act(&mut self, game: &GameDef, position: usize, action: Action)
        requires seat { position < game.now.players }
        requires array { position < 10 }
        requires round { self.old.round ≤ 3 }
        requires acts { 1 ≤ self.old.owing }
        requires room { self.old.actions < 64 }
        requires raises { self.old.raises < 64 }
        requires above { GoesUp self.old.max_spent action }
        ensures { self.new ≡ advances game.now (takes game.now self.old position action) position }
    {
        match action {
            Action::Fold => self.fold(position),
            Action::Call => self.call(game, position),
            Action::Raise(amount) => self.raise(game, position, amount),
        }
        self.advance(game, position);
    }
}
