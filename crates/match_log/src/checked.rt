ghost use Rattle.std.specs.Prelude.{◌≡◌, ℕ, ◌≤◌, ◌<◌, ◌++◌, List, length, replicate, pos, None, IfErr, IfOk, IsSome};
ghost use Rattle.slot_log.specs.Hand.{Hand};
ghost use Rattle.match_log.specs.Check.{IsStateFault, IsScoreFault};
ghost use Rattle.match_log.specs.Lines.{score_line};
ghost use Rattle.match_log.specs.Names.{AreNames};
ghost use Rattle.match_log.specs.Reading.{HasSaid, IsNext};

use crate::fault_kind::LogFaultKind;
use crate::front::begins_line;
use crate::name::Name;
use crate::printed_text::{after_score, are_values_printed, is_number_printed};
use crate::score::Score;
use crate::seats::seats;
use crate::settlement::payoffs;
use crate::state_fields::read_state;
use card_core::limits::PLAYERS;
use game_def::GameDef;

/// What the lines of a log have said so far, each of them right.
#[derive(Drop)]
pub(crate) struct Checked {
    /// The seats' names; none before the first hand.
    names: Option<[Name; PLAYERS]>,
    score: Score,
}

impl Checked {
    /// Before the first hand.
    pub(crate) fn new() -> Checked
        ensures { result ≡ record { names = None; score = record { totals = replicate 10 (pos 0); hands = 0 } } }
    {
        Checked {
            names: None,
            score: Score::new(),
        }
    }

    /// Takes the next hand's line, and gives what stands behind it.
    pub(crate) fn take_hand<'a>(
        &mut self,
        bytes: &'a [u8],
        game: &GameDef,
    ) -> Result<&'a [u8], LogFaultKind>
        requires { self.old.score.hands < 10000 }
        ensures fault { (names : List (List ℕ)) (hands : List Hand) → AreNames game.now.players names → HasSaid game.now names hands self.old → IfErr result (λ kind. IsStateFault game.now names hands bytes.now kind) }
        ensures next { (names : List (List ℕ)) (hands : List Hand) → AreNames game.now.players names → HasSaid game.now names hands self.old → IfOk result (λ behind. IsNext game.now names hands bytes.now behind.now self.new) }
    {
        if bytes.is_empty() {
            return Err(LogFaultKind::WrongScore);
        }
        if begins_line(bytes, b"SCORE:") {
            return Err(LogFaultKind::WrongNumber);
        }
        let Some(line) = read_state(bytes, game) else {
            return Err(LogFaultKind::BadState);
        };
        let behind = line.behind;
        let Some(names) = seats(&line.names, line.number, game.players(), &self.names) else {
            return Err(LogFaultKind::BadState);
        };
        if !is_number_printed(line.number, self.score.hands()) {
            return Err(LogFaultKind::WrongNumber);
        }
        let payoffs = payoffs(game, &line.play, &line.deal);
        if !are_values_printed(line.values, payoffs.as_slice()) {
            return Err(LogFaultKind::WrongValues);
        }
        self.names = Some(names);
        self.score.add(payoffs.as_slice());
        Ok(behind)
    }

    /// Tests the score's line, and gives what stands behind it.
    pub(crate) fn take_score<'a>(
        &self,
        bytes: &'a [u8],
        game: &GameDef,
    ) -> Result<&'a [u8], LogFaultKind>
        requires { IsSome self.now.names }
        ensures fault { (names : List (List ℕ)) (hands : List Hand) → HasSaid game.now names hands self.now → IfErr result (λ kind. IsScoreFault game.now names hands bytes.now kind) }
        ensures line { (names : List (List ℕ)) (hands : List Hand) → HasSaid game.now names hands self.now → IfOk result (λ behind. bytes.now ≡ score_line game.now names hands ++ behind.now) }
    {
        if begins_line(bytes, b"STATE:") {
            return Err(LogFaultKind::WrongNumber);
        }
        let Some(names) = &self.names else {
            unreachable!()
        };
        let totals = self.score.totals(game.players());
        match after_score(bytes, totals, &names[..game.players()]) {
            Some(behind) => Ok(behind),
            None => Err(LogFaultKind::WrongScore),
        }
    }
}
