ghost use Rattle.std.specs.Prelude.{◌≡◌, ℕ, ◌++◌, List, IsSomeAnd};
ghost use Rattle.card_core.specs.Deal.{IsDeal};
ghost use Rattle.slot_log.specs.Hand.{Hand};
ghost use Rattle.matchstate.specs.Cards.{holes_of, board_shown};
ghost use Rattle.matchstate.specs.View.{rounds_seen};
ghost use Rattle.match_log.specs.Check.{HasTitle, IsPlayed};
ghost use Rattle.match_log.specs.Lines.{names_field, state_line};
ghost use Rattle.match_log.specs.Log.{Title};
ghost use Rattle.match_log.specs.Names.{AreNames, names_by_position};

use betting::Play;
use card_core::Deal;
use game_def::GameDef;
use matchstate::{cut, read_betting, read_number, read_shown};

/// What a right line says of a hand, the names of the positions with `|` between them, and what stands behind it.
#[derive(Drop)]
pub(crate) struct HandLine<'a> {
    pub(crate) play: Play,
    /// Cards that the line doesn't show are any others of the pack.
    pub(crate) deal: Deal,
    pub(crate) names: &'a [u8],
    pub(crate) behind: &'a [u8],
}

/// How many hands a log's header says, and what stands behind it; any answer where no header is there.
pub(crate) fn read_title(log: &[u8]) -> Option<(u32, &[u8])>
    ensures { (title : Title) (rest : List ℕ) → HasTitle log.now title rest → IsSomeAnd result (λ read. (read.0 ≡ title.hands) × (read.1.now ≡ rest)) }
{
    let words = after(log, b"# name/game/hands ")?;
    let (_name, words) = cut(words, b' ')?;
    let (_game, words) = cut(words, b' ')?;
    let (hands, behind) = cut(words, b'\n')?;
    Some((read_number(hands)?, behind))
}

/// The hand that a log's line says; any answer where no right line is there.
pub(crate) fn read_hand<'a>(bytes: &'a [u8], game: &GameDef) -> Option<HandLine<'a>>
    ensures { (names : List (List ℕ)) (number : ℕ) (hand : Hand) (behind : List ℕ) → AreNames game.now.players names → IsPlayed game.now hand → bytes.now ≡ state_line game.now names number hand ++ behind
        → IsSomeAnd result (λ line. (line.play ≡ record { game = game.now; past = hand.past }) × (IsDeal game.now.players line.deal) × (holes_of game.now.players line.deal ≡ holes_of game.now.players hand.deal) × (board_shown (rounds_seen game.now hand.past) line.deal ≡ board_shown (rounds_seen game.now hand.past) hand.deal) × (line.names.now ≡ names_field (names_by_position game.now.players number names)) × (line.behind.now ≡ behind)) }
{
    let players = game.players();
    let line = after(bytes, b"STATE:")?;
    let (_number, line) = cut(line, b':')?;
    let (betting, line) = cut(line, b':')?;
    let (cards, line) = cut(line, b':')?;
    let (_values, line) = cut(line, b':')?;
    let (names, behind) = cut(line, b'\n')?;
    let play = read_betting(betting, game)?;
    let deal = read_shown(cards, players, play.round())?;
    Some(HandLine {
        play,
        deal,
        names,
        behind,
    })
}

/// What stands behind these bytes; none where others stand in front.
fn after<'a>(bytes: &'a [u8], front: &[u8]) -> Option<&'a [u8]>
    ensures { (behind : List ℕ) → bytes.now ≡ front.now ++ behind → IsSomeAnd result (λ rest. rest.now ≡ behind) }
{
    bytes.strip_prefix(front)
}
