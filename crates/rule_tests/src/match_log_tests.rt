ghost use Rattle.std.specs.Prelude.{◌≡◌, ◌≤◌, length};

use crate::asserting::{holds, same};
use crate::samples::game;
use betting::{Action, Play};
use card_core::Deal;
use game_def::GameDef;
use match_log::{
    LogFault, LogFaultKind, Name, SeatNames, check, further_lines, header, is_game_word,
    score_line, state_line,
};
use matchstate::{read_betting, read_deal};
use sample_games::{L2, L3, N2, N3};
use slot_log::{Command, Table};
use std::alloc::{AllocError, Global};
use std::process::Abort;
use std::test::Fail;

// Calls with long contracts stand in one function each: a contract is read anew wherever its call stands.

/// Takes a command.
fn apply(table: &mut Table, command: &Command) -> Result<(), AllocError> {
    table.apply(command)?;
    Ok(())
}

/// Takes the actions of a hand.
fn take_actions(table: &mut Table, hand: u32, actions: &[Action]) -> Result<(), AllocError>
    requires { length actions.now ≤ 256 }
{
    for (index, action) in actions.iter().enumerate() {
        let act = Command::Act {
            hand,
            index: index as u16,
            action: *action,
        };
        apply(table, &act)?;
    }
    Ok(())
}

/// The play of a betting text.
fn read(betting: &[u8], game: &GameDef) -> Option<Play> {
    read_betting(betting, game)
}

/// The deal of a text.
fn cards(rt: &impl Abort, text: &[u8], players: usize) -> Deal {
    assert!(rt; 2 <= players && players <= 10);
    read_deal(text, players).expect(rt, "a deal")
}

/// Deals a hand and plays it, by the texts of its cards and of its betting.
fn play(rt: &impl Abort, table: &mut Table, hand: u32, texts: &Hand) -> Result<(), AllocError> {
    let game = *table.game();
    let deal = cards(rt, texts.0, game.players());
    apply(table, &Command::Deal { hand, deal })?;
    let play = read(texts.1, &game).expect(rt, "a play");
    take_actions(table, hand, play.actions())
}

/// The names of a game's seats.
fn seats(rt: &impl Abort, text: &[u8], players: usize) -> SeatNames {
    assert!(rt; 2 <= players && players <= 10);
    SeatNames::read(text, players).expect(rt, "names")
}

/// Sees that there are as many names as seats.
fn name_all_seats(rt: &impl Abort, names: &SeatNames, table: &Table)
    ensures { length names.now ≡ table.now.game.players }
{
    assert_eq!(rt; names.as_slice().len(), table.game().players());
}

/// Puts the header of a match of this game and so many hands.
fn put_header(
    rt: &impl Abort,
    log: &mut Vec<u8>,
    game: &[u8],
    hands: u32,
) -> Result<(), AllocError> {
    let name = Name::new(b"m").expect(rt, "a name");
    assert!(rt; is_game_word(game));
    header(log, name.as_bytes(), game, hands)
}

/// Puts what the log has further.
fn put_further(
    rt: &impl Abort,
    log: &mut Vec<u8>,
    table: &Table,
    names: &SeatNames,
) -> Result<(), AllocError> {
    name_all_seats(rt, names, table);
    further_lines(log, table, names)
}

/// Puts a hand's line.
fn put_hand(
    rt: &impl Abort,
    log: &mut Vec<u8>,
    table: &Table,
    hand: u32,
    names: &SeatNames,
) -> Result<(), AllocError> {
    name_all_seats(rt, names, table);
    assert!(rt; hand < table.finished());
    state_line(log, table, hand, names)
}

/// Puts the line of the score.
fn put_score(
    rt: &impl Abort,
    log: &mut Vec<u8>,
    table: &Table,
    names: &SeatNames,
) -> Result<(), AllocError> {
    name_all_seats(rt, names, table);
    assert!(rt; table.over());
    score_line(log, table, names)
}

/// Plays the hands of a match, and puts what the log gets of each.
fn play_all(
    rt: &impl Abort,
    log: &mut Vec<u8>,
    table: &mut Table,
    names: &SeatNames,
    hands: &[Hand],
) -> Result<(), AllocError> {
    for (hand, texts) in hands.iter().enumerate() {
        assert!(rt; hand < 10_000);
        play(rt, table, hand as u32, texts)?;
        put_further(rt, log, table, names)?;
    }
    Ok(())
}

/// Puts the lines of the hands of a match that is over, and its score.
fn put_lines(
    rt: &impl Abort,
    log: &mut Vec<u8>,
    table: &Table,
    names: &SeatNames,
) -> Result<(), AllocError> {
    for hand in 0..table.finished() {
        put_hand(rt, log, table, hand, names)?;
    }
    put_score(rt, log, table, names)
}

/// Puts the log of a match twice: hand by hand, and once it is over.
fn put_log_twice(
    rt: &impl Abort,
    log: &mut Vec<u8>,
    table: &mut Table,
    played: &Match,
) -> Result<(), AllocError> {
    let names = seats(rt, played.names, table.game().players());
    put_header(rt, log, played.word, table.hands())?;
    play_all(rt, log, table, &names, played.hands)?;
    put_header(rt, log, played.word, table.hands())?;
    put_lines(rt, log, table, &names)
}

/// A hand: the texts of its deal and of its betting.
type Hand = (&'static [u8], &'static [u8]);

/// A match, and its log.
struct Match {
    game: &'static [u8],
    /// The word that its log says of the game.
    word: &'static [u8],
    names: &'static [u8],
    hands: &'static [Hand],
    log: &'static [u8],
}

/// Sees that bytes are a log twice.
fn is_twice(rt: &impl Abort, bytes: &[u8], log: &[u8]) {
    holds!(rt; bytes.len() == 2 * log.len());
    holds!(rt; bytes.starts_with(log));
    holds!(rt; bytes.ends_with(log));
}

/// Sees the log of a match, in which `check` finds nothing wrong.
fn has_log(rt: &impl Abort, alloc: Global, played: &Match) -> Result<(), AllocError> {
    let game = game(rt, played.game);
    let count = played.hands.len();
    assert!(rt; 1 <= count && count <= 10_000);
    let mut table = Table::new(alloc, game, count as u32);
    let mut bytes = Vec::new(alloc);
    put_log_twice(rt, &mut bytes, &mut table, played)?;
    is_twice(rt, &bytes, played.log);
    is_told(rt, played.log, &game, Ok(()));
    Ok(())
}

/// Sees what is told of a log.
fn is_told(rt: &impl Abort, log: &[u8], game: &GameDef, verdict: Result<(), LogFault>) {
    same!(rt; check(log, game), verdict);
}

const DEAL: &[u8] = b"TdAs|8hTc/2c8c3h/9c/Kh";

/// A match of two hands that are folded.
static TWO_HANDS: Match = Match {
    game: L2,
    word: b"l2.game",
    names: b"alice|bob",
    hands: &[(DEAL, b"f"), (b"2d2h|3d3s/4c5c6c/7c/8d", b"f")],
    log: b"# name/game/hands m l2.game 2\nSTATE:0:f:TdAs|8hTc:5|-5:alice|bob\nSTATE:1:f:2d2h|3d3s:5|-5:bob|alice\nSCORE:0|0:alice|bob\n",
};

#[test]
fn a_match_of_two_hands(rt: HostRuntime) -> Result<(), Fail> {
    has_log(&rt, rt.alloc(), &TWO_HANDS)?;
    Ok(())
}

/// Matches of one hand that is folded, and of hands whose pots are split, taken by two, and won all in.
static MATCHES: [Match; 4] = [
    Match {
        game: L2,
        word: b"l2.game",
        names: b"alice|bob",
        hands: &[(DEAL, b"f")],
        log: b"# name/game/hands m l2.game 1\nSTATE:0:f:TdAs|8hTc:5|-5:alice|bob\nSCORE:5|-5:alice|bob\n",
    },
    Match {
        game: L3,
        word: b"l3.game",
        names: b"alice|bob|carol",
        hands: &[(b"2c3d|4c5d|6c7d/TsJsQs/Ks/As", b"cfc/cc/cc/cc")],
        log: b"# name/game/hands m l3.game 1\nSTATE:0:cfc/cc/cc/cc:2c3d|4c5d|6c7d/TsJsQs/Ks/As:-5|3|2:alice|bob|carol\nSCORE:-5|3|2:alice|bob|carol\n",
    },
    Match {
        game: N3,
        word: b"n3.game",
        names: b"alice|bob|carol",
        hands: &[(b"2c7d|AsAh|KsKh/3d8h9c/Jd/4s", b"ccr150r200c/r1000c//")],
        log: b"# name/game/hands m n3.game 1\nSTATE:0:ccr150r200c/r1000c//:2c7d|AsAh|KsKh/3d8h9c/Jd/4s:-1000|300|700:alice|bob|carol\nSCORE:-1000|300|700:alice|bob|carol\n",
    },
    Match {
        game: N2,
        word: b"n2.game",
        names: b"alice|bob",
        hands: &[(DEAL, b"r20000c///")],
        log: b"# name/game/hands m n2.game 1\nSTATE:0:r20000c///:TdAs|8hTc/2c8c3h/9c/Kh:-20000|20000:alice|bob\nSCORE:-20000|20000:alice|bob\n",
    },
];

#[test]
fn whole_logs_are_right(rt: HostRuntime) -> Result<(), Fail> {
    for played in &MATCHES {
        has_log(&rt, rt.alloc(), played)?;
    }
    Ok(())
}

#[test]
fn faults_have_their_numbers(rt: HostRuntime) {
    let fault = LogFault {
        kind: LogFaultKind::WrongValues,
        line: 2,
    };
    same!(&rt; fault.code(), 48);
}
