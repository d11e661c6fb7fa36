ghost use Rattle.std.specs.Prelude.{◌≡◌, ℕ, List, [], ◌+◌, ◌<◌, ◌++◌, ◌∷◌, drop, pos, length, OnOk, IfOk, IfErr, slice_index_or};
ghost use Rattle.std.specs.List.{AllByRecursion, flat_map, range_with_len};
ghost use Rattle.sha2.specs.Sha256.{sha256};
ghost use Rattle.card_core.specs.Deal.{IsDeal};
ghost use Rattle.side_pots.specs.Pots.{total};
ghost use Rattle.slot_log.specs.Dealer.{hands_of};
ghost use Rattle.match_log.specs.Check.{IsMatchLog};
ghost use Rattle.match_log.specs.Lines.{names_field};
ghost use Rattle.match_log.specs.Names.{IsName};
ghost use Rattle.match_log.specs.Payoffs.{payoffs_of};
ghost use Rattle.luck.specs.Lines.{AreLucksOf, IsRefusal, LucksSumToZero, luck_line, position_line, all_lines};
ghost use Rattle.luck.specs.Lucks.{lucks_of};

use crate::fault::LuckFault;
use crate::hand_luck::{hand_luck, parts};
use crate::reading::{HandLine, read_hand, read_title};
use crate::stakes::Stakes;
use game_def::GameDef;
use itoa::Buffer;
use match_log::laws;
use matchstate::cut;
use sha2::{Digest, Sha256};
use std::alloc::{AllocError, Global};

/// The payoff and the luck of each position in each hand of a match's log, a line for each: the hand's number, the name,
/// the payoff in whole chips, and the luck in parts of a chip, with `/` and how many parts a chip has behind it. The lucks
/// of a hand sum to 0.
///
/// An `Err` is `Log` where `match_log::check` says no to the log, with what it says; or `OutOfMemory`.
pub fn lucks_of_log(alloc: Global, log: &[u8], game: &GameDef) -> Result<Vec<u8>, LuckFault>
    ensures ok { IfOk result (λ lines. AreLucksOf game.now log.now lines.items) }
    ensures refused { IfErr result (λ fault. IsRefusal game.now log.now fault) }
{
    match match_log::check(log, game) {
        Ok(()) => Ok(lines_of_log(alloc, log, game)?),
        Err(fault) => Err(LuckFault::Log(fault)),
    }
}

/// The lines of a log that is right.
fn lines_of_log(alloc: Global, log: &[u8], game: &GameDef) -> Result<Vec<u8>, AllocError>
    requires { IsMatchLog game.now log.now }
    ensures lines { IfOk result (λ lines. (read : IsMatchLog game.now log.now) → lines.items ≡ all_lines (sha256 log.now) game.now read.names (hands_of game.now read.title.hands read.commands)) }
    ensures zero_sum { IfOk result (λ lines. (read : IsMatchLog game.now log.now) → LucksSumToZero (sha256 log.now) game.now (hands_of game.now read.title.hands read.commands)) }
{
    game.limits();
    laws::hands_end_finished();
    laws::payoffs_are_those_of_what_is_shown();
    betting::laws::rounds_go_on();
    let key = Sha256::digest(log);
    let Some((hands, mut rest)) = read_title(log) else {
        unreachable!()
    };
    let mut lines = Vec::new(alloc);
    for number in 0..hands {
        let Some(line) = read_hand(rest, game) else {
            unreachable!()
        };
        put_hand(&mut lines, &key, number, &line)?;
        rest = line.behind;
    }
    Ok(lines)
}

/// Appends the lines of a hand.
fn put_hand(
    out: &mut Vec<u8>,
    key: &[u8; 32],
    number: u32,
    line: &HandLine<'_>,
) -> Result<(), AllocError>
    requires { IsDeal line.now.play.game.players line.now.deal }
    ensures lines { (names : List (List ℕ)) → length names ≡ line.now.play.game.players → AllByRecursion IsName names → line.now.names.now ≡ names_field names
        → OnOk result (out.new.items ≡ out.old.items ++ flat_map (position_line key.now line.now.play.game names number (record { deal = line.now.deal; past = line.now.play.past })) (range_with_len 0 line.now.play.game.players)) }
    ensures zero_sum { OnOk result (total (lucks_of key.now line.now.play.game number (record { deal = line.now.deal; past = line.now.play.past })) ≡ pos 0) }
{
    let players = line.play.players();
    let payoffs = Stakes::of(&line.play).pay(&line.deal);
    let lucks = hand_luck(key, number, &line.play, &line.deal);
    let mut names = line.names;
    for position in 0..players {
        let (name, others) = first_name(names);
        put_line(
            out,
            number,
            name,
            payoffs[position],
            lucks[position],
            parts(players),
        )?;
        names = others;
    }
    Ok(())
}

/// The name up to the first `|`, and what stands behind that; nothing behind the last name.
fn first_name(bytes: &[u8]) -> (&[u8], &[u8])
    ensures { (names : List (List ℕ)) (place : ℕ) → place < length names → AllByRecursion IsName names → bytes.now ≡ names_field (drop place names)
        → (result.0.now ≡ slice_index_or names place []) × (place + 1 < length names → result.1.now ≡ names_field (drop (place + 1) names)) }
{
    match cut(bytes, b'|') {
        Some(parts) => parts,
        None => (bytes, &[]),
    }
}

/// Appends the line of a position.
fn put_line(
    out: &mut Vec<u8>,
    number: u32,
    name: &[u8],
    payoff: i64,
    luck: i64,
    parts: u32,
) -> Result<(), AllocError>
    ensures { OnOk result (out.new.items ≡ out.old.items ++ luck_line number name.now payoff luck parts) }
{
    out.extend_from_slice(Buffer::new().format(number).as_bytes())?;
    out.extend_from_slice(b" ")?;
    out.extend_from_slice(name)?;
    out.extend_from_slice(b" ")?;
    out.extend_from_slice(Buffer::new().format(payoff).as_bytes())?;
    out.extend_from_slice(b" ")?;
    out.extend_from_slice(Buffer::new().format(luck).as_bytes())?;
    out.extend_from_slice(b"/")?;
    out.extend_from_slice(Buffer::new().format(parts).as_bytes())?;
    out.extend_from_slice(b"\n")
}
