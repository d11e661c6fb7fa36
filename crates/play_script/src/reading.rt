ghost use Rattle.std.specs.Prelude.{◌≡◌, ℕ, List, MatchOption, MatchResult};
ghost use Rattle.play_script.specs.Orders.{Says, SaysBehind, SaysTwo, Names, NamesSeat, AddressesSeat, IsNumber, word_of};
ghost use Rattle.play_script.specs.declared.order.Order.{Order as Said};

use crate::bad_script::BadScript;
use crate::bounds::Bounds;
use crate::number::{named, number, place};
use crate::order::Order;
use crate::word::Word;
use matchstate::cut;

/// What stands between words.
const SPACE: u8 = b' ';

/// What a line of a script says, without its line feed, where there are so many nodes, seats and frames.
///
/// The word comes first, then what belongs to it, with exactly one space between and none before or behind. Numbers
/// are decimal digits and below 2 ^ 64; zeros may stand in front. The text of `line` may be any bytes. The fault is
/// 110 `BadScript`: the line says none of these, or names a node, a seat or a frame that there isn't.
pub fn read<'a>(line: &'a [u8], bounds: Bounds) -> Result<Order<'a>, BadScript>
    ensures { MatchResult result (Says bounds line.entry.now) (λ _. (order : Said) → ¬ (Says bounds line.entry.now order)) }
{
    let Some((front, behind)) = cut(line, SPACE) else {
        return Err(BadScript);
    };
    let Some(word) = Word::read(front) else {
        return Err(BadScript);
    };
    match order(word, behind, bounds) {
        Some(order) => Ok(order),
        None => Err(BadScript),
    }
}

/// What a word and the text behind it say.
fn order<'a>(word: Word, text: &'a [u8], bounds: Bounds) -> Option<Order<'a>>
    ensures { MatchOption result ((said : Said) → ¬ ((word_of said ≡ word) × SaysBehind bounds text.entry.now said)) (λ said. (word_of said ≡ word) × SaysBehind bounds text.entry.now said) }
{
    match word {
        Word::Tick => Some(Order::Tick {
            node: place(text, bounds.nodes)?,
        }),
        Word::Away => Some(Order::Away {
            node: place(text, bounds.nodes)?,
        }),
        Word::Deliver => Some(Order::Deliver {
            frame: named(text, bounds.frames)?,
        }),
        Word::Flush => Some(Order::Flush {
            most: number(text)?,
        }),
        Word::Connect => {
            let (node, seat) = seat_of(text, bounds)?;
            Some(Order::Connect { node, seat })
        }
        Word::Drop => {
            let (node, seat) = seat_of(text, bounds)?;
            Some(Order::Drop { node, seat })
        }
        Word::Line => {
            let (node, seat, text) = addressed(text, bounds)?;
            Some(Order::Line { node, seat, text })
        }
        Word::Stop => {
            let (node, pick) = picked(text, bounds)?;
            Some(Order::Stop { node, pick })
        }
        Word::Start => Some(Order::Start {
            node: place(text, bounds.nodes)?,
        }),
    }
}

/// A node and a seat.
fn seat_of(text: &[u8], bounds: Bounds) -> Option<(usize, usize)>
    ensures { MatchOption result ((pair : ℕ × ℕ) → ¬ (NamesSeat bounds text.now pair.0 pair.1)) (λ pair. NamesSeat bounds text.now pair.0 pair.1) }
{
    let (front, behind) = cut(text, SPACE)?;
    let node = place(front, bounds.nodes)?;
    let seat = place(behind, bounds.seats)?;
    Some((node, seat))
}

/// A node and a pick.
fn picked(text: &[u8], bounds: Bounds) -> Option<(usize, u64)>
    ensures { MatchOption result ((pair : ℕ × ℕ) → ¬ (SaysTwo (Names bounds.nodes) IsNumber text.now pair.0 pair.1)) (λ pair. SaysTwo (Names bounds.nodes) IsNumber text.now pair.0 pair.1) }
{
    let (front, behind) = cut(text, SPACE)?;
    let node = place(front, bounds.nodes)?;
    let pick = number(behind)?;
    Some((node, pick))
}

/// A node, a seat and a text.
fn addressed<'a>(text: &'a [u8], bounds: Bounds) -> Option<(usize, usize, &'a [u8])>
    ensures { MatchOption result ((all : ℕ × ℕ × List ℕ) → ¬ (AddressesSeat bounds text.entry.now all.0 all.1 all.2)) (λ all. AddressesSeat bounds text.entry.now all.0 all.1 all.2.now) }
{
    let (front, behind) = cut(text, SPACE)?;
    let (middle, line) = cut(behind, SPACE)?;
    let node = place(front, bounds.nodes)?;
    let seat = place(middle, bounds.seats)?;
    Some((node, seat, line))
}
