//! Commands, read from the front of bytes.

ghost use Rattle.std.specs.Prelude.{◌≡◌, ◌≤◌, length, take, IsSome, IfSome, ◌↔◌, true};
ghost use Rattle.paxos_wire.specs.Reading.{Gives, are_cards, is_count, deal_of, deal_at, dealt_at, acted_at, away_at, command_at, commands_at, action_of, action_at};

use crate::command_list::CommandList;
use crate::limits::{ACTIONS, HANDS, MOST_CHIPS, WINDOW};
use crate::read_numbers::{read_below, read_byte, read_number, read_short_below};
use betting::Action;
use card_core::limits::CARDS;
use card_core::{Card, Deal};
use slot_log::Command;

/// The action that a byte and an amount tell; `None` where they tell none.
#[tactic(auto, unfolding(crate::specs::Reading::action_of))]
fn action_of(kind: u8, amount: u32) -> Option<Action>
    ensures { result ≡ action_of kind amount }
{
    match kind {
        0 if amount == 0 => Some(Action::Fold),
        1 if amount == 0 => Some(Action::Call),
        2 if amount <= MOST_CHIPS => Some(Action::Raise(amount)),
        _ => None,
    }
}

/// An action, and the bytes after it.
#[tactic(auto, unfolding(crate::specs::Reading::action_at))]
fn read_action(bytes: &[u8]) -> Option<(Action, &[u8])>
    ensures { Gives (λ x. (x.0, x.1.now)) result (action_at bytes.now) }
{
    let (kind, rest) = read_byte(bytes)?;
    let (amount, rest) = read_number(rest)?;
    let action = action_of(kind, amount)?;
    Some((action, rest))
}

/// The cards of these bytes, and clubs' deuces behind them, unless one is no card.
fn cards_of(bytes: &[u8]) -> Option<[Card; CARDS]>
    requires { length bytes.now ≤ CARDS }
    ensures cards { IsSome result ↔ (are_cards bytes.now ≡ true) }
    ensures value { IfSome result (λ cards. take (length bytes.now) cards ≡ bytes.now) }
{
    let mut cards = [Card::from_number(0); CARDS];
    for (place, number) in bytes.iter().enumerate() {
        if *number >= 52 {
            return None;
        }
        cards[place] = Card::from_number(*number);
    }
    Some(cards)
}

/// The deal of these cards, unless one is no card or stands there twice.
fn deal_of(bytes: &[u8]) -> Option<Deal>
    requires { is_count (length bytes.now) ≡ true }
    ensures { result ≡ deal_of bytes.now }
{
    let Some(cards) = cards_of(bytes) else {
        return None;
    };
    match Deal::new((bytes.len() - 5) / 2, &cards[..bytes.len()]) {
        Ok(deal) => Some(deal),
        Err(_) => None,
    }
}

/// A deal behind the count of its cards, and the bytes after it.
#[tactic(auto, unfolding(crate::specs::Reading::deal_at))]
fn read_deal(bytes: &[u8]) -> Option<(Deal, &[u8])>
    ensures { Gives (λ x. (x.0, x.1.now)) result (deal_at bytes.now) }
{
    let (count, rest) = read_byte(bytes)?;
    let count = count as usize;
    if count < 9 || count > CARDS || count % 2 != 1 || rest.len() < count {
        return None;
    }
    let (numbers, rest) = rest.split_at(count);
    match deal_of(numbers) {
        Some(deal) => Some((deal, rest)),
        None => None,
    }
}

/// The deal of a hand, and the bytes after it.
#[tactic(auto, unfolding(crate::specs::Reading::dealt_at))]
fn read_dealt(hand: u32, bytes: &[u8]) -> Option<(Command, &[u8])>
    ensures { Gives (λ x. (x.0, x.1.now)) result (dealt_at hand bytes.now) }
{
    let Some((deal, rest)) = read_deal(bytes) else {
        return None;
    };
    Some((Command::Deal { hand, deal }, rest))
}

/// An act of a hand, and the bytes after it.
#[tactic(auto, unfolding(crate::specs::Reading::acted_at))]
fn read_acted(hand: u32, bytes: &[u8]) -> Option<(Command, &[u8])>
    ensures { Gives (λ x. (x.0, x.1.now)) result (acted_at hand bytes.now) }
{
    let (index, rest) = read_short_below(bytes, ACTIONS)?;
    let (action, rest) = read_action(rest)?;
    Some((
        Command::Act {
            hand,
            index,
            action,
        },
        rest,
    ))
}

/// That the player to act is away, of a hand, and the bytes after it.
#[tactic(auto, unfolding(crate::specs::Reading::away_at))]
fn read_away(hand: u32, bytes: &[u8]) -> Option<(Command, &[u8])>
    ensures { Gives (λ x. (x.0, x.1.now)) result (away_at hand bytes.now) }
{
    let (index, after) = read_short_below(bytes, ACTIONS)?;
    Some((Command::Away { hand, index }, after))
}

/// A command, and the bytes after it.
#[tactic(auto, unfolding(crate::specs::Reading::command_at))]
pub(crate) fn read_command(bytes: &[u8]) -> Option<(Command, &[u8])>
    ensures { Gives (λ x. (x.0, x.1.now)) result (command_at bytes.now) }
{
    let (kind, rest) = read_byte(bytes)?;
    let (hand, rest) = read_below(rest, HANDS)?;
    match kind {
        1 => read_dealt(hand, rest),
        2 => read_acted(hand, rest),
        3 => read_away(hand, rest),
        _ => None,
    }
}

/// Reads `count` commands into the room, in place of what it held, and gives the bytes after them.
pub(crate) fn read_commands<'b>(
    bytes: &'b [u8],
    count: usize,
    room: &mut CommandList,
) -> Option<&'b [u8]>
    requires { count ≤ WINDOW }
    ensures { Gives (λ rest. (room.new, rest.now)) result (commands_at count bytes.now) }
{
    room.clear();
    let mut rest = bytes;
    for _ in 0..count {
        let Some((command, after)) = read_command(rest) else {
            return None;
        };
        room.push(command);
        rest = after;
    }
    Some(rest)
}
