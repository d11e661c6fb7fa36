use crate::asserting::{holds, same};
use crate::samples::{game, ten_ace};
use betting::Action;
use card_core::Deal;
use matchstate::read_deal;
use sample_games::L2;
use slot_log::*;
use std::alloc::{AllocError, Global};
use std::process::Abort;
use std::test::Fail;

fn second_deal(rt: &impl Abort) -> Deal {
    read_deal(b"2d2h|3d3s/4c5c6c/7c/8d", 2).expect(rt, "a deal of two players")
}

pub(crate) fn act(hand: u32, index: u16, action: Action) -> Command {
    Command::Act {
        hand,
        index,
        action,
    }
}

/// What a command says of its hand: a deal, or an action with its index.
#[derive(Clone, Copy)]
enum Said {
    First,
    Second,
    Act(u16, Action),
}

/// The command of a hand that says this.
fn command_of(rt: &impl Abort, hand: u32, said: Said) -> Command {
    let deal = match said {
        Said::First => ten_ace(rt),
        Said::Second => second_deal(rt),
        Said::Act(index, action) => return act(hand, index, action),
    };
    Command::Deal { hand, deal }
}

/// How many hands were dealt and how many are finished, whether one runs, and whether the match is over.
type Course = (u32, u32, bool, bool);

/// A command by its hand and what it says, what it does, and how the match stands then.
type Step = (u32, Said, Effect, Course);

// Calls with long contracts stand in one function each: a contract is read anew wherever its call stands.

/// What a command does in room that is made for a hand.
fn applied_in_room(table: &mut Table, command: &Command) -> Result<Effect, AllocError> {
    table.reserve(1)?;
    Ok(table.apply_reserved(command))
}

/// Sees how a match stands.
fn is_at(rt: &impl Abort, table: &Table, wanted: Course) {
    let (dealt, finished, running, over) = wanted;
    holds!(rt; table.dealt() == dealt);
    holds!(rt; table.finished() == finished);
    holds!(rt; table.running() == running);
    holds!(rt; table.over() == over);
}

/// Sees that a table tells before what a command does, by whether it fits and by why it would do nothing.
fn tells(rt: &impl Abort, table: &Table, command: &Command, effect: Effect) {
    let reason = match effect {
        Effect::None(reason) => Some(reason),
        _ => None,
    };
    holds!(rt; table.fits(command) == reason.is_none());
    holds!(rt; table.reason(command) == reason);
}

/// Takes a step of a match.
fn takes(
    rt: &impl Abort,
    table: &mut Table,
    command: &Command,
    effect: Effect,
) -> Result<(), AllocError> {
    tells(rt, table, command, effect);
    let found = applied_in_room(table, command)?;
    same!(rt; found, effect);
    Ok(())
}

/// Sees that two commands are the same where they are equal.
fn is_same_if_equal(rt: &impl Abort, command: &Command, other: &Command) {
    holds!(rt; command.is_same(other) == (command == other));
}

/// Takes the steps of a match.
fn takes_all(rt: &impl Abort, table: &mut Table, steps: &[Step]) -> Result<(), AllocError> {
    let first = command_of(rt, 0, Said::First);
    for &(hand, said, effect, course) in steps {
        let command = command_of(rt, hand, said);
        is_same_if_equal(rt, &command, &first);
        takes(rt, table, &command, effect)?;
        is_at(rt, table, course);
    }
    Ok(())
}

/// Sees the deal of a hand.
fn has_deal(rt: &impl Abort, table: &Table, hand: u32, wanted: Option<Deal>) {
    holds!(rt; table.deal(hand).copied() == wanted);
}

/// Sees the actions of a hand that is finished.
fn has_actions(rt: &impl Abort, table: &Table, hand: u32, actions: &[Action]) {
    let play = table.play(hand).expect(rt, "the hand");
    holds!(rt; play.finished());
    holds!(rt; play.actions() == actions);
}

/// The actions of a first hand that is called to its end, `rrrc/cc/cc/cc`.
static CALLED: [Action; 10] = [
    Action::Raise(20),
    Action::Raise(30),
    Action::Raise(40),
    Action::Call,
    Action::Call,
    Action::Call,
    Action::Call,
    Action::Call,
    Action::Call,
    Action::Call,
];

/// The course while the first hand runs.
const RUNS: Course = (1, 0, true, false);

/// The steps of that hand, and of a second that is folded at once.
static TWO_HANDS: [Step; 13] = [
    (0, Said::First, Effect::Dealt, RUNS),
    (0, Said::Act(0, Action::Raise(20)), Effect::Acted, RUNS),
    (0, Said::Act(1, Action::Raise(30)), Effect::Acted, RUNS),
    (0, Said::Act(2, Action::Raise(40)), Effect::Acted, RUNS),
    (0, Said::Act(3, Action::Call), Effect::Acted, RUNS),
    (0, Said::Act(4, Action::Call), Effect::Acted, RUNS),
    (0, Said::Act(5, Action::Call), Effect::Acted, RUNS),
    (0, Said::Act(6, Action::Call), Effect::Acted, RUNS),
    (0, Said::Act(7, Action::Call), Effect::Acted, RUNS),
    (0, Said::Act(8, Action::Call), Effect::Acted, RUNS),
    (
        0,
        Said::Act(9, Action::Call),
        Effect::HandOver,
        (1, 1, false, false),
    ),
    (1, Said::Second, Effect::Dealt, (2, 1, true, false)),
    (
        1,
        Said::Act(0, Action::Fold),
        Effect::MatchOver,
        (2, 2, false, true),
    ),
];

/// Sees that every finished hand is kept.
fn keeps_both_hands(rt: &impl Abort, table: &Table) {
    has_deal(rt, table, 0, Some(ten_ace(rt)));
    has_deal(rt, table, 1, Some(second_deal(rt)));
    has_deal(rt, table, 2, None);
    has_actions(rt, table, 0, &CALLED);
    holds!(rt; table.play(2).is_none());
}

#[test]
fn a_match_of_two_hands(rt: HostRuntime) -> Result<(), Fail> {
    let mut table = Table::new(rt.alloc(), game(&rt, L2), 2);
    same!(&rt; table.game().players(), 2);
    same!(&rt; table.hands(), 2);
    takes_all(&rt, &mut table, &TWO_HANDS)?;
    keeps_both_hands(&rt, &table);
    Ok(())
}
