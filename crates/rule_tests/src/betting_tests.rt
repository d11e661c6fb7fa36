use crate::asserting::{holds, same};
use crate::samples::game;
use betting::{ActFault, Action, Play};
use sample_games::N3;
use std::process::Abort;

/// Takes actions that are allowed.
fn takes(rt: &impl Abort, play: &mut Play, actions: &[Action]) {
    for action in actions {
        same!(rt; play.act(*action), Ok(()));
    }
}

/// Sees whose turn it is, and what he may raise to.
fn is_at(rt: &impl Abort, play: &Play, to_act: Option<usize>, range: Option<(u32, u32)>) {
    same!(rt; play.to_act(), to_act);
    same!(rt; play.raise_range(), range);
}

/// The hand `ccr150r200c/r1000c//` of three players: two calls, after which the second player may raise all in; the short
/// all-in, and a raise behind it; and a second all-in, which nobody can raise.
#[test]
fn a_short_all_in_opens_the_betting_again(rt: HostRuntime) {
    let mut play = Play::new(&game(&rt, N3));
    takes(&rt, &mut play, &[Action::Call, Action::Call]);
    is_at(&rt, &play, Some(1), Some((150, 150)));
    takes(&rt, &mut play, &[Action::Raise(150)]);
    is_at(&rt, &play, Some(2), Some((200, 5000)));
    takes(
        &rt,
        &mut play,
        &[Action::Raise(200), Action::Call, Action::Raise(1000)],
    );
    is_at(&rt, &play, Some(2), None);
    takes(&rt, &mut play, &[Action::Call]);
    holds!(&rt; play.finished());
    same!(&rt; play.act(Action::Call), Err(ActFault::Finished));
}
