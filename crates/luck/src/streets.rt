ghost use Rattle.std.specs.Prelude.{◌≡◌, ◌≤◌, ◌<◌};
ghost use Rattle.betting.specs.Betting.{history};
ghost use Rattle.betting.specs.Rounds.{current_round};
ghost use Rattle.luck.specs.Streets.{before_street};

use betting::{Play, laws};

/// The play before a street that it came to: its actions up to the one with which the street began.
pub(crate) fn before_street(play: &Play, street: usize) -> Play
    requires some { 0 < street }
    requires begun { street ≤ current_round play.now.game (history play.now) }
    ensures { result ≡ record { game = play.now.game; past = before_street play.now.game street play.now.past } }
{
    play.game().limits();
    laws::rounds_go_on();
    let mut replay = Play::new(play.game());
    for action in play.actions() {
        if replay.round() >= street {
            return replay;
        }
        replay.take_action(*action);
    }
    replay
}
