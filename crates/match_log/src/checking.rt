ghost use Rattle.std.specs.Prelude.{◌≡◌, Result};
ghost use Rattle.match_log.specs.Check.{Says};
ghost use Rattle.match_log.specs.declared.fault.LogFault.{LogFault};

use crate::checked::Checked;
use crate::fault::LogFault;
use crate::fault_kind::LogFaultKind;
use crate::laws::one_verdict;
use crate::log_header::read_header;
use game_def::GameDef;
use slot_log::laws;

/// Whether a text is the whole log of a match of this game: its header, a line for each hand with what it
/// paid, the score, and nothing else. It takes no memory.
///
/// An `Err` has the first line at fault, and the first of its faults: 45 `BadHeader`, 46 `BadState`, 47
/// `WrongNumber`, 48 `WrongValues`, 49 `WrongScore`. A log that ends too early behind a whole line is 49 at
/// the line that is missing, the empty text at line 1; one that ends within a line is 45, 46 or 49 there, as
/// the header, a hand's line or the score was due. A line behind the score is 49 at that line.
pub fn check(log: &[u8], game: &GameDef) -> Result<(), LogFault>
    ensures says { Says game.now log.now result }
    // And nothing else is to be said of the text.
    ensures only { (other : Result (Unit {0}) LogFault) → Says game.now log.now other → other ≡ result }
{
    game.limits();
    one_verdict();
    verdict(log, game)
}

/// What is to be said of a text.
fn verdict(log: &[u8], game: &GameDef) -> Result<(), LogFault>
    ensures { Says game.now log.now result }
{
    game.limits();
    laws::hands_come_of_commands();
    laws::commands_deal_the_hands();
    let Some(header) = read_header(log) else {
        let kind = if log.is_empty() {
            LogFaultKind::WrongScore
        } else {
            LogFaultKind::BadHeader
        };
        return Err(LogFault { kind, line: 1 });
    };
    let mut checked = Checked::new();
    let mut rest = header.behind;
    for hand in 0..header.hands as usize {
        match checked.take_hand(rest, game) {
            Ok(behind) => rest = behind,
            Err(kind) => return Err(LogFault {
                kind,
                line: hand + 2,
            }),
        }
    }
    let score = header.hands as usize + 2;
    match checked.take_score(rest, game) {
        Ok([]) => Ok(()),
        Ok(_) => Err(LogFault {
            kind: LogFaultKind::WrongScore,
            line: score + 1,
        }),
        Err(kind) => Err(LogFault { kind, line: score }),
    }
}
