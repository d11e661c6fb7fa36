ghost use Rattle.std.specs.Prelude.{◌≡◌, ◌+◌, ◌*◌, ◌≤◌, ◌<◌, ◌++◌, ◌∷◌, [], length, map, if◌then◌else◌};
ghost use Rattle.matchstate.specs.Line.{newest_text};
ghost use Rattle.dealer_kind.specs.Kind.{Setting};
ghost use Rattle.node_rules.specs.Showing.{is_connected, seat_line, seat_lines, log_piece, news, header};
ghost use Rattle.dealer_node.specs.Rooms.{HasSpace, Grows};
ghost use Rattle.dealer_node.specs.Texts.{byte_total};
ghost use Rattle.dealer_node.specs.Scenes.{IsTableAt};
ghost use Rattle.dealer_node.specs.Turned.{printed, talk_of, talks};

use crate::member::Member;
use crate::reader::Reader;
use crate::texts::{Run, Texts};
use match_log::{further_lines_reserved, header_reserved};
use matchstate::{BettingText, seat_line_reserved};
use seat_session::Session;
use slot_log::Table;

/// Whether a seat is connected: its session is ready.
pub(crate) fn is_connected(session: &Option<Session>) -> bool
    ensures { result ≡ is_connected (talk_of session.now) }
{
    match session {
        None => false,
        Some(session) => session.is_ready(),
    }
}

/// Shows a seat its line; nothing before the first deal. This is the betting text of the newest hand.
pub(crate) fn show_line(
    shown: &mut Texts<Reader>,
    table: &Table,
    seat: usize,
    betting: &BettingText,
)
    requires seat { seat < table.now.game.players }
    requires betting { betting.now ≡ newest_text table.now.game table.now.hands }
    requires space { HasSpace shown.old 1 4096 }
    ensures texts { (setting : Setting) → table.now.game ≡ setting.game → shown.new.texts ≡ shown.old.texts ++ map printed (seat_line setting table.now.hands seat) }
    ensures grows { Grows shown.old shown.new 1 4096 }
{
    if table.dealt() == 0 {
        return;
    }
    let start = shown.bytes.len();
    seat_line_reserved(&mut shown.bytes, table, seat, betting);
    let len = shown.bytes.len() - start;
    shown.runs.push_reserved(Run {
        mark: Reader::Seat(seat),
        len,
    });
}

/// Shows each connected seat its line, in order of seats.
pub(crate) fn show_lines(shown: &mut Texts<Reader>, table: &Table, sessions: &[Option<Session>])
    requires seats { length sessions.now ≡ table.now.game.players }
    requires space { HasSpace shown.old (length sessions.now) (4096 * length sessions.now) }
    ensures texts { (setting : Setting) → table.now.game ≡ setting.game → shown.new.texts ≡ shown.old.texts ++ map printed (seat_lines setting table.now.hands 0 (talks sessions.now)) }
    ensures grows { Grows shown.old shown.new (length sessions.now) (4096 * length sessions.now) }
{
    let betting = BettingText::newest(table);
    for (seat, session) in sessions.iter().enumerate() {
        if is_connected(session) {
            show_line(shown, table, seat, &betting);
        }
    }
}

/// Shows the log what it has further after a command that took effect; nothing while a hand runs.
pub(crate) fn show_log(shown: &mut Texts<Reader>, member: &Member, table: &Table)
    requires game { table.now.game ≡ member.now.setting.game }
    requires count { table.now.count ≡ member.now.setting.title.hands }
    requires space { HasSpace shown.old 1 4756 }
    ensures texts { shown.new.texts ≡ shown.old.texts ++ map printed (log_piece member.now.setting table.now.hands) }
    ensures grows { Grows shown.old shown.new 1 4756 }
{
    if table.running() {
        return;
    }
    let start = shown.bytes.len();
    further_lines_reserved(&mut shown.bytes, table, member.names());
    let len = shown.bytes.len() - start;
    shown.runs.push_reserved(Run {
        mark: Reader::Log,
        len,
    });
}

/// Shows what is new after a command, where it took effect: to the connected seats their lines, then to the log its own.
pub(crate) fn show_news(
    shown: &mut Texts<Reader>,
    took: bool,
    member: &Member,
    table: &Table,
    sessions: &[Option<Session>],
)
    requires played { IsTableAt member.now.setting (length sessions.now) table.now }
    requires space { HasSpace shown.old 11 45716 }
    ensures texts { shown.new.texts ≡ shown.old.texts ++ map printed (if took then news member.now.setting (talks sessions.now) table.now.hands else []) }
    ensures grows { Grows shown.old shown.new 11 45716 }
{
    if took {
        table.game().limits();
        show_lines(shown, table, sessions);
        show_log(shown, member, table);
    }
}

/// Shows the log its header.
pub(crate) fn show_header(shown: &mut Texts<Reader>, member: &Member)
    requires space { HasSpace shown.old 1 263 }
    ensures texts { shown.new.texts ≡ shown.old.texts ++ map printed (header member.now.setting ∷ []) }
    ensures len { length shown.new.texts ≤ length shown.old.texts + 1 }
    ensures size { byte_total shown.new.texts ≤ byte_total shown.old.texts + 263 }
{
    member.limits();
    let start = shown.bytes.len();
    header_reserved(
        &mut shown.bytes,
        member.name().as_bytes(),
        member.game_word(),
        member.hands(),
    );
    let len = shown.bytes.len() - start;
    shown.runs.push_reserved(Run {
        mark: Reader::Log,
        len,
    });
}
