//! What the bots of a match are given, behind a relay and without one: each law is the contract of a function that does nothing.

ghost use Rattle.joined_lines.specs.Bringing.{ConnectionsTellOneMatch};
ghost use Rattle.joined_lines.specs.Coming.{RelaysTellOneMatch};
ghost use Rattle.joined_lines.specs.Keeping.{TurnsKeepServers};
ghost use Rattle.joined_lines.specs.Serving.{ServersTellOneMatch};

use betting::laws::hands_end;
use line_cursor::laws::{cursors_tell_the_lines, next_cursor_stays, past_is_of_beginnings};
use promise_store::Disk;
use relay_runs::laws::{courses_explain, whole_matches_are_written};
use seat_relay::laws::{bots_are_given_one_dealers_lines, dealers_lines_ascend};
use slot_log::laws::commands_make_hands;
use stations::laws::{deaths_are_deeds, tables_are_of_one_match};

/// Over the events of a relay's machine (`seat_relay`): where each connection brings, one after another, lines that the seat is
/// told off tables that nodes of the match had (`BringToldLines`), the bot is given a beginning of the seat's lines of the one
/// dealer. Where its lines may begin anywhere it is given a part of them without a gap.
///
/// The dealer is the sequential one, after some list of chosen commands. Of two such lists the shorter is a beginning of the
/// longer (`stations::laws::processes_choose_one_list`).
pub fn connections_tell_one_match<D: Disk + Drop>()
    ensures { ConnectionsTellOneMatch D.Disk }
{
    tables_are_of_one_match::<D>();
    commands_make_hands();
    past_is_of_beginnings();
    cursors_tell_the_lines();
    bots_are_given_one_dealers_lines();
}

/// The same over the wires of relays (`relay_runs`), byte by byte, and of all relays at once: where over each connection comes
/// what its seat is told so, as far as it came (`ComeOfTold`), there is one list of chosen commands for all of them. What a
/// relay has written to its bot, with what waits, are the bytes of a beginning of the seat's lines of the dealer, or of a part
/// of them without a gap where they may begin anywhere. And where it ends since the match is over, the match is over, and the
/// bot was written all of these lines, or all from one on.
///
/// The same list serves all bots without a relay over whose connections came what their seats are told so (`BringsTold`). What
/// came begins the bytes of a part of the seat's lines without a gap, and perhaps of `#OVER` or `#WAIT` behind them, or the bytes
/// of `#OTHER` alone. `#OVER` stands there only if the match is over by these commands, and behind the last line of all. `#OTHER`
/// stands there only if the bot named a line or asked twice. Where lines came to a bot that asked for the first or named one,
/// they begin with that line (`BringsLines`).
pub fn relays_tell_one_match<D: Disk + Drop>()
    ensures { RelaysTellOneMatch D.Disk }
{
    tables_are_of_one_match::<D>();
    hands_end();
    commands_make_hands();
    past_is_of_beginnings();
    next_cursor_stays();
    cursors_tell_the_lines();
    dealers_lines_ascend();
    bots_are_given_one_dealers_lines();
    courses_explain();
    whole_matches_are_written();
}

/// The same of relays and bots whose connections lead to the servers of a match, whose premises name no history. For all
/// processes that the nodes had and have, and for all relays, whose connections may end at any moment: the bots have the lines
/// that one dealer tells their seats, from the first or where they may begin anywhere from one on, and none is left out. By the
/// same commands each connection of a bot without a relay brings lines of this dealer from one on, which is the first or the
/// one that the bot named, if it asked for that. None is left out, and where it brings `#OVER` the last of all was there
/// (`BringsLines`). There are histories of the nodes of which it holds in each order in which each frame had been sent before
/// it came (`IsTrueOrder`), and of the same histories all laws of `stations` hold.
///
/// The premises, and what gives each of them:
///
/// - `IsPlan`, `is_honest`, `HaveIncarnations`, `IsTrueOrder`: as for `stations::laws::stations_are_promised`. `AreStations`:
///   `Station::limits` of each process that a node has now.
/// - `Course`: `RelayServer::new` (`course`) and `RelayServer::turn` (`Keeps.course`) of `relay_runs`, for each relay and each
///   of its bots. `IsOver`: `RelayServer::turn` (`over`).
/// - `IsServerOf`: `NodeServer::new` (`bots`, `carried`) of `node_service`, then `NodeServer::start` and `NodeServer::turn`
///   (`goes`), as `turns_keep_servers` says. A process that was killed in a turn wrote the same as one whose call did the same
///   part at that moment, and whose wires and disk did nothing from then on. It is taken as that one (docs/CLUSTER.md).
/// - `IsOfServer.bytes`: a connection, of a relay or of a bot, gives what was written to it, from its beginning, in order, and
///   nothing else; it may end anywhere. `ComesOfServer.heard`: so it gives the server what the bot said, which begins behind
///   the line that shows its token, where it has one. These are the two premises on the connections themselves.
/// - `IsOfServer.served`: all that was written to a connection is there at the end of the turn in which it ended, since in a
///   turn a seat has one bot at most (`NodeServer::turn`, `takes`), and nothing is written where nobody sits (`node_seats`).
pub fn servers_tell_one_match<D: Disk + Drop>()
    ensures { ServersTellOneMatch D.Disk }
{
    deaths_are_deeds::<D>();
    relays_tell_one_match::<D>();
}

/// What `servers_tell_one_match` asks for of a server (`IsServerOf`) holds behind each start and each turn, where it held
/// before. A server at an earlier moment of a process stays one of that process. So it is enough that it holds of a new
/// server.
pub fn turns_keep_servers<D: Disk + Drop>()
    ensures { TurnsKeepServers D.Disk }
{}
