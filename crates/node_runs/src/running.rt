//! The process of a node, turn after turn, with its notes.

ghost use Rattle.std.specs.Prelude.{◌≡◌, List, [], true, false, OnOk, IsTrue};
ghost use Rattle.stations.specs.Deeds.{Deed};
ghost use Rattle.stations.specs.Looking.{look_of};
ghost use Rattle.node_service.specs.Going.{GoesOn};
ghost use Rattle.node_service.specs.Serving.{served_of, look_in, outcome_in};
ghost use Rattle.node_service.specs.Ending.{is_well, IsOverAt};
ghost use Rattle.node_service.specs.Logging.{IsFresh};
ghost use Rattle.node_runs.specs.OneLog.{IsLeftBy, WritesItsLog, WritesAcceptedLog};
ghost use Rattle.node_service.specs.declared.outcome.Outcome.TheVariants.{GoesOn as Further, Over as IsOver};
ghost use Rattle.operator_notes.specs.Notes.{IsNoted};
ghost use Rattle.node_runs.specs.Running.{Ran, Went, GoesOnTo, begin_line, end_of};
ghost use Rattle.node_runs.specs.WaitingNotes.{Holds};

use crate::heard_promises::HeardPromises;
use crate::life_keeper::LifeKeeper;
use crate::node_end::NodeEnd;
use crate::promise_keeper::PromiseKeeper;
use crate::teller::Teller;
use dealer_node::NodeFault;
use node_service::laws::{lives_stay_shown, turns_are_one};
use node_service::{NodeServer, Outcome};
use node_wires::Wire;
use operator_notes::{NodeNote, tell_node_note};
use promise_store::Disk;
use stations::Station;
use std::alloc::Global;
use std::io::Write;

/// Starts a node and takes its turns until one says that the match is over here and known everywhere, or that the process
/// is to end.
///
/// `port` is where the node awaits seat 0; seat s is awaited at the port that is s higher. What happens is told to the writer
/// of notes, one line each, in the order in which the server tells it: first which node of which match begins. In any second
/// 50 lines are told at most, and of each group of notes as many as it may have; what comes beyond that is counted, and a
/// later line says how many. At the end all that waits is told. The life that was first seen of a peer's store is kept before
/// it is told, and before the next turn. What peers are known to have promised is given to the keeper of promises, once a second
/// at most, and once all that a turn had to tell was told. A note that can't be written is left out, and changes nothing of the match.
///
/// What is promised of turns holds of all of them together: the node did its own deeds, and the log has what it showed to it,
/// all of it where the run ends well; and then the match is over at the node. Over an honest disk that the node's earlier
/// processes left, what a node that was down showed to its log is the dealer's log after the commands that it has applied, or
/// nothing where it couldn't be started; where the run ends well the log got a text that `match_log::check` accepts, whatever
/// the peers sent. A life that is kept is one that its node showed: the one of a Hello by which it opened a connection, with a
/// key behind its proof.
/// The `Err` is that of the last turn, or that a life couldn't be kept.
pub fn node_run<D: Disk + Drop, W: Wire + Drop, L: LifeKeeper, P: PromiseKeeper, N: Write>(
    alloc: Global,
    server: &mut NodeServer<D, W>,
    lives: &mut L,
    promises: &mut P,
    port: u16,
    notes: &mut N,
) -> Result<(), NodeEnd>
    ensures ran { Ran L.kept port server.old result server.new (N.contents notes.old) (N.contents notes.new) lives.old lives.new }
    ensures whole { GoesOn D.Disk [] (served_of server.old) (served_of server.new) }
    ensures log { OnOk result ((served_of server.new).log_failed ≡ false) }
    ensures over { OnOk result (IsOverAt (look_in server.new).node) }
    ensures one_log { IsFresh (look_in server.old) → IsTrue D.is_honest → (before : List Deed) → IsLeftBy D.Disk (served_of server.old) before → WritesItsLog D.Disk (served_of server.old) (served_of server.new) }
    ensures accepted { IsFresh (look_in server.old) → IsTrue D.is_honest → (before : List Deed) → IsLeftBy D.Disk (served_of server.old) before → OnOk result (WritesAcceptedLog (served_of server.old) (served_of server.new)) }
{
    let first = server.start();
    tell_begin(alloc, server.station(), notes);
    let mut teller = Teller::new(alloc, port, server.left());
    let answer = take_turns(alloc, server, first, lives, promises, &mut teller, notes);
    teller.tell_rest(server.station(), notes);
    server.limits();
    server.read_deals();
    answer
}

/// Takes turns, where the start left this to do, and tells what it and they have to tell.
fn take_turns<D: Disk + Drop, W: Wire + Drop, L: LifeKeeper, P: PromiseKeeper, N: Write>(
    alloc: Global,
    server: &mut NodeServer<D, W>,
    first: Outcome,
    lives: &mut L,
    promises: &mut P,
    teller: &mut Teller,
    notes: &mut N,
) -> Result<(), NodeEnd>
    requires holds { Holds [] [] [] teller.old.waiting }
    requires clock { teller.old.waiting.limits.clock ≡ server.old.left }
    requires log { is_well first ≡ true → (served_of server.old).log_failed ≡ false }
    requires over { first ≡ IsOver → IsOverAt (look_in server.old).node }
    requires further { first ≡ Further → outcome_in server.old ≡ Further }
    ensures went { Went L.kept teller.old.port server.old first result server.new (N.contents notes.old) (N.contents notes.new) lives.old lives.new teller.new.waiting }
    ensures port { teller.new.port ≡ teller.old.port }
    ensures whole { GoesOnTo D.Disk (served_of server.old) (served_of server.new) }
    ensures log { OnOk result ((served_of server.new).log_failed ≡ false) }
    ensures over { OnOk result (IsOverAt (look_in server.new).node) }
{
    turns_are_one::<D>();
    lives_stay_shown();
    let mut outcome = first;
    let mut most = 0;
    let mut heard = HeardPromises::new();
    for steps in 0..u64::MAX {
        if let Some(told) = server.notice() {
            if let Err(fault) = teller.tell(server.station(), &told, lives, notes) {
                return Err(NodeEnd::from(fault));
            }
        } else if let Some(answer) = end_of(outcome) {
            return answer;
        } else {
            heard.give(&*server, promises, server.left());
            (outcome, most) = server.turn(alloc, most);
            let left = server.left();
            teller.tell_due(server.station(), left, notes);
            let away = server.wire().turned_away().saturating_add(server.unheard());
            teller.tell_turned_away(server.station(), away, notes);
        }
    }
    // No match has so many turns: its rounds and slots are spent long before, and nobody waits so long.
    Err(NodeEnd::from(NodeFault::Spent))
}

/// How the process ends by what a turn leaves to do; none where it goes on.
fn end_of(outcome: Outcome) -> Option<Result<(), NodeEnd>>
    ensures { result ≡ end_of outcome }
{
    match outcome {
        Outcome::GoesOn => None,
        Outcome::Over => Some(Ok(())),
        Outcome::StoreReplaced => Some(Err(NodeEnd::StoreReplaced)),
        Outcome::StoreOlder => Some(Err(NodeEnd::StoreOlder)),
        Outcome::Failed(fault) => Some(Err(NodeEnd::from(fault))),
        Outcome::LogFailed => Some(Err(NodeEnd::LogFailed)),
    }
}

/// Tells which node of which match begins.
fn tell_begin<D: Disk + Drop, N: Write>(alloc: Global, station: &Station<D>, notes: &mut N)
    ensures { IsNoted (begin_line (look_of station.now)) (N.contents notes.old) (N.contents notes.new) }
{
    let note = NodeNote::Begins {
        name: *station.config().name(),
        node: station.number(),
        front: station.node().front(),
    };
    tell_node_note(alloc, notes, &note);
}
