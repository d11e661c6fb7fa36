//! A server, turn after turn, with its notes.

ghost use Rattle.std.specs.Prelude.{◌≡◌, ◌<◌, ◌-◌, ◌^◌, List, is_some, map, IsTrue, OnOk};
ghost use Rattle.dealer_world.specs.Viewing.{view_of};
ghost use Rattle.dealer_world.specs.Headline.{Era};
ghost use Rattle.dealer_world.specs.Promise.{IsPromised, GoesOnFrom, HasNoForged, ShowsOneList};
ghost use Rattle.dealer_node.specs.Seeing.{begun_of};
ghost use Rattle.serving.specs.Serving.{served_of};
ghost use Rattle.serving.specs.Turned.{HasGivenAll};
ghost use Rattle.operator_notes.specs.Notes.{AreNoted, note_line};
ghost use Rattle.match_runs.specs.Notes.{names_in, first_notes, is_told};
ghost use Rattle.match_runs.specs.Passing.{IsWithin, HandsOn};
ghost use Rattle.match_runs.specs.Serving.{IsServed};
ghost use Rattle.match_runs.specs.Turning.{waits_after, TellsAfter, TellsCall};

use crate::dealt::Dealt;
use crate::telling::{tell_awaited, tell_failure, tell_score, tell_turn, tell_waiting};
use dealer_node::NodeFault;
use dealer_world::Cluster;
use match_links::Links;
use operator_notes::SeatPorts;
use promise_store::Disk;
use serving::{ServeFault, Server, Turn};
use std::alloc::Global;
use std::io::Write;

/// Serves a match to its end: turn after turn, until one answers that all is over, or is refused.
///
/// What happens is told to the writer of notes, one line each: who is awaited at which of these ports, a seat seated or
/// gone, who is played for, a fault in what a seat sent, a node stopped or started, and at the end the score. Whom all
/// wait for is told where it sends nothing, after the first of the turns in a row that waited and after each twelfth. A
/// note that can't be written is left out, and changes nothing of the match.
///
/// Over honest disks one list of chosen commands is behind what was shown (`one_list`), together with the eras that the
/// cluster goes on from, if no frame was forged before; by `Cluster::open` there are none of these where it was opened on
/// new stores.
///
/// The `Err` is that of the last turn: 105, 106, or the fault of a node.
pub fn serve_run<D: Disk + Drop, L: Links + Drop, W: Write>(
    alloc: Global,
    server: &mut Server<D, L>,
    ports: SeatPorts,
    notes: &mut W,
) -> Result<(), ServeFault>
    ensures served { IsServed D.Disk ports (served_of server.old) result (served_of server.new) (W.contents notes.old) (W.contents notes.new) }
    ensures handed { IsWithin (served_of server.old) → HandsOn (served_of server.old) (served_of server.new) }
    ensures all { OnOk result (HasGivenAll (served_of server.old) → HasGivenAll (served_of server.new)) }
    ensures promised { IsPromised D.Disk (view_of server.new.cluster) }
    ensures unforged { HasNoForged (view_of server.old.cluster) → HasNoForged (view_of server.new.cluster) }
    ensures begun { map (begun_of D.Disk) (view_of server.new.cluster).nodes ≡ map (begun_of D.Disk) (view_of server.old.cluster).nodes }
    ensures one_list { (before : List Era) → GoesOnFrom D.Disk (view_of server.old.cluster) before → IsTrue D.is_honest → HasNoForged (view_of server.old.cluster)
        → ∥ ShowsOneList (view_of server.new.cluster) before ∥₁ }
{
    let mut waits = 0;
    for turns in 0..u64::MAX {
        let awaited = server.awaited();
        let cluster = server.cluster();
        let dealt = Dealt::at(cluster);
        tell_first(alloc, cluster, ports, waits, awaited, notes);
        match server.turn() {
            Ok(Turn::Over) => {
                tell_score(alloc, server.cluster(), notes);
                return Ok(());
            }
            Ok(turn) => {
                waits = waits_after(turn, waits);
                tell_after(alloc, server, ports, awaited, dealt, waits, turn, notes);
            }
            Err(fault) => return Err(fault),
        }
    }
    // No match has so many turns: its rounds and slots are spent long before, and nobody waits so long.
    Err(ServeFault::Node(NodeFault::Spent))
}

/// Tells which seat is awaited, if one is; not again where the turn before waited.
fn tell_first<D: Disk + Drop, W: Write>(
    alloc: Global,
    cluster: &Cluster<D>,
    ports: SeatPorts,
    waits: u64,
    awaited: Option<(u8, u8)>,
    notes: &mut W,
)
    ensures { AreNoted (map note_line (first_notes waits (names_in (view_of cluster.now)) ports awaited)) (W.contents notes.old) (W.contents notes.new) }
{
    if waits == 0 {
        tell_awaited(alloc, cluster, ports, awaited, notes);
    }
}

/// How many turns in a row have waited, after this one.
fn waits_after(turn: Turn, before: u64) -> u64
    requires { before < 2 ^ 64 - 1 }
    ensures { result ≡ waits_after turn before }
{
    match turn {
        Turn::Waits { .. } => before + 1,
        _ => 0,
    }
}

/// Whether it is told that a turn waited: it is the first of so many in a row, or a twelfth.
fn is_told(waits: u64) -> bool
    ensures { result ≡ is_told waits }
{
    waits == 1 || waits % 12 == 0
}

/// Tells what a turn did that left the server so, before which so many hands had been dealt; of one that waited for which
/// seat, where that is to be told.
fn tell_after<D: Disk + Drop, L: Links + Drop, W: Write>(
    alloc: Global,
    server: &Server<D, L>,
    ports: SeatPorts,
    awaited: Option<(u8, u8)>,
    dealt: Dealt,
    waits: u64,
    turn: Turn,
    notes: &mut W,
)
    ensures { TellsAfter ports (is_some awaited) dealt.hands waits turn (served_of server.now) (W.contents notes.old) (W.contents notes.new) }
{
    let cluster = server.cluster();
    match turn {
        Turn::Waits { seat, node } => {
            if is_told(waits) {
                let is_awaited = awaited.is_some();
                tell_waiting(alloc, cluster, ports, is_awaited, seat, node, notes);
            }
        }
        _ => tell_call(alloc, server, dealt, turn, notes),
    }
}

/// Tells what a turn did by which a node was called, before which so many hands had been dealt, and whether that node's
/// store failed.
fn tell_call<D: Disk + Drop, L: Links + Drop, W: Write>(
    alloc: Global,
    server: &Server<D, L>,
    dealt: Dealt,
    turn: Turn,
    notes: &mut W,
)
    ensures { TellsCall dealt.hands turn (served_of server.now) (W.contents notes.old) (W.contents notes.new) }
{
    let node = server.last_node();
    tell_turn(
        alloc,
        server.cluster(),
        dealt,
        node,
        server.last_piece(),
        turn,
        notes,
    );
    tell_failure(alloc, node, server.last_fault(), notes);
}
