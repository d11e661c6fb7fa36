ghost use Rattle.std.specs.Prelude.{◌≡◌, ◌≤◌, ◌++◌, [], length, map, replicate, slice_get, None, IfOk, IfErr, OnOk, OnErr};
ghost use Rattle.std.specs.Option.{ForSome};
ghost use Rattle.dealer_world.specs.Viewing.{view_of};
ghost use Rattle.dealer_world.specs.Promise.{IsPromised, HasNoForged};
ghost use Rattle.dealer_node.specs.Seeing.{begun_of};
ghost use Rattle.dealer_world.specs.Events.{node_of};
ghost use Rattle.serving.specs.Dues.{TakesNext, IsAwaited};
ghost use Rattle.serving.specs.Giving.{taken};
ghost use Rattle.serving.specs.Going.{piece_after};
ghost use Rattle.serving.specs.Outing.{outages_in};
ghost use Rattle.serving.specs.Placed.{places_in};
ghost use Rattle.serving.specs.Turned.{Turned, KeepsPromise, Gave, FailsAt, Closes, Mends, Opens};
ghost use Rattle.serving.specs.Waits.{waits_prop};
ghost use Rattle.serving.specs.Turning.{goes_on, fault_in, event_in, IsOfMatch, IsWaiting};
ghost use Rattle.serving.specs.declared.place.Place.TheVariants.{Awaited};
ghost use Rattle.serving.specs.declared.serve_fault.ServeFault.TheVariants.{LogFailed};

use crate::desk::Desk;
use crate::due::Due;
use crate::most::most_of_turn;
use crate::outages::Outages;
use crate::place::Place;
use crate::serve_fault::ServeFault;
use crate::taking::{close_all, empty_logs, take_due};
use crate::turn::Turn;
use crate::waiting::{Taking, Waiting};
use dealer_node::{NodeFault, is_out_of_memory};
use dealer_world::{Cluster, Event};
use match_file::Absent;
use match_links::Links;
use paxos_wire::MessageRoom;
use promise_store::Disk;
use std::alloc::Global;

/// A match that is served: a cluster, its links, when which nodes are out, and what is done about absent seats.
///
/// It changes the cluster by `Cluster::step` alone, so what is promised of a cluster's record holds of this one's,
/// whatever the links answer.
pub struct Server<D: Disk + Drop, L: Links + Drop> {
    alloc: Global,
    cluster: Cluster<D>,
    desk: Desk<L>,
    /// An event that found no memory, and is given again.
    waiting: Option<Waiting>,
    /// What a seat sent that was read last.
    last_piece: Vec<u8>,
    /// Where the lists of a frame's message stand while it is asked how much the frame's turn shows.
    lists: MessageRoom,
    ghost waits: { ForSome waiting (IsWaiting (view_of cluster)) } by { waits_prop (view_of cluster) waiting },
    ghost promised: { IsPromised D.Disk (view_of cluster) },
    ghost shown: { desk.shown ≤ length (view_of cluster).all.shown },
}

/// By hand, so that letting one go is one call for whoever owns it (docs/ARCHITECTURE.md, Habits).
impl<D: Disk + Drop, L: Links + Drop> Drop for Server<D, L> {
    fn drop(self) {
        let Server {
            alloc: _,
            cluster: _,
            desk: _,
            waiting: _,
            last_piece: _,
            lists: _,
        } = self;
    }
}

/// Whether the server goes on after a call of a node that was refused so: a frame was lost since its node is down, or the
/// node's store failed, which is mended once.
fn goes_on(event: &Event, fault: NodeFault) -> bool
    ensures { result ≡ goes_on event.now (Err fault) }
{
    match fault {
        NodeFault::Down => matches!(event, Event::Frame { .. }),
        NodeFault::Store(_) => true,
        _ => false,
    }
}

/// What refused a call, if anything did.
fn fault_of(answer: Result<(), NodeFault>) -> Option<NodeFault>
    ensures { result ≡ fault_in answer }
{
    match answer {
        Ok(()) => None,
        Err(fault) => Some(fault),
    }
}

/// Keeps the piece of a seat in place of the one before, where such a piece was given. It takes no memory.
fn keep_piece(kept: &mut Vec<u8>, given: Waiting)
    ensures { kept.new.items ≡ piece_after given.event kept.old.items }
{
    if let Event::Line { bytes, .. } = given.event {
        *kept = bytes;
    }
}

impl<D: Disk + Drop, L: Links + Drop> Server<D, L> {
    ghost use Rattle.serving.specs.Serving.{served_of, IsStill};

    /// Serves a cluster over these links: each node's log is emptied, and gets what the node's log has. All seats are
    /// awaited at node 0; one that is dropped later is awaited at the next node, or played for to the end.
    ///
    /// Refused is 106 where a log can't be emptied or written.
    pub fn new(
        alloc: Global,
        cluster: Cluster<D>,
        links: L,
        outages: Outages,
        absent: Absent,
    ) -> Result<Server<D, L>, ServeFault>
        requires { IsPromised D.Disk (view_of cluster) }
        ensures cluster { IfOk result (λ server. view_of server.cluster ≡ view_of cluster) }
        ensures opens { IfOk result (λ server. Opens (length (view_of cluster).nodes) (L.passed links) (served_of server)) }
        ensures outages { IfOk result (λ server. outages_in (served_of server).progress.outages ≡ outages_in outages) }
        ensures absent { IfOk result (λ server. (served_of server).progress.absent ≡ absent) }
        ensures places { IfOk result (λ server. places_in (served_of server).progress.places ≡ replicate (view_of cluster).config.setting.game.players (Awaited 0)) }
        ensures fault { IfErr result (λ fault. fault ≡ LogFailed) }
    {
        cluster.config().game().limits();
        let seats = cluster.config().game().players();
        let mut desk = Desk::new(links, outages, absent, seats);
        desk.progress.count_commands(&cluster);
        empty_logs(&mut desk.links, &cluster)?;
        if let Err(fault) = desk.show(&cluster) {
            return Err(fault);
        }
        Ok(Server {
            alloc,
            cluster,
            desk,
            waiting: None,
            last_piece: Vec::new(alloc),
            lists: MessageRoom::new(),
        })
    }

    /// Does the first thing that is due, by at most one call of a node: the one that the answer names. What the call
    /// showed is given to its readers before the answer. Where the seat that is due sends nothing for so long as the links
    /// wait, nothing was done, and the same turn comes again.
    ///
    /// By 92 nothing has changed, and the same turn comes again; it comes too where the links find no room for what the
    /// turn may carry and show, which they make first. After 105 and 106, and after another fault of a node, the match
    /// can't go on.
    pub fn turn(&mut self) -> Result<Turn, ServeFault>
        ensures turned { Turned D.Disk (served_of self.old) result (served_of self.new) }
        ensures promised { IsPromised D.Disk (view_of self.new.cluster) }
        ensures unforged { HasNoForged (view_of self.old.cluster) → HasNoForged (view_of self.new.cluster) }
        ensures begun { map (begun_of D.Disk) (view_of self.new.cluster).nodes ≡ map (begun_of D.Disk) (view_of self.old.cluster).nodes }
    {
        // Before anything is taken or given: what the turn then carries and shows finds its room.
        let most = most_of_turn(
            &self.cluster,
            &self.desk.progress,
            &self.waiting,
            &mut self.lists,
        );
        if self.desk.links.reserve(most.pieces, most.bytes).is_err() {
            return Err(ServeFault::Node(NodeFault::OutOfMemory));
        }
        self.take_turn()
    }

    /// The same once the links have made room.
    fn take_turn(&mut self) -> Result<Turn, ServeFault>
        ensures turned { Turned D.Disk (served_of self.old) result (served_of self.new) }
        ensures promise { KeepsPromise D.Disk (view_of self.old.cluster) (view_of self.new.cluster) }
    {
        match self.take_waiting()? {
            Taking::Gives(waiting) => self.give(waiting),
            Taking::Waits { seat, node } => Ok(Turn::Waits { seat, node }),
            Taking::Over => {
                close_all(&mut self.desk.links, &self.cluster);
                Ok(Turn::Over)
            }
        }
    }

    /// Takes the event that is to be given next: one that found no memory, or a new one.
    fn take_waiting(&mut self) -> Result<Taking, ServeFault>
        ensures still { IsStill self.old self.new }
        ensures progress { self.new.desk.progress ≡ self.old.desk.progress }
        ensures shown { self.new.desk.shown ≡ self.old.desk.shown }
        ensures taken { self.new.waiting ≡ None }
        ensures passed { IfOk result (λ taking. L.passed self.new.desk.links ≡ L.passed self.old.desk.links ++ taken self.old.waiting (event_in taking)) }
        ensures failed { OnErr result (L.passed self.new.desk.links ≡ L.passed self.old.desk.links) }
        ensures next { IfOk result (TakesNext D.Disk (view_of self.old.cluster) self.old.desk.progress self.old.waiting) }
        ensures waiting { IfOk result (IsOfMatch (view_of self.old.cluster)) }
        ensures fault { IfErr result (λ fault. (self.old.waiting ≡ None) × FailsAt D.Disk (served_of self.old) fault) }
    {
        match self.waiting.take() {
            Some(waiting) => Ok(Taking::Gives(waiting)),
            None => {
                let due = self.desk.progress.due(&self.cluster);
                take_due(self.alloc, &mut self.desk.links, &self.cluster, due)
            }
        }
    }

    /// Gives an event to the cluster, and what that showed to its readers.
    fn give(&mut self, waiting: Waiting) -> Result<Turn, ServeFault>
        requires { IsWaiting (view_of self.old.cluster) waiting }
        ensures gave { Gave D.Disk waiting [] (served_of self.old) result (served_of self.new) }
        ensures begun { map (begun_of D.Disk) (view_of self.new.cluster).nodes ≡ map (begun_of D.Disk) (view_of self.old.cluster).nodes }
    {
        let answer = self.cluster.step(&waiting.event);
        self.desk.last_fault = fault_of(answer);
        if is_out_of_memory(answer) {
            self.waiting = Some(waiting);
            return Err(ServeFault::Node(NodeFault::OutOfMemory));
        }
        self.waiting = None;
        self.desk.settle_event(&self.cluster, &waiting);
        let turn = self.close_turn(&waiting, answer);
        keep_piece(&mut self.last_piece, waiting);
        turn
    }

    /// Ends a turn whose event was answered so: what was shown is given to its readers.
    fn close_turn(
        &mut self,
        waiting: &Waiting,
        answer: Result<(), NodeFault>,
    ) -> Result<Turn, ServeFault>
        ensures still { IsStill self.old self.new }
        ensures waiting { self.new.waiting ≡ self.old.waiting }
        ensures closes { Closes waiting.now answer (served_of self.old) result (served_of self.new) }
    {
        match answer {
            Ok(()) => {
                self.desk.show(&self.cluster)?;
                Ok(waiting.turn())
            }
            Err(fault) => self.close_refused_turn(waiting, fault),
        }
    }

    /// Ends a turn whose event was refused, where the server can go on: what was shown before is given to its readers.
    fn close_refused_turn(
        &mut self,
        waiting: &Waiting,
        fault: NodeFault,
    ) -> Result<Turn, ServeFault>
        ensures still { IsStill self.old self.new }
        ensures waiting { self.new.waiting ≡ self.old.waiting }
        ensures closes { Closes waiting.now (Err fault) (served_of self.old) result (served_of self.new) }
    {
        if !goes_on(&waiting.event, fault) || !self.begin_repair_after(&waiting.event, fault) {
            return Err(ServeFault::Node(fault));
        }
        self.desk.show(&self.cluster)?;
        Ok(waiting.turn())
    }

    /// Orders the repair of a node whose store failed, which it gets once; whether the server can go on after the fault. Other
    /// faults need nothing.
    fn begin_repair_after(&mut self, event: &Event, fault: NodeFault) -> bool
        ensures still { IsStill self.old self.new }
        ensures waiting { self.new.waiting ≡ self.old.waiting }
        ensures passed { L.passed self.new.desk.links ≡ L.passed self.old.desk.links }
        ensures shown { self.new.desk.shown ≡ self.old.desk.shown }
        ensures mended { Mends fault (node_of event.now) self.old.desk.progress result self.new.desk.progress }
    {
        match fault {
            NodeFault::Store(_) => self.desk.progress.begin_repair(event.node()),
            _ => true,
        }
    }

    /// The cluster as it is.
    pub fn cluster(&self) -> &Cluster<D>
        ensures same { result.now ≡ self.now.cluster }
        ensures promised { IsPromised D.Disk (view_of self.now.cluster) }
    {
        &self.cluster
    }

    /// The links.
    pub fn links(&self) -> &L
        ensures { L.passed result.now ≡ (served_of self.now).passed }
    {
        &self.desk.links
    }

    /// The node that was called last, counted from 0; 0 before the first call.
    pub fn last_node(&self) -> u8
        ensures { result ≡ (served_of self.now).called }
    {
        self.desk.last_node
    }

    /// By what the last call of a node was refused, if it was; a node whose store failed goes on to be stopped and started.
    pub fn last_fault(&self) -> Option<NodeFault>
        ensures { result ≡ (served_of self.now).refused }
    {
        self.desk.last_fault
    }

    /// What a seat sent that was read last, with its line feed if it came; empty before the first.
    pub fn last_piece(&self) -> &[u8]
        ensures { result.now ≡ (served_of self.now).piece }
    {
        &self.last_piece
    }

    /// Where a seat is, counted from 0; none of a number that no seat has.
    pub fn place(&self, seat: usize) -> Option<Place>
        ensures { result ≡ slice_get (places_in (served_of self.now).progress.places) seat }
    {
        self.desk.progress.places.at(seat)
    }

    /// Which seat the next turn will await at which node, if any.
    pub fn awaited(&self) -> Option<(u8, u8)>
        ensures { IsAwaited D.Disk (served_of self.now) result }
    {
        if self.waiting.is_some() {
            return None;
        }
        match self.desk.progress.due(&self.cluster) {
            Due::Await { seat, node } => Some((seat, node)),
            _ => None,
        }
    }
}
