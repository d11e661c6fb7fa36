ghost use Rattle.std.specs.Prelude.{◌≡◌, ◌<◌, ◌++◌, ℕ, List, [], length, map, IsTrue, get_or, ◌∷◌, ◌⊎◌, Result, ◌↔◌, OnOk, IfOk, IfErr, IfSome, IsNone, Some, slice_get, ◌≤◌, ◌-◌, ◌^◌, min, true, false};
ghost use Rattle.dealer_world.specs.KeptShown.{piece_by};
ghost use Rattle.dealer_world.specs.KeptArrivals.{arrival_of};
ghost use Rattle.dealer_world.specs.Recordings.{start_by};
ghost use Rattle.std.specs.List.{All, AllZip};
ghost use Rattle.dealer_node.specs.Outs.{nothing_told};
ghost use Rattle.dealer_node.specs.Most.{ShowsWithin};
ghost use Rattle.dealer_node.specs.Seeing.{member_in, runs, front_in, IsSeen, begun_of};
ghost use Rattle.node_rules.specs.Standings.{Standing};
ghost use Rattle.dealer_world.specs.Records.{no_record, log_of};
ghost use Rattle.dealer_world.specs.Headline.{Era};
ghost use Rattle.dealer_world.specs.Beginning.{AreImages, AreImagesDuring, AreStarted, StartsAll, HaveStores, HasStore, AreEach, IsWant, GoOnNew, IsOpenedSince, MarkFirst, AreOpenedOver, MayBeFound, AreImagesOf, KeepStores, AreAtRest, LeaveNoMore, IsFirstRefused, IsUnopened};
ghost use Rattle.protocol_model.specs.Stores.{Store, empty_store};
ghost use Rattle.dealer_world.specs.Stepping.{View, IsFor, IsGiven, begins_by_event, Stepped, Ran};
ghost use Rattle.dealer_world.specs.Shows.{GrowsWithin, most_by, most_shown_at, most_shown_with, most_shown_for};
ghost use Rattle.dealer_world.specs.CalmCluster.{MovesOn};
ghost use Rattle.dealer_world.specs.Events.{node_of};
ghost use Rattle.dealer_world.specs.declared.event.Event.{Event as Call};
ghost use Rattle.dealer_node.specs.declared.fault.NodeFault.{NodeFault as Fault};
ghost use Rattle.promise_store.specs.declared.fault.StoreFault.{StoreFault};
ghost use Rattle.dealer_node.specs.Nodes.{Node};
ghost use Rattle.dealer_world.specs.Promise.{IsForMatch, IsPromised, IsPromisedNew, IsBackedBy, StopsAt, IsSameMatch, GoesOnFrom, WasReached, HasNoForged, AreAddressed, NeverConflicts, NoneConflicts, era_of, with_brought};
ghost use Rattle.dealer_world.specs.Ruling.{AreAtPlaces, AreSeen, IsBehind, GoesOn};

use crate::arrivals::Arrival;
use crate::beginning::{created_all, reopened_all};
use crate::begun::Begun;
use crate::event::Event;
use crate::frames::Frame;
use crate::laws::{
    no_dead_end, runs_are_backed, runs_never_conflict, runs_send_to_nodes, runs_show_one_list,
};
use crate::recording::Recording;
use crate::shown::Piece;
use crate::stopped::Stopped;
use dealer_kind::Config;
use dealer_node::laws::{images_are_seen, moments_pass, seen_as_one};
use dealer_node::{MostShown, Node, NodeFault, Out, is_out_of_memory};
use paxos_wire::MessageRoom;
use promise_store::Disk;
use std::alloc::{AllocError, Global};

/// Gives an event to this node, which the caller sees to be the event's. What the node sends, shows and tells stands in
/// `made`, which is empty before; by a fault it still is.
pub fn give<D: Disk + Drop>(
    node: &mut Node<D>,
    event: &Event,
    made: &mut Out,
) -> Result<(), NodeFault>
    requires within { IsFor (member_in node.old).nodes (member_in node.old).setting.game.players event.now }
    requires nothing { made.old ≡ nothing_told }
    ensures given { IsGiven D.Disk event.now node.old node.new made.new result }
    ensures up { (s : Standing) → IsSeen D.Disk node.old s → runs node.old ≡ s.up }
    ensures shows { ShowsWithin (most_by event.now node.old) nothing_told made.new }
{
    // For `up` alone: what it answers is what the node is seen as.
    let _up = node.running();
    match event {
        Event::Frame { from, bytes, .. } => node.on_frame(*from as usize, bytes, made),
        Event::Line { seat, bytes, .. } => node.on_line(*seat as usize, bytes, made),
        Event::Tick { .. } => node.on_tick(made),
        Event::Away { .. } => node.on_away(made),
        Event::Connect { seat, .. } => node.connect(*seat as usize),
        Event::Drop { seat, .. } => node.drop_seat(*seat as usize),
        Event::Stop { pick, .. } => {
            node.stop(*pick);
            Ok(())
        }
        Event::Start { .. } => node.start(made),
    }
}

/// Whether a start of a node begins by an event that was answered so.
fn begins(is_up: bool, event: &Event, answer: Result<(), NodeFault>) -> bool
    ensures { result ≡ begins_by_event is_up event.now answer }
{
    answer.is_ok() && !is_up && matches!(event, Event::Start { .. })
}

/// All nodes of a match, and the record of what they sent, were given and showed.
pub struct Cluster<D: Disk + Drop> {
    alloc: Global,
    config: Config,
    /// Whether it goes on from disks that another one left.
    opened: bool,
    nodes: Vec<Node<D>>,
    recording: Recording,
    ghost count: { length nodes.items ≡ length config.sources },
    ghost at_places: { ∥ AreAtPlaces config nodes.items ∥₁ },
    ghost behind: { IsBehind D.Disk opened config nodes.items recording.all },
}

/// By hand, so that letting one go is one call for whoever owns it (docs/ARCHITECTURE.md, Habits).
impl<D: Disk + Drop> Drop for Cluster<D> {
    fn drop(self) {
        let Cluster {
            alloc: _,
            config: _,
            opened: _,
            nodes: _,
            recording: _,
        } = self;
    }
}

impl<D: Disk + Drop> Cluster<D> {
    ghost use Rattle.dealer_world.specs.Viewing.{view_of};
    ghost use Rattle.dealer_world.specs.declared.cluster.Cluster.{Cluster};

    /// Gives an event to its node, and puts that call into the record.
    fn advance(&mut self, event: &Event) -> Result<(), NodeFault>
        requires { IsForMatch self.old.config event.now }
        ensures stepped { Stepped D.Disk (view_of self.old) event.now result (view_of self.new) }
        ensures begun { map (begun_of D.Disk) self.new.nodes.items ≡ map (begun_of D.Disk) self.old.nodes.items }
        ensures shows { GrowsWithin (most_shown_for (view_of self.old) event.now) (view_of self.old).all (view_of self.new).all }
    {
        let number = event.node() as usize;
        let is_up = self.nodes[number].running();
        // What an order is of is said by the front that it met, not by the one that it left.
        let front = self.nodes[number].front();
        self.recording.make_place(event.size())?;
        let mut made = Out::new(self.alloc);
        let answer = give(&mut self.nodes[number], event, &mut made);
        if is_out_of_memory(answer) {
            return answer;
        }
        let begins = begins(is_up, event, answer);
        self.recording.put_call(event, front, is_up, begins, made);
        answer
    }

    /// Gives an event to its node. The number of a node in the event is below that of the match's nodes, and that of a
    /// seat below its game's players.
    ///
    /// It is one call of that node; the others stay as they are. What the call made is `last`, and it stands in the
    /// record, with what arrived, as soon as the node ran and there was memory. By 92 nothing has changed.
    pub fn step(&mut self, event: &Event) -> Result<(), NodeFault>
        requires { IsForMatch (view_of self.old).config event.now }
        ensures stepped { Stepped D.Disk (view_of self.old) event.now result (view_of self.new) }
        ensures begun { map (begun_of D.Disk) (view_of self.new).nodes ≡ map (begun_of D.Disk) (view_of self.old).nodes }
        ensures promised_new { IsPromisedNew D.Disk (view_of self.new) }
        ensures promised { IsPromised D.Disk (view_of self.new) }
        ensures backed { IsBackedBy D.Disk (view_of self.new) }
        ensures addressed { AreAddressed D.Disk (view_of self.new) }
        ensures conflict { NeverConflicts D.Disk (view_of self.old) result (view_of self.new) }
        ensures shows { GrowsWithin (most_shown_for (view_of self.old) event.now) (view_of self.old).all (view_of self.new).all }
    {
        runs_show_one_list();
        runs_are_backed();
        runs_send_to_nodes();
        runs_never_conflict();
        images_are_seen::<D>();
        seen_as_one::<D>();
        self.advance(event)
    }

    /// Gives events to their nodes, one after another, up to the first that finds no memory; it goes on after every
    /// other fault.
    pub fn run(&mut self, events: &[Event]) -> Result<(), Stopped>
        requires { All (IsForMatch (view_of self.old).config) events.now }
        ensures ran { OnOk result (Ran D.Disk (view_of self.old) events.now (view_of self.new)) }
        ensures stopped { IfErr result (λ stop. StopsAt D.Disk (view_of self.old) events.now stop.at (view_of self.new)) }
        ensures begun { map (begun_of D.Disk) (view_of self.new).nodes ≡ map (begun_of D.Disk) (view_of self.old).nodes }
        ensures promised_new { IsPromisedNew D.Disk (view_of self.new) }
        ensures promised { IsPromised D.Disk (view_of self.new) }
        ensures backed { IsBackedBy D.Disk (view_of self.new) }
        ensures addressed { AreAddressed D.Disk (view_of self.new) }
        // 95 is the answer of no event, of these or of any others that lead on from here.
        ensures conflict { NoneConflicts D.Disk (view_of self.old) }
        // No state is a dead end: a node that has something to propose moves on by the events of its way.
        ensures moves_on { OnOk result (MovesOn D.Disk (view_of self.old) events.now (view_of self.new)) }
    {
        runs_show_one_list();
        runs_are_backed();
        runs_send_to_nodes();
        runs_never_conflict();
        no_dead_end();
        images_are_seen::<D>();
        seen_as_one::<D>();
        for (at, event) in events.iter().enumerate() {
            if is_out_of_memory(self.step(event)) {
                return Err(Stopped { at });
            }
        }
        Ok(())
    }

    /// A cluster over nodes that are down, with nothing in its record.
    fn down(alloc: Global, config: Config, opened: bool, nodes: Vec<Node<D>>) -> Cluster<D>
        requires count { length nodes.items ≡ length config.sources }
        requires at_places { ∥ AreAtPlaces config nodes.items ∥₁ }
        requires behind { IsBehind D.Disk opened config nodes.items no_record }
        ensures config { (view_of result).config ≡ config }
        ensures opened { (view_of result).opened ≡ opened }
        ensures nodes { (view_of result).nodes ≡ nodes.items }
        ensures all { (view_of result).all ≡ no_record }
    {
        Cluster {
            alloc,
            config,
            opened,
            nodes,
            recording: Recording::new(alloc),
        }
    }

    /// Starts all nodes, one after another, up to the first that fails.
    fn start_all(&mut self) -> Result<(), NodeFault>
        ensures config { (view_of self.new).config ≡ (view_of self.old).config }
        ensures opened { (view_of self.new).opened ≡ (view_of self.old).opened }
        ensures last { OnOk result ((view_of self.new).last ≡ nothing_told) }
        ensures started { OnOk result (StartsAll D.Disk (view_of self.old) (view_of self.new)) }
        ensures failed { IfErr result (λ why. (standings : List Standing) → IsTrue D.is_honest → AreSeen D.Disk (view_of self.old).nodes standings → IsWant why) }
        ensures opens { AllZip (IsOpenedSince D.Disk) (view_of self.old).nodes (view_of self.new).nodes }
        ensures marks { OnOk result (IsTrue D.is_honest → AreEach (λ i node. runs node ≡ false) (view_of self.old).nodes
            → MarkFirst D.Disk (view_of self.old).nodes (length (view_of self.old).nodes) (view_of self.new).nodes) }
        ensures stores { OnOk result (IsTrue D.is_honest → AreEach (λ i node. runs node ≡ false) (view_of self.old).nodes → AreEach (λ i. HasStore D.Disk) (view_of self.old).nodes) }
        ensures refused { IfErr result (λ why. IsTrue D.is_honest → AreEach (λ i node. runs node ≡ false) (view_of self.old).nodes
            → IsWant why ⊎ ((f : StoreFault) × (why ≡ NodeFault.Store f) × IsFirstRefused D.Disk (view_of self.old).nodes f)) }
    {
        for node in 0..self.config.nodes() as u8 {
            self.advance(&Event::Start { node })?;
        }
        let alloc = self.alloc;
        self.recording.forget_last(alloc)?;
        Ok(())
    }

    /// A cluster of new nodes, one over each disk, each with a new store; all of them are started.
    ///
    /// Refused is the fault of the first node that fails, 91 or 92; then the disks are dropped.
    pub fn new(alloc: Global, config: Config, disks: Vec<D>) -> Result<Cluster<D>, NodeFault>
        requires { length disks.items ≡ length config.sources }
        ensures config { IfOk result (λ made. (view_of made).config ≡ config) }
        ensures opened { IfOk result (λ made. (view_of made).opened ≡ false) }
        ensures started { IfOk result (λ made. IsTrue D.is_honest → AreStarted D.Disk (λ i. empty_store) (view_of made)) }
        ensures last { IfOk result (λ made. (view_of made).last ≡ nothing_told) }
        ensures promised_new { IfOk result (λ made. IsPromisedNew D.Disk (view_of made)) }
        ensures promised { IfOk result (λ made. IsPromised D.Disk (view_of made)) }
        ensures failed { IfErr result (λ why. IsTrue D.is_honest → IsWant why) }
    {
        runs_show_one_list();
        config.limits();
        let nodes = created_all(alloc, &config, disks)?;
        let mut cluster = Cluster::down(alloc, config, false, nodes);
        cluster.start_all()?;
        Ok(cluster)
    }

    /// A cluster that goes on from the stores that its disks have; all nodes are started.
    ///
    /// Where it goes well, each disk was synced first and begun anew, and then opened: a store that version 1 made goes on
    /// with version 2, and any other disk was only read. Refused is 92, 91 with 63, or 91 of the first disk, in order, that
    /// has no store of its node; then the disks are dropped, and nothing is said of them.
    pub fn open(alloc: Global, config: Config, disks: Vec<D>) -> Result<Cluster<D>, NodeFault>
        requires { length disks.items ≡ length config.sources }
        ensures config { IfOk result (λ made. (view_of made).config ≡ config) }
        ensures opened { IfOk result (λ made. (view_of made).opened ≡ true) }
        // It goes on with the stores that the disks have.
        ensures stands { IfOk result (λ made. IsTrue D.is_honest
            → (stores : ℕ → Store) × HaveStores (length config.sources) (map D.seen disks.items) stores × AreStarted D.Disk stores (view_of made)) }
        ensures over { IfOk result (λ made. AreOpenedOver D.Disk (length config.sources) disks.items (view_of made).nodes) }
        // Over new stores it goes on from no era, like a new one.
        ensures fresh { IfOk result (λ made. HaveStores (length config.sources) (map D.seen disks.items) (λ i. empty_store) → GoesOnFrom D.Disk (view_of made) []) }
        // It goes on from a cluster of the same match, wherever its events have led, whose disks may be left with what
        // these read.
        ensures goes_on { IfOk result (λ made. (first : Cluster D D.Disk) (before : View (Node D)) (eras : List Era) → WasReached D.Disk (view_of first) before
            → IsSameMatch before (view_of made) → AreImages D.Disk before.nodes (map D.seen disks.items) → GoesOnFrom D.Disk before eras → IsTrue D.is_honest → HasNoForged before
            → GoesOnFrom D.Disk (view_of made) (era_of before ∷ eras)) }
        // And from one that stopped inside a call: then the record is that before the call, or that with what the call
        // brought beside.
        ensures goes_on_inside { IfOk result (λ made. (first : Cluster D D.Disk) (before after : View (Node D)) (event : Call) (answer : Result (Unit {0}) Fault) (eras : List Era)
            → WasReached D.Disk (view_of first) before → IsSameMatch before (view_of made) → (stepped : Stepped D.Disk before event answer after) → IsForMatch before.config event
            → AreImagesDuring D.Disk (node_of event) stepped.before stepped.after before.nodes (map D.seen disks.items)
            → GoesOnFrom D.Disk before eras → IsTrue D.is_honest → HasNoForged before → HasNoForged (with_brought before (front_in stepped.before) event)
            → ∥ GoesOnFrom D.Disk (view_of made) (era_of before ∷ eras) ⊎ GoesOnFrom D.Disk (view_of made) (era_of (with_brought before (front_in stepped.before) event) ∷ eras) ∥₁) }
        // Where it goes well, what the disks left at any moment of it they left before, or it stands for the stores that they
        // have. So where it is broken off and would have gone well, over disks at rest, the next one goes on from the same eras.
        ensures keeps { IfOk result (λ made. (stores : ℕ → Store) (files : List (List ℕ)) → IsTrue D.is_honest → HaveStores (length config.sources) (map D.seen disks.items) stores
            → MayBeFound D.Disk disks.items (view_of made).nodes files → KeepStores D.Disk (length config.sources) stores disks.items files) }
        ensures again { IfOk result (λ made. (eras : List Era) (files : List (List ℕ)) → IsTrue D.is_honest → AreAtRest D.Disk disks.items → MayBeFound D.Disk disks.items (view_of made).nodes files
            → GoesOnFrom D.Disk (view_of made) eras → GoesOn true (view_of made).config.setting (length config.sources) eras files) }
        // Where none of them is of version 1, they left no more than they did before. So where it is broken off then, over disks
        // that were handed on from a cluster, the next one goes on from that cluster.
        ensures within { IfOk result (λ made. (files : List (List ℕ)) → IsTrue D.is_honest → GoOnNew (length config.sources) (map D.seen disks.items) → MayBeFound D.Disk disks.items (view_of made).nodes files → AreImagesOf D.Disk disks.items files) }
        ensures resumes { IfOk result (λ made. (before : View (Node D)) (files : List (List ℕ)) → IsTrue D.is_honest → GoOnNew (length config.sources) (map D.seen disks.items) → LeaveNoMore D.Disk disks.items before.nodes
            → MayBeFound D.Disk disks.items (view_of made).nodes files → AreImages D.Disk before.nodes files) }
        ensures last { IfOk result (λ made. (view_of made).last ≡ nothing_told) }
        ensures promised { IfOk result (λ made. IsPromised D.Disk (view_of made)) }
        ensures first { IfErr result (λ why. IsTrue D.is_honest → IsUnopened (length config.sources) (map D.seen disks.items) why) }
    {
        runs_show_one_list();
        images_are_seen::<D>();
        seen_as_one::<D>();
        moments_pass::<D>();
        config.limits();
        let nodes = reopened_all(alloc, &config, disks)?;
        let mut cluster = Cluster::down(alloc, config, true, nodes);
        cluster.start_all()?;
        Ok(cluster)
    }

    /// What holds of every cluster: it has as many nodes as the match, each at its place there.
    pub fn limits(&self)
        ensures count { length (view_of self.now).nodes ≡ length (view_of self.now).config.sources }
        ensures at_places { ∥ AreAtPlaces (view_of self.now).config (view_of self.now).nodes ∥₁ }
    {
        let _ = &self.opened;
    }

    /// The match and its nodes.
    pub fn config(&self) -> &Config
        ensures { result.now ≡ (view_of self.now).config }
    {
        &self.config
    }

    /// How many nodes there are: those of the match. What is asked of a node's number is said by this count.
    pub fn node_count(&self) -> usize
        ensures { result ≡ length (view_of self.now).config.sources }
    {
        self.config.nodes()
    }

    /// The node of this number, counted from 0.
    pub fn node(&self, number: usize) -> &Node<D>
        requires { number < length (view_of self.now).config.sources }
        ensures { slice_get (view_of self.now).nodes number ≡ Some result.now }
    {
        &self.nodes[number]
    }

    /// How many pieces the next call of the node of this number, counted from 0, shows at most, and how many bytes they
    /// have in all, where it brings no frame: what the record gains of them by `step`.
    pub fn most_shown(&self, number: usize) -> MostShown
        requires { number < length (view_of self.now).config.sources }
        ensures { result ≡ most_shown_at (view_of self.now) number }
    {
        self.nodes[number].most_shown()
    }

    /// The same where it brings a frame of these bytes, which is read into this room.
    pub fn most_shown_by(&self, number: usize, bytes: &[u8], room: &mut MessageRoom) -> MostShown
        requires { number < length (view_of self.now).config.sources }
        ensures { result ≡ most_shown_with (view_of self.now) number bytes.now }
    {
        self.nodes[number].most_shown_by(bytes, room)
    }

    // The record is read through the functions below alone: how it is kept (`Recording`) is no part of what a cluster is,
    // so the readers of it that callers need stand here again, over the cluster's view.

    /// What the last call made; empty where it was answered by a fault. A call that found no memory isn't counted.
    pub fn last(&self) -> &Out
        ensures { result.now ≡ (view_of self.now).last }
    {
        self.recording.last()
    }

    /// How many frames were sent; no more than the greatest number of the machine are counted.
    pub fn frame_count(&self) -> usize
        ensures { result ≡ min (length (view_of self.now).all.sent) (2 ^ 64 - 1) }
    {
        self.recording.frame_count()
    }

    /// The frame of this number, counted from 0 in the order of sending; `None` where so many weren't sent.
    pub fn frame(&self, number: usize) -> Option<Frame<'_>>
        ensures found { IfSome result (λ frame. slice_get (view_of self.now).all.sent number ≡ Some (record { from = frame.from; to = frame.to; bytes = frame.bytes.now })) }
        ensures none { IsNone result ↔ (length (view_of self.now).all.sent ≤ number) }
    {
        self.recording.frame(number)
    }

    /// How many pieces were shown; no more than the greatest number of the machine are counted.
    pub fn piece_count(&self) -> usize
        ensures { result ≡ min (length (view_of self.now).all.shown) (2 ^ 64 - 1) }
    {
        self.recording.piece_count()
    }

    /// What was shown under this number, counted from 0 in the order in which all was shown; `None` where there is no
    /// more.
    pub fn piece(&self, number: usize) -> Option<Piece<'_>>
        ensures found { IfSome result (λ piece. slice_get (view_of self.now).all.shown number ≡ Some (piece_by piece.node piece.start piece.reader piece.text.now)) }
        ensures none { IsNone result ↔ (length (view_of self.now).all.shown ≤ number) }
    {
        self.recording.piece(number)
    }

    /// Puts the log of a start behind what stands in a text: all that the node logged since it began, also by a call of
    /// it that failed later. By an `Err`, want of memory, a part of it may stand there.
    pub fn put_log(&self, of: Begun, log: &mut Vec<u8>) -> Result<(), AllocError>
        ensures { OnOk result (log.new.items ≡ log.old.items ++ log_of (view_of self.now).all.shown of.node of.start) }
    {
        self.recording.put_log(of, log)
    }

    /// How many arrivals there are: frames, bytes of seats, connections, drops and orders that reached running nodes.
    pub fn arrival_count(&self) -> usize
        ensures { result ≡ length (view_of self.now).all.delivered }
    {
        self.recording.arrivals().len()
    }

    /// The arrival of this number, counted from 0; `None` where there are no more.
    pub fn arrival(&self, number: usize) -> Option<Arrival<'_>>
        ensures found { IfSome result (λ arrival. slice_get (view_of self.now).all.delivered number ≡ Some (arrival_of arrival.what arrival.sent_before arrival.bytes.now)) }
        ensures none { IsNone result ↔ (length (view_of self.now).all.delivered ≤ number) }
    {
        self.recording.arrivals().get(number)
    }

    /// All starts that went well, in order; each began a log.
    pub fn starts(&self) -> &[Begun]
        ensures { map start_by result.now ≡ (view_of self.now).all.starts }
    {
        self.recording.starts()
    }
}
