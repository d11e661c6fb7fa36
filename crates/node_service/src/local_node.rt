//! The node of a process, and what its last call made.

ghost use Rattle.std.specs.Prelude.{◌≡◌, ◌<◌, ◌≤◌, ◌++◌, true, false, Some, None, IfSome, IsSome, IsNone};
ghost use Rattle.dealer_node.specs.Outs.{nothing_told};
ghost use Rattle.dealer_node.specs.Seeing.{ready_in};
ghost use Rattle.stations.specs.Stations.{Acts};
ghost use Rattle.node_service.specs.declared.limits.TheConstants.{SEATS as COUNT};
ghost use Rattle.node_service.specs.Calling.{MayBeGiven, started_by, started_after, called_if};
ghost use Rattle.node_service.specs.Sittings.{IsGivenBy};
ghost use Rattle.dealer_node.specs.Taking.{TakesDown};
ghost use Rattle.node_service.specs.Ending.{is_needed, takes_down, is_meant, EndsBy, IsNeededAfter, IsRefusal, IsFaultAfter, IsOverAt};

use crate::desk::Desk;
use crate::server::NodeServer;
use crate::terms::Terms;
use dealer_node::{Node, NodeFault, Out, SeatFault};
use dealer_world::Event;
use node_wires::Wire;
use promise_store::Disk;
use stations::Station;
use std::alloc::Global;

/// The node of a process, and what its last call made.
pub struct LocalNode<D: Disk + Drop> {
    station: Station<D>,
    made: Out,
    /// It was started, which happens once.
    is_started: bool,
    /// The fault that ends its process: the one by which the first such call was answered; and whether that call was a start, or the
    /// end of a seat.
    fault: Option<NodeFault>,
    was_needed: bool,
    /// By what terms its match is played.
    terms: Terms,
    ghost meant: { is_meant was_needed fault ≡ true },
}

/// By hand, so that letting one go is one call for whoever owns it (docs/ARCHITECTURE.md, Habits).
impl<D: Disk + Drop> Drop for LocalNode<D> {
    fn drop(self) {
        let LocalNode {
            station: _,
            made: _,
            is_started: _,
            fault: _,
            was_needed: _,
            terms: _,
        } = self;
    }
}

/// Whether a call that was answered so was given what it brought.
fn is_given(answer: Option<Result<(), NodeFault>>) -> bool
    ensures { IsGivenBy result answer }
{
    match answer {
        None => false,
        Some(Ok(())) => true,
        Some(Err(NodeFault::OutOfMemory)) => false,
        Some(Err(_)) => true,
    }
}

/// A call of the node that was given what it brought is put down at the wires.
fn put_down<W: Wire>(wire: &mut W, is_given: bool)
    ensures { W.passed wire.new ≡ W.passed wire.old ++ called_if is_given }
{
    if is_given {
        wire.called();
    }
}

/// Whether a node was started, behind this event.
fn is_started_by(event: &Event, is_started: bool) -> bool
    ensures { result ≡ started_by event.now is_started }
{
    match event {
        Event::Start { .. } => true,
        Event::Stop { .. }
        | Event::Frame { .. }
        | Event::Line { .. }
        | Event::Tick { .. }
        | Event::Away { .. }
        | Event::Connect { .. }
        | Event::Drop { .. } => is_started,
    }
}

/// Whether this is a start, or the end of a seat.
fn is_needed(event: &Event) -> bool
    ensures { result ≡ is_needed event.now }
{
    match event {
        Event::Start { .. } | Event::Drop { .. } => true,
        Event::Stop { .. }
        | Event::Frame { .. }
        | Event::Line { .. }
        | Event::Tick { .. }
        | Event::Away { .. }
        | Event::Connect { .. } => false,
    }
}

/// Whether a call that was answered by this fault took the node down.
fn takes_down(fault: NodeFault) -> bool
    ensures value { result ≡ takes_down fault }
    ensures down { TakesDown (Err fault) → result ≡ true }
    ensures only { result ≡ true → TakesDown (Err fault) }
{
    match fault {
        NodeFault::Store(_) | NodeFault::Conflict => true,
        NodeFault::Down
        | NodeFault::OutOfMemory
        | NodeFault::Spent
        | NodeFault::BadFrame(_)
        | NodeFault::NothingToAct => false,
    }
}

/// The fault that ends the process where this event was answered so: a call took the node down, or its start, or the end of a
/// seat, was refused.
fn ending_fault(event: &Event, answer: Result<(), NodeFault>) -> Option<NodeFault>
    ensures answered { IfSome result (λ fault. answer ≡ Err fault) }
    ensures ends { EndsBy event.now (Some answer) → IsSome result }
    ensures only { IsSome result → EndsBy event.now (Some answer) }
    ensures meant { is_meant (is_needed event.now) result ≡ true }
{
    match answer {
        Ok(()) => None,
        Err(fault) => {
            if is_needed(event) || takes_down(fault) {
                Some(fault)
            } else {
                None
            }
        }
    }
}

impl<D: Disk + Drop> LocalNode<D> {
    ghost use Rattle.stations.specs.Looking.{look_of};

    /// A station whose node made nothing yet.
    pub fn new(alloc: Global, station: Station<D>) -> LocalNode<D>
        ensures station { result.station ≡ station }
        ensures fault { result.fault ≡ None }
        ensures started { result.is_started ≡ false }
    {
        LocalNode {
            station,
            made: Out::new(alloc),
            is_started: false,
            fault: None,
            was_needed: false,
            terms: Terms {
                patience: None,
                start: 0,
                gives_up: false,
                settings: None,
            },
        }
    }

    /// The same by these terms of its match.
    pub(crate) fn under(self, terms: Terms) -> LocalNode<D>
        ensures station { result.station ≡ self.station }
        ensures made { result.made ≡ self.made }
        ensures started { result.is_started ≡ self.is_started }
        ensures fault { result.fault ≡ self.fault }
        ensures needed { result.was_needed ≡ self.was_needed }
        ensures terms { result.terms ≡ terms }
    {
        let mut member = self;
        member.terms = terms;
        member
    }

    /// By what terms its match is played.
    pub(crate) fn terms(&self) -> Terms
        ensures { result ≡ self.now.terms }
    {
        self.terms
    }

    /// Gives an event to the node; none that isn't its own. What it made stands in `made` until the next one. Nobody calls it
    /// but `Desk::step`, below.
    fn step(&mut self, event: &Event) -> Option<Result<(), NodeFault>>
        requires { MayBeGiven self.old.is_started event.now }
        ensures started { self.new.is_started ≡ started_after event.now result self.old.is_started }
        ensures fault { IsFaultAfter event.now self.old.fault result self.new.fault }
        ensures needed { IsNeededAfter event.now self.old.was_needed result self.new.was_needed }
        ensures ends { EndsBy event.now result → IsSome self.new.fault }
        ensures terms { self.new.terms ≡ self.old.terms }
        ensures acts { IfSome result (λ answer. Acts D.Disk event.now self.new.made answer (look_of self.old.station) (look_of self.new.station)) }
        ensures none { IsNone result → self.new.station ≡ self.old.station }
        ensures unmade { IsNone result → self.new.made ≡ nothing_told }
    {
        self.made.clear();
        let nodes = self.station.config().nodes();
        let players = self.station.config().game().players();
        if event.node() != self.station.number() || !event.is_for(nodes, players) {
            return None;
        }
        self.is_started = is_started_by(event, self.is_started);
        let answer = self.station.step(event, &mut self.made);
        self.note_fault(event, answer);
        Some(answer)
    }

    /// An event was answered so: a fault that ends the process is noted, unless one was before.
    fn note_fault(&mut self, event: &Event, answer: Result<(), NodeFault>)
        ensures same { self.new ≡ record self.old { fault = self.new.fault; was_needed = self.new.was_needed; meant = self.new.meant } }
        ensures fault { IsFaultAfter event.now self.old.fault (Some answer) self.new.fault }
        ensures needed { IsNeededAfter event.now self.old.was_needed (Some answer) self.new.was_needed }
        ensures ends { EndsBy event.now (Some answer) → IsSome self.new.fault }
    {
        if self.fault.is_some() {
            return;
        }
        if let Some(fault) = ending_fault(event, answer) {
            self.was_needed = is_needed(event);
            self.fault = Some(fault);
        }
    }

    /// What holds of the fault that ends its process: the call that it answered took the node down, or was a start, or the end of a
    /// seat.
    pub(crate) fn limits(&self)
        ensures { is_meant self.now.was_needed self.now.fault ≡ true }
    {}

    /// The fault that ends its process, once there is one.
    pub(crate) fn ending_fault(&self) -> Option<NodeFault>
        ensures { result ≡ self.now.fault }
    {
        self.fault
    }

    /// Whether it was started.
    pub(crate) fn is_started(&self) -> bool
        ensures { result ≡ self.now.is_started }
    {
        self.is_started
    }

    /// What the last call made.
    pub fn made(&self) -> &Out
        ensures { result.now ≡ self.now.made }
    {
        &self.made
    }

    /// The node.
    pub fn node(&self) -> &Node<D>
        ensures { result.now ≡ (look_of self.now.station).node }
    {
        self.station.node()
    }

    /// What of the last call was wrong in what a seat sent: the fault of this number.
    pub(crate) fn fault(&self, number: usize) -> Option<SeatFault> {
        match self.made.faults().get(number) {
            Some(found) => Some(*found),
            None => None,
        }
    }

    /// Whether the match is over at the node.
    pub(crate) fn is_over(&self) -> bool
        ensures { result ≡ true → IsOverAt (look_of self.now.station).node }
    {
        self.station.node().table().over()
    }

    /// The station.
    pub fn station(&self) -> &Station<D>
        ensures { result.now ≡ self.now.station }
    {
        &self.station
    }

    /// Whether a seat's session is ready.
    pub fn is_connected(&self, seat: u8) -> bool
        ensures { seat < (look_of self.now.station).config.setting.game.players → ready_in (look_of self.now.station).node seat ≡ true → result ≡ true }
    {
        self.station.limits();
        let players = self.station.config().game().players();
        (seat as usize) < players && self.station.node().connected(seat as usize)
    }

    /// How many seats the match has.
    pub(crate) fn players(&self) -> u8
        ensures all { (look_of self.now.station).config.setting.game.players ≤ result }
        ensures most { result ≤ COUNT }
    {
        let game = self.station.config().game();
        game.limits();
        game.players() as u8
    }

    /// Its number, counted from 0.
    pub fn number(&self) -> u8
        ensures { result ≡ (look_of self.now.station).number }
    {
        self.station.number()
    }
}

impl<D: Disk + Drop, W: Wire + Drop> Desk<D, W> {
    ghost use Rattle.node_service.specs.Arriving.{taken_for};
    ghost use Rattle.node_service.specs.Called.{Calls};
    ghost use Rattle.node_service.specs.Desks.{served_by};
    ghost use Rattle.node_service.specs.Going.{Does};

    /// Gives an event to the node: none that isn't its own, and nothing of a seat whose bot isn't here. The call is put down at the
    /// wires, and then what it made is handed on. A bot of which something is lost is let go of. Nobody calls it but
    /// `NodeServer::step`, below.
    fn step(&mut self, event: &Event) -> Option<Result<(), NodeFault>>
        requires { MayBeGiven self.old.member.is_started event.now }
        ensures goes { Does D.Disk (taken_for event.now) (served_by W.Wire self.old) (served_by W.Wire self.new) }
        ensures calls { Calls event.now result self.old.member self.new.member }
    {
        if !self.sittings.admits(event, self.member.node().running()) {
            self.refuse(event);
            return None;
        }
        let answer = self.member.step(event);
        let is_given = is_given(answer);
        put_down(&mut self.wire, is_given);
        let deaf = self.hand_on();
        self.note_promised();
        if !is_given {
            self.refuse(event);
            return answer;
        }
        self.part_from(event);
        self.sittings.settle(event);
        self.hang_up_all(deaf);
        answer
    }
}

impl<D: Disk + Drop, W: Wire + Drop> NodeServer<D, W> {
    ghost use Rattle.node_service.specs.Arriving.{taken_for};
    ghost use Rattle.node_service.specs.Called.{Calls};
    ghost use Rattle.node_service.specs.Going.{Does};
    ghost use Rattle.node_service.specs.Knowing.{MayCall};
    ghost use Rattle.node_service.specs.Serving.{served_of};

    /// Gives an event to the node: none that isn't its own, nothing of a seat whose bot isn't here, and a tick, or an order that
    /// a seat is played for, only where that is due by what the process knows. What it made is handed on. A bot of which
    /// something is lost is let go of. Nothing else is given to the node. It answers the moment before too.
    pub(crate) fn step(&mut self, event: &Event) -> (Option<Result<(), NodeFault>>, u64)
        requires { MayCall self.old event.now }
        ensures goes { Does D.Disk (taken_for event.now) (served_of self.old) (served_of self.new) }
        ensures calls { Calls event.now result.0 self.old.desk.member self.new.desk.member }
    {
        self.note_given(event);
        let before = self.desk.now();
        (self.desk.step(event), before)
    }
}
