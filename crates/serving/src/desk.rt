ghost use Rattle.std.specs.Prelude.{◌≡◌, ◌≤◌, length, replicate, OnOk, OnErr, IfErr};
ghost use Rattle.dealer_world.specs.Events.{node_of};
ghost use Rattle.dealer_world.specs.KeptShown.{piece_by};
ghost use Rattle.dealer_world.specs.Viewing.{view_of};
ghost use Rattle.seat_session.specs.Fault.{closes as closes_session};
ghost use Rattle.serving.specs.Giving.{counted};
ghost use Rattle.serving.specs.Going.{Settled, closes, ends_in_line_feed, leaves};
ghost use Rattle.serving.specs.Outing.{outages_in};
ghost use Rattle.serving.specs.Placed.{places_in};
ghost use Rattle.serving.specs.Turning.{turn_of};
ghost use Rattle.std.specs.List.{list_any};
ghost use Rattle.serving.specs.declared.place.Place.TheVariants.{Awaited};
ghost use Rattle.serving.specs.declared.serve_fault.ServeFault.TheVariants.{LogFailed};

use crate::outages::Outages;
use crate::progress::Progress;
use crate::serve_fault::ServeFault;
use crate::waiting::Waiting;
use dealer_node::{NodeFault, Reader, SeatFault};
use dealer_world::{Cluster, Event, Piece};
use match_file::Absent;
use match_links::Links;
use promise_store::Disk;
use seat_session::SessionFault;

/// What a server has besides its cluster: its links, and how far it is with all.
pub(crate) struct Desk<L: Links + Drop> {
    pub(crate) links: L,
    pub(crate) progress: Progress,
    /// How many pieces of the record were given to their readers.
    pub(crate) shown: usize,
    /// The node that was called last.
    pub(crate) last_node: u8,
    /// By what that call was refused.
    pub(crate) last_fault: Option<NodeFault>,
}

/// By hand, so that letting one go is one call for whoever owns it (docs/ARCHITECTURE.md, Habits).
impl<L: Links + Drop> Drop for Desk<L> {
    fn drop(self) {
        let Desk {
            links: _,
            progress: _,
            shown: _,
            last_node: _,
            last_fault: _,
        } = self;
    }
}

impl<L: Links + Drop> Desk<L> {
    ghost use Rattle.serving.specs.Desks.{CallsNone, GivesOn, GivesPiece, GivesNothing, TellsLine};

    /// Nothing is done yet; so many seats are awaited.
    pub(crate) fn new(links: L, outages: Outages, absent: Absent, seats: usize) -> Desk<L>
        requires { seats ≤ 10 }
        ensures links { result.links ≡ links }
        ensures outages { outages_in result.progress.outages ≡ outages_in outages }
        ensures absent { result.progress.absent ≡ absent }
        ensures places { places_in result.progress.places ≡ replicate seats (Awaited 0) }
        ensures shown { result.shown ≡ 0 }
    {
        Desk {
            links,
            progress: Progress::new(outages, absent, seats),
            shown: 0,
            last_node: 0,
            last_fault: None,
        }
    }

    /// Notes what an event did that was given to the cluster, and closes at the links what it ended: the connection of a seat
    /// that was dropped, the ports of a node that was stopped. A seat that is played for from now on is turned away.
    pub(crate) fn settle_event<D: Disk + Drop>(&mut self, cluster: &Cluster<D>, waiting: &Waiting)
        ensures settled { Settled D.Disk (view_of cluster.now) waiting.now.event (turn_of waiting.now.number waiting.now.seat waiting.now.event) self.old.progress self.new.progress }
        ensures passed { L.passed self.new.links ≡ L.passed self.old.links }
        ensures shown { self.new.shown ≡ self.old.shown }
        ensures called { self.new.last_node ≡ node_of waiting.now.event }
        ensures refused { self.new.last_fault ≡ self.old.last_fault }
    {
        self.last_node = waiting.event.node();
        self.progress.count_commands(cluster);
        match &waiting.event {
            Event::Frame { .. } => self.progress.note_delivered(waiting.number),
            Event::Line { node, seat, bytes } => {
                self.progress.note_greeted(*seat);
                if leaves(*seat as usize, bytes, cluster.last().faults()) {
                    self.progress.note_leaving(*seat as usize, *node);
                }
            }
            Event::Tick { .. } | Event::Away { .. } => {}
            Event::Connect { node, seat } => self.progress.note_seated(*seat, *node),
            Event::Drop { node, seat } => {
                self.links.hang_up(*node, *seat);
                self.progress.note_greeted(*seat);
                if self.progress.drop_seat(cluster, *seat, *node) {
                    self.links.turn_away(*seat);
                }
            }
            Event::Stop { node, .. } => {
                self.links.close_node(*node);
                self.progress.note_stopped(cluster, *node);
            }
            Event::Start { node } => self.progress.note_started(*node),
        }
    }

    /// Gives each piece of the record that wasn't given yet to its reader: a log line to its log, a line to its seat.
    /// A seat that doesn't take a line leaves.
    pub(crate) fn show<D: Disk + Drop>(&mut self, cluster: &Cluster<D>) -> Result<(), ServeFault>
        requires { self.old.shown ≤ length (view_of cluster.now).all.shown }
        ensures uncalled { CallsNone self.old self.new }
        ensures given { GivesOn L.Links (view_of cluster.now).all.shown self.old self.new }
        ensures all_given { OnOk result (self.new.shown ≡ counted (view_of cluster.now).all.shown) }
        ensures fault { IfErr result (λ fault. fault ≡ LogFailed) }
    {
        for number in self.shown..cluster.piece_count() {
            let Some(piece) = cluster.piece(number) else {
                return Ok(());
            };
            self.hand_on(piece)?;
            self.shown = number + 1;
        }
        Ok(())
    }

    /// Gives a piece to its reader. A seat that doesn't take its line leaves.
    fn hand_on(&mut self, piece: Piece<'_>) -> Result<(), ServeFault>
        ensures uncalled { CallsNone self.old self.new }
        ensures shown { self.new.shown ≡ self.old.shown }
        ensures given { OnOk result (GivesPiece L.Links (piece_by piece.entry.node piece.entry.start piece.entry.reader piece.entry.text.now) self.old self.new) }
        ensures failed { OnErr result (GivesNothing L.Links self.old self.new) }
        ensures fault { IfErr result (λ fault. fault ≡ LogFailed) }
    {
        match piece.reader {
            Reader::Log => match self.links.add_to_log(piece.node, piece.text) {
                Ok(()) => Ok(()),
                Err(_) => Err(ServeFault::LogFailed),
            },
            Reader::Seat(seat) => {
                self.tell_line(piece.node, seat, piece.text);
                Ok(())
            }
        }
    }

    /// Sends a line to a seat that has a connection to the node. A seat that doesn't take it leaves.
    fn tell_line(&mut self, node: u8, seat: usize, line: &[u8])
        ensures uncalled { CallsNone self.old self.new }
        ensures shown { self.new.shown ≡ self.old.shown }
        ensures told { TellsLine L.Links node seat line.now self.old self.new }
    {
        if !self.progress.places.is_seated(seat, node) {
            return;
        }
        if self.links.write(node, seat as u8, line).is_err() {
            self.progress.note_leaving(seat, node);
        }
    }
}

/// Whether a seat leaves after a piece of its bytes: its connection ended behind it, or its session was closed.
fn leaves(seat: usize, bytes: &[u8], faults: &[SeatFault]) -> bool
    ensures { result ≡ leaves seat bytes.now faults.now }
{
    !ends_in_line_feed(bytes) || is_closed(faults, seat)
}

fn ends_in_line_feed(bytes: &[u8]) -> bool
    ensures { result ≡ ends_in_line_feed bytes.now }
{
    !bytes.is_empty() && bytes[bytes.len() - 1] == b'\n'
}

/// Whether one of these faults closed the session of a seat.
fn is_closed(faults: &[SeatFault], seat: usize) -> bool
    ensures { result ≡ list_any (closes seat) faults.now }
{
    faults
        .iter()
        .any(|found| found.seat == seat && closes(found.fault))
}

/// Whether a fault closes a session.
fn closes(fault: SessionFault) -> bool
    ensures { result ≡ closes_session fault }
{
    matches!(fault, SessionFault::BadVersion | SessionFault::LineTooLong)
}
