ghost use Rattle.std.specs.Prelude.{◌≡◌, ◌≤◌, ◌+◌, ◌-◌, ◌^◌, min, replicate, set, slice_get, Some};
ghost use Rattle.std.specs.Option.{option_map};
ghost use Rattle.dealer_world.specs.Viewing.{view_of};
ghost use Rattle.dealer_world.specs.declared.event.Event.TheVariants.{Stop as Stopping, Drop as Dropping};
ghost use Rattle.serving.specs.Lowest.{IsCounted};
ghost use Rattle.serving.specs.Most.{frame_by};
ghost use Rattle.serving.specs.Outing.{outages_in};
ghost use Rattle.serving.specs.Repairs.{stopped, started, greeted_after};
ghost use Rattle.serving.specs.declared.place.Place.TheVariants.{Awaited, Seated, Leaving};

use crate::due::{Due, next_due, running_from};
use crate::known::{Known, Repair};
use crate::outages::Outages;
use crate::place::Place;
use crate::places::Places;
use crate::seeing::{lowest_front, sights};
use dealer_world::{Cluster, Frame};
use match_file::Absent;
use match_links::limits::NODES;
use promise_store::Disk;

/// What a server knows beside its cluster and its links: how far it is with all.
pub(crate) struct Progress {
    outages: Outages,
    /// What is done about seats that were dropped.
    absent: Absent,
    /// Where each seat is.
    pub(crate) places: Places,
    /// How many seats were greeted.
    greeted: usize,
    /// How many commands the lowest running node had applied, at most so far.
    count: u64,
    /// How many frames were delivered or lost.
    delivered: usize,
    /// What a node whose store failed needs.
    repair: Option<Repair>,
    /// Of which nodes the store has failed.
    failed: [bool; NODES],
}

/// By hand, so that letting one go is one call for whoever owns it (docs/ARCHITECTURE.md, Habits).
impl Drop for Progress {
    fn drop(self) {
        let Progress {
            outages: _,
            absent: _,
            places: _,
            greeted: _,
            count: _,
            delivered: _,
            repair: _,
            failed: _,
        } = self;
    }
}

impl Progress {
    ghost use Rattle.serving.specs.Dues.{next_frame, IsDue};
    ghost use Rattle.serving.specs.Going.{IsSame, IsKept, IsNextNode, PlacesAfter, AsksRepair};
    ghost use Rattle.serving.specs.Placed.{places_in};

    /// Nothing is done yet; so many seats are awaited.
    pub(crate) fn new(outages: Outages, absent: Absent, seats: usize) -> Progress
        requires { seats ≤ 10 }
        ensures outages { outages_in result.outages ≡ outages_in outages }
        ensures absent { result.absent ≡ absent }
        ensures places { places_in result.places ≡ replicate seats (Awaited 0) }
    {
        Progress {
            outages,
            absent,
            places: Places::new(seats),
            greeted: 0,
            count: 0,
            delivered: 0,
            repair: None,
            failed: [false; NODES],
        }
    }

    /// A seat leaves a node: its connection ended or failed, or its session was closed.
    pub(crate) fn note_leaving(&mut self, seat: usize, node: u8)
        ensures kept { IsKept self.old self.new }
        ensures places { places_in self.new.places ≡ set (places_in self.old.places) seat (Leaving node) }
    {
        self.places.put(seat, Place::Leaving(node));
    }

    /// Counts the commands that the lowest running node has applied.
    pub(crate) fn count_commands<D: Disk + Drop>(&mut self, cluster: &Cluster<D>)
        ensures counted { IsCounted D.Disk (view_of cluster.now).nodes self.old.count self.new.count }
        ensures kept { self.new ≡ record self.old { count = self.new.count } }
    {
        self.count = self.count.max(lowest_front(cluster) as u64);
    }

    /// What is due next.
    pub(crate) fn due<D: Disk + Drop>(&self, cluster: &Cluster<D>) -> Due
        ensures { IsDue D.Disk (view_of cluster.now) self.now result }
    {
        let nodes = sights(cluster, &self.outages, self.count);
        next_due(&Known {
            nodes: nodes.as_slice(),
            places: self.places.as_slice(),
            greeted: self.greeted,
            frame: self.next_frame(cluster),
            repair: self.repair,
        })
    }

    /// The next frame, where one is left to deliver. How many were delivered is known here alone.
    pub(crate) fn frame<'a, D: Disk + Drop>(&self, cluster: &'a Cluster<D>) -> Option<Frame<'a>>
        ensures { option_map (λ frame. frame_by frame.from frame.to frame.bytes.now) result ≡ slice_get (view_of cluster.now).all.sent self.now.delivered }
    {
        cluster.frame(self.delivered)
    }

    /// The number of the next frame, where one is left to deliver.
    fn next_frame<D: Disk + Drop>(&self, cluster: &Cluster<D>) -> Option<usize>
        ensures { result ≡ next_frame (view_of cluster.now).all.sent self.now.delivered }
    {
        if cluster.frame(self.delivered).is_some() {
            Some(self.delivered)
        } else {
            None
        }
    }

    /// Orders that a node whose store failed is stopped and started, where it failed for the first time; whether it did.
    pub(crate) fn begin_repair(&mut self, node: u8) -> bool
        ensures { AsksRepair self.old node result self.new }
    {
        let place = (node as usize).min(NODES - 1);
        if self.failed[place] {
            return false;
        }
        self.failed[place] = true;
        self.repair = Some(Repair::Stop(node));
        true
    }

    /// A connection of a seat was accepted at a node.
    pub(crate) fn note_seated(&mut self, seat: u8, node: u8)
        ensures kept { IsKept self.old self.new }
        ensures places { places_in self.new.places ≡ set (places_in self.old.places) seat (Seated node) }
    {
        self.places.put(seat as usize, Place::Seated(node));
    }

    /// A frame was delivered.
    pub(crate) fn note_delivered(&mut self, number: usize)
        ensures { self.new ≡ record self.old { delivered = min (number + 1) (2 ^ 64 - 1) } }
    {
        self.delivered = number.saturating_add(1);
    }

    /// A node was stopped: its seats are awaited at the next one, or played for from there on as they were.
    pub(crate) fn note_stopped<D: Disk + Drop>(&mut self, cluster: &Cluster<D>, node: u8)
        ensures same { IsSame self.old self.new }
        ensures delivered { self.new.delivered ≡ self.old.delivered }
        ensures repair { self.new.repair ≡ stopped node self.old.repair }
        ensures places { PlacesAfter D.Disk (view_of cluster.now) self.old (Stopping node 0) (places_in self.old.places) (places_in self.new.places) }
    {
        let next = self.next_node(cluster, node);
        self.places.move_on(node, next);
        self.repair = stopped(self.repair, node);
    }

    /// A node was started.
    pub(crate) fn note_started(&mut self, node: u8)
        ensures { self.new ≡ record self.old { repair = started node self.old.repair } }
    {
        self.repair = started(self.repair, node);
    }

    /// A seat that was to be greeted is.
    pub(crate) fn note_greeted(&mut self, seat: u8)
        ensures { self.new ≡ record self.old { greeted = greeted_after seat self.old.greeted } }
    {
        if self.greeted == seat as usize {
            self.greeted = seat as usize + 1;
        }
    }

    /// A seat was dropped at a node: it is awaited at the next one, or played for from there on where absent seats are.
    /// Whether it is played for from now on.
    pub(crate) fn drop_seat<D: Disk + Drop>(
        &mut self,
        cluster: &Cluster<D>,
        seat: u8,
        node: u8,
    ) -> bool
        ensures kept { IsKept self.old self.new }
        ensures places { PlacesAfter D.Disk (view_of cluster.now) self.old (Dropping node seat) (places_in self.old.places) (places_in self.new.places) }
    {
        let next = self.next_node(cluster, node);
        self.places.drop_seat(seat as usize, self.absent, next)
    }

    /// The first running node behind this one, in cyclic order.
    fn next_node<D: Disk + Drop>(&self, cluster: &Cluster<D>, node: u8) -> u8
        ensures { IsNextNode D.Disk (view_of cluster.now) (outages_in self.now.outages) self.now.count node result }
    {
        let nodes = sights(cluster, &self.outages, self.count);
        running_from(nodes.as_slice(), node.saturating_add(1))
    }
}

/// What a failed store needs once its node was stopped: the node is to be started.
fn stopped(repair: Option<Repair>, node: u8) -> Option<Repair>
    ensures { result ≡ stopped node repair }
{
    match repair {
        Some(Repair::Stop(found)) if found == node => Some(Repair::Start(node)),
        repair => repair,
    }
}

/// What a failed store needs once its node was started: nothing.
fn started(repair: Option<Repair>, node: u8) -> Option<Repair>
    ensures { result ≡ started node repair }
{
    match repair {
        Some(Repair::Start(found)) if found == node => None,
        repair => repair,
    }
}
