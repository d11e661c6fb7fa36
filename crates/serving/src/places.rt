ghost use Rattle.std.specs.Prelude.{◌≡◌, ◌≤◌, ◌<◌, length, map, replicate, set, slice_get, IsTrue, ◌↔◌, Some, IfSome};
ghost use Rattle.serving.specs.Placing.{moved, from_there, dropped_from, dropped_at};
ghost use Rattle.serving.specs.declared.place.Place.TheVariants.{Awaited, Seated};

use crate::place::Place;
use arrayvec::ArrayVec;
use card_core::limits::PLAYERS;
use match_file::Absent;

/// Where each seat is; seats and nodes are counted from 0.
#[derive(Drop)]
pub(crate) struct Places {
    all: ArrayVec<Place, PLAYERS>,
}

impl Places {
    ghost use Rattle.serving.specs.Placed.{places_in};

    /// So many seats, each awaited at node 0.
    pub(crate) fn new(count: usize) -> Places
        requires { count ≤ 10 }
        ensures { places_in result ≡ replicate count (Awaited 0) }
    {
        let mut all = ArrayVec::new();
        for _ in 0..count {
            all.push(Place::Awaited(0));
        }
        Places { all }
    }

    /// Where each is. The list itself is private: it has ten at most, and changes by what happens to seats alone.
    pub(crate) fn as_slice(&self) -> &[Place]
        ensures value { result.now ≡ places_in self.now }
        ensures few { length result.now ≤ 10 }
    {
        self.all.as_slice()
    }

    /// Where a seat is; none of a number that no seat has.
    pub(crate) fn at(&self, seat: usize) -> Option<Place>
        ensures value { result ≡ slice_get (places_in self.now) seat }
        ensures few { IfSome result (λ place. seat < 10) }
    {
        self.as_slice().get(seat).copied()
    }

    /// A seat is here now.
    pub(crate) fn put(&mut self, seat: usize, place: Place)
        ensures { places_in self.new ≡ set (places_in self.old) seat place }
    {
        put_at(self.all.as_mut_slice(), seat, place);
    }

    /// A seat was dropped: it is awaited from this node on, or, where absent seats are played for and it had a
    /// connection, is played for from there. Whether it is played for from now on.
    pub(crate) fn drop_seat(&mut self, seat: usize, absent: Absent, next: u8) -> bool
        ensures places { places_in self.new ≡ dropped_at absent next (places_in self.old) seat }
    {
        let Some(place) = self.at(seat) else {
            return false;
        };
        let after = dropped_from(place, absent, next);
        self.put(seat, after);
        matches!(after, Place::Played(_))
    }

    /// Whether a seat has a connection to this node.
    pub(crate) fn is_seated(&self, seat: usize, node: u8) -> bool
        ensures value { IsTrue result ↔ (slice_get (places_in self.now) seat ≡ Some (Seated node)) }
        ensures few { IsTrue result → seat < 10 }
    {
        matches!(self.at(seat), Some(Place::Seated(found)) if found == node)
    }

    /// All seats that were at a node, or awaited there, are awaited from another on; those that are played for are so from
    /// there.
    pub(crate) fn move_on(&mut self, node: u8, next: u8)
        ensures { places_in self.new ≡ map (moved node next) (places_in self.old) }
    {
        move_all(self.all.as_mut_slice(), node, next);
    }
}

/// Puts a place where a seat's is.
fn put_at(places: &mut [Place], seat: usize, place: Place)
    ensures { places.new ≡ set places.old seat place }
{
    if seat < places.len() {
        places[seat] = place;
    }
}

fn move_all(places: &mut [Place], node: u8, next: u8)
    ensures { places.new ≡ map (moved node next) places.old }
{
    for at in 0..places.len() {
        places[at] = moved(places[at], node, next);
    }
}

/// Where a seat is after a node stopped: where it was at that node, or awaited there, it is awaited from another on, or
/// played for as it was.
fn moved(place: Place, node: u8, next: u8) -> Place
    ensures { result ≡ moved node next place }
{
    let (Place::Awaited(found)
    | Place::Seated(found)
    | Place::Leaving(found)
    | Place::Played(found)) = place;
    if found == node {
        from_there(place, next)
    } else {
        place
    }
}

fn from_there(place: Place, next: u8) -> Place
    ensures { result ≡ from_there next place }
{
    match place {
        Place::Played(_) => Place::Played(next),
        _ => Place::Awaited(next),
    }
}

/// Where a seat is that was dropped.
fn dropped_from(place: Place, absent: Absent, next: u8) -> Place
    ensures { result ≡ dropped_from absent next place }
{
    match (absent, place) {
        (Absent::Wait, _) | (Absent::Play, Place::Awaited(_)) => Place::Awaited(next),
        (Absent::Play, _) => Place::Played(next),
    }
}
