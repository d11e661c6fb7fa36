//! Where a seat sits, since when it is waited for, and whether it is given up.

ghost use Rattle.std.specs.Prelude.{◌≡◌, Some};
ghost use Rattle.clockwork.specs.ActionTimeout.{seated_after};
ghost use Rattle.clockwork.specs.SeatWatches.{place_after, with_place, sits_somewhere, since_of, has_passed, given_up_after, seat_of, looked_at, turns_of};

use crate::action_timeout::seated_after;
use crate::limits::MOST_NODES;
use crate::watch::since;

/// How a seat is seen at a node.
#[derive(Clone, Copy, Debug, PartialEq, Eq)]
pub enum At {
    /// The node isn't present.
    Gone,
    /// It is, and nobody sits there.
    Empty,
    /// The seat's bot sits there.
    Sits,
    /// It does, and has taken the seat since the last look.
    Taken,
}

/// What is kept of a seat at one node.
#[derive(Clone, Copy, Debug, PartialEq, Eq)]
pub struct Place {
    /// It sat there at the last look.
    pub sits: bool,
    /// When the wait for it last began anew by that node: a bot took it there, or the node was gone while it sat there.
    pub begun: Option<u64>,
}

/// What the list says of the acts of a seat.
#[derive(Clone, Copy, Debug, PartialEq, Eq)]
pub struct Acts {
    /// It has one that the seat said itself.
    pub has_acted: bool,
    /// How many of its newest acts in a row were default actions.
    pub defaults: u32,
}

/// What a look at all seats has beside: a moment, and what is so at it.
#[derive(Clone, Copy, Debug)]
pub struct SeatLook {
    /// The node has a quorum, and the process is awake (`Waking`): else it isn't known that the seat sits nowhere.
    pub quorate: bool,
    /// A seat at which nobody is may be given up.
    pub gives_up: bool,
    /// How long a seat may hold the table.
    pub patience: u64,
    /// The present moment.
    pub now: u64,
}

/// What a process keeps of a seat. Moments are whole microseconds since one that stays the same as long as the process lives.
///
/// At each look `look_at` is called for each node of the match, and then `look`.
#[derive(Clone, Copy, Debug)]
pub struct SeatWatch {
    /// Of each node.
    pub places: [Place; MOST_NODES],
    /// The seat has come: it sat at a present node since the process began, or the list has an act that it said itself.
    pub has_come: bool,
    /// Since when it has sat at no present node while this node had a quorum, both without a break.
    pub nowhere: Option<u64>,
    /// It has sat at a present node since its newest act came into the list, as far as that is known.
    pub has_sat: bool,
    /// How many of its newest acts in a row were default actions, by the list at the last look.
    pub defaults: u32,
    /// Where it is given up: how many these were when it was.
    pub given_up: Option<u32>,
}

/// The wait begins anew by a node now, unless it has done so by it while the front stood.
fn anew(place: Place, moved: u64, now: u64) -> Option<u64>
    ensures { result ≡ Some (seated_after place.begun moved now) }
{
    Some(seated_after(place.begun, moved, now))
}

/// What is kept of a seat at a node that is seen so, where the front last moved at that moment.
#[tactic(auto, unfolding(crate::specs::SeatWatches::place_after))]
fn place_after(place: Place, at: At, moved: u64, now: u64) -> Place
    ensures { result ≡ place_after place at moved now }
{
    match at {
        At::Gone => Place {
            sits: false,
            begun: if place.sits {
                anew(place, moved, now)
            } else {
                place.begun
            },
        },
        At::Empty => Place {
            sits: false,
            begun: place.begun,
        },
        At::Sits => Place {
            sits: true,
            begun: if place.sits {
                place.begun
            } else {
                anew(place, moved, now)
            },
        },
        At::Taken => Place {
            sits: true,
            begun: anew(place, moved, now),
        },
    }
}

/// Whether so long has passed since a moment, where there is one.
pub(crate) fn has_passed(since: Option<u64>, length: u64, now: u64) -> bool
    ensures { result ≡ has_passed since length now }
{
    match since {
        Some(moment) => length <= now.saturating_sub(moment),
        None => false,
    }
}

/// Of a seat that is given up or isn't: how many default actions in a row it had when it was.
#[tactic(auto, unfolding(crate::specs::SeatWatches::given_up_after))]
fn given_up_after(earlier: Option<u32>, is_given_up: bool, defaults: u32) -> Option<u32>
    ensures { result ≡ given_up_after earlier is_given_up defaults }
{
    if !is_given_up {
        return None;
    }
    match earlier {
        Some(first) => Some(first),
        None => Some(defaults),
    }
}

/// Whether a seat sits at some node.
fn sits_somewhere(places: &[Place]) -> bool
    ensures { result ≡ sits_somewhere places.now }
{
    places.iter().any(|place| place.sits)
}

/// The latest of a moment and of those at which the wait for a seat began anew.
#[tactic(auto, unfolding(crate::specs::SeatWatches::since_of))]
fn since_of(places: &[Place], stood: u64) -> u64
    ensures { result ≡ since_of places.now stood }
{
    places.iter().fold(stood, |latest, place| {
        latest.max(place.begun.unwrap_or(0))
    })
}

impl SeatWatch {
    /// The process begins: nobody has come, and nothing is known of the list.
    pub fn new() -> SeatWatch
        ensures { result ≡ seat_of }
    {
        SeatWatch {
            places: [Place {
                sits: false,
                begun: None,
            }; MOST_NODES],
            has_come: false,
            nowhere: None,
            has_sat: false,
            defaults: 0,
            given_up: None,
        }
    }

    /// The seat is seen so at a node now, where this node's front last moved at that moment.
    pub fn look_at(&mut self, node: u8, at: At, moved: u64, now: u64)
        ensures { self.new ≡ record self.old { places = with_place self.old.places node at moved now } }
    {
        let node = node as usize;
        if node < MOST_NODES {
            self.places[node] = place_after(self.places[node], at, moved, now);
        }
    }

    /// It was seen at all nodes at this look, and the list says that of its acts.
    pub fn look(&mut self, acts: Acts, seen: SeatLook)
        ensures { self.new ≡ looked_at self.old acts seen }
    {
        let sits = sits_somewhere(&self.places);
        let has_sat = sits || self.has_sat && acts.defaults == self.defaults;
        let nowhere = since(self.nowhere, seen.quorate && !sits, seen.now);
        let is_given_up = seen.gives_up
            && acts.defaults > 0
            && !has_sat
            && has_passed(nowhere, seen.patience, seen.now);
        self.has_come = self.has_come || acts.has_acted || sits;
        self.nowhere = nowhere;
        self.has_sat = has_sat;
        self.defaults = acts.defaults;
        self.given_up = given_up_after(self.given_up, is_given_up, acts.defaults);
    }

    /// Since when it is waited for, where it is since this moment at the earliest: the front moved, the node became quorate, or
    /// the match opened. By no node it begins anew twice while the front stands (`laws::a_wait_begins_anew_once`).
    pub fn since(&self, stood: u64) -> u64
        ensures { result ≡ since_of self.now.places stood }
    {
        since_of(&self.places, stood)
    }

    /// How many of its turns were played for since it was given up, where it is.
    pub fn turns(&self) -> Option<u32>
        ensures { result ≡ turns_of self.now }
    {
        match self.given_up {
            Some(first) => Some(self.defaults.saturating_sub(first)),
            None => None,
        }
    }
}
