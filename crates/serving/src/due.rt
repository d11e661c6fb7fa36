ghost use Rattle.std.specs.Prelude.{◌≡◌, ◌≤◌, ◌<◌, length, position, not, ◌&&◌, true, Some, IfSome};
ghost use Rattle.match_links.specs.declared.limits.TheConstants.{NODES};
ghost use Rattle.serving.specs.declared.due.Due.TheVariants.{Over};
ghost use Rattle.serving.specs.Next.{due_of, repairing, leaving, is_leaving, greeting, meeting, running_from, is_over, outing, playing, as_seen_by, running, finishing, is_behind, acting, is_to_tick, has_to_act, played};

use crate::known::{Known, NodeSight, Repair};
use crate::place::Place;

/// What a server does next. Nodes, seats and frames are counted from 0.
#[derive(Clone, Copy, Debug, PartialEq, Eq)]
pub enum Due {
    /// A node is stopped.
    Stop(u8),
    /// A node is started.
    Start(u8),
    /// A seat is dropped at a node.
    Drop { seat: u8, node: u8 },
    /// A connection of a seat is awaited at a node.
    Await { seat: u8, node: u8 },
    /// A line is read from a seat at a node.
    Read { seat: u8, node: u8 },
    /// It is ordered at a node that a seat is played for, which is to act there.
    Away { seat: u8, node: u8 },
    /// A frame is delivered.
    Deliver(usize),
    /// A node ticks.
    Tick(u8),
    /// Nothing is left to do.
    Over,
}

/// The first that is due of these: a node whose store failed is stopped and started; a seat that leaves is dropped; the
/// next seat is greeted; all is over; a frame is delivered; an outage ends or begins; the match goes on. It is over
/// only where the match is over at every running node.
///
/// This is `first_due` for those outside, with what they need beside it: what `Over` says of the nodes.
pub fn next_due(known: &Known<'_>) -> Due
    requires nodes { length known.now.nodes.now ≤ NODES }
    requires seats { length known.now.places.now ≤ 10 }
    ensures first { result ≡ due_of known.now }
    ensures over { result ≡ Over → is_over known.now.nodes.now ≡ true }
{
    first_due(known)
}

/// The first that is due, in this order.
fn first_due(known: &Known<'_>) -> Due
    requires nodes { length known.now.nodes.now ≤ NODES }
    requires seats { length known.now.places.now ≤ 10 }
    ensures { result ≡ due_of known.now }
{
    if let Some(repair) = known.repair {
        return repairing(repair);
    }
    if let Some(due) = leaving(known.places) {
        return due;
    }
    if let Some(due) = greeting(known.nodes, known.places, known.greeted) {
        return due;
    }
    if is_over(known.nodes) {
        return Due::Over;
    }
    if let Some(number) = known.frame {
        return Due::Deliver(number);
    }
    match outing(known.nodes) {
        Some(due) => due,
        None => playing(known.nodes, known.places),
    }
}

/// A node whose store failed is stopped and started.
fn repairing(repair: Repair) -> Due
    ensures { result ≡ repairing repair }
{
    match repair {
        Repair::Stop(node) => Due::Stop(node),
        Repair::Start(node) => Due::Start(node),
    }
}

/// The first seat that leaves is dropped.
fn leaving(places: &[Place]) -> Option<Due>
    requires { length places.now ≤ 10 }
    ensures { result ≡ leaving places.now }
{
    match first_leaving(places) {
        Some(seat) => match places[seat] {
            Place::Leaving(node) => Some(Due::Drop {
                seat: seat as u8,
                node,
            }),
            _ => None,
        },
        None => None,
    }
}

fn first_leaving(places: &[Place]) -> Option<usize>
    ensures value { result ≡ position is_leaving places.now }
    ensures within { IfSome result (λ seat. seat < length places.now) }
{
    places.iter().position(|place| is_leaving(*place))
}

fn is_leaving(place: Place) -> bool
    ensures { result ≡ is_leaving place }
{
    matches!(place, Place::Leaving(_))
}

/// The next seat is greeted: awaited, and read from once it has a connection.
fn greeting(nodes: &[NodeSight], places: &[Place], greeted: usize) -> Option<Due>
    requires nodes { length nodes.now ≤ NODES }
    requires seats { length places.now ≤ 10 }
    ensures { result ≡ greeting nodes.now places.now greeted }
{
    if greeted < places.len() {
        Some(meeting(nodes, greeted as u8, places[greeted]))
    } else {
        None
    }
}

/// A seat with a connection is read from, one without is awaited, or played for where it was dropped.
fn meeting(nodes: &[NodeSight], seat: u8, place: Place) -> Due
    requires { length nodes.now ≤ NODES }
    ensures { result ≡ meeting nodes.now seat place }
{
    match place {
        Place::Awaited(node) => Due::Await {
            seat,
            node: running_from(nodes, node),
        },
        Place::Seated(node) => Due::Read { seat, node },
        Place::Leaving(node) => Due::Drop { seat, node },
        Place::Played(node) => played(nodes, seat, running_from(nodes, node)),
    }
}

/// A seat is played for at a node: where the node has to go on first, or another seat is to act there, it ticks.
fn played(nodes: &[NodeSight], seat: u8, node: u8) -> Due
    ensures { result ≡ played nodes.now seat node }
{
    if !is_to_tick(nodes, node) && has_to_act(nodes, node, seat) {
        Due::Away { seat, node }
    } else {
        Due::Tick(node)
    }
}

/// Whether by a node's own table a seat is to act.
fn has_to_act(nodes: &[NodeSight], node: u8, seat: u8) -> bool
    ensures { result ≡ has_to_act nodes.now node seat }
{
    match nodes.get(node as usize) {
        Some(sight) => sight.to_act == Some(seat),
        None => false,
    }
}

/// The first node that runs from this one on, in cyclic order; where none runs, this one.
pub(crate) fn running_from(nodes: &[NodeSight], node: u8) -> u8
    requires { length nodes.now ≤ NODES }
    ensures { result ≡ running_from nodes.now node }
{
    let start = nodes.len().min(node as usize);
    if let Some(found) = first_running(&nodes[start..]) {
        return (start + found) as u8;
    }
    match first_running(nodes) {
        Some(found) => found as u8,
        None => node,
    }
}

fn first_running(nodes: &[NodeSight]) -> Option<usize>
    ensures value { result ≡ running nodes.now }
    ensures within { IfSome result (λ node. node < length nodes.now) }
{
    nodes.iter().position(|sight| sight.runs)
}

/// Whether the match is over at every running node.
fn is_over(nodes: &[NodeSight]) -> bool
    ensures { result ≡ is_over nodes.now }
{
    nodes.iter().all(|sight| !sight.runs || sight.over)
}

/// A node whose outage ended is started; one whose outage begins is stopped.
fn outing(nodes: &[NodeSight]) -> Option<Due>
    requires { length nodes.now ≤ NODES }
    ensures { result ≡ outing nodes.now }
{
    match first_to_start(nodes) {
        Some(node) => Some(Due::Start(node as u8)),
        None => match first_to_stop(nodes) {
            Some(node) => Some(Due::Stop(node as u8)),
            None => None,
        },
    }
}

fn first_to_start(nodes: &[NodeSight]) -> Option<usize>
    ensures value { result ≡ position (λ sight. not sight.runs && not sight.is_out) nodes.now }
    ensures within { IfSome result (λ node. node < length nodes.now) }
{
    nodes.iter().position(|sight| !sight.runs && !sight.is_out)
}

fn first_to_stop(nodes: &[NodeSight]) -> Option<usize>
    ensures value { result ≡ position (λ sight. sight.runs && sight.is_out) nodes.now }
    ensures within { IfSome result (λ node. node < length nodes.now) }
{
    nodes.iter().position(|sight| sight.runs && sight.is_out)
}

/// The match goes on, as the lowest running node sees it.
fn playing(nodes: &[NodeSight], places: &[Place]) -> Due
    requires { length nodes.now ≤ NODES }
    ensures { result ≡ playing nodes.now places.now }
{
    match first_running(nodes) {
        Some(lowest) => going_on(nodes, places, lowest as u8, nodes[lowest]),
        None => Due::Tick(0),
    }
}

/// The match goes on, as a node sees it.
fn going_on(nodes: &[NodeSight], places: &[Place], lowest: u8, sight: NodeSight) -> Due
    requires { length nodes.now ≤ NODES }
    ensures { result ≡ as_seen_by nodes.now places.now lowest (Some sight) }
{
    if sight.over {
        return finishing(nodes);
    }
    match sight.to_act {
        Some(seat) => {
            if is_behind(nodes, sight.front) {
                Due::Tick(lowest)
            } else {
                acting(nodes, places, seat)
            }
        }
        None => Due::Tick(lowest),
    }
}

/// The match is over at the lowest running node, and not at another: the lowest of those ticks.
fn finishing(nodes: &[NodeSight]) -> Due
    requires { length nodes.now ≤ NODES }
    ensures { result ≡ finishing nodes.now }
{
    match first_unfinished(nodes) {
        Some(node) => Due::Tick(node as u8),
        None => Due::Tick(0),
    }
}

fn first_unfinished(nodes: &[NodeSight]) -> Option<usize>
    ensures value { result ≡ position (λ sight. sight.runs && not sight.over) nodes.now }
    ensures within { IfSome result (λ node. node < length nodes.now) }
{
    nodes.iter().position(|sight| sight.runs && !sight.over)
}

/// Whether some running node has applied more than so many commands.
fn is_behind(nodes: &[NodeSight], front: u32) -> bool
    ensures { result ≡ is_behind nodes.now front }
{
    nodes.iter().any(|sight| sight.runs && front < sight.front)
}

/// It is a seat's turn: where its node has to go on first, that node ticks; else the seat is met.
fn acting(nodes: &[NodeSight], places: &[Place], seat: u8) -> Due
    requires { length nodes.now ≤ NODES }
    ensures { result ≡ acting nodes.now places.now seat }
{
    match places.get(seat as usize) {
        Some(place) => match *place {
            Place::Seated(node) if is_to_tick(nodes, node) => Due::Tick(node),
            place => meeting(nodes, seat, place),
        },
        None => Due::Tick(0),
    }
}

/// Whether a node has to go on before a seat there is heard: an act waits there to be proposed, or some running node
/// has applied more, so that the seat hasn't got its line yet.
fn is_to_tick(nodes: &[NodeSight], node: u8) -> bool
    ensures { result ≡ is_to_tick nodes.now node }
{
    match nodes.get(node as usize) {
        Some(sight) => sight.pends || is_behind(nodes, sight.front),
        None => false,
    }
}
