//! What is taken from the links for a turn.

ghost use Rattle.std.specs.Prelude.{◌≡◌, ◌⊎◌, ◌++◌, [], ◌∷◌, length, IfOk, IfErr, OnOk, OnErr};
ghost use Rattle.std.specs.Option.{ForSome};
ghost use Rattle.dealer_node.specs.declared.fault.NodeFault.TheVariants.{OutOfMemory};
ghost use Rattle.dealer_world.specs.Viewing.{view_of};
ghost use Rattle.match_links.specs.Passages.{Emptied};
ghost use Rattle.serving.specs.Giving.{taken_for, taken_by, taken_from, all_emptied};
ghost use Rattle.serving.specs.Turning.{IsFrameless, IsOfMatch, IsForDue, IsTakenUp, MayFail, event_in};
ghost use Rattle.serving.specs.declared.due.Due.TheVariants.{Await, Read, Deliver};
ghost use Rattle.serving.specs.declared.serve_fault.ServeFault.TheVariants.{LinkFailed, LogFailed, Node as OfNode};

use crate::checking::{checked, is_for};
use crate::due::Due;
use crate::serve_fault::ServeFault;
use crate::waiting::{Taking, Waiting};
use dealer_node::NodeFault;
use dealer_world::{Cluster, Event};
use match_links::limits::PIECE;
use match_links::{LinkFault, Links};
use promise_store::Disk;
use std::alloc::Global;

/// Takes what is due from the links, and says which event it gives to the cluster; none where all is over. A seat that
/// is awaited or read from may turn out to be gone: then it is dropped; or it sends nothing for so long as the links
/// wait: then nothing is taken.
pub(crate) fn take_due<D: Disk + Drop, L: Links + Drop>(
    alloc: Global,
    links: &mut L,
    cluster: &Cluster<D>,
    due: Due,
) -> Result<Taking, ServeFault>
    ensures due { IfOk result (IsTakenUp due) }
    ensures waiting { IfOk result (IsOfMatch (view_of cluster.now)) }
    ensures taken { IfOk result (λ taking. L.passed links.new ≡ L.passed links.old ++ taken_by (event_in taking)) }
    ensures failed { OnErr result (L.passed links.new ≡ L.passed links.old) }
    ensures fault { IfErr result (MayFail (view_of cluster.now).config due) }
{
    match due {
        Due::Stop(node) => checked(cluster, 0, Event::Stop { node, pick: 0 }),
        Due::Start(node) => {
            let start = checked(cluster, 0, Event::Start { node })?;
            prepare(links, node)?;
            Ok(start)
        }
        Due::Drop { seat, node } => checked(cluster, 0, Event::Drop { node, seat }),
        Due::Await { seat, node } => accept_of(links, cluster, node, seat),
        Due::Read { seat, node } => read_of(alloc, links, cluster, node, seat),
        Due::Deliver(number) => carry(alloc, links, cluster, number),
        Due::Away { seat, node } => checked(cluster, seat, Event::Away { node }),
        Due::Tick(node) => checked(cluster, 0, Event::Tick { node }),
        Due::Over => Ok(Taking::Over),
    }
}

/// Takes leave of all seats, and closes their connections and ports.
pub(crate) fn close_all<D: Disk + Drop, L: Links + Drop>(links: &mut L, cluster: &Cluster<D>)
    ensures { L.passed links.new ≡ L.passed links.old }
{
    cluster.config().limits();
    for node in 0..cluster.node_count() as u8 {
        links.part(node);
        links.close_node(node);
    }
}

/// Empties all logs, one after another.
pub(crate) fn empty_logs<D: Disk + Drop, L: Links + Drop>(
    links: &mut L,
    cluster: &Cluster<D>,
) -> Result<(), ServeFault>
    ensures emptied { OnOk result (L.passed links.new ≡ L.passed links.old ++ all_emptied (length (view_of cluster.now).nodes)) }
    ensures fault { IfErr result (λ fault. fault ≡ LogFailed) }
{
    cluster.config().limits();
    for node in 0..cluster.node_count() as u8 {
        empty_log(links, node)?;
    }
    Ok(())
}

fn empty_log<L: Links + Drop>(links: &mut L, node: u8) -> Result<(), ServeFault>
    ensures emptied { OnOk result (L.passed links.new ≡ L.passed links.old ++ Emptied node ∷ []) }
    ensures failed { OnErr result (L.passed links.new ≡ L.passed links.old) }
    ensures fault { IfErr result (λ fault. fault ≡ LogFailed) }
{
    match links.empty_log(node) {
        Ok(()) => Ok(()),
        Err(_) => Err(ServeFault::LogFailed),
    }
}

/// Opens the ports of a node that is to start, and empties its log.
fn prepare<L: Links + Drop>(links: &mut L, node: u8) -> Result<(), ServeFault>
    ensures emptied { OnOk result (L.passed links.new ≡ L.passed links.old ++ Emptied node ∷ []) }
    ensures failed { OnErr result (L.passed links.new ≡ L.passed links.old) }
    ensures fault { IfErr result (λ fault. (fault ≡ LinkFailed) ⊎ (fault ≡ LogFailed)) }
{
    if links.open(node).is_err() {
        return Err(ServeFault::LinkFailed);
    }
    empty_log(links, node)
}

/// Waits for a connection of a seat of the match, as an event for the cluster.
fn accept_of<D: Disk + Drop, L: Links + Drop>(
    links: &mut L,
    cluster: &Cluster<D>,
    node: u8,
    seat: u8,
) -> Result<Taking, ServeFault>
    ensures due { IfOk result (IsTakenUp (Await seat node)) }
    ensures waiting { IfOk result (IsOfMatch (view_of cluster.now)) }
    ensures taken { IfOk result (λ taking. L.passed links.new ≡ L.passed links.old ++ taken_by (event_in taking)) }
    ensures failed { OnErr result (L.passed links.new ≡ L.passed links.old) }
    ensures fault { IfErr result (MayFail (view_of cluster.now).config (Await seat node)) }
{
    // Looked at before the link is: who is seated there is then never lost.
    let _ = checked(cluster, 0, Event::Drop { node, seat })?;
    match accept(links, node, seat)? {
        Some(event) => Ok(Taking::Gives(Waiting {
            event,
            number: 0,
            seat: 0,
        })),
        None => Ok(Taking::Waits { seat, node }),
    }
}

/// Waits for a connection of a seat. Where that fails, the seat is dropped; where nothing comes, no event is given.
fn accept<L: Links + Drop>(links: &mut L, node: u8, seat: u8) -> Result<Option<Event>, ServeFault>
    ensures taken { IfOk result (λ found. L.passed links.new ≡ L.passed links.old ++ taken_from found) }
    ensures failed { OnErr result (L.passed links.new ≡ L.passed links.old) }
    ensures frameless { IfOk result (λ found. ForSome found IsFrameless) }
    ensures due { IfOk result (λ found. ForSome found (IsForDue (Await seat node) 0 0)) }
    ensures fault { IfErr result (λ fault. fault ≡ OfNode OutOfMemory) }
{
    match links.accept(node, seat) {
        Ok(()) => Ok(Some(Event::Connect { node, seat })),
        Err(LinkFault::Failed) => Ok(Some(Event::Drop { node, seat })),
        Err(LinkFault::Slow) => Ok(None),
        Err(LinkFault::OutOfMemory) => Err(ServeFault::Node(NodeFault::OutOfMemory)),
    }
}

/// Reads from a seat of the match, as an event for the cluster.
fn read_of<D: Disk + Drop, L: Links + Drop>(
    alloc: Global,
    links: &mut L,
    cluster: &Cluster<D>,
    node: u8,
    seat: u8,
) -> Result<Taking, ServeFault>
    ensures due { IfOk result (IsTakenUp (Read seat node)) }
    ensures waiting { IfOk result (IsOfMatch (view_of cluster.now)) }
    ensures taken { IfOk result (λ taking. L.passed links.new ≡ L.passed links.old ++ taken_by (event_in taking)) }
    ensures failed { OnErr result (L.passed links.new ≡ L.passed links.old) }
    ensures fault { IfErr result (MayFail (view_of cluster.now).config (Read seat node)) }
{
    // Looked at before the link is: what it gives is then never lost.
    let _ = checked(cluster, 0, Event::Drop { node, seat })?;
    match read(alloc, links, node, seat)? {
        Some(event) => Ok(Taking::Gives(Waiting {
            event,
            number: 0,
            seat: 0,
        })),
        None => Ok(Taking::Waits { seat, node }),
    }
}

/// Reads from a seat. Where that fails, or the connection has ended, the seat is dropped; where nothing comes, no event
/// is given. An `Err` is 92: nothing was taken, and the seat stays.
fn read<L: Links + Drop>(
    alloc: Global,
    links: &mut L,
    node: u8,
    seat: u8,
) -> Result<Option<Event>, ServeFault>
    ensures taken { IfOk result (λ found. L.passed links.new ≡ L.passed links.old ++ taken_from found) }
    ensures failed { OnErr result (L.passed links.new ≡ L.passed links.old) }
    ensures frameless { IfOk result (λ found. ForSome found IsFrameless) }
    ensures due { IfOk result (λ found. ForSome found (IsForDue (Read seat node) 0 0)) }
    ensures fault { IfErr result (λ fault. fault ≡ OfNode OutOfMemory) }
{
    let mut bytes = vec![in alloc; 0u8; PIECE]?;
    match links.read(node, seat, &mut bytes) {
        Ok(count) if 0 < count => {
            bytes.truncate(count);
            Ok(Some(Event::Line { node, seat, bytes }))
        }
        Err(LinkFault::Slow) => Ok(None),
        Err(LinkFault::OutOfMemory) => Err(ServeFault::Node(NodeFault::OutOfMemory)),
        _ => Ok(Some(Event::Drop { node, seat })),
    }
}

/// Carries a frame to its node, over their connection where that node runs.
fn carry<D: Disk + Drop, L: Links + Drop>(
    alloc: Global,
    links: &mut L,
    cluster: &Cluster<D>,
    number: usize,
) -> Result<Taking, ServeFault>
    ensures same { L.passed links.new ≡ L.passed links.old }
    ensures taken { IfOk result (λ taking. taken_by (event_in taking) ≡ []) }
    ensures due { IfOk result (IsTakenUp (Deliver number)) }
    ensures waiting { IfOk result (IsOfMatch (view_of cluster.now)) }
    ensures fault { IfErr result (λ fault. (fault ≡ LinkFailed) ⊎ (fault ≡ OfNode OutOfMemory)) }
{
    let Some(frame) = cluster.frame(number) else {
        return Err(ServeFault::LinkFailed);
    };
    let mut bytes = Vec::from_slice(alloc, frame.bytes)?;
    let to = frame.to as usize;
    if to < cluster.node_count() && cluster.node(to).running() {
        cross(links, frame.from, frame.to, frame.bytes, &mut bytes)?;
    }
    let event = Event::Frame {
        from: frame.from,
        to: frame.to,
        bytes,
    };
    if is_for(cluster, &event) {
        Ok(Taking::Gives(Waiting::of_frame(event, number)))
    } else {
        Err(ServeFault::LinkFailed)
    }
}

/// Sends a frame over the connection of its nodes. What comes at the other end must be that frame.
fn cross<L: Links + Drop>(
    links: &mut L,
    from: u8,
    to: u8,
    sent: &[u8],
    came: &mut [u8],
) -> Result<(), ServeFault>
    ensures same { OnOk result (came.new ≡ sent.now) }
    ensures kept { L.passed links.new ≡ L.passed links.old }
    ensures fault { IfErr result (λ fault. fault ≡ LinkFailed) }
{
    if links.send(from, to, sent).is_err() || links.receive(from, to, came).is_err() {
        return Err(ServeFault::LinkFailed);
    }
    let arrived: &[u8] = came;
    if arrived == sent {
        Ok(())
    } else {
        Err(ServeFault::LinkFailed)
    }
}
