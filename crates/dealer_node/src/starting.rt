ghost use Rattle.std.specs.Prelude.{◌≡◌, ◌⊎◌, ◌+◌, ◌≤◌, length, IsTrue, IfOk, IfErr};
ghost use Rattle.protocol_model.specs.Stores.{Store as Kept};
ghost use Rattle.node_rules.specs.Standings.{started};
ghost use Rattle.node_rules.specs.Rules.{asking_all, starting};
ghost use Rattle.promise_store.specs.Disks.{Rose};
ghost use Rattle.promise_store.specs.Holding.{StandsFor};
ghost use Rattle.promise_store.specs.Keeping.{disk_of, Keeps, ForEither, Reopens};
ghost use Rattle.acceptor.specs.Stored.{store_of};
ghost use Rattle.promise_store.specs.declared.fault.StoreFault.{StoreFault as Fault};
ghost use Rattle.promise_store.specs.declared.fault.StoreFault.TheVariants.{Disk as DiskFailed};
ghost use Rattle.dealer_node.specs.Members.{place_at};
ghost use Rattle.dealer_node.specs.Outs.{told_by, both_told, nothing_told, HasRoom};
ghost use Rattle.dealer_node.specs.Texts.{byte_total};
ghost use Rattle.dealer_node.specs.Rooms.{Grows};
ghost use Rattle.dealer_node.specs.Turned.{told_of};
ghost use Rattle.dealer_node.specs.Fitting.{AreMessages};
ghost use Rattle.dealer_node.specs.Running.{IsRunning, IsAt};
ghost use Rattle.dealer_node.specs.Working.{head_of, disk_under};
ghost use Rattle.dealer_node.specs.Starting.{Starts, StaysDown, Finds};
ghost use Rattle.dealer_node.specs.Taking.{IsOfStart};
ghost use Rattle.dealer_node.specs.Opening.{MarksDisk, RefusesDisk};

use crate::fault::NodeFault;
use crate::limits::{FRAME_BYTES_TO_ALL, FRAMES_TO_ALL};
use crate::lines::show_header;
use crate::made::{Made, Need};
use crate::member::Member;
use crate::running::Running;
use crate::sending::send_to_others;
use crate::up::Up;
use acceptor::Acceptor;
use match_log::MOST_HEADER;
use paxos_wire::{Ballot, Message};
use promise_store::{Disk, Store, StoreFault};
use std::alloc::{AllocError, Global};

/// What a start makes at most: an Ask to each other node, and the header of the log.
pub(crate) const START: Need = Need {
    frames: FRAMES_TO_ALL,
    frame_bytes: FRAME_BYTES_TO_ALL,
    texts: 1,
    text_bytes: MOST_HEADER,
    faults: 0,
};

/// What runs after a start, and room for all that the start makes, here and where it goes. An `Err` changes room alone.
pub(crate) fn ready(
    alloc: Global,
    member: &Member,
    out: &mut Made,
) -> Result<(Running, Made), AllocError>
    ensures runs { IfOk result (λ made. (found : Kept) → IsRunning member.now made.0 (started (place_at member.now) found)) }
    ensures at { IfOk result (λ made. IsAt member.now made.0) }
    ensures nothing { IfOk result (λ made. told_by made.1 ≡ nothing_told) }
    ensures room { IfOk result (λ made. HasRoom made.1 START) }
    ensures room_out { IfOk result (λ made. HasRoom out.new START) }
    ensures same { told_by out.new ≡ told_by out.old }
{
    let running = Running::new(alloc, member)?;
    let mut made = Made::new(alloc);
    made.reserve(&START)?;
    out.reserve(&START)?;
    Ok((running, made))
}

/// Shows the log its header, and asks the others for what was chosen where the store has a promise.
fn greet(member: &Member, promised: Ballot, made: &mut Made)
    requires room { HasRoom made.old START }
    ensures told { (found : Kept) → promised ≡ found.promise → told_by made.new ≡ both_told (told_by made.old) (told_of (starting (place_at member.now) found)) }
    ensures fits { (found : Kept) → promised ≡ found.promise → AreMessages (asking_all (place_at member.now) found) }
    ensures frames { Grows made.old.frames made.new.frames FRAMES_TO_ALL FRAME_BYTES_TO_ALL }
    ensures texts { length made.new.shown.texts ≤ length made.old.shown.texts + 1 }
    ensures text_bytes { byte_total made.new.shown.texts ≤ byte_total made.old.shown.texts + 263 }
    ensures faults { made.new.faults ≡ made.old.faults }
{
    show_header(&mut made.shown, member);
    if promised.round > 0 {
        let message = Message::Ask { slot: 0 };
        send_to_others(&mut made.frames, member.nodes(), member.node(), &message);
    }
}

/// The fault of a call of a node that a fault of its store is.
fn fault_of(fault: StoreFault) -> NodeFault
    ensures memory { fault ≡ StoreFault.OutOfMemory → result ≡ NodeFault.OutOfMemory }
    ensures disk { fault ≡ DiskFailed → result ≡ NodeFault.Store DiskFailed }
    ensures only { (why : Fault) → result ≡ NodeFault.Store why → fault ≡ why }
    ensures of_start { IsOfStart result }
{
    match fault {
        StoreFault::OutOfMemory => NodeFault::OutOfMemory,
        fault => NodeFault::Store(fault),
    }
}

/// Opens the store on a disk, and where version 1 made it has it go on with version 2. With a fault the disk is handed back.
fn open_store<D: Disk>(
    alloc: Global,
    member: &Member,
    disk: D,
) -> Result<Acceptor<D>, (D, NodeFault)>
    ensures opened { ForEither D.Disk (head_of member.now) disk (λ old new. IfOk result (λ acceptor. Keeps D.Disk (head_of member.now) old (store_of acceptor) ⊎ Keeps D.Disk (head_of member.now) new (store_of acceptor))) }
    ensures stands { IsTrue D.is_honest → IfOk result (λ acceptor. (held : Kept) × StandsFor (head_of member.now) (D.seen disk) held × Keeps D.Disk (head_of member.now) held (store_of acceptor)) }
    ensures refused { ForEither D.Disk (head_of member.now) disk (λ old new. IfErr result (λ x. (x.1 ≡ NodeFault.OutOfMemory) ⊎ (x.1 ≡ NodeFault.Store DiskFailed))) }
    ensures reopens { IfOk result (λ acceptor. Reopens D.Disk (head_of member.now) disk (disk_of (store_of acceptor))) }
    ensures reopens_err { IfErr result (λ x. Reopens D.Disk (head_of member.now) disk x.0) }
    ensures marks { IfOk result (λ acceptor. MarksDisk D.Disk member.now disk (disk_of (store_of acceptor))) }
    ensures refuses { IfErr result (λ x. RefusesDisk D.Disk member.now disk x.0 x.1) }
    ensures rose { IfErr result (λ x. x.1 ≡ NodeFault.Store DiskFailed → Rose (D.count disk) (D.count x.0)) }
{
    match Store::open(alloc, disk, member.node(), member.nodes()) {
        Ok(store) => Ok(Acceptor::new(store)),
        Err((disk, fault)) => Err((disk, fault_of(fault))),
    }
}

/// Opens the store on a disk for what is to run, and makes what a start makes. With a fault the disk is handed back.
pub(crate) fn open<D: Disk + Drop>(
    alloc: Global,
    member: &Member,
    disk: D,
    running: Running,
    made: &mut Made,
) -> Result<Up<D>, (D, NodeFault)>
    requires runs { (found : Kept) → IsRunning member.now running (started (place_at member.now) found) }
    requires at { IsAt member.now running }
    requires room { HasRoom made.old START }
    ensures starts { ForEither D.Disk (head_of member.now) disk (λ store begun. IfOk result (λ up. Starts D.Disk member.now store begun disk up (told_by made.old) (told_by made.new))) }
    ensures stays { ForEither D.Disk (head_of member.now) disk (λ store begun. IfErr result (λ x. StaysDown D.Disk member.now store begun disk x.0 x.1)) }
    ensures stands { IsTrue D.is_honest → IfOk result (λ up. Finds D.Disk member.now disk up) }
    ensures reopens { IfOk result (λ up. Reopens D.Disk (head_of member.now) disk (disk_under up)) }
    ensures reopens_err { IfErr result (λ x. Reopens D.Disk (head_of member.now) disk x.0) }
    ensures marks { IfOk result (λ up. MarksDisk D.Disk member.now disk (disk_under up)) }
    ensures refuses { IfErr result (λ x. RefusesDisk D.Disk member.now disk x.0 x.1) }
    ensures rose { IfErr result (λ x. x.1 ≡ NodeFault.Store DiskFailed → Rose (D.count disk) (D.count x.0)) }
    ensures at { IfOk result (λ up. IsAt member.now up.running) }
    ensures frames { Grows made.old.frames made.new.frames FRAMES_TO_ALL FRAME_BYTES_TO_ALL }
    ensures texts { length made.new.shown.texts ≤ length made.old.shown.texts + 1 }
    ensures text_bytes { byte_total made.new.shown.texts ≤ byte_total made.old.shown.texts + 263 }
    ensures faults { made.new.faults ≡ made.old.faults }
{
    match open_store(alloc, member, disk) {
        Err(failed) => Err(failed),
        Ok(acceptor) => {
            greet(member, acceptor.promised(), made);
            Ok(Up { acceptor, running })
        }
    }
}
