ghost use Rattle.std.specs.Prelude.{◌≡◌, ℕ, ◌<◌, ◌≤◌, true, false, List, [], Option, IsTrue, IsErr, Ok, Err, IfOk, IfErr, IfSome, OnOk, is_some, length, option_map, reverse};
ghost use Rattle.protocol_model.specs.Stores.{Store as Kept, empty_store};
ghost use Rattle.proposer.specs.Campaigns.{leads};
ghost use Rattle.node_rules.specs.Standings.{Standing, applied, front_of, place_of, stopped};
ghost use Rattle.node_rules.specs.Showing.{is_connected as is_talk_ready};
ghost use Rattle.node_rules.specs.Seats.{session_at};
ghost use Rattle.node_rules.specs.Calls.{Start, Tick, Away, Frame, Line, Connect, Drop as Dropping, Stop};
ghost use Rattle.promise_store.specs.Disks.{Within, During, Rose};
ghost use Rattle.promise_store.specs.Journals.{header};
ghost use Rattle.promise_store.specs.Keeping.{Leaves};
ghost use Rattle.promise_store.specs.declared.fault.StoreFault.{StoreFault as Fault};
ghost use Rattle.promise_store.specs.declared.fault.StoreFault.TheVariants.{Disk as DiskFailed};
ghost use Rattle.dealer_node.specs.Outs.{nothing_told};
ghost use Rattle.dealer_node.specs.Members.{place_at};
ghost use Rattle.dealer_node.specs.Scenes.{IsTableOf};
ghost use Rattle.dealer_node.specs.Running.{IsAt};
ghost use Rattle.dealer_node.specs.Most.{ShowsWithin};

use crate::fault::NodeFault;
use crate::member::Member;
use crate::most_shown::{MostShown, most_after};
use crate::out::Out;
use crate::rooms::Rooms;
use crate::starting::{open, ready};
use crate::up::Up;
use dealer_kind::Config;
use paxos_wire::{Ballot, MessageRoom};
use promise_store::laws::what_is_kept_is_left;
use promise_store::{Disk, Store};
use slot_log::{Command, Table};
use std::alloc::{AllocError, Global};
use std::marker::Model;

/// One node of a match, over its disk.
///
/// It is made down. `create` makes a new store on its disk, once; `start` opens the store, and from then on the node
/// takes frames of other nodes, bytes of its seats and ticks, and puts what it sends, shows and tells into an `Out`,
/// until it is stopped or its store fails.
///
/// Contracts see it as a standing of the rules (`IsSeen`), and have for each call, whatever it answers, what it made of
/// that standing (`Takes`): by Ok the turn of its rule; by 90, 92, 93, 94 and 96 nothing has changed; by 91 and 95 the node
/// is down; by every fault the `Out` is as it was.
pub struct Node<D: Disk> {
    alloc: Global,
    member: Member,
    /// The table before the first hand, which the node shows while it is down.
    blank: Table,
    /// The disk, while the node is down.
    disk: Option<D>,
    /// What it has while it runs.
    up: Option<Up<D>>,
    /// What its calls use again.
    rooms: Rooms,
}

/// By hand, so that letting one go is one call for whoever owns it (docs/ARCHITECTURE.md, Habits).
impl<D: Disk + Drop> Drop for Node<D> {
    fn drop(self) {
        let Node {
            alloc: _,
            member: _,
            blank: _,
            disk: _,
            up: _,
            rooms: _,
        } = self;
    }
}

impl<D: Disk> Model for Node<D> {
    ghost use Rattle.dealer_node.specs.Nodes.{Node};
    ghost use Rattle.std.specs.Coded.{codes};
    ghost use Rattle.promise_store.specs.contracts.held.Held as held;

    ghost Value = { Node D };

    ghost coded = { Prim.hlevel (codes, held.the_row.coded) };

    ghost use Rattle.dealer_node.specs.NodeInside.{IsKept, node_of};

    ghost view = { node_of };

    ghost invariant = { IsKept };
}

impl<D: Disk + Drop> Node<D> {
    ghost use Rattle.dealer_node.specs.Seeing.{member_in, runs, front_in, table_in, ready_in, pending_in, disk_in, IsSeen, begun_of, bytes_of, failures_of, images_of, since_of, promised_ballot, downed, settled};
    ghost use Rattle.promise_store.specs.Refusals.{Refuses};
    ghost use Rattle.dealer_node.specs.Working.{head_of};
    ghost use Rattle.dealer_node.specs.Most.{most_shown_of, most_shown_by};
    ghost use Rattle.dealer_node.specs.Taking.{Takes, StaysItself, AnswersRightly, LeavesDisk, IsOfStart, FindsStore, OpensDisk, StopsBy};

    /// The node of this number, counted from 0, of a match, over this disk. It is down. An `Err` comes only where
    /// memory was refused.
    pub fn new(alloc: Global, config: &Config, node: usize, disk: D) -> Result<Node<D>, AllocError>
        requires { node < length config.now.sources }
        ensures place { IfOk result (λ made. place_at (member_in made) ≡ place_of config.now node) }
        ensures down { IfOk result (λ made. runs made ≡ false) }
        ensures disk { IfOk result (λ made. disk_in made ≡ Some disk) }
        ensures seen { IfOk result (λ made. (store begun : Kept) → Leaves D.Disk (header node (length config.now.sources)) store begun disk
            → IsSeen D.Disk made (stopped (place_of config.now node) store begun)) }
    {
        let member = Member::new(alloc, config, node)?;
        let blank = Table::new(alloc, *member.game(), member.hands());
        Ok(Node {
            alloc,
            member,
            blank,
            disk: Some(disk),
            up: None,
            rooms: Rooms::new(),
        })
    }

    /// Makes a new store on the node's disk, in place of whatever it has.
    ///
    /// Refused is 91 with 63 where the disk failed; then `create` is to be called again.
    pub fn create(&mut self) -> Result<(), NodeFault>
        requires { runs self.old ≡ false }
        ensures made { OnOk result (IsSeen D.Disk self.new (stopped (place_at (member_in self.old)) empty_store empty_store)) }
        ensures failed { IfErr result (λ fault. (fault ≡ NodeFault.Store DiskFailed) × Rose (failures_of D.Disk self.old) (failures_of D.Disk self.new)) }
        ensures down { runs self.new ≡ false }
        ensures member { member_in self.new ≡ member_in self.old }
        ensures begun { begun_of D.Disk self.new ≡ begun_of D.Disk self.old }
        ensures counts { failures_of D.Disk self.old ≤ failures_of D.Disk self.new }
    {
        what_is_kept_is_left::<D>();
        let Some(disk) = self.disk.take() else {
            unreachable!();
        };
        match Store::create(self.alloc, disk, self.member.node(), self.member.nodes()) {
            Ok(store) => {
                self.disk = Some(store.close());
                Ok(())
            }
            Err((disk, fault)) => {
                self.disk = Some(disk);
                Err(NodeFault::Store(fault))
            }
        }
    }

    /// Starts the node: it opens its store, begins a log with its header, and asks the others for what was chosen where
    /// its store has a promise. A node that runs stays as it is.
    ///
    /// Where version 1 made the store, opening it writes there, once, that version 2 goes on, which changes nothing that it
    /// stands for; any other disk is only synced and read. Refused are 91 where the store can't be opened, and 92; then the
    /// node stays down, and but by 91 with 63 nothing was written.
    pub fn start(&mut self, out: &mut Out) -> Result<(), NodeFault>
        ensures taken { (s : Standing) → IsTrue D.is_honest → IsSeen D.Disk self.old s
            → (found : Kept) × Takes D.Disk (Start found) s self.old self.new out.old out.new result }
        ensures found { IsTrue D.is_honest → runs self.old ≡ false → OnOk result (FindsStore D.Disk self.old self.new) }
        ensures disk { OpensDisk D.Disk self.old self.new result }
        ensures stays { StaysItself D.Disk self.old self.new out.old out.new result }
        ensures shows { ShowsWithin (most_shown_of self.old) out.old out.new }
        ensures running { runs self.old ≡ true → (self.new ≡ self.old) × (out.new ≡ out.old) × (result ≡ Ok tt) }
        ensures down { IsErr result → runs self.new ≡ false }
        ensures faults { IfErr result IsOfStart }
        ensures refused { IsTrue D.is_honest → (why : Fault) → result ≡ Err (NodeFault.Store why) → Refuses (head_of (member_in self.old)) (bytes_of D.Disk self.old) why }
    {
        if self.up.is_some() {
            return Ok(());
        }
        let (running, mut made) = ready(self.alloc, &self.member, &mut out.made)?;
        let Some(disk) = self.disk.take() else {
            unreachable!();
        };
        match open(self.alloc, &self.member, disk, running, &mut made) {
            Ok(up) => {
                out.made.append_owned(made);
                self.up = Some(up);
                Ok(())
            }
            Err((disk, fault)) => {
                self.disk = Some(disk);
                Err(fault)
            }
        }
    }

    /// Takes the bytes of a frame of another node.
    ///
    /// Refused are 90, 92, 94 where the bytes are no frame, 91 where the disk failed, and 95 where another command is
    /// known at a slot.
    pub fn on_frame(&mut self, from: usize, bytes: &[u8], out: &mut Out) -> Result<(), NodeFault>
        requires { from < (member_in self.old).nodes }
        ensures taken { (s : Standing) → IsTrue D.is_honest → IsSeen D.Disk self.old s
            → Takes D.Disk (Frame from bytes.now) s self.old self.new out.old out.new result }
        ensures stays { StaysItself D.Disk self.old self.new out.old out.new result }
        ensures shows { ShowsWithin (most_shown_by self.old bytes.now) out.old out.new }
        ensures answers { AnswersRightly self.old self.new result }
        ensures untouched { (s : Standing) → IsTrue D.is_honest → IsSeen D.Disk self.old s → OnOk result (LeavesDisk (Frame from bytes.now) s self.old self.new) }
    {
        let _nodes = self.member.nodes();
        match &mut self.up {
            None => Err(NodeFault::Down),
            Some(up) => {
                let answer = up.on_frame(
                    self.alloc,
                    &self.member,
                    from as u8,
                    bytes,
                    &mut self.rooms,
                    &mut out.made,
                );
                self.go_down_after(answer)
            }
        }
    }

    /// Takes a piece of a seat's bytes, however cut; of a seat that isn't connected it is passed over.
    ///
    /// Refused are 90, 92, 91 where the disk failed, and 95 where another command is known at a slot. What is wrong with
    /// what the seat sent is no fault of the call, and stands in `out`.
    pub fn on_line(&mut self, seat: usize, bytes: &[u8], out: &mut Out) -> Result<(), NodeFault>
        requires { seat < (member_in self.old).setting.game.players }
        ensures taken { (s : Standing) → IsTrue D.is_honest → IsSeen D.Disk self.old s
            → Takes D.Disk (Line seat bytes.now) s self.old self.new out.old out.new result }
        ensures stays { StaysItself D.Disk self.old self.new out.old out.new result }
        ensures shows { ShowsWithin (most_shown_of self.old) out.old out.new }
        ensures answers { AnswersRightly self.old self.new result }
        ensures untouched { (s : Standing) → IsTrue D.is_honest → IsSeen D.Disk self.old s → OnOk result (LeavesDisk (Line seat bytes.now) s self.old self.new) }
    {
        match &mut self.up {
            None => Err(NodeFault::Down),
            Some(up) => {
                let answer = up.on_line(
                    self.alloc,
                    &self.member,
                    seat,
                    bytes,
                    &mut self.rooms,
                    &mut out.made,
                );
                self.go_down_after(answer)
            }
        }
    }

    /// Begins a ballot above all that the node has seen, unless the match is over.
    ///
    /// Refused are 90, 92, 93 where no ballot is above all that were seen or no slot is left, 91 where the disk failed,
    /// and 95 where another command is known at a slot.
    pub fn on_tick(&mut self, out: &mut Out) -> Result<(), NodeFault>
        ensures taken { (s : Standing) → IsTrue D.is_honest → IsSeen D.Disk self.old s
            → Takes D.Disk Tick s self.old self.new out.old out.new result }
        ensures stays { StaysItself D.Disk self.old self.new out.old out.new result }
        ensures shows { ShowsWithin (most_shown_of self.old) out.old out.new }
        ensures answers { AnswersRightly self.old self.new result }
        ensures untouched { (s : Standing) → IsTrue D.is_honest → IsSeen D.Disk self.old s → OnOk result (LeavesDisk Tick s self.old self.new) }
    {
        match &mut self.up {
            None => Err(NodeFault::Down),
            Some(up) => {
                let answer = up.on_tick(self.alloc, &self.member, &mut self.rooms, &mut out.made);
                self.go_down_after(answer)
            }
        }
    }

    /// Takes an order that the player to act is played for: he folds where he faces something, and else calls.
    ///
    /// The player is whoever is to act at this node, by the hands that it knows. The command that plays for him waits
    /// where none does, until it no longer fits or the node is down, and goes on to the node whose ballot was promised,
    /// where that is another. Refused are 90, 96 where no hand runs, 92, 91 where the disk failed, and 95 where another
    /// command is known at a slot.
    pub fn on_away(&mut self, out: &mut Out) -> Result<(), NodeFault>
        ensures taken { (s : Standing) → IsTrue D.is_honest → IsSeen D.Disk self.old s
            → Takes D.Disk Away s self.old self.new out.old out.new result }
        ensures stays { StaysItself D.Disk self.old self.new out.old out.new result }
        ensures shows { ShowsWithin (most_shown_of self.old) out.old out.new }
        ensures answers { AnswersRightly self.old self.new result }
        ensures untouched { (s : Standing) → IsTrue D.is_honest → IsSeen D.Disk self.old s → OnOk result (LeavesDisk Away s self.old self.new) }
    {
        match &mut self.up {
            None => Err(NodeFault::Down),
            Some(up) => {
                let answer = up.on_away(self.alloc, &self.member, &mut self.rooms, &mut out.made);
                self.go_down_after(answer)
            }
        }
    }

    /// Connects a seat: its session begins anew. Refused is 90, and nothing else.
    pub fn connect(&mut self, seat: usize) -> Result<(), NodeFault>
        requires { seat < (member_in self.old).setting.game.players }
        ensures taken { (s : Standing) → IsTrue D.is_honest → IsSeen D.Disk self.old s
            → Takes D.Disk (Connect seat) s self.old self.new nothing_told nothing_told result }
        ensures stays { StaysItself D.Disk self.old self.new nothing_told nothing_told result }
        ensures answers { AnswersRightly self.old self.new result }
        ensures done { runs self.old ≡ true → result ≡ Ok tt }
        ensures disk { disk_in self.new ≡ disk_in self.old }
    {
        match &mut self.up {
            None => Err(NodeFault::Down),
            Some(up) => {
                up.running.connect(self.alloc, seat);
                Ok(())
            }
        }
    }

    /// Drops a seat's session. Refused is 90, and nothing else.
    pub fn drop_seat(&mut self, seat: usize) -> Result<(), NodeFault>
        requires { seat < (member_in self.old).setting.game.players }
        ensures taken { (s : Standing) → IsTrue D.is_honest → IsSeen D.Disk self.old s
            → Takes D.Disk (Dropping seat) s self.old self.new nothing_told nothing_told result }
        ensures stays { StaysItself D.Disk self.old self.new nothing_told nothing_told result }
        ensures answers { AnswersRightly self.old self.new result }
        ensures done { runs self.old ≡ true → result ≡ Ok tt }
        ensures disk { disk_in self.new ≡ disk_in self.old }
    {
        match &mut self.up {
            None => Err(NodeFault::Down),
            Some(up) => {
                up.running.drop_seat(seat);
                Ok(())
            }
        }
    }

    /// Stops the node, and its disk, as by `Disk::stop`; of a node that is down the disk alone.
    pub fn stop(&mut self, pick: u64)
        ensures taken { (s : Standing) → IsTrue D.is_honest → IsSeen D.Disk self.old s
            → Takes D.Disk Stop s self.old self.new nothing_told nothing_told (Ok tt) }
        ensures stays { StaysItself D.Disk self.old self.new nothing_told nothing_told (Ok tt) }
        ensures down { runs self.new ≡ false }
        ensures disk { IsTrue D.is_honest → images_of D.Disk self.old (bytes_of D.Disk self.new) }
        ensures picked { IsTrue D.is_honest → StopsBy D.Disk pick self.old self.new }
    {
        what_is_kept_is_left::<D>();
        self.go_down();
        if let Some(disk) = &mut self.disk {
            disk.stop(pick);
        }
    }

    /// Whether it runs.
    pub fn running(&self) -> bool
        ensures value { result ≡ runs self.now }
        ensures seen { (s : Standing) → IsSeen D.Disk self.now s → result ≡ s.up }
    {
        self.up.is_some()
    }

    /// The first slot whose command the node doesn't know; 0 while it is down.
    pub fn front(&self) -> u32
        ensures value { result ≡ front_in self.now }
        ensures seen { (s : Standing) → IsSeen D.Disk self.now s → result ≡ front_of s }
        ensures down { runs self.now ≡ false → result ≡ 0 }
    {
        match &self.up {
            None => 0,
            Some(up) => up.running.front(),
        }
    }

    /// The table after the commands that the node applied; while it is down the table before the first hand.
    pub fn table(&self) -> &Table
        ensures now { result.now ≡ table_in self.now }
        ensures seen { (s : Standing) → IsSeen D.Disk self.now s → IsTableOf (member_in self.now).setting (applied s) result.now }
        ensures down { runs self.now ≡ false → IsTableOf (member_in self.now).setting [] result.now }
    {
        match &self.up {
            None => &self.blank,
            Some(up) => &up.running.table,
        }
    }

    /// The commands that the node has applied, that of slot 0 first; none while it is down.
    pub fn commands(&self) -> &[Command]
        ensures seen { (s : Standing) → IsSeen D.Disk self.now s → result.now ≡ reverse (applied s) }
        ensures down { runs self.now ≡ false → result.now ≡ [] }
    {
        match &self.up {
            None => &[],
            Some(up) => up.running.learner.log().commands(),
        }
    }

    /// The ballot that the node has promised; none before the first, and while the node is down.
    pub fn promised(&self) -> Option<Ballot>
        ensures seen { (s : Standing) → IsTrue D.is_honest → IsSeen D.Disk self.now s → s.up ≡ true → result ≡ promised_ballot s.store.promise }
        ensures down { runs self.now ≡ false → result ≡ None }
    {
        match &self.up {
            None => None,
            Some(up) => up.promised(),
        }
    }

    /// Whether the node prepares or leads the ballot that it has promised. One that is down doesn't.
    pub fn campaigns(&self) -> bool
        ensures seen { (s : Standing) → IsSeen D.Disk self.now s → result ≡ is_some s.campaign }
        ensures down { runs self.now ≡ false → result ≡ false }
    {
        match &self.up {
            None => false,
            Some(up) => up.running.campaigns(),
        }
    }

    /// Whether the node leads: a quorum promised its ballot, and it wasn't refused since. One that is down doesn't.
    pub fn leads(&self) -> bool
        ensures seen { (s : Standing) → IsSeen D.Disk self.now s → result ≡ leads (member_in self.now).nodes s.campaign }
        ensures down { runs self.now ≡ false → result ≡ false }
    {
        match &self.up {
            None => false,
            Some(up) => up.running.leads(),
        }
    }

    /// Whether a vote of the node's own stands at its front: it has stored what was proposed there, and doesn't know it as
    /// chosen. One that is down knows of none.
    pub fn vote_waits(&self) -> bool
        ensures seen { (s : Standing) → IsTrue D.is_honest → IsSeen D.Disk self.now s → s.up ≡ true → result ≡ is_some (s.store.votes (front_of s)) }
        ensures down { runs self.now ≡ false → result ≡ false }
    {
        match &self.up {
            None => false,
            Some(up) => up.vote_waits(),
        }
    }

    /// The act that waits to be proposed; none while the node is down.
    pub fn pending(&self) -> Option<Command>
        ensures now { result ≡ pending_in self.now }
        ensures seen { (s : Standing) → IsSeen D.Disk self.now s → result ≡ s.pending }
        ensures down { runs self.now ≡ false → result ≡ None }
    {
        match &self.up {
            None => None,
            Some(up) => up.running.pending,
        }
    }

    /// Whether a seat is connected: its session is ready. None is while the node is down.
    pub fn connected(&self, seat: usize) -> bool
        requires { seat < (member_in self.now).setting.game.players }
        ensures now { result ≡ ready_in self.now seat }
        ensures seen { (s : Standing) → IsSeen D.Disk self.now s → result ≡ is_talk_ready (session_at s.sessions seat) }
        ensures down { runs self.now ≡ false → result ≡ false }
    {
        match &self.up {
            None => false,
            Some(up) => up.running.seats.is_connected(seat),
        }
    }

    /// How many pieces the node's next call shows at most, where it brings no frame, and how many bytes they have in all:
    /// beside what the call proposes it may apply all commands that the node knows beyond its front. The clause `shows` of
    /// each call says so.
    pub fn most_shown(&self) -> MostShown
        ensures { result ≡ most_shown_of self.now }
    {
        match &self.up {
            None => most_after(0),
            Some(up) => up.running.most_shown(),
        }
    }

    /// How many pieces the call of a frame of these bytes shows at most, and how many bytes they have in all: also the
    /// commands that it has may be applied then, and those proposed that it tells. The frame is read into this room.
    pub fn most_shown_by(&self, bytes: &[u8], room: &mut MessageRoom) -> MostShown
        ensures { result ≡ most_shown_by self.now bytes.now }
    {
        match &self.up {
            None => most_after(0),
            Some(up) => up.most_shown_by(bytes, room),
        }
    }

    /// How many calls of the node's disk have failed; it stays at its last value.
    pub fn failures(&self) -> u64
        ensures { result ≡ failures_of D.Disk self.now }
    {
        match (&self.up, &self.disk) {
            (Some(up), _) => up.acceptor.store().failures(),
            (None, Some(disk)) => disk.failures(),
            (None, None) => 0,
        }
    }

    /// The node's disk. Each node has one.
    pub fn disk(&self) -> Option<&D>
        ensures { option_map (λ disk. disk.now) result ≡ disk_in self.now }
    {
        match (&self.up, &self.disk) {
            (Some(up), _) => Some(up.acceptor.store().disk()),
            (None, Some(disk)) => Some(disk),
            (None, None) => None,
        }
    }

    /// Begins the disk of a node that is down anew, as a cluster does that is opened over stores which another one left.
    pub fn begin(&mut self)
        requires { runs self.old ≡ false }
        ensures begun { begun_of D.Disk self.new ≡ bytes_of D.Disk self.old }
        ensures bytes { bytes_of D.Disk self.new ≡ bytes_of D.Disk self.old }
        ensures member { member_in self.new ≡ member_in self.old }
        ensures down { runs self.new ≡ false }
        ensures failures { failures_of D.Disk self.new ≡ failures_of D.Disk self.old }
        ensures images { Within (images_of D.Disk self.old) (images_of D.Disk self.new) }
        ensures moments { During (since_of D.Disk self.old) (since_of D.Disk self.new) (images_of D.Disk self.old) }
        ensures seen { (s : Standing) → IsSeen D.Disk self.old s → IsSeen D.Disk self.new s }
    {
        if let Some(disk) = &mut self.disk {
            disk.begin();
        }
    }

    /// Takes the node down where a call of what runs was answered by 91 or 95.
    fn go_down_after(&mut self, answer: Result<(), NodeFault>) -> Result<(), NodeFault>
        ensures same { result ≡ answer }
        ensures node { self.new ≡ settled answer self.old }
    {
        match answer {
            Err(NodeFault::Store(_) | NodeFault::Conflict) => self.go_down(),
            _ => {}
        }
        answer
    }

    /// Takes down a node that runs. What its store kept stays on its disk.
    fn go_down(&mut self)
        ensures { self.new ≡ downed self.old }
    {
        if let Some(up) = self.up.take() {
            self.disk = Some(up.acceptor.close());
        }
    }
}
