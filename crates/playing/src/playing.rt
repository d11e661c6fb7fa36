ghost use Rattle.std.specs.Prelude.{◌≡◌, ◌≤◌, ◌<◌, ◌-◌, ◌^◌, ◌++◌, [], false, ℕ, List, length, MatchOption, IfOk, OnOk, IfErr, codes};
ghost use Rattle.std.specs.List.{flat_map};
ghost use Rattle.play_script.specs.Shown.{whole_line, bad_script_text};
ghost use Rattle.dealer_world.specs.Viewing.{view_of};
ghost use Rattle.dealer_world.specs.Promise.{IsForMatch, HasNoForged, ShowsOneList};
ghost use Rattle.playing.specs.Marks.{AreDelivered, IsFirstMissing};
ghost use Rattle.playing.specs.Playing.{Happens, Delivery, FlushesUpTo, Arrives, Obeys, Answers, Begins, HasOneList, header_text, bounds_of};

use crate::marks::Marks;
use crate::showing::{put_event, put_piece};
use dealer_kind::Config;
use dealer_node::is_out_of_memory;
use dealer_world::{Cluster, Event};
use play_script::{BadScript, Bounds, Order, read};
use promise_store::MemoryDisk;
use std::alloc::{AllocError, Global};

/// A cluster of nodes over disks in memory, which a script drives line by line.
///
/// Contracts see the cluster, and which frames were ever delivered (`scene_of`). It delivers only frames that were sent,
/// so the promise of a cluster holds of it as it stands.
pub struct Playing {
    alloc: Global,
    cluster: Cluster<MemoryDisk>,
    /// Those that have no mark yet weren't delivered.
    marks: Marks,
    ghost within: { length marks ≤ length (view_of cluster).all.sent },
    ghost fresh: { (view_of cluster).opened ≡ false },
    ghost unforged: { ∥ HasNoForged (view_of cluster) ∥₁ },
    ghost shows: { ∥ ShowsOneList (view_of cluster) [] ∥₁ },
}

/// By hand, so that letting one go is one call for whoever owns it (docs/ARCHITECTURE.md, Habits).
impl Drop for Playing {
    fn drop(self) {
        let Playing {
            alloc: _,
            cluster: _,
            marks: _,
        } = self;
    }
}

/// New disks without fuses, one a node.
fn new_disks(alloc: Global, nodes: usize) -> Result<Vec<MemoryDisk>, AllocError>
    ensures { IfOk result (λ disks. length disks.items ≡ nodes) }
{
    let mut disks = Vec::new(alloc);
    for _node in 0..nodes {
        disks.push(MemoryDisk::new(alloc, &[])?)?;
    }
    Ok(disks)
}

impl Playing {
    ghost use Rattle.playing.specs.PlayingInside.{scene_of, IsWithin, BringsSent};

    /// A new cluster of a match, all of whose nodes are started; the headers of their logs are printed behind what stands
    /// in `out`. An `Err` comes only where memory was refused.
    pub fn new(alloc: Global, config: Config, out: &mut Vec<u8>) -> Result<Playing, AllocError>
        ensures begun { IfOk result (λ made. (text : List ℕ) × (out.new.items ≡ out.old.items ++ text) × Begins config text (scene_of made)) }
        ensures shows { IfOk result (λ made. HasOneList (scene_of made)) }
    {
        let disks = new_disks(alloc, config.nodes())?;
        let Ok(cluster) = Cluster::new(alloc, config, disks) else {
            return Err(AllocError);
        };
        put_headers(out, &cluster)?;
        Ok(Playing {
            alloc,
            cluster,
            marks: Marks::new(alloc),
        })
    }

    /// Answers a line of the script, without its line feed: what comes of the events that it says is printed behind
    /// what stands in `out`, or 110 where it says none.
    ///
    /// An `Err` comes only where memory was refused; the cluster may then have taken an event.
    pub fn answer(&mut self, line: &[u8], out: &mut Vec<u8>) -> Result<(), AllocError>
        ensures answered { OnOk result ((text : List ℕ) × (out.new.items ≡ out.old.items ++ text) × Answers (scene_of self.old) line.now text (scene_of self.new)) }
        ensures shows { HasOneList (scene_of self.new) }
    {
        match read(line, self.bounds()?) {
            Ok(order) => self.obey(order, out),
            Err(fault) => put_bad_script(out, fault),
        }
    }

    /// How many frames were sent. An `Err` comes where that is more than any memory has.
    fn sent(&self) -> Result<usize, AllocError>
        ensures count { IfOk result (λ count. count ≡ length (scene_of self.now).cluster.all.sent) }
        ensures most { IfOk result (λ count. count < 2 ^ 64 - 1) }
    {
        let count = self.cluster.frame_count();
        if count == usize::MAX {
            return Err(AllocError);
        }
        Ok(count)
    }

    /// What a line may name.
    fn bounds(&self) -> Result<Bounds, AllocError>
        ensures { IfOk result (λ bounds. bounds ≡ bounds_of (scene_of self.now)) }
    {
        Ok(Bounds {
            nodes: self.cluster.node_count(),
            seats: self.cluster.config().game().players(),
            frames: self.sent()? as u64,
        })
    }

    /// Does what a line says.
    fn obey(&mut self, order: Order<'_>, out: &mut Vec<u8>) -> Result<(), AllocError>
        requires { IsWithin (bounds_of (scene_of self.old)) order }
        ensures { OnOk result ((text : List ℕ) × (out.new.items ≡ out.old.items ++ text) × Obeys (scene_of self.old) order.entry text (scene_of self.new)) }
    {
        self.cluster.config().limits();
        match order {
            Order::Tick { node } => self.happen(&Event::Tick { node: node as u8 }, out),
            Order::Away { node } => self.happen(&Event::Away { node: node as u8 }, out),
            Order::Deliver { frame } => self.deliver(frame as usize, out),
            Order::Flush { most } => self.flush(most, out),
            Order::Connect { node, seat } => {
                let (node, seat) = (node as u8, seat as u8);
                self.happen(&Event::Connect { node, seat }, out)
            }
            Order::Drop { node, seat } => {
                let (node, seat) = (node as u8, seat as u8);
                self.happen(&Event::Drop { node, seat }, out)
            }
            Order::Line { node, seat, text } => self.line(node as u8, seat as u8, text, out),
            Order::Stop { node, pick } => {
                let node = node as u8;
                self.happen(&Event::Stop { node, pick }, out)
            }
            Order::Start { node } => self.happen(&Event::Start { node: node as u8 }, out),
        }
    }

    /// Lets an event happen, and prints what comes of it.
    fn happen(&mut self, event: &Event, out: &mut Vec<u8>) -> Result<(), AllocError>
        requires for_match { IsForMatch (scene_of self.old).cluster.config event.now }
        requires sent { BringsSent (scene_of self.old).cluster.all.sent event.now }
        ensures { OnOk result ((text : List ℕ) × (out.new.items ≡ out.old.items ++ text) × Happens (scene_of self.old) event.now text (scene_of self.new)) }
    {
        let first = self.sent()?;
        let answer = self.cluster.step(event);
        if is_out_of_memory(answer) {
            return Err(AllocError);
        }
        let _sent = self.sent()?;
        let node = event.node() as usize;
        put_event(out, node, first as u64, self.cluster.last(), answer)
    }

    /// A seat's line comes to a node, with CR LF behind it.
    fn line(&mut self, node: u8, seat: u8, text: &[u8], out: &mut Vec<u8>) -> Result<(), AllocError>
        requires node { node < length (scene_of self.old).cluster.config.sources }
        requires seat { seat < (scene_of self.old).cluster.config.setting.game.players }
        ensures { OnOk result ((shown : List ℕ) × (out.new.items ≡ out.old.items ++ shown) × Arrives node seat text.now (scene_of self.old) shown (scene_of self.new)) }
    {
        let mut bytes = text.to_vec(self.alloc)?;
        bytes.extend_from_slice(b"\r\n")?;
        self.happen(&Event::Line { node, seat, bytes }, out)
    }

    /// The frame of this number is delivered, and counts as delivered from now on.
    fn deliver(&mut self, number: usize, out: &mut Vec<u8>) -> Result<(), AllocError>
        ensures { OnOk result ((text : List ℕ) × (out.new.items ≡ out.old.items ++ text) × Delivery (scene_of self.old) number text (scene_of self.new)) }
    {
        self.mark_all()?;
        let Some(frame) = self.cluster.frame(number) else {
            return Err(AllocError);
        };
        let nodes = self.cluster.node_count();
        if frame.from as usize >= nodes || frame.to as usize >= nodes {
            // No node sends such a frame.
            return Err(AllocError);
        }
        let event = Event::Frame {
            from: frame.from,
            to: frame.to,
            bytes: frame.bytes.to_vec(self.alloc)?,
        };
        self.marks.deliver(number);
        self.happen(&event, out)
    }

    /// Marks the frames that have no mark yet. Nothing that is seen changes.
    fn mark_all(&mut self) -> Result<(), AllocError>
        ensures same { scene_of self.new ≡ scene_of self.old }
        ensures all { OnOk result (self.new.marks ≡ (scene_of self.old).delivered) }
    {
        let sent = self.sent()?;
        self.marks.extend_to(sent)
    }

    /// The frame of least number that was never delivered.
    fn first_missing(&mut self) -> Result<Option<usize>, AllocError>
        ensures missing { IfOk result (λ found. MatchOption found (AreDelivered (scene_of self.old).delivered (length (scene_of self.old).delivered)) (IsFirstMissing (scene_of self.old).delivered)) }
        ensures same { scene_of self.new ≡ scene_of self.old }
    {
        self.mark_all()?;
        Ok(self.marks.first_missing())
    }

    /// At most so many times the frame of least number that was never delivered is delivered.
    fn flush(&mut self, most: u64, out: &mut Vec<u8>) -> Result<(), AllocError>
        ensures { OnOk result ((text : List ℕ) × (out.new.items ≡ out.old.items ++ text) × FlushesUpTo most (scene_of self.old) text (scene_of self.new)) }
    {
        for _count in 0..most {
            match self.first_missing()? {
                Some(number) => self.deliver(number, out)?,
                None => return Ok(()),
            }
        }
        Ok(())
    }
}

/// Prints the fault of a line that says nothing.
fn put_bad_script(out: &mut Vec<u8>, fault: BadScript) -> Result<(), AllocError>
    ensures { OnOk result (out.new.items ≡ out.old.items ++ whole_line (codes "E " ++ bad_script_text)) }
{
    let line = format!(in *out.allocator(); "E {fault}\n")?;
    out.extend_from_slice(line.as_bytes())
}

/// Prints what a new cluster showed.
fn put_headers(out: &mut Vec<u8>, cluster: &Cluster<MemoryDisk>) -> Result<(), AllocError>
    ensures { OnOk result (out.new.items ≡ out.old.items ++ flat_map header_text (view_of cluster.now).all.shown) }
{
    for number in 0..usize::MAX {
        match cluster.piece(number) {
            Some(piece) => put_piece(out, piece.node as usize, piece.reader, piece.text)?,
            None => return Ok(()),
        }
    }
    Err(AllocError)
}
