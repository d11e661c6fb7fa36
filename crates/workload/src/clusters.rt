//! Clusters of nodes over disks that fail when they are told to, driven by lines.
//!
//! The first line that is read says the match and the disks, `GAME NAMES HANDS SEED DISK..`: the path of the game's
//! file, the seats' names joined by `|`, how many hands there are, the seed of node 0's deals (each further node has
//! the next), and a word for the disk of each node. The further lines drive the nodes (`driving`).

ghost use Rattle.std.specs.Prelude.{◌≡◌, length};

use crate::driving::print_answers;
use crate::stores;
use dealer_kind::{Config, Source};
use dealer_node::NodeFault;
use dealer_world::Cluster;
use match_log::{Name, SeatNames};
use promise_store::{Disk, FileDisk, MemoryDisk, OnceDisk};
use std::alloc::{AllocError, Global};
use std::fs::File;
use std::rt::Files;
use std::{fs, io};

/// The match's name, in the headers of logs.
const NAME: &[u8] = b"m1";

/// How many words of the first line stand before the disks.
const FRONT: usize = 4;

/// The match that a line says, but for its nodes.
#[derive(Clone, Copy)]
struct Plan<'a> {
    game: &'a str,
    names: &'a str,
    hands: u32,
    seed: u64,
}

impl<'a> Plan<'a> {
    /// The plan of a line; none where it says none.
    fn read(line: &'a str) -> Option<Plan<'a>> {
        let mut words = line.split(' ');
        let game = words.next()?;
        let names = words.next()?;
        let hands = words.next()?.parse().ok()?;
        let seed = words.next()?.parse().ok()?;
        Some(Plan {
            game,
            names,
            hands,
            seed,
        })
    }

    /// The match of so many nodes, where the game's file has these bytes; none where it isn't within limits.
    fn config(
        &self,
        alloc: Global,
        game: &[u8],
        nodes: usize,
    ) -> Result<Option<Config>, AllocError> {
        let mut sources = Vec::new(alloc);
        for node in 0..nodes as u64 {
            sources.push(Source::Seed(self.seed.wrapping_add(node)))?;
        }
        let word = Vec::from_slice(alloc, self.game.as_bytes())?;
        Ok(self.configured(game, word, sources))
    }

    /// The same, with the log's word for the game and the sources of deals.
    fn configured(&self, game: &[u8], word: Vec<u8>, sources: Vec<Source>) -> Option<Config> {
        let game = game_def::read(game).ok()?;
        let name = Name::new(NAME)?;
        let names = SeatNames::read(self.names.as_bytes(), game.players())?;
        Config::new(game, name, word, names, self.hands, sources)
    }
}

/// The match of the first line, for so many nodes; none where it says none.
fn config_of<R: AllocGlobal + Files<File = File>>(
    rt: &R,
    line: &str,
    nodes: usize,
) -> io::Result<Option<Config>> {
    let Some(plan) = Plan::read(line) else {
        return Ok(None);
    };
    let game = fs::read(rt, plan.game)?;
    Ok(plan.config(rt.alloc(), &game, nodes)?)
}

/// A cluster over these disks, anew or over the stores that they have.
fn cluster_of<D: Disk + Drop>(
    alloc: Global,
    config: Config,
    disks: Vec<D>,
    is_new: bool,
) -> Result<Cluster<D>, NodeFault>
    requires { length disks.items ≡ length config.sources }
{
    if is_new {
        return Cluster::new(alloc, config, disks);
    }
    Cluster::open(alloc, config, disks)
}

/// Drives a cluster that was made. What can't be made is told as `E FAULT`.
fn drive_made<D: Disk + Drop, R: Input + Print + AllocGlobal>(
    rt: &R,
    made: Result<Cluster<D>, NodeFault>,
) -> io::Result<()> {
    match made {
        Ok(mut cluster) => print_answers(rt, &mut cluster),
        Err(fault) => println!(rt; "E {fault}"),
    }
}

/// Makes a cluster over these disks for the match of the first line, and drives it.
fn drive<D: Disk + Drop, R: Input + Print + AllocGlobal + Files<File = File>>(
    rt: &R,
    line: &str,
    disks: Vec<D>,
    is_new: bool,
) -> io::Result<()> {
    match config_of(rt, line, disks.len())? {
        Some(config) if config.nodes() == disks.len() => {
            drive_made(rt, cluster_of(rt.alloc(), config, disks, is_new))
        }
        _ => rt.println("no match"),
    }
}

/// The fuses that a word says: numbers joined by commas, or `-` for none.
fn fuses_of(alloc: Global, word: &str) -> Result<Vec<u64>, AllocError> {
    let mut fuses = Vec::new(alloc);
    for number in word.split(',') {
        if let Ok(calls) = number.parse() {
            fuses.push(calls)?;
        }
    }
    Ok(fuses)
}

/// Disks in memory with fuses; a word says those of a disk.
fn fused(alloc: Global, line: &str) -> Result<Vec<MemoryDisk>, AllocError> {
    let mut disks = Vec::new(alloc);
    for word in line.split(' ').skip(FRONT) {
        let fuses = fuses_of(alloc, word)?;
        disks.push(MemoryDisk::new(alloc, &fuses)?)?;
    }
    Ok(disks)
}

/// Disks in memory of which one call fails; a word says which, counted from 1, or 0 for none.
fn failing_once(alloc: Global, line: &str) -> Result<Vec<OnceDisk>, AllocError> {
    let mut disks = Vec::new(alloc);
    for word in line.split(' ').skip(FRONT) {
        disks.push(OnceDisk::new(alloc, word.parse().unwrap_or(0)))?;
    }
    Ok(disks)
}

/// Files; a word is the path of one. They are made anew or have to be there.
fn files<R: AllocGlobal + Files<File = File>>(
    rt: &R,
    line: &str,
    is_new: bool,
) -> io::Result<Vec<FileDisk>> {
    let mut disks = Vec::new(rt.alloc());
    for path in line.split(' ').skip(FRONT) {
        disks.push(stores::open(rt, path, is_new)?)?;
    }
    Ok(disks)
}

/// What the nodes' disks are.
#[derive(Clone, Copy)]
pub enum Disks {
    /// In memory, with fuses.
    Fused,
    /// In memory, one call of each failing.
    FailingOnce,
    /// Files that are made anew.
    NewFiles,
    /// Files that have stores.
    Files,
}

/// Reads the first line, and drives a cluster over such disks by the further ones.
pub fn print_driven<R: Input + Print + AllocGlobal + Files<File = File>>(
    rt: &R,
    kind: Disks,
) -> io::Result<()> {
    let mut line = String::new(rt.alloc());
    rt.read_line(&mut line)?;
    let line = line.as_str().trim_end();
    match kind {
        Disks::Fused => drive(rt, line, fused(rt.alloc(), line)?, true),
        Disks::FailingOnce => drive(rt, line, failing_once(rt.alloc(), line)?, true),
        Disks::NewFiles => drive(rt, line, files(rt, line, true)?, true),
        Disks::Files => drive(rt, line, files(rt, line, false)?, false),
    }
}
