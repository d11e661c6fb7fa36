//! Matches that nodes play over disks in memory, one after another.

use crate::counts::Counts;
use crate::group::{Course, Group};
use crate::peer::config;
use dealer_kind::Config;
use std::alloc::{AllocError, Global};
use std::io;

/// How many matches are played, and how many hands each has.
const MATCHES: u32 = 1000;

const HANDS: u32 = 10;

/// Plays matches of so many nodes, one after another, and prints how many commands each node knew at their ends, and
/// what was counted.
pub fn print_played(rt: &(impl Print + AllocGlobal), nodes: u8) -> io::Result<()> {
    let Some(config) = config(rt.alloc(), nodes, HANDS)? else {
        return rt.println("the match was refused");
    };
    match played(rt.alloc(), &config)? {
        Some(counts) => print_counts(rt, usize::from(nodes), &counts),
        None => rt.println("a node wasn't made"),
    }
}

/// Prints what was counted in matches of so many nodes.
fn print_counts(rt: &impl Print, nodes: usize, counts: &Counts) -> io::Result<()> {
    let Counts {
        commands,
        frames,
        bytes: _,
        sum,
        refused,
    } = counts;
    let commands = commands.get(..nodes).unwrap_or(commands.as_slice());
    println!(rt; "nodes: {commands:?} commands, {frames} frames, sum {sum:x}, refused {refused}")
}

/// What is counted over all matches; none where a node isn't made.
fn played(alloc: Global, config: &Config) -> Result<Option<Counts>, AllocError> {
    let mut counts = Counts::none();
    for _ in 0..MATCHES {
        if !play_one(alloc, config, &mut counts)? {
            return Ok(None);
        }
    }
    Ok(Some(counts))
}

/// Plays a match and counts on. An `Ok` of false: a node isn't made.
fn play_one(alloc: Global, config: &Config, counts: &mut Counts) -> Result<bool, AllocError> {
    let mut group = Group::new(alloc, Course::Plain, *counts);
    let played = group.play_match(config);
    *counts = group.counts;
    played
}
