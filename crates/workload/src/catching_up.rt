//! What it takes until a node that leads knows again what was chosen before all nodes stopped.
//!
//! Where a leader proposes together what it is told, these are five frames for each 64 commands: a Prepare of 15 bytes;
//! its Promise, 16 bytes and for each deal 24 more, for each fold 21; the Accept, and an Accepted of each of the two
//! nodes, 16 bytes each and for each deal 15 more, for each fold 12. So 1003 commands take 16 ticks and 80 deliveries,
//! of 16 * 31 + 502 * 24 + 501 * 21 + 3 * (16 * 16 + 502 * 15 + 501 * 12) bytes, which is 64,459.

use crate::counts::Counts;
use crate::group::{Course, Group};
use crate::peer::config;
use dealer_kind::Config;
use std::alloc::{AllocError, Global};
use std::io;

/// How many nodes there are. No frame comes to node 1 or from there.
const NODES: u8 = 3;

/// The node that catches up.
const LEADER: u8 = 2;

/// What it took.
#[derive(Clone, Copy)]
struct Effort {
    /// How many commands the node knows.
    commands: u32,
    ticks: u32,
    /// What was delivered.
    counts: Counts,
}

/// Lets two of three nodes choose so many commands, a deal and a fold in turn, and all nodes begin anew. Then one of the
/// two ticks until it knows these commands, and what that takes is printed: its ticks, the frames delivered between the
/// two, and the bytes of these.
pub fn print_caught_up(rt: &(impl Print + AllocGlobal), commands: u32) -> io::Result<()> {
    let hands = commands / 2 + commands % 2;
    let Some(config) = config(rt.alloc(), NODES, hands)? else {
        return rt.println("the match was refused");
    };
    match caught_up(rt.alloc(), &config, commands)? {
        Some(effort) => print_effort(rt, &effort),
        None => rt.println("a node wasn't made"),
    }
}

/// Prints what it took.
fn print_effort(rt: &impl Print, effort: &Effort) -> io::Result<()> {
    let Effort {
        commands,
        ticks,
        counts,
    } = effort;
    let Counts { frames, bytes, .. } = counts;
    println!(rt; "{commands} commands: {ticks} ticks, {frames} deliveries, {bytes} bytes")
}

/// What it takes in this match; none where a node isn't made.
fn caught_up(alloc: Global, config: &Config, commands: u32) -> Result<Option<Effort>, AllocError> {
    let mut group = Group::new(alloc, Course::Parted, Counts::none());
    if !group.begin(config)? {
        return Ok(None);
    }
    group.fold_to(commands)?;
    group.begin_anew()?;
    group.counts = Counts::none();
    let ticks = ticks_to(&mut group, commands)?;
    Ok(Some(Effort {
        commands: group.front(LEADER),
        ticks,
        counts: group.counts,
    }))
}

/// Lets the node tick until it knows so many commands, and as often at most. How often it ticked.
fn ticks_to(group: &mut Group, commands: u32) -> Result<u32, AllocError> {
    for ticks in 0..commands {
        if group.front(LEADER) >= commands {
            return Ok(ticks);
        }
        group.tick(LEADER)?;
    }
    Ok(commands)
}
