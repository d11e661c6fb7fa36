//! A run of a script.

use crate::plan::Plan;
use crate::world::World;
use std::alloc::{AllocError, Global};
use std::io;
use test_kit::Clock;
use traffic::{NODES, Order};

/// So many bytes of the trace are printed at once.
const PRINTED: usize = 50_000;

/// The most events of a run.
const EVENTS: u64 = 20_000_000;

/// Prints what is to be printed of the trace.
fn print(rt: &impl Print, text: &mut Vec<u8>) -> io::Result<()> {
    let answer = match str::from_utf8(text) {
        Ok(text) => rt.print(text),
        Err(_) => rt.println("no text"),
    };
    text.clear();
    answer
}

/// The clocks of all processes.
fn clocks(alloc: Global) -> Result<Vec<Clock>, AllocError> {
    let mut clocks = Vec::new(alloc);
    for _ in 0..NODES {
        clocks.push(Clock::new())?;
    }
    Ok(clocks)
}

/// Runs a match by a script, whose orders come one after another, and prints the trace: one event a line.
pub fn run<'p, R: Print + AllocGlobal>(
    rt: &R,
    plan: &'p Plan,
    orders: &'p [Order],
) -> io::Result<()> {
    let clocks = clocks(rt.alloc())?;
    let mut world = World::new(rt.alloc(), plan, orders, &clocks)?;
    for _ in 0..EVENTS {
        if world.is_done() || !world.step()? {
            break;
        }
        if world.text.len() > PRINTED {
            print(rt, &mut world.text)?;
        }
    }
    print(rt, &mut world.text)
}
