//! Matches of simulated processes, by scripts.

use simulator::Plan;
use std::fs::File;
use std::rt::Files;
use std::{fs, io};
use traffic::Order;

/// A match, and what happens in it.
#[derive(Drop)]
struct Script {
    plan: Plan,
    orders: Vec<Order>,
}

/// Reads scripts from the input, and prints the trace of each one's run, behind the line that says its match. A script's first
/// line says the match, each other one an order; a line that says neither is passed over.
pub fn print_simulated<R: Input + Print + AllocGlobal + Files<File = File>>(
    rt: &R,
) -> io::Result<()> {
    let mut script = None;
    for line in rt.lines(rt.alloc()) {
        let line = line?;
        if line.as_str().starts_with("match ") {
            run(rt, script)?;
            script = begun(rt, line.as_str())?;
        } else {
            add(&mut script, line.as_str())?;
        }
    }
    run(rt, script)
}

/// Puts the order of a line behind those of a script.
fn add(script: &mut Option<Script>, line: &str) -> io::Result<()> {
    if let (Some(script), Some(order)) = (script, Order::read(line)) {
        script.orders.push(order)?;
    }
    Ok(())
}

/// The script of this match, with no orders yet; none where the line says no match.
fn begun<R: Print + AllocGlobal + Files<File = File>>(
    rt: &R,
    line: &str,
) -> io::Result<Option<Script>> {
    let Some(mut plan) = Plan::read(rt.alloc(), line)? else {
        return Ok(None);
    };
    rt.println(line)?;
    if let Ok(path) = str::from_utf8(&plan.game_word) {
        plan.game = fs::read(rt, path)?;
    }
    let orders = Vec::new(rt.alloc());
    Ok(Some(Script { plan, orders }))
}

/// Prints the trace of a script's run.
fn run<R: Print + AllocGlobal>(rt: &R, script: Option<Script>) -> io::Result<()> {
    match script {
        Some(script) => simulator::run(rt, &script.plan, &script.orders),
        None => Ok(()),
    }
}
