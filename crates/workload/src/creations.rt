//! The making of a node's store over a disk, one call of which fails.

ghost use Rattle.std.specs.Prelude.{◌≡◌, false};
ghost use Rattle.dealer_node.specs.Seeing.{runs};

use crate::peer::config;
use dealer_kind::Config;
use dealer_node::{Node, NodeFault, Out};
use promise_store::OnceDisk;
use std::io;

/// The calls of a disk that the making of a store takes, counted from 1, end before this one.
const CALLS: u64 = 3;

/// Prints an answer behind its name.
fn print_answer(rt: &impl Print, name: &str, answer: Result<(), NodeFault>) -> io::Result<()> {
    match answer {
        Ok(()) => println!(rt; "{name}: Ok"),
        Err(fault) => println!(rt; "{name}: {fault}"),
    }
}

/// Prints how a node's store was made, how it was made again, and how the node started.
fn print_answers(rt: &(impl Print + AllocGlobal), node: &mut Node<OnceDisk>) -> io::Result<()>
    requires { runs node.old ≡ false }
{
    print_answer(rt, "create", node.create())?;
    print_answer(rt, "create", node.create())?;
    print_answer(rt, "start", node.start(&mut Out::new(rt.alloc())))
}

/// Prints the answers of node 0 over a disk whose call of this number fails; nothing where the match has no node.
fn print_answers_at(rt: &(impl Print + AllocGlobal), config: &Config, call: u64) -> io::Result<()> {
    if config.nodes() == 0 {
        return Ok(());
    }
    let disk = OnceDisk::new(rt.alloc(), call);
    let mut node = Node::new(rt.alloc(), config, 0, disk)?;
    print_answers(rt, &mut node)
}

/// Lets each call of a disk that the making of a store takes fail in turn, and prints how it was answered, how it was
/// when it was made again, and how the node's start.
pub fn print_created(rt: &(impl Print + AllocGlobal)) -> io::Result<()> {
    let Some(config) = config(rt.alloc(), 3, 1)? else {
        return rt.println("the match was refused");
    };
    for call in 1..CALLS {
        println!(rt; "call {call} fails")?;
        print_answers_at(rt, &config, call)?;
    }
    Ok(())
}
