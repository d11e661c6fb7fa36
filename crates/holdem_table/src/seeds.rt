//! The seeds of a match's nodes: `init` draws them, and who plays by them is told which can be guessed.

ghost use Rattle.std.specs.Prelude.{◌<◌, length};

use crate::init::{print, read_config};
use crate::init_node::drawn;
use crate::notes::Notes;
use dealer_kind::{Config, Source};
use match_runs::{drawn_seed, is_short, seed_line, short_seeds};
use operator_notes::NodeNote;
use std::alloc::AllocError;
use streamed::Ending;

/// Prints a drawn seed for each node of a match, as a line of its table, or one for all; it makes nothing.
///
/// The match file's first six keys are looked at, and its game file, as of `init`. `Store` (63) comes where there are no
/// random bytes, `StreamFailed` (107) where standard output can't be written.
pub(crate) fn init_seeds(rt: &HostRuntime, path: &str, is_one_for_all: bool) -> Ending {
    match print_seeds(rt, path, is_one_for_all, &mut Notes::new(rt, false)) {
        Ok(()) => Ending::Done,
        Err(ending) => ending,
    }
}

/// The steps of it.
fn print_seeds(
    rt: &HostRuntime,
    path: &str,
    is_one_for_all: bool,
    notes: &mut Notes<'_>,
) -> Result<(), Ending> {
    let config = read_config(rt, path, notes)?;
    let count = if is_one_for_all { 1 } else { config.nodes() };
    let mut lines = Vec::new(rt.alloc());
    for _ in 0..count {
        let seed = drawn_seed(drawn(rt, notes)?);
        lines.extend_from_slice(&seed_line(rt.alloc(), seed)?)?;
    }
    print(rt, &lines)
}

/// Tells the nodes of a match whose seeds can be guessed.
pub(crate) fn tell_seeds(
    rt: &HostRuntime,
    config: &Config,
    notes: &mut Notes<'_>,
) -> Result<(), AllocError> {
    let nodes = short_seeds(rt.alloc(), config)?;
    if !nodes.is_empty() {
        notes.tell_short_seeds(&nodes);
    }
    Ok(())
}

/// Tells that the seed of this node can be guessed, if it can; where it is 0 and that of another node isn't, the match file
/// may be that of the other's machine, and a note asks this in its place.
pub(crate) fn tell_own_seed(config: &Config, node: u8, notes: &mut Notes<'_>)
    requires { node < length config.now.sources }
{
    let source = config.source(node as usize);
    if has_seed_0(source) && are_others_seeded(config) {
        notes.tell_node(&NodeNote::OtherMachine(node));
    } else if is_short(source) {
        notes.tell_short_seeds(&[node]);
    }
}

/// Whether a source of deals is the seed 0.
fn has_seed_0(source: &Source) -> bool {
    matches!(source, Source::Seed(0))
}

/// Whether a node of a match has another seed than 0.
fn are_others_seeded(config: &Config) -> bool {
    for node in 0..config.nodes() {
        if let Source::Seed(seed) = config.source(node) {
            if *seed != 0 {
                return true;
            }
        }
    }
    false
}
