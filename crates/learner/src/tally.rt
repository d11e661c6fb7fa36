ghost use Rattle.std.specs.Prelude.{◌≡◌, ◌+◌, ◌<◌, ◌≤◌, length, vec_len, vec_capacity};
ghost use Rattle.learner.specs.Tallies.{is_of, skipped, nodes_for, with_node, is_completed};

use paxos_wire::limits::NODES;
use paxos_wire::{Ballot, NodeSet};
use slot_log::Command;

/// Which nodes accepted a command at a slot in a ballot.
#[derive(Clone, Copy, Debug, Drop)]
pub struct Tally {
    /// The ballot that it was accepted in.
    pub(crate) ballot: Ballot,
    /// What was accepted.
    pub(crate) command: Command,
    /// Who accepted it.
    pub(crate) nodes: NodeSet,
}

/// Whether a tally counts the nodes that accepted this command in this ballot.
#[tactic(auto, unfolding(crate::specs::Tallies::is_of))]
fn is_of(tally: &Tally, ballot: Ballot, command: &Command) -> bool
    ensures { result ≡ is_of ballot command.now tally.now }
{
    tally.ballot.round == ballot.round
        && tally.ballot.node == ballot.node
        && tally.command.is_same(command)
}

/// How many tallies stand before that of this command in this ballot.
fn skipped(tallies: &[Tally], ballot: Ballot, command: &Command) -> usize
    ensures value { result ≡ skipped ballot command.now tallies.now }
    ensures most { result ≤ length tallies.now }
{
    for (place, tally) in tallies.iter().enumerate() {
        if is_of(tally, ballot, command) {
            return place;
        }
    }
    tallies.len()
}

/// Whether one more node makes more than half of the nodes of what wasn't.
pub(crate) fn is_completed(nodes: u8, among: &NodeSet, from: u8) -> bool
    requires few { nodes ≤ NODES }
    requires from { from < nodes }
    ensures { result ≡ is_completed nodes among.now from }
{
    let mut with_one_more = *among;
    with_one_more.add(from);
    !among.is_quorum(nodes) && with_one_more.is_quorum(nodes)
}

/// Which nodes accepted this command in this ballot.
pub(crate) fn nodes_for(tallies: &[Tally], ballot: Ballot, command: &Command) -> NodeSet
    ensures { result ≡ nodes_for ballot command.now tallies.now }
{
    let place = skipped(tallies, ballot, command);
    if place == tallies.len() {
        NodeSet::empty()
    } else {
        tallies[place].nodes
    }
}

/// Counts one more node, for which there is room.
pub(crate) fn count(tallies: &mut Vec<Tally>, ballot: Ballot, command: &Command, from: u8)
    requires room { vec_len tallies.old < vec_capacity tallies.old }
    requires from { from < NODES }
    ensures items { tallies.new.items ≡ with_node ballot command.now from tallies.old.items }
    ensures len { vec_len tallies.new ≤ vec_len tallies.old + 1 }
    ensures capacity { vec_capacity tallies.new ≡ vec_capacity tallies.old }
{
    let place = skipped(tallies, ballot, command);
    if place == tallies.len() {
        let mut nodes = NodeSet::empty();
        nodes.add(from);
        tallies.push_reserved(Tally {
            ballot,
            command: *command,
            nodes,
        });
        return;
    }
    let tally = &mut tallies[place];
    tally.nodes.add(from);
}
