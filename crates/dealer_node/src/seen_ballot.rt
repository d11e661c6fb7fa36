ghost use Rattle.std.specs.Prelude.{◌≡◌, map};
ghost use Rattle.paxos_wire.specs.declared.entry.Entry.{Entry as Vote};
ghost use Rattle.node_rules.specs.Proposing.{higher};
ghost use Rattle.node_rules.specs.Rules.{ballots_of, highest};

use paxos_wire::{Ballot, Entry, Message};

/// The higher of two ballots.
pub(crate) fn higher(one: Ballot, other: Ballot) -> Ballot
    ensures { result ≡ higher one other }
{
    if one.round < other.round || one.round == other.round && one.node < other.node {
        other
    } else {
        one
    }
}

/// The highest of a ballot and those of entries.
fn highest_of(ballot: Ballot, entries: &[Entry]) -> Ballot
    ensures { result ≡ highest ballot (map (λ (entry : Vote). entry.ballot) entries.now) }
{
    let mut seen = ballot;
    for entry in entries {
        seen = higher(seen, entry.ballot);
    }
    seen
}

/// The highest of a ballot and all that a message tells.
pub(crate) fn seen_in(seen: Ballot, message: &Message) -> Ballot
    ensures { result ≡ highest seen (ballots_of message.now) }
{
    match message {
        Message::Prepare { ballot, .. }
        | Message::Accept { ballot, .. }
        | Message::Accepted { ballot, .. } => higher(seen, *ballot),
        Message::Promise {
            ballot,
            entries,
            ..
        } => highest_of(higher(seen, *ballot), entries.as_slice()),
        Message::Refuse {
            ballot,
            promised,
            ..
        } => higher(higher(seen, *ballot), *promised),
        Message::Chosen { .. } | Message::Ask { .. } | Message::Forward { .. } => seen,
    }
}
