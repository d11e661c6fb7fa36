//! Which lives of nodes' stores are known, and which of them is told.

ghost use Rattle.std.specs.Prelude.{◌≡◌, true, None, get_or};
ghost use Rattle.node_links.specs.declared.own.Known.TheVariants.{Two};
ghost use Rattle.node_peers.specs.Knowing.{own_life, kept_life, or_life, known_of, life_told, lives_told};

use crate::peer::Peer;
use node_links::limits::NODES;
use node_links::{Known, Lives, Own};
use peer_codes::Life;

/// The life of this node's own store, where this is its number.
fn own_life(own: &Own, number: usize) -> Option<Life>
    ensures { result ≡ own_life own.now number }
{
    if number == own.number as usize {
        Some(own.life)
    } else {
        None
    }
}

/// The life that is kept of the store of a node.
fn kept_life(number: usize, peers: &[Peer]) -> Option<Life>
    ensures { result ≡ kept_life number peers.now }
{
    match peers.get(number) {
        Some(peer) => peer.kept,
        None => None,
    }
}

/// The life that a peer told of the store of a node.
fn told_life(number: usize, peer: &Peer) -> Option<Life>
    ensures { result ≡ get_or peer.now.told number None }
{
    match peer.told.get(number) {
        Some(life) => *life,
        None => None,
    }
}

/// The first of two lives that is there.
fn or_life(first: Option<Life>, second: Option<Life>) -> Option<Life>
    ensures { result ≡ or_life first second }
{
    match first {
        Some(life) => Some(life),
        None => second,
    }
}

/// Which lives of the store of a node are known: this node's own, the one that is kept, and those that peers tell that are
/// there.
#[tactic(auto, using(crate::proofs::Lives::one_told, crate::proofs::Lives::told_all))]
pub(crate) fn known_of(own: &Own, number: usize, peers: &[Peer]) -> Known
    ensures { result ≡ known_of own.now number peers.now }
{
    let kept = kept_life(number, peers);
    let mut known = Known::Nothing.and(own_life(own, number)).and(kept);
    for peer in peers {
        known = known.and(told_life(number, peer));
    }
    known
}

/// Whether two lives of the store of a node are known.
pub(crate) fn is_replaced(own: &Own, number: usize, peers: &[Peer]) -> bool
    ensures replaced { result ≡ true → known_of own.now number peers.now ≡ Two }
    ensures not { known_of own.now number peers.now ≡ Two → result ≡ true }
{
    match known_of(own, number, peers) {
        Known::Two => true,
        Known::Nothing => false,
        Known::One(_) => false,
    }
}

/// Whether a peer tells another life of this node's own store.
pub(crate) fn is_other_told(own: &Own, number: usize, peers: &[Peer]) -> bool {
    let told = match peers.get(number) {
        Some(peer) => told_life(own.number as usize, peer),
        None => None,
    };
    match told {
        Some(life) => life.bytes != own.life.bytes,
        None => false,
    }
}

/// The life that is told of the store of a node: this node's own, the one that is kept, or else the first that a peer tells.
#[tactic(auto, using(crate::proofs::Lives::one_first, crate::proofs::Lives::first_all))]
fn life_told(own: &Own, number: usize, peers: &[Peer]) -> Option<Life>
    ensures { result ≡ life_told own.now number peers.now }
{
    let mut life = or_life(own_life(own, number), kept_life(number, peers));
    for peer in peers {
        life = or_life(life, told_life(number, peer));
    }
    life
}

/// The lives that are told to peers: of each node of the match one, if any is known.
#[tactic(auto, using(crate::proofs::Lives::one_below, crate::proofs::Lives::none_below))]
pub(crate) fn lives_told(own: &Own, peers: &[Peer]) -> Lives
    ensures { result ≡ lives_told own.now peers.now }
{
    let mut lives = [None; NODES];
    for number in 0..NODES {
        if number < own.nodes as usize {
            lives[number] = life_told(own, number, peers);
        }
    }
    Lives {
        nodes: own.nodes,
        lives,
    }
}
