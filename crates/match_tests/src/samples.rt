//! The matches that are played, of alice and bob, limit; the frames of their first round; and how values are compared.

use card_core::Deal;
use dealer_kind::{Config, Source};
use match_log::{Name, SeatNames};
use matchstate::read_deal;
use sample_games::L2;
use std::alloc::{AllocError, Global};
use std::fmt::Debug;
use std::process::Abort;

/// What the nodes of a match of one hand would deal, in the order of nodes.
const DEALS: [&[u8]; 7] = [
    b"TdAs|8hTc/2c8c3h/9c/Kh",
    b"2d2h|3d3s/4c5c6c/7c/8d",
    b"AhAd|KdKs/QcJc9d/5d/6s",
    b"2c3c|4c5c/6c7c8c/9c/Tc",
    b"AcKc|QcJc/Tc9c8c/7c/6c",
    b"7h7d|2s2c/8h9h5h/Js/Qs",
    b"KhQh|JhTh/9h8s3s/4d/5s",
];

/// Node 0 asks for a promise of (1, 0) at slot 0.
pub(crate) const PREPARE: &[u8] = b"\x00\x00\x00\x0b\x02\x01\x00\x00\x00\x01\x00\x00\x00\x00\x00";

/// A node's promise of it, with nothing to tell.
pub(crate) const PROMISE: &[u8] =
    b"\x00\x00\x00\x0c\x02\x02\x00\x00\x00\x01\x00\x00\x00\x00\x00\x00";

/// The deal of node 0, proposed in (1, 0) at slot 0.
pub(crate) const ACCEPT: &[u8] =
    b"\x00\x00\x00\x1b\x02\x04\x00\x00\x00\x01\x00\x00\x00\x00\x00\x01\x01\x00\x00\x00\x00\x09\x21\x33\x1a\x20\x00\x18\x06\x1c\x2e";

/// The same, accepted.
pub(crate) const ACCEPTED: &[u8] =
    b"\x00\x00\x00\x1b\x02\x05\x00\x00\x00\x01\x00\x00\x00\x00\x00\x01\x01\x00\x00\x00\x00\x09\x21\x33\x1a\x20\x00\x18\x06\x1c\x2e";

/// The deal of this number, counted from 0.
pub(crate) fn deal(rt: &impl Abort, number: usize) -> Deal {
    let text = DEALS
        .get(number)
        .copied()
        .expect(rt, "a deal of this number");
    read_deal(text, 2).expect(rt, "a deal")
}

/// A match of so many hands, whose nodes have these deals.
fn config(
    rt: &impl Abort,
    alloc: Global,
    hands: u32,
    sources: Vec<Source>,
) -> Result<Config, AllocError> {
    let game = game_def::read(L2).expect(rt, "a game");
    let name = Name::new(b"m1").expect(rt, "a name");
    let word = b"l2.game".to_vec(alloc)?;
    let names = SeatNames::read(b"alice|bob", 2).expect(rt, "names");
    Ok(Config::new(game, name, word, names, hands, sources).expect(rt, "a config"))
}

/// A match of one hand by so many nodes, each of which has a deal of its own.
pub(crate) fn one_hand(rt: &impl Abort, alloc: Global, nodes: usize) -> Result<Config, AllocError> {
    let mut sources = Vec::new(alloc);
    for node in 0..nodes {
        let deals = vec![in alloc; deal(rt, node)]?;
        sources.push(Source::Listed(deals))?;
    }
    config(rt, alloc, 1, sources)
}

/// A match of so many hands by three nodes, all of which have the first deal for each hand.
pub(crate) fn same_deals(rt: &impl Abort, alloc: Global, hands: u32) -> Result<Config, AllocError> {
    let mut sources = Vec::new(alloc);
    for _ in 0..3 {
        let mut deals = Vec::new(alloc);
        for _ in 0..hands {
            deals.push(deal(rt, 0))?;
        }
        sources.push(Source::Listed(deals))?;
    }
    config(rt, alloc, hands, sources)
}

/// A match of two hands by three nodes, all of which have the same two deals.
pub(crate) fn two_hands(rt: &impl Abort, alloc: Global) -> Result<Config, AllocError> {
    let mut sources = Vec::new(alloc);
    for _ in 0..3 {
        let deals = vec![in alloc; deal(rt, 0), deal(rt, 1)]?;
        sources.push(Source::Listed(deals))?;
    }
    config(rt, alloc, 2, sources)
}

/// A match of two hands by so many nodes, at most six, each of which has two deals of its own.
pub(crate) fn own_deals(
    rt: &impl Abort,
    alloc: Global,
    nodes: usize,
) -> Result<Config, AllocError> {
    let mut sources = Vec::new(alloc);
    for node in 0..nodes {
        let deals = vec![in alloc; deal(rt, node), deal(rt, node.saturating_add(1))]?;
        sources.push(Source::Listed(deals))?;
    }
    config(rt, alloc, 2, sources)
}

// What `assert_eq!` and a printed number make is proved anew wherever they stand, so they stand in the functions below.

/// The two are equal; where they aren't, both are printed.
pub(crate) fn assert_same<T: Copy + PartialEq + Debug>(rt: &impl Abort, found: T, due: T) {
    assert_eq!(rt; found, due);
}

/// The same of bytes.
pub(crate) fn assert_bytes(rt: &impl Abort, found: &[u8], due: &[u8]) {
    assert_eq!(rt; found, due);
}

/// The same of bytes in the match of this number.
pub(crate) fn assert_bytes_of(rt: &impl Abort, number: u64, found: &[u8], due: &[u8]) {
    assert_eq!(rt; found, due, "number {number}");
}

/// Sees that a condition holds.
pub(crate) fn assert_that(rt: &impl Abort, asked: &str, holds: bool) {
    assert!(rt; holds, "{asked}");
}

/// As `assert!`, for whatever nothing behind it rests on: that is dear to prove wherever it stands.
macro_rules! holds {
    ($rt:expr; $condition:expr) => {
        $crate::samples::assert_that($rt, stringify!($condition), $condition)
    };
}

pub(crate) use holds;

/// This holds of the match of this number.
pub(crate) fn assert_holds(rt: &impl Abort, number: u64, holds: bool) {
    assert!(rt; holds, "number {number}");
}
