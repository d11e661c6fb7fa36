use crate::asserting::{holds, same};
use crate::samples::{game, ten_ace};
use card_core::Deal;
use dealer_kind::{Config, Source};
use match_log::{Name, SeatNames};
use sample_games::L2;
use std::alloc::{AllocError, Global};
use std::process::Abort;
use std::test::Fail;

/// So many nodes: the first has one deal, the others draw theirs.
fn sources(alloc: Global, nodes: u64, deal: Deal) -> Result<Vec<Source>, AllocError> {
    let mut sources = Vec::new(alloc);
    sources.push(Source::Listed(vec![in alloc; deal]?))?;
    for seed in 1..nodes {
        sources.push(Source::Seed(seed))?;
    }
    Ok(sources)
}

/// A match of so many hands between alice and bob, by these nodes.
fn config(
    rt: &impl Abort,
    alloc: Global,
    hands: u32,
    sources: Vec<Source>,
) -> Result<Option<Config>, AllocError> {
    let name = Name::new(b"m").expect(rt, "a name");
    let names = SeatNames::read(b"alice|bob", 2).expect(rt, "names");
    let word = b"l2.game".to_vec(alloc)?;
    Ok(Config::new(game(rt, L2), name, word, names, hands, sources))
}

/// Sees a match of one hand, of so many nodes of which the first deals this, and nothing in a second hand.
fn is_one_hand(rt: &impl Abort, found: &Config, nodes: u64, deal: Deal) {
    assert_eq!(rt; found.nodes() as u64, nodes);
    same!(rt; found.hands(), 1);
    same!(rt; found.source(0).deal(0, 2), Some(deal));
    same!(rt; found.source(0).deal(1, 2), None);
    same!(rt; found.source(1).deal(0, 2), Some(deck_draw::draw(1, 0, 2)));
}

/// Sees whether so many hands are a match of so many nodes, the first of which has one deal.
fn is_match(
    rt: &impl Abort,
    alloc: Global,
    hands: u32,
    nodes: u64,
    wanted: bool,
) -> Result<(), AllocError> {
    let deal = ten_ace(rt);
    let found = config(rt, alloc, hands, sources(alloc, nodes, deal)?)?;
    holds!(rt; found.is_some() == wanted);
    if let Some(found) = &found {
        is_one_hand(rt, found, nodes, deal);
    }
    Ok(())
}

/// How many hands and nodes there are, and whether they are a match.
static MATCHES: [(u32, u64, bool); 11] = [
    (1, 3, true),
    (1, 5, true),
    (1, 7, true),
    (2, 3, false),
    (0, 3, false),
    (1, 1, false),
    (1, 2, false),
    (1, 4, false),
    (1, 6, false),
    (1, 8, false),
    (1, 9, false),
];

#[test]
fn a_match_has_three_five_or_seven_nodes_with_deals_for_each_hand(
    rt: HostRuntime,
) -> Result<(), Fail> {
    for &(hands, nodes, wanted) in &MATCHES {
        is_match(&rt, rt.alloc(), hands, nodes, wanted)?;
    }
    Ok(())
}
