ghost use Rattle.std.specs.Prelude.{◌≡◌, ◌≤◌, ◌↔◌, IsTrue, OnSome};
ghost use Rattle.card_core.specs.Deal.{IsDeal};
ghost use Rattle.dealer_kind.specs.Sources.{deal_of, HasDeals};

use card_core::Deal;
use deck_draw::draw;

/// Where a node's own deals come from: each node has its own deal for each hand.
#[derive(Debug, Drop)]
pub enum Source {
    /// They are drawn from this seed, each at the stream of its hand's number.
    Seed(u64),
    /// They are listed, the first hand's first; each for the players of the match, and at least one for each hand.
    Listed(Vec<Deal>),
}

impl Source {
    /// The node's own deal of a hand, counted from 0, for `players` players (2 to 10); none where the list has
    /// no deal for the hand.
    pub fn deal(&self, hand: u32, players: usize) -> Option<Deal>
        requires least { 2 ≤ players }
        requires most { players ≤ 10 }
        ensures { result ≡ deal_of players self.now hand }
    {
        match self {
            Source::Seed(seed) => Some(draw(*seed, hand, players)),
            Source::Listed(deals) => deals.get(hand as usize).copied(),
        }
    }

    /// Whether it has deals for `players` players, one for each of so many hands.
    pub fn has_deals(&self, players: usize, hands: u32) -> bool
        ensures { IsTrue result ↔ HasDeals players hands self.now }
    {
        match self {
            Source::Seed(_) => true,
            Source::Listed(deals) => {
                deals.len() >= hands as usize && deals.iter().all(|deal| is_for(deal, players))
            }
        }
    }
}

/// Whether a deal is for so many players.
fn is_for(deal: &Deal, players: usize) -> bool
    ensures { IsTrue result ↔ IsDeal players deal.now }
{
    let _cards = deal.cards();
    deal.players() == players
}
