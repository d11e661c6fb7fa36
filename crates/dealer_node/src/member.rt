ghost use Rattle.std.specs.Prelude.{◌≡◌, ℕ, ◌<◌, ◌≤◌, length, slice_get, IfOk};
ghost use Rattle.paxos_wire.specs.declared.limits.TheConstants.{NODES};
ghost use Rattle.node_rules.specs.Standings.{deals_from};
ghost use Rattle.dealer_kind.specs.Sources.{HasDeals, deal_of};
ghost use Rattle.match_log.specs.Names.{IsName, IsGameWord};
ghost use Rattle.dealer_node.specs.Members.{IsMember};

use card_core::Deal;
use dealer_kind::{Config, Source};
use game_def::GameDef;
use match_log::{Name, SeatNames};
use std::alloc::{AllocError, Global};
use std::marker::Model;

/// Which node of which match a node is: what all nodes share, where its own deals come from, how many nodes there are,
/// and its number.
pub(crate) struct Member {
    game: GameDef,
    name: Name,
    game_word: Vec<u8>,
    names: SeatNames,
    hands: u32,
    source: Source,
    nodes: u8,
    node: u8,
}

/// By hand, so that letting one go is one call for whoever owns it (docs/ARCHITECTURE.md, Habits).
impl Drop for Member {
    fn drop(self) {
        let Member {
            game: _,
            name: _,
            game_word: _,
            names: _,
            hands: _,
            source: _,
            nodes: _,
            node: _,
        } = self;
    }
}

impl Model for Member {
    ghost use Rattle.dealer_node.specs.Members.{Membership};

    ghost Value = { Membership };

    ghost use Rattle.dealer_node.specs.MemberInside.{IsKept, member_of};

    ghost view = { member_of };

    ghost invariant = { IsKept };
}

/// A source of the same deals.
fn copied(alloc: Global, source: &Source) -> Result<Source, AllocError>
    ensures deals { IfOk result (λ copy. (players hand : ℕ) → deal_of players copy hand ≡ deal_of players source.now hand) }
    ensures kept { IfOk result (λ copy. (players hands : ℕ) → HasDeals players hands source.now → HasDeals players hands copy) }
{
    match source {
        Source::Seed(seed) => Ok(Source::Seed(*seed)),
        Source::Listed(deals) => Ok(Source::Listed(Vec::from_slice(alloc, deals)?)),
    }
}

impl Member {
    /// The member that a node, counted from 0, is in the match of a config. An `Err` comes only where memory was refused.
    pub(crate) fn new(alloc: Global, config: &Config, node: usize) -> Result<Member, AllocError>
        requires { node < length config.now.sources }
        ensures setting { IfOk result (λ member. member.setting ≡ config.now.setting) }
        ensures nodes { IfOk result (λ member. member.nodes ≡ length config.now.sources) }
        ensures node { IfOk result (λ member. member.node ≡ node) }
        ensures deals { IfOk result (λ member. (hand : ℕ) → deal_of config.now.setting.game.players member.source hand ≡ deals_from config.now.setting.game.players (slice_get config.now.sources node) hand) }
    {
        config.limits();
        let source = copied(alloc, config.source(node))?;
        let game_word = Vec::from_slice(alloc, config.game_word())?;
        Ok(Member {
            game: *config.game(),
            name: *config.name(),
            game_word,
            names: *config.names(),
            hands: config.hands(),
            source,
            nodes: config.nodes() as u8,
            node: node as u8,
        })
    }

    /// What holds of every member: the match is within its limits, and the node is one of its nodes.
    pub(crate) fn limits(&self)
        ensures { IsMember self.now }
    {
        let _ = &self.node;
    }

    /// The game.
    pub(crate) fn game(&self) -> &GameDef
        ensures { result.now ≡ self.now.setting.game }
    {
        &self.game
    }

    /// The name of the match.
    pub(crate) fn name(&self) -> &Name
        ensures { result.now ≡ self.now.setting.title.name }
    {
        &self.name
    }

    /// What the log's header says of the game.
    pub(crate) fn game_word(&self) -> &[u8]
        ensures { result.now ≡ self.now.setting.title.game }
    {
        &self.game_word
    }

    /// The seats' names, one for each.
    pub(crate) fn names(&self) -> &SeatNames
        ensures value { result.now ≡ self.now.setting.names }
        ensures one_each { length result.now ≡ self.now.setting.game.players }
    {
        &self.names
    }

    /// How many hands the match has, 1 to 10000.
    pub(crate) fn hands(&self) -> u32
        ensures value { result ≡ self.now.setting.title.hands }
        ensures least { 1 ≤ result }
        ensures most { result ≤ 10000 }
    {
        self.hands
    }

    /// How many nodes there are.
    pub(crate) fn nodes(&self) -> u8
        ensures value { result ≡ self.now.nodes }
        ensures least { 3 ≤ result }
        ensures most { result ≤ NODES }
    {
        self.nodes
    }

    /// The node's number, counted from 0.
    pub(crate) fn node(&self) -> u8
        ensures value { result ≡ self.now.node }
        ensures within { result < self.now.nodes }
    {
        self.node
    }

    /// The node's own deal of a hand, counted from 0; none where it has none.
    pub(crate) fn deal(&self, hand: u32) -> Option<Deal>
        ensures { result ≡ deal_of self.now.setting.game.players self.now.source hand }
    {
        self.game.limits();
        self.source.deal(hand, self.game.players())
    }
}
