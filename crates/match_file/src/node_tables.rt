ghost use Rattle.std.specs.Prelude.{◌≡◌, ◌≤◌, ◌↔◌, IsTrue, Some, map, MatchOption, MatchResult, length, codes};
ghost use Rattle.toml.specs.Data.{get, array};
ghost use Rattle.toml.specs.View.{view, array_view};
ghost use Rattle.dealer_kind.specs.Plans.{HasNodes};
ghost use Rattle.match_file.specs.Matches.{SaysSources};
ghost use Rattle.match_file.specs.Said.{IsAbsent, EachSays, SaysSource, SaysDeals, SaysDeal};
ghost use Rattle.match_file.specs.Refusals.{IsToldOf};
ghost use Rattle.match_file.specs.declared.key.Key.TheVariants.{Node};

use crate::entries::{array_at, array_of, number_of, text_of};
use crate::key::Key;
use crate::match_fault::MatchFault;
use crate::match_file::MatchFile;
use card_core::Deal;
use dealer_kind::Source;
use matchstate::read_deal;
use std::alloc::Global;
use toml::Value;

/// What is told of a wrong node.
const WRONG: MatchFault = MatchFault::BadEntry(Key::Node);

impl MatchFile {
    ghost use Rattle.match_file.specs.MatchFile.{members};

    /// Where the nodes' deals come from, three nodes, five or seven, for 2 to 10 players and so many hands.
    pub(crate) fn sources(
        &self,
        alloc: Global,
        players: usize,
        hands: u32,
    ) -> Result<Vec<Source>, MatchFault>
        requires least { 2 ≤ players }
        requires most { players ≤ 10 }
        ensures { MatchResult result (λ sources. SaysSources players hands (members self.now) sources.items) (IsToldOf Node (IsAbsent (SaysSources players hands (members self.now)))) }
    {
        match array_at(&self.table, Key::Node) {
            Some(values) if are_nodes(values.len()) => sources_of(alloc, values, players, hands),
            _ => Err(WRONG),
        }
    }
}

/// Whether so many nodes can deal a match: three, five or seven.
fn are_nodes(count: usize) -> bool
    ensures { IsTrue result ↔ HasNodes count }
{
    matches!(count, 3 | 5 | 7)
}

/// The sources that tables say.
fn sources_of(
    alloc: Global,
    values: &[Value],
    players: usize,
    hands: u32,
) -> Result<Vec<Source>, MatchFault>
    requires least { 2 ≤ players }
    requires most { players ≤ 10 }
    ensures { MatchResult result (λ sources. EachSays (SaysSource players hands) (map view values.now) sources.items) (IsToldOf Node (IsAbsent (EachSays (SaysSource players hands) (map view values.now)))) }
{
    let mut sources = Vec::new(alloc);
    for value in values {
        let source = source_of(alloc, value, players, hands)?;
        sources.push(source)?;
    }
    Ok(sources)
}

/// The source that a table says: a seed, or a list of deals.
fn source_of(alloc: Global, value: &Value, players: usize, hands: u32) -> Result<Source, MatchFault>
    requires least { 2 ≤ players }
    requires most { players ≤ 10 }
    ensures { MatchResult result (SaysSource players hands (view value.now)) (IsToldOf Node (IsAbsent (SaysSource players hands (view value.now)))) }
{
    match (value.get("seed"), value.get("deals")) {
        (Some(seed), None) => match number_of(seed) {
            Some(seed) => Ok(Source::Seed(seed)),
            None => Err(WRONG),
        },
        (None, Some(deals)) => Ok(Source::Listed(listed(alloc, deals, players, hands)?)),
        _ => Err(WRONG),
    }
}

/// The deals of an array, at least one for each hand.
fn listed(alloc: Global, value: &Value, players: usize, hands: u32) -> Result<Vec<Deal>, MatchFault>
    requires least { 2 ≤ players }
    requires most { players ≤ 10 }
    ensures { MatchResult result (λ deals. SaysDeals players hands (Some (view value.now)) deals.items) (IsToldOf Node (IsAbsent (SaysDeals players hands (Some (view value.now))))) }
{
    match array_of(value) {
        Some(texts) if texts.len() >= hands as usize => deals_of(alloc, texts, players),
        _ => Err(WRONG),
    }
}

/// The deals that texts say.
fn deals_of(alloc: Global, values: &[Value], players: usize) -> Result<Vec<Deal>, MatchFault>
    requires least { 2 ≤ players }
    requires most { players ≤ 10 }
    ensures { MatchResult result (λ deals. EachSays (SaysDeal players) (map view values.now) deals.items) (IsToldOf Node (IsAbsent (EachSays (SaysDeal players) (map view values.now)))) }
{
    let mut deals = Vec::new(alloc);
    for value in values {
        match deal_of(value, players) {
            Some(deal) => deals.push(deal)?,
            None => return Err(WRONG),
        }
    }
    Ok(deals)
}

/// The deal that a text says.
fn deal_of(value: &Value, players: usize) -> Option<Deal>
    requires least { 2 ≤ players }
    requires most { players ≤ 10 }
    ensures { MatchOption result (IsAbsent (SaysDeal players (view value.now))) (SaysDeal players (view value.now)) }
{
    match text_of(value) {
        Some(text) => read_deal(text.as_bytes(), players),
        None => None,
    }
}
