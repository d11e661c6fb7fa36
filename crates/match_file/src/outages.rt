ghost use Rattle.std.specs.Prelude.{◌≡◌, ◌↔◌, ◌≤◌, ◌<◌, ◌*◌, Some, None, IsTrue, map, MatchOption, MatchResult, length, codes, option_map};
ghost use Rattle.std.specs.List.{All};
ghost use Rattle.dealer_kind.specs.Plans.{HasNodes};
ghost use Rattle.toml.specs.Data.{get};
ghost use Rattle.toml.specs.View.{view};
ghost use Rattle.match_file.specs.Outages.{is_node_out as is_one_out, out_at as nodes_out, LeaveMost};
ghost use Rattle.match_file.specs.Matches.{entry_at, ListsOutages, SaysOutages};
ghost use Rattle.match_file.specs.Said.{IsAbsent, EachSays, SaysOutage, SaysBack};
ghost use Rattle.match_file.specs.Refusals.{IsToldOf};
ghost use Rattle.match_file.specs.declared.key.Key.TheVariants.{Outage as OutageKey};

use crate::entries::{array_of, at, number_of};
use crate::key::Key;
use crate::match_fault::MatchFault;
use crate::match_file::MatchFile;
use crate::outage::Outage;
use dealer_kind::laws::nodes_are_few_and_odd;
use std::alloc::Global;
use toml::Value;

/// What is told of wrong outages.
const WRONG: MatchFault = MatchFault::BadEntry(Key::Outage);

impl MatchFile {
    ghost use Rattle.match_file.specs.MatchFile.{members};

    /// When which of so many nodes are out: at no count half of them or more.
    pub(crate) fn outages(&self, alloc: Global, nodes: usize) -> Result<Vec<Outage>, MatchFault>
        requires { HasNodes nodes }
        ensures { MatchResult result (λ outages. SaysOutages nodes (members self.now) outages.items) (IsToldOf OutageKey (IsAbsent (SaysOutages nodes (members self.now)))) }
    {
        let outages = self.listed_outages(alloc, nodes)?;
        if leave_most(&outages, nodes) {
            Ok(outages)
        } else {
            Err(WRONG)
        }
    }

    /// The outages that are listed, none where there is no entry.
    fn listed_outages(&self, alloc: Global, nodes: usize) -> Result<Vec<Outage>, MatchFault>
        ensures { MatchResult result (λ outages. ListsOutages nodes (entry_at OutageKey (members self.now)) outages.items) (IsToldOf OutageKey (IsAbsent (ListsOutages nodes (entry_at OutageKey (members self.now))))) }
    {
        match at(&self.table, Key::Outage) {
            Some(value) => match array_of(value) {
                Some(values) => outages_of(alloc, values, nodes),
                None => Err(WRONG),
            },
            None => Ok(Vec::new(alloc)),
        }
    }
}

/// The outages that tables say.
fn outages_of(alloc: Global, values: &[Value], nodes: usize) -> Result<Vec<Outage>, MatchFault>
    ensures { MatchResult result (λ outages. EachSays (SaysOutage nodes) (map view values.now) outages.items) (IsToldOf OutageKey (IsAbsent (EachSays (SaysOutage nodes) (map view values.now)))) }
{
    let mut outages = Vec::new(alloc);
    for value in values {
        match outage_of(value, nodes) {
            Some(outage) => outages.push(outage)?,
            None => return Err(WRONG),
        }
    }
    Ok(outages)
}

/// The outage of one of so many nodes that a table says.
fn outage_of(value: &Value, nodes: usize) -> Option<Outage>
    ensures { MatchOption result (IsAbsent (SaysOutage nodes (view value.now))) (SaysOutage nodes (view value.now)) }
{
    let node = number_of(value.get("node")?)?;
    let at = number_of(value.get("at")?)?;
    let back = match value.get("back") {
        Some(back) => Some(number_of(back)?),
        None => None,
    };
    if node < nodes as u64 && back.is_none_or(|back| at < back) {
        let node = node as usize;
        Some(Outage { node, at, back })
    } else {
        None
    }
}

/// Whether at each count fewer than half of so many nodes are out. Nodes only go out where an outage begins, so
/// these counts are enough.
fn leave_most(outages: &[Outage], nodes: usize) -> bool
    requires { HasNodes nodes }
    ensures { IsTrue result ↔ LeaveMost nodes outages.now }
{
    nodes_are_few_and_odd();
    leave_most_at_starts(outages, nodes)
}

/// Whether fewer than half of so many nodes are out where an outage begins.
fn leave_most_at_starts(outages: &[Outage], nodes: usize) -> bool
    requires { HasNodes nodes }
    ensures { IsTrue result ↔ All (λ outage. 2 * nodes_out outages.now outage.at nodes < nodes) outages.now }
{
    outages
        .iter()
        .all(|outage| leave_most_at(outages, outage.at, nodes))
}

/// Whether fewer than half of so many nodes are out when so many commands are applied.
fn leave_most_at(outages: &[Outage], count: u64, nodes: usize) -> bool
    requires { HasNodes nodes }
    ensures { IsTrue result ↔ (2 * nodes_out outages.now count nodes < nodes) }
{
    2 * out_at(outages, count, nodes) < nodes
}

/// How many of so many nodes are out when so many commands are applied.
fn out_at(outages: &[Outage], count: u64, nodes: usize) -> usize
    ensures value { result ≡ nodes_out outages.now count nodes }
    ensures most { result ≤ nodes }
{
    let mut out = 0;
    for node in 0..nodes {
        if is_node_out(outages, count, node) {
            out += 1;
        }
    }
    out
}

/// Whether some outage keeps a node out when so many commands are applied.
fn is_node_out(outages: &[Outage], count: u64, node: usize) -> bool
    ensures { result ≡ is_one_out outages.now count node }
{
    outages.iter().any(|outage| outage.keeps_out(node, count))
}
