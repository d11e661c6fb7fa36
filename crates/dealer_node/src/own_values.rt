ghost use Rattle.std.specs.Prelude.{◌≡◌, ◌&&◌, not, IfSome};
ghost use Rattle.paxos_wire.specs.Fits.{IsInRange};
ghost use Rattle.slot_log.specs.Dealer.{is_match_over, is_running};
ghost use Rattle.node_rules.specs.Standings.{Standing, applied};
ghost use Rattle.node_rules.specs.Proposing.{own_value};
ghost use Rattle.dealer_node.specs.Members.{place_at};
ghost use Rattle.dealer_node.specs.Scenes.{IsTableOf};

use crate::member::Member;
use slot_log::{Command, Table};

/// Whether a deal could fit: the match goes on, and no hand runs.
fn is_free(table: &Table) -> bool
    ensures { result ≡ (not (is_match_over table.now.game table.now.count table.now.hands) && not (is_running table.now.game table.now.hands)) }
{
    !table.over() && !table.running()
}

/// What a node would propose where it is free to: its own deal where it fits, and else the act that waits.
#[tactic(auto, using(crate::proofs::Own::own_waits))]
pub(crate) fn own_value(
    member: &Member,
    table: &Table,
    pending: &Option<Command>,
) -> Option<Command>
    ensures value { (s : Standing) → IsTableOf (place_at member.now).setting (applied s) table.now → pending.now ≡ s.pending → result ≡ own_value (place_at member.now) s }
    ensures range { IfSome pending.now (λ command. IsInRange command) → IfSome result (λ command. IsInRange command) }
{
    // A deal is drawn only where it could fit: drawing one is a deck's work.
    if !is_free(table) {
        return *pending;
    }
    let hand = table.finished();
    if let Some(deal) = member.deal(hand) {
        let dealing = Command::Deal { hand, deal };
        if table.fits(&dealing) {
            return Some(dealing);
        }
    }
    *pending
}
