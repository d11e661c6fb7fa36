//! The call of an order that the player to act is played for: what a node that runs does then.

ghost use Rattle.std.specs.Prelude.{◌≡◌, ℕ, ◌≤◌, Ok, Some, IsTrue, IsErr};
ghost use Rattle.paxos_wire.specs.declared.limits.TheConstants.{WINDOW};
ghost use Rattle.seat_session.specs.declared.said.Said.TheVariants.{Act as SaidAct};
ghost use Rattle.node_rules.specs.Standings.{Standing};
ghost use Rattle.node_rules.specs.Turns.{and_then};
ghost use Rattle.node_rules.specs.Calls.{Away};
ghost use Rattle.node_rules.specs.Seats.{away_at, ordering};
ghost use Rattle.node_rules.specs.Proposing.{closing};
ghost use Rattle.dealer_node.specs.Outs.{told_by, nothing_told};
ghost use Rattle.dealer_node.specs.Members.{place_at};
ghost use Rattle.dealer_node.specs.Hearing.{IsForwardable};
ghost use Rattle.dealer_node.specs.Running.{IsAt};
ghost use Rattle.dealer_node.specs.Handling.{IsWithin, AnswersUp};
ghost use Rattle.dealer_node.specs.Calling.{away_need};
ghost use Rattle.dealer_node.specs.Most.{most_after, most_applied, ShowsWithin};

use crate::fault::NodeFault;
use crate::limits::FRAMES_OF_A_CLOSE;
use crate::made::{Made, Need};
use crate::member::Member;
use crate::rooms::{Lists, Rooms};
use crate::running::Running;
use crate::up::Up;
use promise_store::Disk;
use slot_log::Command;
use slot_log::laws::away_is_legal;
use std::alloc::Global;

/// What an order makes at most: the frame with which it goes on, and what the close of the call makes, which proposes no more
/// commands than so many.
fn away_need(running: &Running, most: usize) -> Need
    requires { most ≤ WINDOW }
    ensures { result ≡ away_need running.now most }
{
    running.need(most, FRAMES_OF_A_CLOSE * most + 1)
}

impl<D: Disk + Drop> Up<D> {
    ghost use Rattle.dealer_node.specs.Working.{IsUp, Works, GoesOn, EndsPart};
    ghost use Rattle.dealer_node.specs.Calling.{CanClose, HandlesCall};

    /// Takes an order that means this, into room that was made, and closes the call.
    fn play_for(
        &mut self,
        member: &Member,
        act: &Command,
        lists: &mut Lists,
        made: &mut Made,
    ) -> Result<(), NodeFault>
        requires at { IsAt member.now self.old.running }
        requires act { IsForwardable (Ok (SaidAct act.now)) }
        requires room { (most : ℕ) × CanClose self.old made.old (away_need self.old.running) most }
        ensures works { (s : Standing) → IsTrue D.is_honest → IsUp D.Disk member.now self.old s → away_at (place_at member.now) s ≡ Some act.now
            → Works D.Disk member.now s (and_then (ordering (place_at member.now) s) (closing (place_at member.now))) self.old self.new (told_by made.old) (told_by made.new) result }
        ensures ends { EndsPart D.Disk self.old self.new result }
        ensures at { IsAt member.now self.new.running }
        ensures within { (most : ℕ) → CanClose self.old made.old (away_need self.old.running) most → told_by made.old ≡ nothing_told → IsWithin made.new (away_need self.old.running most) }
    {
        let promised = self.acceptor.promised();
        self.running.play_for(member, promised, act, made);
        self.close_call(member, lists, made)
    }

    /// Lets the command that plays for the player to act wait where nothing does, hands it on, and closes the call; 96
    /// where no hand runs, before any growth. What it makes goes to `out` at the end, where it didn't fail.
    pub(crate) fn on_away(
        &mut self,
        alloc: Global,
        member: &Member,
        rooms: &mut Rooms,
        out: &mut Made,
    ) -> Result<(), NodeFault>
        requires { IsAt member.now self.old.running }
        ensures handles { (s : Standing) → IsTrue D.is_honest → IsUp D.Disk member.now self.old s
            → HandlesCall D.Disk member.now s Away self.old self.new (told_by out.old) (told_by out.new) result }
        ensures goes_on { GoesOn D.Disk self.old self.new result }
        ensures answers { AnswersUp self.old self.new result }
        ensures at { IsAt member.now self.new.running }
        ensures unmade { IsErr result → told_by out.new ≡ told_by out.old }
        ensures shows { ShowsWithin (most_after (most_applied self.old.running)) (told_by out.old) (told_by out.new) }
    {
        away_is_legal();
        self.running.table.limits();
        let Some(act) = self.running.table.away() else {
            return Err(NodeFault::NothingToAct);
        };
        let most = self.running.most_proposed();
        let need = away_need(&self.running, most);
        let mut made = self.ready(alloc, rooms.made.take(), 1, most, &need, out)?;
        self.play_for(member, &act, &mut rooms.lists, &mut made)?;
        out.append(&mut made);
        rooms.made = Some(made);
        Ok(())
    }
}
