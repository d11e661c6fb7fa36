//! The call of a tick: what a node that runs does then.

ghost use Rattle.std.specs.Prelude.{◌≡◌, ℕ, ◌≤◌, false, IsTrue, IsErr};
ghost use Rattle.paxos_wire.specs.declared.limits.TheConstants.{WINDOW};
ghost use Rattle.node_rules.specs.Standings.{Standing};
ghost use Rattle.node_rules.specs.Turns.{and_then};
ghost use Rattle.node_rules.specs.Calls.{Tick};
ghost use Rattle.node_rules.specs.Proposing.{is_over, ticking, closing};
ghost use Rattle.dealer_node.specs.Outs.{told_by, nothing_told};
ghost use Rattle.dealer_node.specs.Members.{place_at};
ghost use Rattle.dealer_node.specs.Running.{IsAt, is_spent_at};
ghost use Rattle.dealer_node.specs.Handling.{IsWithin, AnswersUp};
ghost use Rattle.dealer_node.specs.Calling.{close_need};
ghost use Rattle.dealer_node.specs.Most.{most_after, most_applied, ShowsWithin};

use crate::fault::NodeFault;
use crate::limits::FRAMES_OF_A_CLOSE;
use crate::made::{Made, Need};
use crate::member::Member;
use crate::rooms::{Lists, Rooms};
use crate::running::Running;
use crate::up::Up;
use paxos_wire::Ballot;
use promise_store::Disk;
use std::alloc::Global;

/// What the close of a call makes at most that proposes no more commands than so many, and as much what a tick does.
fn close_need(running: &Running, most: usize) -> Need
    requires { most ≤ WINDOW }
    ensures { result ≡ close_need running.now most }
{
    running.need(most, FRAMES_OF_A_CLOSE * most)
}

impl<D: Disk + Drop> Up<D> {
    ghost use Rattle.dealer_node.specs.Working.{IsUp, Works, GoesOn, EndsPart};
    ghost use Rattle.dealer_node.specs.Calling.{CanClose, HandlesCall};

    /// Begins a ballot, into room that was made, unless the match is over.
    fn tick(
        &mut self,
        member: &Member,
        promised: Ballot,
        over: bool,
        lists: &mut Lists,
        made: &mut Made,
    ) -> Result<(), NodeFault>
        requires at { IsAt member.now self.old.running }
        requires unspent { over ≡ false → is_spent_at self.old.running promised ≡ false }
        requires room { (most : ℕ) × CanClose self.old made.old (close_need self.old.running) most }
        ensures works { (s : Standing) → IsTrue D.is_honest → IsUp D.Disk member.now self.old s → promised ≡ s.store.promise → over ≡ is_over (place_at member.now) s
            → Works D.Disk member.now s (and_then (ticking (place_at member.now) s) (closing (place_at member.now))) self.old self.new (told_by made.old) (told_by made.new) result }
        ensures ends { EndsPart D.Disk self.old self.new result }
        ensures at { IsAt member.now self.new.running }
        ensures within { (most : ℕ) → CanClose self.old made.old (close_need self.old.running) most → told_by made.old ≡ nothing_told → IsWithin made.new (close_need self.old.running most) }
    {
        if over {
            self.close_call(member, lists, made)
        } else {
            self.begin(member, promised, made)
        }
    }

    /// Begins a ballot above all that the node has seen, unless the match is over. What it makes goes to `out` at the
    /// end, where it didn't fail.
    pub(crate) fn on_tick(
        &mut self,
        alloc: Global,
        member: &Member,
        rooms: &mut Rooms,
        out: &mut Made,
    ) -> Result<(), NodeFault>
        requires { IsAt member.now self.old.running }
        ensures handles { (s : Standing) → IsTrue D.is_honest → IsUp D.Disk member.now self.old s
            → HandlesCall D.Disk member.now s Tick self.old self.new (told_by out.old) (told_by out.new) result }
        ensures goes_on { GoesOn D.Disk self.old self.new result }
        ensures answers { AnswersUp self.old self.new result }
        ensures at { IsAt member.now self.new.running }
        ensures unmade { IsErr result → told_by out.new ≡ told_by out.old }
        ensures shows { ShowsWithin (most_after (most_applied self.old.running)) (told_by out.old) (told_by out.new) }
    {
        let promised = self.acceptor.promised();
        let over = self.running.is_over();
        if !over && self.running.is_spent(promised) {
            return Err(NodeFault::Spent);
        }
        let most = self.running.most_proposed();
        let need = close_need(&self.running, most);
        let mut made = self.ready(alloc, rooms.made.take(), 1, most, &need, out)?;
        self.tick(member, promised, over, &mut rooms.lists, &mut made)?;
        out.append(&mut made);
        rooms.made = Some(made);
        Ok(())
    }
}
