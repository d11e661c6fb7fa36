//! A tick: a node begins a ballot.

ghost use Rattle.std.specs.Prelude.{◌≡◌, ℕ, ◌+◌, ◌*◌, false, IsTrue};
ghost use Rattle.paxos_wire.specs.Fits.{Fits, IsBallot};
ghost use Rattle.paxos_wire.specs.declared.limits.TheConstants.{MOST_SINGLE_FRAME};
ghost use Rattle.paxos_wire.specs.declared.ballot.Ballot.{Ballot as Number};
ghost use Rattle.proposer.specs.Campaigns.{next_ballot};
ghost use Rattle.acceptor.specs.declared.answers.PrepareAnswer.TheVariants.{Promise as Promising};
ghost use Rattle.node_rules.specs.Standings.{Standing, front_of};
ghost use Rattle.node_rules.specs.Turns.{and_then};
ghost use Rattle.protocol_model.specs.Votes.{told_by as told_by_store};
ghost use Rattle.node_rules.specs.Proposing.{higher, is_over, beginning, ticking, closing};
ghost use Rattle.dealer_node.specs.Members.{place_at};
ghost use Rattle.dealer_node.specs.Outs.{told_by};
ghost use Rattle.dealer_node.specs.declared.limits.TheConstants.{FRAMES_TO_ALL};
ghost use Rattle.dealer_node.specs.Rooms.{HasSpace, Grows};
ghost use Rattle.dealer_node.specs.Answering.{message_of};
ghost use Rattle.dealer_node.specs.Running.{IsRunning, IsTaken, IsAt, is_spent_at};
ghost use Rattle.dealer_node.specs.declared.made.Need.{Need as Needs};
ghost use Rattle.dealer_node.specs.Working.{HasLeft};

use crate::fault::NodeFault;
use crate::made::Made;
use crate::member::Member;
use crate::running::Running;
use crate::seen_ballot::higher;
use crate::up::Up;
use acceptor::PrepareAnswer;
use paxos_wire::Ballot;
use promise_store::Disk;

/// The node's ballot of the round after all that it has seen, that of the ballot that the store has promised among them.
fn next_ballot(running: &Running, member: &Member, promised: Ballot) -> Ballot
    requires { is_spent_at running.now promised ≡ false }
    ensures value { result ≡ next_ballot member.now.node (higher running.now.seen promised) }
    ensures ballot { IsBallot result }
{
    let _nodes = member.nodes();
    let seen = higher(running.seen, promised);
    Ballot {
        round: seen.round + 1,
        node: member.node(),
    }
}

/// Begins the ballot in memory, where the store has promised it.
fn begin_promised(
    running: &mut Running,
    member: &Member,
    promised: Ballot,
    answer: &PrepareAnswer,
    made: &mut Made,
)
    requires at { IsAt member.now running.old }
    requires unspent { is_spent_at running.old promised ≡ false }
    requires told { Fits (message_of answer.now) }
    requires space { HasSpace made.old.frames member.now.nodes (MOST_SINGLE_FRAME * member.now.nodes) }
    ensures taken { (s : Standing) (ballot : Number) (slot : ℕ) → IsRunning member.now running.old s → answer.now ≡ Promising ballot slot (told_by_store s.store (front_of s))
        → IsTaken member.now running.new (told_by made.old) (told_by made.new) (beginning (place_at member.now) (next_ballot member.now.node (higher running.old.seen promised)) s) }
    ensures at { IsAt member.now running.new }
    ensures frames { Grows made.old.frames made.new.frames member.now.nodes (MOST_SINGLE_FRAME * member.now.nodes) }
    ensures rest { made.new ≡ record made.old { frames = made.new.frames } }
    ensures same { running.new ≡ record running.old { proposer = running.new.proposer } }
{
    match answer {
        PrepareAnswer::Promise { entries, .. } => {
            running.begin_ballot(member, promised, entries, made);
        }
        PrepareAnswer::Refuse { .. } => return,
    }
}

impl<D: Disk + Drop> Up<D> {
    ghost use Rattle.dealer_node.specs.Working.{IsUp, Works, EndsPart};

    /// Begins the node's ballot of the round after all that it has seen: the store promises it, and the others are asked to.
    pub(crate) fn begin(
        &mut self,
        member: &Member,
        promised: Ballot,
        made: &mut Made,
    ) -> Result<(), NodeFault>
        requires at { IsAt member.now self.old.running }
        requires unspent { is_spent_at self.old.running promised ≡ false }
        requires space { HasSpace made.old.frames FRAMES_TO_ALL (MOST_SINGLE_FRAME * FRAMES_TO_ALL) }
        ensures works { (s : Standing) → IsTrue D.is_honest → IsUp D.Disk member.now self.old s → promised ≡ s.store.promise → is_over (place_at member.now) s ≡ false
            → Works D.Disk member.now s (and_then (ticking (place_at member.now) s) (closing (place_at member.now))) self.old self.new (told_by made.old) (told_by made.new) result }
        ensures ends { EndsPart D.Disk self.old self.new result }
        ensures at { IsAt member.now self.new.running }
        ensures left { (need : Needs) (answers commands frames : ℕ) → HasLeft self.old.running made.old need answers commands (frames + FRAMES_TO_ALL) → HasLeft self.new.running made.new need answers commands frames }
    {
        member.limits();
        let _nodes = member.nodes();
        let ballot = next_ballot(&self.running, member, promised);
        let slot = self.running.front();
        match self.acceptor.on_prepare(ballot, slot) {
            Ok(answer) => {
                begin_promised(&mut self.running, member, promised, &answer, made);
                Ok(())
            }
            Err(fault) => Err(NodeFault::Store(fault)),
        }
    }
}
