//! What a node that runs stores: promises and votes.

ghost use Rattle.std.specs.Prelude.{◌≡◌, ℕ, ◌+◌, ◌*◌, ◌≤◌, false, length, IsTrue, IfSome, Some, Ok};
ghost use Rattle.paxos_wire.specs.Fits.{IsBallot, IsSlot, IsCommandRun};
ghost use Rattle.paxos_wire.specs.declared.limits.TheConstants.{MOST_SINGLE_FRAME};
ghost use Rattle.paxos_wire.specs.Order.{is_below};
ghost use Rattle.proposer.specs.CommandRuns.{IsBounded};
ghost use Rattle.node_rules.specs.Standings.{Standing};
ghost use Rattle.node_rules.specs.Accepting.{preparing, accepting, voting};
ghost use Rattle.node_rules.specs.Proposing.{closing};
ghost use Rattle.dealer_node.specs.Rooms.{HasSpace};
ghost use Rattle.dealer_node.specs.Members.{Membership, place_at};
ghost use Rattle.dealer_node.specs.Outs.{told_by};
ghost use Rattle.dealer_node.specs.declared.limits.TheConstants.{FRAMES_TO_ALL, FRAMES_OF_A_CLOSE, FRAMES_OF_AN_ANSWER, FRAME_BYTES_OF_AN_ANSWER};
ghost use Rattle.dealer_node.specs.Running.{IsAt, CanLearn, proposed_by};
ghost use Rattle.dealer_node.specs.Working.{Spends};

use crate::answering::{accepted_commands, send_prepare_answer, send_refusal};
use crate::fault::NodeFault;
use crate::made::Made;
use crate::member::Member;
use crate::rooms::Lists;
use crate::up::Up;
use crate::voting::{Kind, send_commands};
use paxos_wire::{Ballot, CommandList};
use promise_store::Disk;
use proposer::AcceptRun;
use protocol_model::laws::command_runs_are_moves;
use slot_log::Command;

impl<D: Disk + Drop> Up<D> {
    ghost use Rattle.dealer_node.specs.Working.{IsUp, Works, Follows, store_room, HasCloseRoom, EndsPart};

    /// Answers a Prepare: a ballot above the one that was promised is promised, and the node leads no longer; any other
    /// is refused.
    pub(crate) fn prepare(
        &mut self,
        from: u8,
        ballot: Ballot,
        slot: u32,
        made: &mut Made,
    ) -> Result<(), NodeFault>
        requires ballot { IsBallot ballot }
        requires slot { IsSlot slot }
        requires space { HasSpace made.old.frames FRAMES_OF_AN_ANSWER FRAME_BYTES_OF_AN_ANSWER }
        ensures works { (member : Membership) → Follows D.Disk member (λ s. Ok (preparing from ballot slot s)) self.old self.new (told_by made.old) (told_by made.new) result }
        ensures ends { EndsPart D.Disk self.old self.new result }
        ensures at { (member : Membership) → IsAt member self.old.running → IsAt member self.new.running }
        ensures bounded { (most : ℕ) → IsBounded self.old.running.proposer most → IsBounded self.new.running.proposer most }
        ensures room { store_room self.old ≤ store_room self.new + 1 }
        ensures left { Spends self.old.running self.new.running made.old made.new 1 1 (FRAMES_OF_AN_ANSWER + FRAMES_TO_ALL) }
    {
        let _promised = self.acceptor.promised();
        match self.acceptor.on_prepare(ballot, slot) {
            Ok(answer) => {
                if send_prepare_answer(&mut made.frames, from, &answer) {
                    self.running.turn_idle();
                }
                Ok(())
            }
            Err(fault) => Err(NodeFault::Store(fault)),
        }
    }

    /// Stores votes for commands, the first for the slot and each further one for the slot behind, as far as they may be
    /// taken; tells the others what is stored, and counts that as the votes of any other node.
    fn vote(
        &mut self,
        member: &Member,
        ballot: Ballot,
        slot: u32,
        commands: &[Command],
        told: &mut CommandList,
        made: &mut Made,
    ) -> Result<(), NodeFault>
        requires at { IsAt member.now self.old.running }
        requires ballot { IsBallot ballot }
        requires run { IsCommandRun slot commands.now }
        requires store { length commands.now ≤ store_room self.old }
        requires learn { CanLearn self.old.running made.old 1 (length commands.now) }
        requires space { HasSpace made.old.frames FRAMES_TO_ALL (MOST_SINGLE_FRAME * (FRAMES_TO_ALL * length commands.now)) }
        ensures works { (s : Standing) → IsTrue D.is_honest → IsUp D.Disk member.now self.old s
            → is_below ballot s.store.promise ≡ false → IfSome s.campaign (λ campaign. campaign.ballot ≡ ballot)
            → Works D.Disk member.now s (voting (place_at member.now) ballot slot commands.now s) self.old self.new (told_by made.old) (told_by made.new) result }
        ensures ends { EndsPart D.Disk self.old self.new result }
        ensures at { IsAt member.now self.new.running }
        ensures proposer { self.new.running.proposer ≡ self.old.running.proposer }
        ensures room { store_room self.old ≤ store_room self.new + length commands.now }
        ensures left { Spends self.old.running self.new.running made.old made.new 1 (length commands.now) (FRAMES_TO_ALL * length commands.now) }
    {
        let _nodes = member.nodes();
        command_runs_are_moves();
        match self
            .acceptor
            .on_accept_run_reserved(ballot, slot, commands, told)
        {
            Ok(answer) => match accepted_commands(&answer) {
                Some(stored) => {
                    match self.running.tell_votes(member, ballot, slot, stored, made) {
                        Ok(()) => Ok(()),
                        Err(_) => Err(NodeFault::Conflict),
                    }
                }
                None => Ok(()),
            },
            Err(fault) => Err(NodeFault::Store(fault)),
        }
    }

    /// Takes a proposal of commands for slots that follow one another: one that isn't below the ballot that was promised is
    /// voted for, and the node leads no longer; any other is refused at its first slot.
    pub(crate) fn accept(
        &mut self,
        member: &Member,
        from: u8,
        ballot: Ballot,
        slot: u32,
        commands: &[Command],
        told: &mut CommandList,
        made: &mut Made,
    ) -> Result<(), NodeFault>
        requires at { IsAt member.now self.old.running }
        requires ballot { IsBallot ballot }
        requires run { IsCommandRun slot commands.now }
        requires store { length commands.now ≤ store_room self.old }
        requires learn { CanLearn self.old.running made.old 1 (length commands.now) }
        requires space { HasSpace made.old.frames FRAMES_OF_AN_ANSWER (MOST_SINGLE_FRAME * (FRAMES_OF_AN_ANSWER + FRAMES_TO_ALL * length commands.now)) }
        ensures works { Follows D.Disk member.now (accepting (place_at member.now) from ballot slot commands.now) self.old self.new (told_by made.old) (told_by made.new) result }
        ensures ends { EndsPart D.Disk self.old self.new result }
        ensures at { IsAt member.now self.new.running }
        ensures bounded { (most : ℕ) → IsBounded self.old.running.proposer most → IsBounded self.new.running.proposer most }
        ensures room { store_room self.old ≤ store_room self.new + length commands.now }
        ensures left { Spends self.old.running self.new.running made.old made.new 1 (length commands.now) (FRAMES_OF_AN_ANSWER + FRAMES_TO_ALL * length commands.now) }
    {
        let promised = self.acceptor.promised();
        if ballot.is_below(promised) {
            send_refusal(&mut made.frames, from, ballot, slot, promised);
            return Ok(());
        }
        self.running.turn_idle();
        self.vote(member, ballot, slot, commands, told, made)
    }

    /// Sends a proposal to the others, and votes for it: its votes are stored at once.
    fn propose(
        &mut self,
        member: &Member,
        proposal: &AcceptRun<'_>,
        told: &mut CommandList,
        made: &mut Made,
    ) -> Result<(), NodeFault>
        requires at { IsAt member.now self.old.running }
        requires ballot { IsBallot proposal.now.ballot }
        requires run { IsCommandRun proposal.now.slot proposal.now.commands }
        requires store { length proposal.now.commands ≤ store_room self.old }
        requires learn { CanLearn self.old.running made.old 1 (length proposal.now.commands) }
        requires space { HasSpace made.old.frames FRAMES_OF_A_CLOSE (MOST_SINGLE_FRAME * (FRAMES_OF_A_CLOSE * length proposal.now.commands)) }
        ensures works { (s : Standing) → IsTrue D.is_honest → IsUp D.Disk member.now self.old s → proposal.now.ballot ≡ s.store.promise
            → Works D.Disk member.now s (proposed_by (place_at member.now) (Some proposal.now) s) self.old self.new (told_by made.old) (told_by made.new) result }
        ensures ends { EndsPart D.Disk self.old self.new result }
        ensures at { IsAt member.now self.new.running }
        ensures left { Spends self.old.running self.new.running made.old made.new 1 (length proposal.now.commands) (FRAMES_OF_A_CLOSE * length proposal.now.commands) }
    {
        let commands = proposal.commands.as_slice();
        send_commands(
            &mut made.frames,
            member,
            Kind::Proposed,
            proposal.ballot,
            proposal.slot,
            commands,
        );
        self.vote(member, proposal.ballot, proposal.slot, commands, told, made)
    }

    /// The end of each call: a node that leads proposes from its front on, once at a slot in a ballot.
    pub(crate) fn close_call(
        &mut self,
        member: &Member,
        lists: &mut Lists,
        made: &mut Made,
    ) -> Result<(), NodeFault>
        requires at { IsAt member.now self.old.running }
        requires room { (most : ℕ) × HasCloseRoom self.old made.old most }
        ensures works { Follows D.Disk member.now (closing (place_at member.now)) self.old self.new (told_by made.old) (told_by made.new) result }
        ensures ends { EndsPart D.Disk self.old self.new result }
        ensures at { IsAt member.now self.new.running }
        ensures left { (most : ℕ) → IsBounded self.old.running.proposer most → Spends self.old.running self.new.running made.old made.new 1 most (FRAMES_OF_A_CLOSE * most) }
    {
        // The own deal is drawn only where something may be proposed.
        if !self.running.proposer.is_leading() {
            return Ok(());
        }
        match self.running.proposal(member, &mut lists.proposed) {
            Some(proposal) => self.propose(member, &proposal, &mut lists.told, made),
            None => Ok(()),
        }
    }
}
