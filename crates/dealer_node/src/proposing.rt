ghost use Rattle.std.specs.Prelude.{◌≡◌, ℕ, ◌*◌, ◌≤◌, ◌<◌, true, false, length, None, IfSome};
ghost use Rattle.std.specs.List.{AllByRecursion};
ghost use Rattle.paxos_wire.specs.Fits.{IsBallot, IsCommandRun, IsEntry};
ghost use Rattle.paxos_wire.specs.declared.limits.TheConstants.{SLOTS, MOST_SINGLE_FRAME};
ghost use Rattle.slot_log.specs.Slots.{front};
ghost use Rattle.proposer.specs.Campaigns.{next_ballot, counting, is_leading};
ghost use Rattle.proposer.specs.CommandRuns.{IsBounded};
ghost use Rattle.node_rules.specs.Standings.{Standing, idle, front_of};
ghost use Rattle.protocol_model.specs.Votes.{told_by as told_by_store};
ghost use Rattle.node_rules.specs.Proposing.{higher, is_over, beginning, counting_promise, hearing_refusal};
ghost use Rattle.dealer_node.specs.Members.{Membership, place_at};
ghost use Rattle.dealer_node.specs.Outs.{told_by};
ghost use Rattle.dealer_node.specs.Rooms.{HasSpace, Grows};
ghost use Rattle.dealer_node.specs.Running.{IsRunning, IsTaken, Closes, most_proposed, most_proposed_behind, IsBoundedBehind, IsAt, is_spent_at};

use crate::made::Made;
use crate::member::Member;
use crate::own_values::own_value;
use crate::running::Running;
use crate::seen_ballot::higher;
use crate::sending::send_to_others;
use paxos_wire::limits::{SLOTS, WINDOW};
use paxos_wire::{Ballot, CommandList, Entries, Message};
use proposer::AcceptRun;
use proposer::laws::command_runs_are_bounded;

impl Running {
    /// Whether the match is over.
    pub(crate) fn is_over(&self) -> bool
        ensures { (member : Membership) (s : Standing) → IsRunning member self.now s → result ≡ is_over (place_at member) s }
    {
        self.table.over()
    }

    /// Whether no round is above those seen, that of the ballot that the store has promised among them, or no slot is
    /// left.
    pub(crate) fn is_spent(&self, promised: Ballot) -> bool
        ensures { result ≡ is_spent_at self.now promised }
    {
        higher(self.seen, promised).round == u32::MAX || SLOTS <= self.front()
    }

    /// Begins the node's ballot of the round after all that it has seen, in memory: asks the others for promises, and
    /// counts the node's own, which tells these entries. It gives the ballot, for the store to promise.
    pub(crate) fn begin_ballot(
        &mut self,
        member: &Member,
        promised: Ballot,
        told: &Entries,
        made: &mut Made,
    ) -> Ballot
        requires at { IsAt member.now self.old }
        requires unspent { is_spent_at self.old promised ≡ false }
        requires told { AllByRecursion IsEntry told.now }
        requires space { HasSpace made.old.frames member.now.nodes (MOST_SINGLE_FRAME * member.now.nodes) }
        ensures ballot { result ≡ next_ballot member.now.node (higher self.old.seen promised) }
        ensures taken { (s : Standing) → IsRunning member.now self.old s → told.now ≡ told_by_store s.store (front_of s)
            → IsTaken member.now self.new (told_by made.old) (told_by made.new) (beginning (place_at member.now) result s) }
        ensures at { IsAt member.now self.new }
        ensures frames { Grows made.old.frames made.new.frames member.now.nodes (MOST_SINGLE_FRAME * member.now.nodes) }
        ensures rest { made.new ≡ record made.old { frames = made.new.frames } }
        ensures same { self.new ≡ record self.old { proposer = self.new.proposer } }
    {
        let seen = higher(self.seen, promised);
        let slot = self.front();
        match self.proposer.begin(seen, slot) {
            Err(_) => unreachable!(),
            Ok(prepare) => {
                let ballot = prepare.ballot;
                self.proposer.on_promise(member.node(), ballot, slot, told);
                let message = Message::Prepare { ballot, slot };
                send_to_others(&mut made.frames, member.nodes(), member.node(), &message);
                ballot
            }
        }
    }

    /// Counts a promise of a node, with what it tells: the proposer's call, as the rule that it carries out.
    pub(crate) fn count_promise(&mut self, from: u8, ballot: Ballot, slot: u32, told: &Entries)
        requires from { from < self.old.proposer.nodes }
        requires told { AllByRecursion IsEntry told.now }
        ensures runs { (member : Membership) (s : Standing) → IsAt member self.old → IsRunning member self.old s
            → IsRunning member self.new (counting_promise (place_at member) from ballot slot told.now s).after }
        ensures at { (member : Membership) → IsAt member self.old → IsAt member self.new }
        ensures counts { self.new.proposer ≡ counting self.old.proposer from ballot slot told.now }
        ensures rest { self.new ≡ record self.old { proposer = self.new.proposer } }
    {
        self.proposer.on_promise(from, ballot, slot, told);
    }

    /// Gives a ballot up that is outbid: the proposer's call, as the rule that it carries out.
    pub(crate) fn hear_refusal(&mut self, promised: Ballot)
        ensures runs { (member : Membership) (s : Standing) → IsRunning member self.old s → IsRunning member self.new (hearing_refusal promised s).after }
        ensures at { (member : Membership) → IsAt member self.old → IsAt member self.new }
        ensures bounded { (most : ℕ) → IsBounded self.old.proposer most → IsBounded self.new.proposer most }
        ensures rest { self.new ≡ record self.old { proposer = self.new.proposer } }
    {
        self.proposer.on_refuse(promised);
    }

    /// Leads no longer, nor prepares: the proposer's call, as the rule that it carries out.
    pub(crate) fn turn_idle(&mut self)
        ensures runs { (member : Membership) (s : Standing) → IsRunning member self.old s → IsRunning member self.new (idle s) }
        ensures at { (member : Membership) → IsAt member self.old → IsAt member self.new }
        ensures bounded { (most : ℕ) → IsBounded self.new.proposer most }
        ensures rest { self.new ≡ record self.old { proposer = self.new.proposer } }
    {
        self.proposer.turn_idle();
    }

    /// How many commands the close of a call proposes at most, from 1 to 64: 1, but where a quorum has promised and commands
    /// are told that weren't proposed yet.
    pub(crate) fn most_proposed(&self) -> usize
        ensures value { result ≡ most_proposed self.now.proposer }
        ensures least { 1 ≤ result }
        ensures most { result ≤ WINDOW }
        ensures bounded { IsBounded self.now.proposer result }
    {
        command_runs_are_bounded();
        if self.proposer.is_leading() {
            self.proposer.most_commands(0)
        } else {
            1
        }
    }

    /// The same behind a message: a promise may make a quorum, and tells of its entries.
    pub(crate) fn most_proposed_behind(&self, message: &Message) -> usize
        ensures value { result ≡ most_proposed_behind self.now.proposer message.now }
        ensures least { 1 ≤ result }
        ensures most { result ≤ WINDOW }
        ensures bounded { IsBoundedBehind self.now.proposer message.now result }
    {
        command_runs_are_bounded();
        match message {
            Message::Promise { entries, .. } => self.proposer.most_commands(entries.len()),
            Message::Prepare { .. }
            | Message::Refuse { .. }
            | Message::Accept { .. }
            | Message::Accepted { .. }
            | Message::Chosen { .. }
            | Message::Ask { .. }
            | Message::Forward { .. } => self.most_proposed(),
        }
    }

    /// What a node that leads proposes from its front on, once at a slot in a ballot, where one is left; it is marked as
    /// proposed. Outside of the slots that its ballot covers the node leads no longer.
    fn propose<'a>(&mut self, member: &Member, room: &'a mut CommandList) -> Option<AcceptRun<'a>>
        requires at { IsAt member.now self.old }
        requires left { front self.old.learner.learned.log < SLOTS }
        ensures closes { (s : Standing) → IsRunning member.now self.old s → Closes member.now self.new s result }
        ensures fits { IfSome result (λ made. IsBallot made.ballot × IsCommandRun made.slot made.commands) }
        ensures bounded { (most : ℕ) → IsBounded self.old.proposer most → IfSome result (λ made. length made.commands ≤ most) }
        ensures at { IsAt member.now self.new }
        ensures rest { self.new ≡ record self.old { proposer = self.new.proposer } }
    {
        let front = self.front();
        let own = own_value(member, &self.table, &self.pending);
        match self.proposer.propose_run(front, own, room) {
            Ok(proposal) => proposal,
            Err(_) => {
                self.proposer.turn_idle();
                None
            }
        }
    }

    /// What a node that leads proposes at the end of a call: all that is told from its front on, slot by slot, or its own
    /// value at the front, once at a slot in a ballot; it is marked as proposed. Outside of the slots that its ballot covers
    /// the node leads no longer, nor where no slot is left. The commands stand in the room that is handed in.
    pub(crate) fn proposal<'a>(
        &mut self,
        member: &Member,
        room: &'a mut CommandList,
    ) -> Option<AcceptRun<'a>>
        requires at { IsAt member.now self.old }
        requires leading { is_leading self.old.proposer ≡ true }
        ensures closes { (s : Standing) → IsRunning member.now self.old s → Closes member.now self.new s result }
        ensures fits { IfSome result (λ made. IsBallot made.ballot × IsCommandRun made.slot made.commands) }
        ensures bounded { (most : ℕ) → IsBounded self.old.proposer most → IfSome result (λ made. length made.commands ≤ most) }
        ensures at { IsAt member.now self.new }
        ensures rest { self.new ≡ record self.old { proposer = self.new.proposer } }
    {
        if SLOTS <= self.front() {
            self.proposer.turn_idle();
            return None;
        }
        self.propose(member, room)
    }
}
