ghost use Rattle.std.specs.Prelude.{◌≡◌, ◌+◌, ◌-◌, ◌*◌, ◌≤◌, ◌<◌, length, drop, reverse, OnOk, OnErr, IsOk, IsErr, Err};
ghost use Rattle.paxos_wire.specs.Fits.{IsInRange, IsCommandRun};
ghost use Rattle.paxos_wire.specs.declared.limits.TheConstants.{MOST_SINGLE_FRAME};
ghost use Rattle.slot_log.specs.Slots.{front};
ghost use Rattle.learner.specs.Learning.{answer_to_chosen, believing as with_chosen};
ghost use Rattle.learner.specs.CommandRuns.{answer_to_run, hearing_run};
ghost use Rattle.node_rules.specs.Applying.{taking_all};
ghost use Rattle.node_rules.specs.Learning.{counting_votes, believing};
ghost use Rattle.dealer_node.specs.Scenes.{IsTableAt, PlaysOn, StaysInRange};
ghost use Rattle.dealer_node.specs.Members.{place_at};
ghost use Rattle.dealer_node.specs.Outs.{told_by};
ghost use Rattle.dealer_node.specs.Rooms.{HasSpace, Grows};
ghost use Rattle.dealer_node.specs.Running.{TakesRule, ClashesBy, passed_from, learning_chosen, IsAt, AreInRange, HearsUpTo, CanLearn, Learns};

use crate::applying::apply_commands;
use crate::made::Made;
use crate::member::Member;
use crate::reader::Reader;
use crate::running::Running;
use crate::texts::Texts;
use learner::Learner;
use paxos_wire::Ballot;
use slot_log::laws::{commands_are_kept, front_is_first_hole, fronts_go_on, one_more_is_known};
use slot_log::{Command, SlotFault, SlotLog};

/// Counts that a node accepted commands in a ballot, the first at the slot and each further one at the slot behind.
fn hear_votes(
    learner: &mut Learner,
    from: u8,
    ballot: Ballot,
    slot: u32,
    commands: &[Command],
) -> Result<(), SlotFault>
    requires from { from < learner.old.learned.nodes }
    requires run { IsCommandRun slot commands.now }
    requires answers { 1 ≤ learner.old.answers }
    requires room { length commands.now ≤ learner.old.commands }
    requires commands { AreInRange learner.old.learned.log }
    ensures ok { OnOk result (IsOk (answer_to_run learner.old.learned from ballot slot commands.now)) }
    ensures err { OnErr result (IsErr (answer_to_run learner.old.learned from ballot slot commands.now)) }
    ensures learned { learner.new.learned ≡ hearing_run learner.old.learned from ballot slot commands.now }
    ensures hears { HearsUpTo 1 (length commands.now) learner.old learner.new }
{
    learner.log().limits();
    one_more_is_known();
    fronts_go_on();
    front_is_first_hole();
    commands_are_kept();
    learner.on_accepted_run_reserved(from, ballot, slot, commands)?;
    Ok(())
}

/// Takes a node's word that a command was chosen at a slot.
fn hear_chosen(learner: &mut Learner, slot: u32, command: Command) -> Result<(), SlotFault>
    requires room { 1 ≤ learner.old.commands }
    requires command { IsInRange command }
    requires commands { AreInRange learner.old.learned.log }
    ensures ok { OnOk result (IsOk (answer_to_chosen learner.old.learned.log slot command)) }
    ensures err { OnErr result (IsErr (answer_to_chosen learner.old.learned.log slot command)) }
    ensures learned { learner.new.learned ≡ with_chosen learner.old.learned slot command }
    ensures hears { HearsUpTo 0 1 learner.old learner.new }
{
    learner.log().limits();
    one_more_is_known();
    fronts_go_on();
    commands_are_kept();
    learner.on_chosen_reserved(slot, command)
}

/// The commands from a slot on that the front has passed.
fn passed(log: &SlotLog, from: u32) -> &[Command]
    requires { from ≤ front log.now.log }
    ensures value { result.now ≡ drop from (reverse log.now.log.below) }
    ensures len { length result.now + from ≡ front log.now.log }
{
    let commands = log.commands();
    let (_, passed) = commands.split_at(from as usize);
    passed
}

impl Running {
    /// Applies the commands from a slot on that the front has passed.
    fn apply_from(&mut self, from: u32, member: &Member, shown: &mut Texts<Reader>)
        requires from { from ≤ front self.old.learner.learned.log }
        requires played { IsTableAt member.now.setting (length self.old.seats.talks) self.old.table }
        requires room { front self.old.learner.learned.log ≤ from + self.old.table.room }
        requires space { HasSpace shown.old (11 * passed_from self.old from) (45716 * passed_from self.old from) }
        ensures scene { PlaysOn member.now.setting (taking_all member.now.setting self.old.seats.talks (drop from (reverse self.old.learner.learned.log.below)))
            self.old.table self.old.pending shown.old.texts self.new.table self.new.pending shown.new.texts }
        ensures game { self.new.table.game ≡ self.old.table.game }
        ensures count { self.new.table.count ≡ self.old.table.count }
        ensures room { self.old.table.room + from ≤ self.new.table.room + front self.old.learner.learned.log }
        ensures shown { Grows shown.old shown.new (11 * passed_from self.old from) (45716 * passed_from self.old from) }
        ensures act { StaysInRange self.old.pending self.new.pending }
        ensures rest { self.new ≡ record self.old { table = self.new.table; pending = self.new.pending } }
    {
        apply_commands(
            &mut self.table,
            &mut self.pending,
            member,
            self.seats.sessions(),
            passed(self.learner.log(), from),
            shown,
        );
    }

    /// Counts that a node accepted commands in a ballot, the first at the slot and each further one at the slot behind, and
    /// applies what the front then passes, once all are counted. An `Err` is 30: another command is known at one of the
    /// slots.
    pub(crate) fn count_votes(
        &mut self,
        member: &Member,
        from: u8,
        ballot: Ballot,
        slot: u32,
        commands: &[Command],
        made: &mut Made,
    ) -> Result<(), SlotFault>
        requires at { IsAt member.now self.old }
        requires from { from < member.now.nodes }
        requires run { IsCommandRun slot commands.now }
        requires room { CanLearn self.old made.old 1 (length commands.now) }
        ensures ok { OnOk result (TakesRule member.now (counting_votes (place_at member.now) from ballot slot commands.now) self.old self.new (told_by made.old) (told_by made.new)) }
        ensures err { OnErr result (ClashesBy member.now (counting_votes (place_at member.now) from ballot slot commands.now) self.old) }
        ensures at { IsAt member.now self.new }
        ensures proposer { self.new.proposer ≡ self.old.proposer }
        ensures learns { Learns (length commands.now) self.old self.new made.old made.new }
        ensures rest { made.new ≡ record made.old { shown = made.new.shown } }
    {
        let front = self.front();
        hear_votes(&mut self.learner, from, ballot, slot, commands)?;
        self.apply_from(front, member, &mut made.shown);
        Ok(())
    }

    /// Takes a node's word that a command was chosen at a slot, and applies what the front then passes. An `Err` is 30:
    /// another command is known there.
    fn take_chosen(
        &mut self,
        member: &Member,
        slot: u32,
        command: Command,
        made: &mut Made,
    ) -> Result<(), SlotFault>
        requires at { IsAt member.now self.old }
        requires command { IsInRange command }
        requires room { CanLearn self.old made.old 0 1 }
        ensures ok { OnOk result (TakesRule member.now (learning_chosen (place_at member.now) slot command) self.old self.new (told_by made.old) (told_by made.new)) }
        ensures err { OnErr result (ClashesBy member.now (learning_chosen (place_at member.now) slot command) self.old) }
        ensures at { IsAt member.now self.new }
        ensures proposer { self.new.proposer ≡ self.old.proposer }
        ensures learns { Learns 1 self.old self.new made.old made.new }
        ensures rest { made.new ≡ record made.old { shown = made.new.shown } }
    {
        let front = self.front();
        hear_chosen(&mut self.learner, slot, command)?;
        self.apply_from(front, member, &mut made.shown);
        Ok(())
    }

    /// Takes a node's word that a command was chosen at a slot, applies what the front then passes, and asks that node
    /// for more where the front comes to a multiple of 64. An `Err` is 30: another command is known there.
    pub(crate) fn believe(
        &mut self,
        member: &Member,
        from: u8,
        slot: u32,
        command: Command,
        made: &mut Made,
    ) -> Result<(), SlotFault>
        requires at { IsAt member.now self.old }
        requires command { IsInRange command }
        requires room { CanLearn self.old made.old 0 1 }
        requires space { HasSpace made.old.frames 1 MOST_SINGLE_FRAME }
        ensures ok { OnOk result (TakesRule member.now (believing (place_at member.now) from slot command) self.old self.new (told_by made.old) (told_by made.new)) }
        ensures err { OnErr result (ClashesBy member.now (believing (place_at member.now) from slot command) self.old) }
        ensures at { IsAt member.now self.new }
        ensures proposer { self.new.proposer ≡ self.old.proposer }
        ensures learns { Learns 1 self.old self.new made.old made.new }
        ensures frames { Grows made.old.frames made.new.frames 1 MOST_SINGLE_FRAME }
        ensures rest { made.new ≡ record made.old { frames = made.new.frames; shown = made.new.shown } }
    {
        let before = self.front();
        self.take_chosen(member, slot, command, made)?;
        self.ask_on(from, before, made);
        Ok(())
    }
}
