//! Which notes of turns are told at once, and what waits to be told of the others.

ghost use Rattle.std.specs.Prelude.{◌≡◌, ◌<◌, ◌≤◌, max, ◌++◌, ◌∷◌, [], false, List, ℕ, IfSome, IsNone};
ghost use Rattle.node_service.specs.declared.server_notice.ServerNotice.{ServerNotice as Thing};
ghost use Rattle.node_runs.specs.declared.note_limits.Count.{Count as Counted};
ghost use Rattle.node_runs.specs.NoteLimits.{waiting_at, has_due};
ghost use Rattle.node_runs.specs.WaitingNotes.{Holds, TakesOne, TakesCount, IsNewest, newest_at};

use crate::note_groups::{GROUPS, group_of, weight_of};
use crate::note_limits::{Count, NoteLimits};
use node_service::ServerNotice;

/// How many notes of each group wait, and the newest of each.
#[derive(Drop)]
pub(crate) struct WaitingNotes {
    limits: NoteLimits,
    newest: [Option<ServerNotice>; GROUPS],
}

/// No notice of a group.
const NOTHING: Option<ServerNotice> = None;

impl WaitingNotes {
    /// Nothing came yet, at this time, in microseconds.
    pub(crate) fn new(clock: u64) -> WaitingNotes
        ensures holds { Holds [] [] [] result }
        ensures clock { result.limits.clock ≡ clock }
    {
        WaitingNotes {
            limits: NoteLimits::new(clock),
            newest: [NOTHING; GROUPS],
        }
    }

    /// This is the time, in microseconds, unless a later one was given.
    pub(crate) fn pass(&mut self, now: u64)
        ensures holds { (things : List Thing) → (came lines : List Counted) → Holds things came lines self.old → Holds things came lines self.new }
        ensures clock { self.new.limits.clock ≡ max self.old.limits.clock now }
    {
        self.limits.pass(now);
    }

    /// A notice came. It says whether it is to be told now; else it waits to be counted.
    pub(crate) fn take(&mut self, told: &ServerNotice) -> bool
        ensures takes { TakesOne self.old.limits.clock told.now result self.old self.new }
        ensures clock { self.new.limits.clock ≡ self.old.limits.clock }
    {
        let group = group_of(told);
        self.keep(group, told);
        let now = self.limits.clock();
        self.limits.note(group, weight_of(told), now)
    }

    /// So many of a group came that no notice tells. It says whether they are to be told now; else they wait.
    pub(crate) fn take_count(&mut self, group: usize, count: u64) -> bool
        requires { group < 199 }
        ensures takes { TakesCount self.old.limits.clock group count result self.old self.new }
        ensures clock { self.new.limits.clock ≡ self.old.limits.clock }
    {
        let now = self.limits.clock();
        self.limits.note(group, count, now)
    }

    /// This is the newest of its group.
    fn keep(&mut self, group: usize, told: &ServerNotice)
        requires { group < 199 }
        ensures newest { IsNewest group told.now self.old self.new }
        ensures limits { self.new.limits ≡ self.old.limits }
    {
        self.newest[group] = Some(*told);
    }

    /// What is to be told now of what waits: a group, and how many. Further calls say what else is.
    pub(crate) fn due(&mut self) -> Option<Count>
        ensures clock { self.new.limits.clock ≡ self.old.limits.clock }
        ensures time { IfSome result (λ one. one.time ≡ self.new.limits.clock) }
        ensures some { IfSome result (λ one. (things : List Thing) → (came lines : List Counted) → Holds things came lines self.old → Holds things came (lines ++ one ∷ []) self.new) }
        ensures same { IsNone result → (things : List Thing) → (came lines : List Counted) → Holds things came lines self.old → Holds things came lines self.new }
        ensures none { IsNone result → (group : ℕ) → has_due self.new.limits group ≡ false }
    {
        let now = self.limits.clock();
        self.limits.due(now)
    }

    /// The newest notice of a group.
    pub(crate) fn newest(&self, group: usize) -> Option<ServerNotice>
        ensures { result ≡ newest_at self.now group }
    {
        match self.newest.get(group) {
            Some(told) => *told,
            None => None,
        }
    }

    /// How many groups there are.
    pub(crate) fn groups(&self) -> usize
        ensures { (group : ℕ) → result ≤ group → waiting_at self.now.limits group ≡ 0 }
    {
        self.limits.groups()
    }

    /// How many notes of a group wait.
    pub(crate) fn waiting(&self, group: usize) -> u64
        ensures { result ≡ waiting_at self.now.limits group }
    {
        self.limits.waiting(group)
    }
}
