//! How many notes a process writes in a second.

ghost use Rattle.std.specs.Prelude.{◌≡◌, ◌<◌, ◌≤◌, ◌==◌, ◌&&◌, nat_lt, max, true, false, cond, List, [], ◌∷◌, ◌++◌, length, IfSome, IsNone, ℕ, get_or};
ghost use Rattle.std.specs.List.{count_by, filter};
ghost use Rattle.arrayvec.specs.ArrayVec.{array_vec_len};
ghost use Rattle.node_runs.specs.NoteLimits.{IsAccount, is_of, waiting_at, has_room, is_recent, has_due, counted_at};
ghost use Rattle.node_runs.specs.NoteSteps.{Waits};
ghost use Rattle.node_runs.specs.declared.note_limits.Count.{Count as Counted};

use crate::note_groups::{GROUPS, most_of, room_of};
use arrayvec::ArrayVec;

/// A second, in microseconds.
const SECOND: u64 = 1_000_000;

/// So many lines are told in a second at most.
pub(crate) const MOST: usize = 50;

/// So many notes of a group, at this time, in microseconds: they came, or one line told them.
#[derive(Clone, Copy, Debug, Default)]
pub struct Count {
    pub time: u64,
    pub group: usize,
    pub count: u64,
}

/// Which notes are told at once, and how many wait to be counted in a later line.
#[derive(Drop)]
pub struct NoteLimits {
    /// The latest time that was given, in microseconds.
    clock: u64,
    /// The lines of the last second, the oldest first.
    recent: ArrayVec<Count, MOST>,
    /// How many notes of each group wait.
    waiting: [u64; GROUPS],
    /// The group that is looked at first for what waits.
    next: usize,
}

/// Whether a line was told less than a second before.
fn is_recent(clock: u64, one: &Count) -> bool
    ensures { result ≡ is_recent clock one.now }
{
    clock.saturating_sub(one.time) < SECOND
}

impl NoteLimits {
    /// Nothing came yet, at this time, in microseconds.
    pub fn new(clock: u64) -> NoteLimits
        ensures account { IsAccount [] [] result }
        ensures clock { result.clock ≡ clock }
    {
        NoteLimits {
            clock,
            recent: ArrayVec::new(),
            waiting: [0; GROUPS],
            next: 0,
        }
    }

    /// A note of so many events of a group came at this time, in microseconds. It says whether it is to be told now, whole;
    /// else it waits to be counted. Where the time is before one that was given, it is taken for that one.
    ///
    /// It is told now where none of its group waits, and the last second has room for a line of it.
    pub fn note(&mut self, group: usize, count: u64, now: u64) -> bool
        requires { group < 199 }
        ensures clock { self.new.clock ≡ max self.old.clock now }
        ensures account { (came told : List Counted) → IsAccount came told self.old → IsAccount (came ++ counted_at self.new.clock group count ∷ []) (told ++ cond result (counted_at self.new.clock group count ∷ []) []) self.new }
        ensures at_once { (came told : List Counted) → IsAccount came told self.old → result ≡ (waiting_at self.old group == 0 && has_room (filter (is_recent self.new.clock) told) group) }
    {
        self.pass(now);
        if self.is_free(group) {
            self.put(group, count);
            return true;
        }
        let all = self.count_of(group).saturating_add(count);
        self.set_waiting(group, all);
        false
    }

    /// What is to be told at this time of what waits: a group, and how many. Further calls at the same time say what else is.
    /// None where nothing waits, or the last second has no room for a line of any group that waits.
    pub fn due(&mut self, now: u64) -> Option<Count>
        ensures clock { self.new.clock ≡ max self.old.clock now }
        ensures account { IfSome result (λ one. (came told : List Counted) → IsAccount came told self.old → IsAccount came (told ++ one ∷ []) self.new) }
        ensures time { IfSome result (λ one. one.time ≡ self.new.clock) }
        ensures group { IfSome result (λ one. one.group < 199) }
        ensures count { IfSome result (λ one. 0 < one.count) }
        ensures same { IsNone result → (came told : List Counted) → IsAccount came told self.old → IsAccount came told self.new }
        ensures none { IsNone result → (group : ℕ) → has_due self.new group ≡ false }
    {
        self.pass(now);
        let Some(group) = self.next_due() else {
            return None;
        };
        let count = self.count_of(group);
        self.put(group, count);
        self.set_waiting(group, 0);
        self.next = group + 1;
        Some(Count {
            time: self.clock,
            group,
            count,
        })
    }

    /// The latest time that was given, in microseconds.
    pub(crate) fn clock(&self) -> u64
        ensures { result ≡ self.now.clock }
    {
        self.clock
    }

    /// How many groups there are.
    pub fn groups(&self) -> usize
        ensures { (group : ℕ) → result ≤ group → waiting_at self.now group ≡ 0 }
    {
        self.waiting.len()
    }

    /// How many notes of a group wait; 0 where there is no such group.
    pub fn waiting(&self, group: usize) -> u64
        ensures { result ≡ waiting_at self.now group }
    {
        self.count_of(group)
    }

    /// How many notes of a group wait; 0 where there is no such group.
    fn count_of(&self, group: usize) -> u64
        ensures { result ≡ waiting_at self.now group }
    {
        match self.waiting.get(group) {
            Some(count) => *count,
            None => 0,
        }
    }

    /// So many wait of a group from now on.
    fn set_waiting(&mut self, group: usize, count: u64)
        requires { group < 199 }
        ensures waits { Waits group count self.old self.new }
        ensures clock { self.new.clock ≡ self.old.clock }
        ensures recent { self.new.recent.items ≡ self.old.recent.items }
    {
        self.waiting[group] = count;
    }

    /// This is the time, unless a later one was given. What was told a second before it, or earlier, is no longer looked at.
    pub(crate) fn pass(&mut self, now: u64)
        ensures clock { self.new.clock ≡ max self.old.clock now }
        ensures recent { self.new.recent.items ≡ filter (is_recent self.new.clock) self.old.recent.items }
        ensures waiting { self.new.waiting ≡ self.old.waiting }
    {
        self.clock = self.clock.max(now);
        let clock = self.clock;
        self.recent.retain(|one| is_recent(clock, one));
    }

    /// How many lines of a group were told in the last second.
    fn lines_of(&self, group: usize) -> usize
        ensures { result ≡ count_by (is_of group) self.now.recent.items }
    {
        let mut count: usize = 0;
        for one in self.recent.as_slice() {
            if one.group == group {
                count += 1;
            }
        }
        count
    }

    /// Whether a further line of a group may be told now.
    fn has_room(&self, group: usize) -> bool
        ensures { result ≡ has_room self.now.recent.items group }
    {
        self.recent.len() < room_of(group) && self.lines_of(group) < most_of(group)
    }

    /// Whether no note of a group waits, and a line of it may be told now.
    fn is_free(&self, group: usize) -> bool
        ensures { result ≡ (waiting_at self.now group == 0 && has_room self.now.recent.items group) }
    {
        self.count_of(group) == 0 && self.has_room(group)
    }

    /// Whether notes of a group wait of which a line may be told now.
    fn is_due(&self, group: usize) -> bool
        ensures { result ≡ has_due self.now group }
    {
        self.count_of(group) > 0 && self.has_room(group)
    }

    /// A line of a group was told now.
    fn put(&mut self, group: usize, count: u64)
        requires { has_room self.old.recent.items group ≡ true }
        ensures recent { self.new.recent.items ≡ self.old.recent.items ++ counted_at self.old.clock group count ∷ [] }
        ensures clock { self.new.clock ≡ self.old.clock }
        ensures waiting { self.new.waiting ≡ self.old.waiting }
    {
        self.recent.push(Count {
            time: self.clock,
            group,
            count,
        });
    }

    /// The first group of these of which something is to be told now.
    fn first_due(&self, from: usize, to: usize) -> Option<usize>
        ensures due { IfSome result (λ group. has_due self.now group ≡ true) }
        ensures within { IfSome result (λ group. group < to) }
        ensures none { IsNone result → (group : ℕ) → from ≤ group → group < to → has_due self.now group ≡ false }
    {
        for group in from..to {
            if self.is_due(group) {
                return Some(group);
            }
        }
        None
    }

    /// A group of which something is to be told now. The groups have their turns.
    fn next_due(&self) -> Option<usize>
        ensures due { IfSome result (λ group. has_due self.now group ≡ true) }
        ensures within { IfSome result (λ group. group < 199) }
        ensures none { IsNone result → (group : ℕ) → has_due self.now group ≡ false }
    {
        match self.first_due(self.next, GROUPS) {
            Some(group) => Some(group),
            None => self.first_due(0, self.next.min(GROUPS)),
        }
    }
}
