//! What is told of turns, as it comes and later.

ghost use Rattle.std.specs.Prelude.{◌≡◌, ◌-◌, ◌<◌, max, cond, [], OnErr, OnOk};
ghost use Rattle.stations.specs.Looking.{look_of};
ghost use Rattle.operator_notes.specs.Notes.{AreNoted};
ghost use Rattle.node_runs.specs.NoteLimits.{waiting_at};
ghost use Rattle.node_runs.specs.ServerNotes.{notice_lines, group_lines};
ghost use Rattle.node_runs.specs.WaitingNotes.{Holds, newest_at};
ghost use Rattle.node_runs.specs.Running.{HasLife, KeepsLife};
ghost use Rattle.node_runs.specs.Tellers.{TellsNow, TellsLater, TellsRest, TurnsAway};

use crate::life_keeper::LifeKeeper;
use crate::note_groups::{NO_PLACE, weight_of};
use crate::note_limits::MOST;
use crate::server_notes::{tell_group, tell_notice};
use crate::waiting_notes::WaitingNotes;
use dealer_node::NodeFault;
use node_service::ServerNotice;
use promise_store::Disk;
use stations::Station;
use std::alloc::Global;
use std::io::Write;

/// What tells the notes of a node's process, which awaits seat 0 at this port.
#[derive(Drop)]
pub struct Teller {
    alloc: Global,
    port: u16,
    /// How many callers had been turned away when it was last told, for want of a place.
    turned_away: u64,
    waiting: WaitingNotes,
}

impl Teller {
    /// Nothing came yet, at this time, in microseconds.
    pub fn new(alloc: Global, port: u16, now: u64) -> Teller
        ensures port { result.port ≡ port }
        ensures holds { Holds [] [] [] result.waiting }
        ensures clock { result.waiting.limits.clock ≡ now }
    {
        Teller {
            alloc,
            port,
            turned_away: 0,
            waiting: WaitingNotes::new(now),
        }
    }

    /// One thing happened at this station. A life that was first seen is kept before it is told; where it can't be, nothing is.
    pub fn tell<D: Disk + Drop, L: LifeKeeper, N: Write>(
        &mut self,
        station: &Station<D>,
        told: &ServerNotice,
        lives: &mut L,
        notes: &mut N,
    ) -> Result<(), NodeFault>
        ensures told { OnOk result (TellsNow L.kept (look_of station.now) told.now self.old self.new (N.contents notes.old) (N.contents notes.new) lives.old lives.new) }
        ensures unkept { OnErr result (HasLife told.now × (N.contents notes.new ≡ N.contents notes.old)) }
        ensures same { OnErr result (self.new ≡ self.old) }
        ensures port { self.new.port ≡ self.old.port }
        ensures clock { self.new.waiting.limits.clock ≡ self.old.waiting.limits.clock }
    {
        keep_life(lives, told)?;
        let is_told = self.waiting.take(told);
        self.tell_if(station, is_told, told, notes);
        Ok(())
    }

    /// A notice is told, if it is to be told now.
    fn tell_if<D: Disk + Drop, N: Write>(
        &self,
        station: &Station<D>,
        is_told: bool,
        told: &ServerNotice,
        notes: &mut N,
    )
        ensures { AreNoted (cond is_told (notice_lines (look_of station.now).config.setting.names (look_of station.now).number self.now.port told.now) []) (N.contents notes.old) (N.contents notes.new) }
    {
        if is_told {
            let count = weight_of(told);
            tell_notice(
                self.alloc,
                station.config(),
                station.number(),
                self.port,
                told,
                count,
                notes,
            );
        }
    }

    /// A turn was left at this time, in microseconds: what waits and is due then is told.
    pub fn tell_due<D: Disk + Drop, N: Write>(
        &mut self,
        station: &Station<D>,
        now: u64,
        notes: &mut N,
    )
        ensures later { TellsLater (look_of station.now) self.old.port (max self.old.waiting.limits.clock now) self.old.waiting self.new.waiting (N.contents notes.old) (N.contents notes.new) }
        ensures port { self.new.port ≡ self.old.port }
        ensures clock { self.new.waiting.limits.clock ≡ max self.old.waiting.limits.clock now }
    {
        self.waiting.pass(now);
        for _line in 0..MOST {
            let Some(one) = self.waiting.due() else {
                return;
            };
            self.tell_group(station, one.group, one.count, notes);
        }
    }

    /// So many callers in all have been turned away by now, for want of a place.
    pub fn tell_turned_away<D: Disk + Drop, N: Write>(
        &mut self,
        station: &Station<D>,
        all: u64,
        notes: &mut N,
    )
        ensures away { TurnsAway (look_of station.now) self.old.port (all - self.old.turned_away) self.old.waiting self.new.waiting (N.contents notes.old) (N.contents notes.new) }
        ensures all { self.new.turned_away ≡ all }
        ensures port { self.new.port ≡ self.old.port }
        ensures clock { self.new.waiting.limits.clock ≡ self.old.waiting.limits.clock }
    {
        let count = all.saturating_sub(self.turned_away);
        self.turned_away = all;
        if count == 0 {
            return;
        }
        let is_told = self.waiting.take_count(NO_PLACE, count);
        self.tell_group_if(station, is_told, NO_PLACE, count, notes);
    }

    /// So many of a group are told, if they are to be told now.
    fn tell_group_if<D: Disk + Drop, N: Write>(
        &self,
        station: &Station<D>,
        is_told: bool,
        group: usize,
        count: u64,
        notes: &mut N,
    )
        ensures { AreNoted (cond is_told (group_lines (look_of station.now).config.setting.names (look_of station.now).number self.now.port (newest_at self.now.waiting group) group count) []) (N.contents notes.old) (N.contents notes.new) }
    {
        if is_told {
            self.tell_group(station, group, count, notes);
        }
    }

    /// What still waits is told, now that nothing more comes.
    pub fn tell_rest<D: Disk + Drop, N: Write>(&self, station: &Station<D>, notes: &mut N)
        ensures { TellsRest (look_of station.now) self.now.port self.now.waiting (N.contents notes.old) (N.contents notes.new) }
    {
        for group in 0..self.waiting.groups() {
            self.tell_waiting(station, group, notes);
        }
    }

    /// What waits of a group is told, if anything does.
    fn tell_waiting<D: Disk + Drop, N: Write>(
        &self,
        station: &Station<D>,
        group: usize,
        notes: &mut N,
    )
        ensures none { waiting_at self.now.waiting.limits group ≡ 0 → N.contents notes.new ≡ N.contents notes.old }
        ensures some { 0 < waiting_at self.now.waiting.limits group → AreNoted (group_lines (look_of station.now).config.setting.names (look_of station.now).number self.now.port (newest_at self.now.waiting group) group (waiting_at self.now.waiting.limits group)) (N.contents notes.old) (N.contents notes.new) }
    {
        let count = self.waiting.waiting(group);
        if count > 0 {
            self.tell_group(station, group, count, notes);
        }
    }

    /// So many of a group are told by its newest.
    fn tell_group<D: Disk + Drop, N: Write>(
        &self,
        station: &Station<D>,
        group: usize,
        count: u64,
        notes: &mut N,
    )
        ensures { AreNoted (group_lines (look_of station.now).config.setting.names (look_of station.now).number self.now.port (newest_at self.now.waiting group) group count) (N.contents notes.old) (N.contents notes.new) }
    {
        let newest = self.waiting.newest(group);
        tell_group(
            self.alloc,
            station.config(),
            station.number(),
            self.port,
            &newest,
            group,
            count,
            notes,
        );
    }
}

/// Has a life kept that was seen first.
fn keep_life<L: LifeKeeper>(lives: &mut L, told: &ServerNotice) -> Result<(), NodeFault>
    ensures kept { OnOk result (KeepsLife L.kept told.now lives.old lives.new) }
    ensures unkept { OnErr result (HasLife told.now) }
{
    match told {
        ServerNotice::Joined {
            peer,
            life: Some(life),
        } => lives.keep(*peer, life),
        _ => Ok(()),
    }
}
