//! What holds of nodes in processes of their own: each law is the contract of a function that does nothing.

ghost use Rattle.std.specs.Prelude.{map, option_map};
ghost use Rattle.stations.specs.Joining.{ProcessesShowOneList, ProcessesAreBacked, ProcessesSendToNodes, ProcessesNeverConflict, ProcessesApplyTheChosen, ProcessesChooseOneList};
ghost use Rattle.stations.specs.Moving.{ProcessesHaveNoDeadEnd, StationsHaveNoDeadEnd};
ghost use Rattle.stations.specs.Stations.{DeathsAtRestAreDeeds, DeathsInsideAreDeeds};
ghost use Rattle.stations.specs.Incarnations.{IncarnationsAreDeeds};
ghost use Rattle.stations.specs.Together.{StationsArePromised, ListsOfStationsArePromised};
ghost use Rattle.stations.specs.Tables.{TablesAreOfOneMatch};
ghost use Rattle.stations.specs.Looking.{look_of};

use crate::station::Station;
use dealer_node::laws::{images_are_seen, moments_pass, seen_as_one};
use dealer_world::laws::{
    events_are_calls, no_dead_end, runs_apply_the_chosen, runs_are_backed, runs_choose_one_list,
    runs_never_conflict, runs_send_to_nodes, runs_show_one_list, sound_events_are_taken,
};
use promise_store::Disk;

/// One list of chosen commands is behind all lines and logs of all processes of a match, over all their deaths and
/// starts: where what each node did was by the rules, and where there is an order of all that was done in which each frame
/// had been sent before it came.
pub fn processes_show_one_list()
    ensures { ProcessesShowOneList }
{
    runs_show_one_list();
}

/// And what each node said by its frames both stores back that its next process may find.
pub fn processes_are_backed()
    ensures { ProcessesAreBacked }
{
    runs_are_backed();
}

/// And each frame goes from a node of the match to another.
pub fn processes_send_to_nodes()
    ensures { ProcessesSendToNodes }
{
    runs_send_to_nodes();
}

/// And no next call of a process, by which no frame is forged either, finds another command known at a slot where one was
/// chosen: 95 never comes.
pub fn processes_never_conflict()
    ensures { ProcessesNeverConflict }
{
    runs_never_conflict();
}

/// And each command that a running node applied is chosen at its slot by what all nodes said. So the tables of all nodes
/// are tables of one match, at whatever moment they are read.
pub fn processes_apply_the_chosen()
    ensures { ProcessesApplyTheChosen }
{
    runs_apply_the_chosen();
}

/// And of two lists of commands that are chosen so the shorter one is a beginning of the longer.
pub fn processes_choose_one_list()
    ensures { ProcessesChooseOneList }
{
    runs_choose_one_list();
}

/// And no state of them is a dead end. Where a member of a least quorum, seen as what its node holds, has something to
/// propose, and rounds and slots are left, it has a way of at most four events for each member. What the nodes do by it,
/// each event given to its own node, one after another, with memory and disks that suffice, is in a true order behind all
/// that was done, and none of it is refused; at its end that node's front has passed the commands. Deliveries may come in
/// any order, and others be lost or late.
pub fn processes_have_no_dead_end()
    ensures { ProcessesHaveNoDeadEnd }
{
    no_dead_end();
}

/// The same of stations, as they are seen, whose nodes' disks are honest: what they do by the events of a way, each given to
/// its own, none answered 91 because its disk failed or 92, is in a true order behind all that was done, and at the end of
/// the way that node's front has passed the commands.
pub fn stations_have_no_dead_end<D: Disk + Drop>()
    ensures { StationsHaveNoDeadEnd D.Disk }
{
    no_dead_end();
    sound_events_are_taken::<D>();
}

/// So the tables that nodes had, of whatever processes of theirs and at whatever moments, are tables of one match: there is one
/// list of chosen commands of which each of them shows a beginning.
pub fn tables_are_of_one_match<D: Disk + Drop>()
    ensures { TablesAreOfOneMatch D.Disk }
{
    processes_apply_the_chosen();
    processes_choose_one_list();
}

/// What a process leaves that dies, at whatever moment, is what the next process of its node goes on from: as after a
/// stop, or as after a call that broke off in its append. A start that breaks off while it opens the store is as a stop,
/// also where it was about to open a store of version 1.
pub fn deaths_are_deeds<D: Disk + Drop>()
    ensures rest { DeathsAtRestAreDeeds D.Disk }
    ensures inside { DeathsInsideAreDeeds D.Disk }
{
    images_are_seen::<D>();
    moments_pass::<D>();
    seen_as_one::<D>();
    events_are_calls::<D>();
}

/// The processes that a node had, one after another, the first over a new store, each next over what the one before left:
/// what they did, together, is by the rules of the node, and the last of them left what these lead to.
pub fn incarnations_are_deeds<D: Disk + Drop>()
    ensures { IncarnationsAreDeeds D.Disk }
{
    deaths_are_deeds::<D>();
}

/// The stations of a match, with all earlier processes of their nodes, over honest disks: what each node did has a history,
/// as its processes ended, and in each order of these histories in which each frame had been sent before it came, all of
/// this holds of the very same histories. They are processes of which the laws above speak. One list of chosen commands is
/// behind all their lines and logs. What each station's table shows is chosen. Whatever the next process of a node may find stands for a store that backs what the
/// node said by its frames, in this process and in those before: each image of a station's disk, and of a node that has no
/// process now the file that its last one left. And no next call of a station, by which no frame is forged either, is
/// answered by 95.
///
/// `None` stands for a node that has no process now.
pub fn stations_are_promised<D: Disk + Drop>(_stations: &[Option<Station<D>>])
    ensures { StationsArePromised D.Disk (map (option_map look_of) _stations.now) }
{
    lists_of_stations_are_promised::<D>();
}

/// The same of all lists of stations, for whoever keeps them in another way than side by side.
pub fn lists_of_stations_are_promised<D: Disk + Drop>()
    ensures { ListsOfStationsArePromised D.Disk }
{
    incarnations_are_deeds::<D>();
    images_are_seen::<D>();
    events_are_calls::<D>();
    processes_show_one_list();
    processes_are_backed();
    processes_never_conflict();
    processes_apply_the_chosen();
}
