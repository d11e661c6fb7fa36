//! What holds of servers: each law is the contract of a function that does nothing.

ghost use Rattle.std.specs.Prelude.{map, option_map};
ghost use Rattle.stations.specs.Together.{StationsArePromised};
ghost use Rattle.node_service.specs.Serving.{look_in};
ghost use Rattle.node_service.specs.Company.{ShownStays};
ghost use Rattle.node_service.specs.Crossing.{NewWiresCarry};
ghost use Rattle.node_service.specs.Going.{TurnsAreOne};

use crate::server::NodeServer;
use node_wires::Wire;
use promise_store::Disk;
use stations::laws::lists_of_stations_are_promised;

/// What is promised of the stations of a match holds of the servers that have them, at each moment between their turns,
/// with all earlier processes of their nodes: one list of chosen commands is behind all their lines and logs, their stores
/// back what they said, and 95 never comes.
///
/// `None` stands for a node that has no process now.
pub fn servers_are_promised<D: Disk + Drop, W: Wire + Drop>(_servers: &[Option<NodeServer<D, W>>])
    ensures { StationsArePromised D.Disk (map (option_map look_in) _servers.now) }
{
    lists_of_stations_are_promised::<D>();
}

/// What holds of one turn holds of two, one after the other, and so of all turns of a process: its log has what its node
/// showed to it since the first of them, and what came to the node of seats had come over their lines.
pub fn turns_are_one<D: Disk + Drop>()
    ensures { TurnsAreOne D.Disk }
{}

/// What holds of the lives that one turn has to tell holds of those of all turns: each is one that its node showed, over a
/// connection that it opened by its Hello.
pub fn lives_stay_shown()
    ensures { ShownStays }
{}

/// What crosses the wires of a new server goes by its peers, its seats and those who ask: `NodeServer::new` asks for that of
/// what a server is made of, and so it is over wires over which nothing passed yet.
pub fn new_wires_carry()
    ensures { NewWiresCarry }
{}
