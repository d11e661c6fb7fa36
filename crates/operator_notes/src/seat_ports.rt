ghost use Rattle.std.specs.Prelude.{◌≡◌};
ghost use Rattle.operator_notes.specs.Notes.{port_at};

/// The ports of this machine at which the seats of a match are awaited: with n players, seat s at node i at the port
/// `first + i * n + s`. Nodes and seats are counted from 0.
#[derive(Clone, Copy, Debug)]
pub struct SeatPorts {
    /// The first of the ports, that of seat 0 at node 0.
    pub first: u16,
    /// How many players the match has.
    pub players: u8,
}

impl SeatPorts {
    /// The port of a seat at a node. It is a port's number where the match has both.
    pub fn port(self, node: u8, seat: u8) -> u32
        ensures { result ≡ port_at self node seat }
    {
        self.first as u32 + node as u32 * self.players as u32 + seat as u32
    }
}
