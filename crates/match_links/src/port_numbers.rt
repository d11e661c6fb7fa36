ghost use Rattle.std.specs.Prelude.{◌≡◌, ◌≤◌, ◌<◌, ◌+◌, ◌*◌};
ghost use Rattle.match_links.specs.declared.limits.TheConstants.{NODES};

/// The numbers of a match's ports. With n players and m nodes, seat s at node i is at the port `first + i * n + s`, and
/// node i awaits the others at `first + m * n + i`.
#[derive(Clone, Copy, Drop)]
pub(crate) struct PortNumbers {
    pub(crate) first: u16,
    pub(crate) nodes: usize,
    pub(crate) players: usize,
    ghost low: { first ≤ 65000 },
    ghost few_nodes: { nodes ≤ NODES },
    ghost few_players: { players ≤ 10 },
}

impl PortNumbers {
    /// The port of a seat at a node; both are below their counts.
    pub(crate) fn seat(&self, node: u8, seat: u8) -> u16
        ensures { node < self.now.nodes → seat < self.now.players → result ≡ self.now.first + node * self.now.players + seat }
    {
        let place = self.place(node, seat).min(99) as u16;
        self.first + place
    }

    /// The number of a seat at a node among all.
    pub(crate) fn place(&self, node: u8, seat: u8) -> usize
        ensures { result ≡ node * self.now.players + seat }
    {
        node as usize * self.players + seat as usize
    }

    /// The port at which a node awaits the others.
    pub(crate) fn door(&self, node: usize) -> u16
        ensures { node < self.now.nodes → result ≡ self.now.first + self.now.nodes * self.now.players + node }
    {
        self.first + (self.nodes * self.players + node.min(9)) as u16
    }
}
