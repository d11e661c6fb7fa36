ghost use Rattle.std.specs.Prelude.{◌≡◌};
ghost use Rattle.match_file.specs.Outages.{is_node_out};

use match_file::Outage;

/// When which nodes of a match are out, by how many commands are applied.
#[derive(Drop)]
pub struct Outages {
    listed: Vec<Outage>,
}

impl Outages {
    ghost use Rattle.serving.specs.Outing.{outages_in};

    /// These outages, as a match file lists them.
    pub fn new(listed: Vec<Outage>) -> Outages
        ensures { outages_in result ≡ listed.items }
    {
        Outages { listed }
    }

    /// Whether a node is out when so many commands are applied.
    pub fn is_out(&self, node: usize, count: u64) -> bool
        ensures { result ≡ is_node_out (outages_in self.now) count node }
    {
        self.listed
            .iter()
            .any(|outage| outage.keeps_out(node, count))
    }
}
