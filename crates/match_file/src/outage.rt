ghost use Rattle.std.specs.Prelude.{◌≡◌};

/// When a node is out: from `at` commands applied on, up to `back`, or to the end where there is none.
#[derive(Clone, Copy, Debug, PartialEq, Eq)]
pub struct Outage {
    /// The node's number, from 0.
    pub node: usize,
    /// How many commands are applied when the node stops.
    pub at: u64,
    /// How many commands are applied when it is started again, above `at`.
    pub back: Option<u64>,
}

impl Outage {
    ghost use Rattle.match_file.specs.Outages.{is_out};

    /// Whether it keeps a node, counted from 0, out when so many commands are applied.
    pub fn keeps_out(&self, node: usize, count: u64) -> bool
        ensures { result ≡ is_out count node self.now }
    {
        self.node == node
            && self.at <= count
            && match self.back {
                Some(back) => count < back,
                None => true,
            }
    }
}
