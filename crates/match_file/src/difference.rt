ghost use Rattle.std.specs.Prelude.{◌≡◌, Some};
ghost use Rattle.match_file.specs.Kept.{counts_text, difference_text};

use std::fmt;

/// Two counts that differ, of hands or of nodes: that of the match that was kept, and the one that was expected.
///
/// It prints both, in this order.
#[derive(Clone, Copy, Debug, PartialEq, Eq)]
pub struct Counts {
    /// What the kept match says.
    pub kept: u32,
    /// What the match file says.
    pub expected: u32,
}

/// In what the match that was kept is another. They are tested in this order, but that `Unread` comes first; `Node` and
/// `Command` aren't seen in its text.
#[derive(Clone, Copy, Debug, PartialEq, Eq)]
pub enum Difference {
    /// The name of the match.
    Name,
    /// The name of the game's file.
    Game,
    /// The number of hands.
    Hands(Counts),
    /// The seats' names.
    Names,
    /// The count of nodes.
    Nodes(Counts),
    /// The game, as a value.
    Values,
    /// What was kept is no match.
    Unread,
    /// The node, or where its deals come from: its store was made for others.
    Node,
    /// The command that plays it: stores that were made for nodes in processes of their own aren't `serve`'s. No text
    /// shows it, but what lies beside the stores.
    Command,
}

impl fmt::Display for Counts {
    ghost output = { λ counts. Some (counts_text counts) };

    fn fmt<W: fmt::Write>(&self, f: &mut fmt::Formatter<W>) -> fmt::Result {
        let kept = self.kept;
        let expected = self.expected;
        write!(f, "{kept}, not {expected}")
    }
}

/// Writes the key of the match file in which they differ, and both counts where these do; `nodes` where the count of nodes
/// does, `values` where the game does, `match.kept` where no match is kept, and `command` where another command plays it.
impl fmt::Display for Difference {
    ghost output = { λ difference. Some (difference_text difference) };

    fn fmt<W: fmt::Write>(&self, f: &mut fmt::Formatter<W>) -> fmt::Result {
        match self {
            Difference::Name => f.write_str("name"),
            Difference::Game => f.write_str("game"),
            Difference::Hands(counts) => write!(f, "hands {counts}"),
            Difference::Names => f.write_str("names"),
            Difference::Nodes(counts) => write!(f, "nodes {counts}"),
            Difference::Values => f.write_str("values"),
            Difference::Unread => f.write_str("match.kept"),
            Difference::Node => f.write_str("node"),
            Difference::Command => f.write_str("command"),
        }
    }
}
