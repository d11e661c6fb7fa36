//! Laws of nodes: each is the contract of a function that does nothing.

ghost use Rattle.std.specs.Prelude.{◌≡◌, ◌⊎◌, ℕ, List, IsTrue, true};
ghost use Rattle.node_rules.specs.Standings.{Standing};
ghost use Rattle.promise_store.specs.Holding.{StandsFor};
ghost use Rattle.dealer_node.specs.Nodes.{Node as Seen};
ghost use Rattle.dealer_node.specs.Seeing.{head_of, member_in, runs, IsSeen, images_of, since_of, moment_of};

use promise_store::Disk;
use promise_store::laws::{journals_have_one_reading, what_is_kept_is_left};

/// Each image of a node's disk stands for its store, or for what was begun.
pub fn images_are_seen<D: Disk + Drop>()
    ensures { (node : Seen D) (s : Standing) (image : List ℕ) → IsSeen D.Disk node s → images_of D.Disk node image
        → StandsFor (head_of (member_in node)) image s.store ⊎ StandsFor (head_of (member_in node)) image s.begun }
{
    what_is_kept_is_left::<D>();
}

/// What is an image of a node's disk at a moment since the present one is one now.
pub fn moments_pass<D: Disk + Drop>()
    ensures { (node : Seen D) (image : List ℕ) → since_of D.Disk node (moment_of D.Disk node) image → images_of D.Disk node image }
{}

/// What is an image of a node's disk now is one at a moment since any.
pub fn counts_now<D: Disk + Drop>()
    ensures { (node : Seen D) (t : ℕ) (image : List ℕ) → images_of D.Disk node image → since_of D.Disk node t image }
{}

/// A node that runs is seen as one standing alone; and what it is seen as tells whether it runs.
pub fn seen_as_one<D: Disk + Drop>()
    ensures one { (node : Seen D) (a b : Standing) → IsTrue D.is_honest → IsSeen D.Disk node a → IsSeen D.Disk node b → a.up ≡ true → a ≡ b }
    ensures up { (node : Seen D) (s : Standing) → IsSeen D.Disk node s → runs node ≡ s.up }
{
    journals_have_one_reading();
}
