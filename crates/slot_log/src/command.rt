ghost use Rattle.std.specs.Prelude.{◌≡◌, ◌↔◌, IsTrue};

use betting::Action;
use card_core::Deal;

/// What the dealer is told to do.
#[derive(Clone, Copy, Debug, PartialEq, Eq)]
pub enum Command {
    /// Deal this hand, counted from 0.
    Deal {
        hand: u32,
        deal: Deal,
    },
    /// The player to act acts: the action of this index, counted from 0, of this hand.
    Act {
        hand: u32,
        index: u16,
        action: Action,
    },
    /// The player to act is away, and is played for: he folds where he faces something, and else calls. It stands in the
    /// place of the act of this index, counted from 0, of this hand.
    Away {
        hand: u32,
        index: u16,
    },
}

impl Command {
    /// Whether another command is the same. What `==` of commands says is in no contract.
    pub fn is_same(&self, other: &Command) -> bool
        ensures { IsTrue result ↔ (self.now ≡ other.now) }
    {
        match (self, other) {
            (
                Command::Deal { hand, deal },
                Command::Deal {
                    hand: other_hand,
                    deal: other_deal,
                },
            ) => hand == other_hand && deal.is_same(other_deal),
            (
                Command::Act {
                    hand,
                    index,
                    action,
                },
                Command::Act {
                    hand: other_hand,
                    index: other_index,
                    action: other_action,
                },
            ) => hand == other_hand && index == other_index && action == other_action,
            (
                Command::Away { hand, index },
                Command::Away {
                    hand: other_hand,
                    index: other_index,
                },
            ) => hand == other_hand && index == other_index,
            _ => false,
        }
    }
}
