ghost use Rattle.std.specs.Prelude.{◌≡◌, ◌<◌, ◌≤◌, length};
ghost use Rattle.side_pots.specs.Pots.{is_eligible as eligible, is_winner as wins_by, winners_of};

use arrayvec::ArrayVec;
use card_core::limits::PLAYERS;
use hand_rank::HandValue;

/// By position, whether the player wins the pot whose levels end at an amount: unfolded players who put
/// in at least as much compete for it, and the best hands among them win.
pub(crate) fn winners(
    spent: &[u32],
    folded: &[bool],
    values: &[HandValue],
    level: u32,
) -> ArrayVec<bool, PLAYERS>
    requires players { length spent.now ≤ 10 }
    requires folded { length folded.now ≡ length spent.now }
    requires values { length values.now ≡ length spent.now }
    ensures { result.items ≡ winners_of values.now (eligible spent.now folded.now level) }
{
    let mut winners: ArrayVec<bool, PLAYERS> = ArrayVec::new();
    for position in 0..spent.len() {
        winners.push(is_winner(spent, folded, values, level, position));
    }
    winners
}

/// Whether the player competes for the pot and no other who does has a better hand.
fn is_winner(
    spent: &[u32],
    folded: &[bool],
    values: &[HandValue],
    level: u32,
    position: usize,
) -> bool
    requires position { position < length spent.now }
    requires folded { length folded.now ≡ length spent.now }
    requires values { length values.now ≡ length spent.now }
    ensures { result ≡ wins_by values.now (eligible spent.now folded.now level) position }
{
    if !is_eligible(spent, folded, level, position) {
        return false;
    }
    for other in 0..spent.len() {
        if is_eligible(spent, folded, level, other) && values[other] > values[position] {
            return false;
        }
    }
    true
}

/// Whether the player is unfolded and put in at least so much.
#[tactic(auto, unfolding(crate::specs::Pots::is_eligible))]
fn is_eligible(spent: &[u32], folded: &[bool], level: u32, position: usize) -> bool
    requires position { position < length spent.now }
    requires folded { length folded.now ≡ length spent.now }
    ensures { result ≡ eligible spent.now folded.now level position }
{
    !folded[position] && spent[position] >= level
}
