ghost use Rattle.std.specs.Prelude.{◌≡◌, ◌≤◌, length, MatchOption};
ghost use Rattle.side_pots.specs.Amounts.{IsNextAmount, IsLastAmount, lesser, chips_between as chips_of_all};

/// The least amount above `below` that an unfolded player put in, if there is one.
pub(crate) fn next_amount(spent: &[u32], folded: &[bool], below: u32) -> Option<u32>
    requires { length folded.now ≡ length spent.now }
    ensures { MatchOption result
        (IsLastAmount spent.now folded.now below)
        (λ amount. IsNextAmount spent.now folded.now below amount) }
{
    let mut next = None;
    for position in 0..spent.len() {
        let amount = spent[position];
        if !folded[position] && amount > below {
            next = Some(least(next, amount));
        }
    }
    next
}

/// The lesser of an amount found before, if any, and another.
fn least(found: Option<u32>, amount: u32) -> u32
    ensures { result ≡ lesser found amount }
{
    match found {
        Some(lower) if lower < amount => lower,
        _ => amount,
    }
}

/// The chips of all players above `below`, up to `top`.
pub(crate) fn chips_between(spent: &[u32], below: u32, top: u32) -> u64
    requires order { below ≤ top }
    requires players { length spent.now ≤ 10 }
    ensures { result ≡ chips_of_all spent.now below top }
{
    let mut chips = 0;
    for amount in spent {
        chips += u64::from((*amount).min(top) - (*amount).min(below));
    }
    chips
}
