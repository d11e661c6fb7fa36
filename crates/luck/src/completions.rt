ghost use Rattle.std.specs.Prelude.{◌≡◌, ◌+◌, ◌-◌, ◌*◌, ◌++◌, ◌∷◌, [], ◌≤◌, map, length, nat_eq};
ghost use Rattle.std.specs.List.{IsDistinct};
ghost use Rattle.match_log.specs.BestFive.{choices};
ghost use Rattle.luck.specs.CardList.{cards_of};
ghost use Rattle.luck.specs.Sums.{AddsPaid};

use crate::card_list::CardList;
use crate::stakes::Stakes;
use crate::sums::Sums;
use card_core::{Card, Deal};

/// Adds what is paid over all deals that begin with the known cards and go on with as many of the others as are missing.
pub(crate) fn add_completions(sums: &mut Sums, stakes: &Stakes, known: CardList, others: &[Card])
    requires known { length (cards_of known) ≤ 2 * length stakes.now.spent + 5 }
    requires distinct { IsDistinct nat_eq (cards_of known ++ others.now) }
    requires few { sums.old.deals + length (choices (2 * length stakes.now.spent + 5 - length (cards_of known)) others.now) ≤ 10000 }
    ensures { AddsPaid stakes.now.spent stakes.now.folded (map (λ more. cards_of known ++ more) (choices (2 * length stakes.now.spent + 5 - length (cards_of known)) others.now)) sums.old sums.new }
{
    let players = stakes.players();
    if known.as_slice().len() == 2 * players + 5 {
        add_deal(sums, stakes, &known);
        return;
    }
    match others {
        [] => {}
        [first, rest @ ..] => {
            add_completions(sums, stakes, known.with(*first), rest);
            add_completions(sums, stakes, known, rest);
        }
    }
}

/// Adds what is paid if these cards are the deal.
pub(crate) fn add_deal(sums: &mut Sums, stakes: &Stakes, cards: &CardList)
    requires whole { length (cards_of cards.now) ≡ 2 * length stakes.now.spent + 5 }
    requires distinct { IsDistinct nat_eq (cards_of cards.now) }
    requires few { sums.old.deals + 1 ≤ 10000 }
    ensures { AddsPaid stakes.now.spent stakes.now.folded (cards_of cards.now ∷ []) sums.old sums.new }
{
    let deal = Deal::new(stakes.players(), cards.as_slice()).unwrap();
    sums.add(stakes.pay(&deal).as_slice());
}
