use crate::asserting::same;
use card_core::{Card, are_distinct};
use hand_rank::{HandValue, best_of_all_fives, best_of_seven};
use std::process::Abort;

/// The card of a number.
fn numbered(rt: &impl Abort, number: u8) -> Card {
    assert!(rt; number < 52);
    Card::from_number(number)
}

/// Seven cards by their numbers.
fn seven(rt: &impl Abort, numbers: &[u8; 7]) -> [Card; 7] {
    let [a, b, c, d, e, f, g] = *numbers;
    [
        numbered(rt, a),
        numbered(rt, b),
        numbered(rt, c),
        numbered(rt, d),
        numbered(rt, e),
        numbered(rt, f),
        numbered(rt, g),
    ]
}

/// The value of the best five of seven cards, as both bodies find it.
fn best(rt: &impl Abort, cards: &[Card; 7]) -> HandValue {
    assert!(rt; are_distinct(cards));
    let value = best_of_seven(cards);
    same!(rt; value, best_of_all_fives(cards));
    value
}

/// Seven cards by their numbers, and the category and ranks of their best five.
static BEST: [([u8; 7], u8, [u8; 5]); 5] = [
    // three pairs: Ac Ad Kc Kd Qc Qd 2s
    ([48, 49, 44, 45, 40, 41, 3], 2, [12, 12, 11, 11, 10]),
    // a wheel: Ac 2d 3h 4s 5c Kd Qs
    ([48, 1, 6, 11, 12, 45, 43], 4, [3, 0, 0, 0, 0]),
    // two triples: Ac Ad Ah Kc Kd Kh 2s
    ([48, 49, 50, 44, 45, 46, 3], 6, [12, 12, 12, 11, 11]),
    // six in a row: 3c 4d 5h 6s 7c 8d Ac
    ([4, 9, 14, 19, 20, 25, 48], 4, [6, 0, 0, 0, 0]),
    // 2h 4h 6h 7h 9h 8s Tc: a flush of hearts beside the straight up to the ten
    ([2, 10, 18, 22, 30, 27, 32], 5, [7, 5, 4, 2, 0]),
];

/// Sees the category and the ranks of a value.
fn is_value(rt: &impl Abort, value: HandValue, category: u8, ranks: &[u8; 5]) {
    same!(rt; value.category(), category);
    same!(rt; value.ranks(), *ranks);
}

#[test]
fn best_of_seven_cards(rt: HostRuntime) {
    for (numbers, category, ranks) in &BEST {
        let found = best(&rt, &seven(&rt, numbers));
        is_value(&rt, found, *category, ranks);
    }
}
