use crate::asserting::{holds, same};
use crate::samples::card;
use card_core::{Card, Deal, are_distinct};
use std::process::Abort;

/// `TdAs|8hTc/2c8c3h/9c/Kh`.
fn heads_up(rt: &impl Abort) -> [Card; 9] {
    [
        card(rt, b"Td"),
        card(rt, b"As"),
        card(rt, b"8h"),
        card(rt, b"Tc"),
        card(rt, b"2c"),
        card(rt, b"8c"),
        card(rt, b"3h"),
        card(rt, b"9c"),
        card(rt, b"Kh"),
    ]
}

/// The deal of cards for two players.
fn dealt(rt: &impl Abort, cards: &[Card; 9]) -> Deal {
    Deal::new(2, cards).expect(rt, "a deal")
}

/// The same with the first two cards in the other order.
fn turned(rt: &impl Abort, cards: &[Card; 9]) -> Deal {
    let mut other_way = *cards;
    other_way[0] = cards[1];
    other_way[1] = cards[0];
    dealt(rt, &other_way)
}

/// Sees the hole cards of a position.
fn has_hole(rt: &impl Abort, deal: &Deal, position: usize, hole: &[Card]) {
    assert!(rt; position < deal.players());
    holds!(rt; deal.hole(position).as_slice() == hole);
}

/// Sees all that a position plays.
fn has_seven(rt: &impl Abort, deal: &Deal, position: usize, seven: &[Card]) {
    assert!(rt; position < deal.players());
    holds!(rt; deal.seven(position).as_slice() == seven);
}

/// Sees the board.
fn has_board(rt: &impl Abort, deal: &Deal, board: &[Card]) {
    holds!(rt; deal.board().as_slice() == board);
}

/// Sees the places of two players' cards.
fn lies_in_place(rt: &impl Abort, deal: &Deal, cards: &[Card]) {
    assert_eq!(rt; cards.len(), 9);
    has_hole(rt, deal, 0, &cards[..2]);
    has_hole(rt, deal, 1, &cards[2..4]);
    has_board(rt, deal, &cards[4..]);
    has_seven(rt, deal, 1, &cards[2..]);
}

/// Sees that a deal is the same as itself, and not as another.
fn is_itself_alone(rt: &impl Abort, deal: &Deal, other: &Deal) {
    holds!(rt; deal.is_same(deal));
    holds!(rt; !deal.is_same(other));
}

#[test]
fn a_deal_lies_at_its_places(rt: HostRuntime) {
    let cards = heads_up(&rt);
    let deal = dealt(&rt, &cards);
    same!(&rt; deal.players(), 2);
    holds!(&rt; deal.cards() == cards.as_slice());
    lies_in_place(&rt, &deal, &cards);
    holds!(&rt; are_distinct(&cards));
    is_itself_alone(&rt, &deal, &turned(&rt, &cards));
}
