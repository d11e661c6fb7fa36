//! Games as they are read, cards, and deals that tests of several crates are about.

use card_core::{Card, Deal};
use game_def::GameDef;
use matchstate::read_deal;
use std::process::Abort;

/// The game that a file's text describes.
pub(crate) fn game(rt: &impl Abort, text: &[u8]) -> GameDef {
    game_def::read(text).expect(rt, "a game")
}

/// The card of a rank and a suit, as the protocol writes it.
pub(crate) fn card(rt: &impl Abort, text: &[u8; 2]) -> Card {
    Card::from_text(*text).expect(rt, "a card")
}

/// A ten and an ace for the first seat, an eight and a ten for the second.
pub(crate) fn ten_ace(rt: &impl Abort) -> Deal {
    read_deal(b"TdAs|8hTc/2c8c3h/9c/Kh", 2).expect(rt, "a deal of two players")
}
