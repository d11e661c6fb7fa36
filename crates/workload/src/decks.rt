use crate::verdicts::Verdicts;
use card_core::{Card, Deal};
use deck_draw::draw;
use std::alloc::{AllocError, Global};
use std::io;

/// What a line says: a seed, the number of a hand, how many players there are, and the text of a deal.
#[derive(Clone, Copy)]
struct Line<'a> {
    seed: u64,
    hand: u32,
    players: usize,
    deal: &'a str,
}

/// Reads lines `seed hand players deal` and prints for how many of them the drawn deal is the one that stands there.
pub fn print_checked(rt: &(impl Input + Print + AllocGlobal)) -> io::Result<()> {
    let mut verdicts = Verdicts::none();
    for line in rt.lines(rt.alloc()) {
        verdicts.count(is_drawn(rt.alloc(), line?.as_str())?);
    }
    verdicts.print(rt, "decks")
}

/// Whether a line's deal is the one that is drawn.
fn is_drawn(alloc: Global, line: &str) -> Result<bool, AllocError> {
    let Some(line) = Line::read(line) else {
        return Ok(false);
    };
    if !(2..=10).contains(&line.players) {
        return Ok(false);
    }
    is_text_of(alloc, &draw(line.seed, line.hand, line.players), line.deal)
}

/// Whether a text is that of a deal.
fn is_text_of(alloc: Global, deal: &Deal, text: &str) -> Result<bool, AllocError> {
    let mut written = Vec::new(alloc);
    put_deal(&mut written, deal)?;
    Ok(written.as_slice() == text.as_bytes())
}

impl<'a> Line<'a> {
    /// What a line says; none where it has another form.
    fn read(line: &'a str) -> Option<Line<'a>> {
        let (seed, behind) = line.split_once(' ')?;
        let (hand, behind) = behind.split_once(' ')?;
        let (players, deal) = behind.split_once(' ')?;
        Some(Line {
            seed: seed.parse().ok()?,
            hand: hand.parse().ok()?,
            players: players.parse().ok()?,
            deal: deal.split(' ').next()?,
        })
    }
}

/// Puts a deal's cards: the hole cards joined by `|`, and `/` before the flop, the turn and the river.
fn put_deal(text: &mut Vec<u8>, deal: &Deal) -> Result<(), AllocError> {
    for position in 0..deal.players() {
        if position > 0 {
            text.push(b'|')?;
        }
        put_cards(text, &deal.hole(position))?;
    }
    let [first, second, third, turn, river] = deal.board();
    put_round(text, &[first, second, third])?;
    put_round(text, &[turn])?;
    put_round(text, &[river])
}

/// Puts the cards of a round behind a `/`.
fn put_round(text: &mut Vec<u8>, cards: &[Card]) -> Result<(), AllocError> {
    text.push(b'/')?;
    put_cards(text, cards)
}

/// Puts the letters of cards.
fn put_cards(text: &mut Vec<u8>, cards: &[Card]) -> Result<(), AllocError> {
    for card in cards {
        text.extend_from_slice(&card.text())?;
    }
    Ok(())
}
