//! The digest of where a node's deals come from.

ghost use Rattle.std.specs.Prelude.{◌≡◌, ◌++◌, ◌∷◌, [], ◌≤◌, take, map, codes, decimal, IfOk, OnOk};
ghost use Rattle.std.specs.List.{flat_map, join_by};
ghost use Rattle.sha2.specs.Sha256.{sha256};
ghost use Rattle.card_core.specs.Deal.{player_count, hole_of};
ghost use Rattle.matchstate.specs.Cards.{cards_text, holes_of, board_text, boards_of, deal_text};
ghost use Rattle.match_log.specs.Lines.{bar_before};
ghost use Rattle.match_file.specs.SourceTexts.{deal_line, source_text};

use card_core::{Card, Deal};
use dealer_kind::Source;
use itoa::Buffer;
use sha2::{Digest, Sha256};
use std::alloc::{AllocError, Global};

/// The digest of a source: SHA-256 of its text, which is the same however a match file spells it.
pub fn source_digest(alloc: Global, source: &Source) -> Result<[u8; 32], AllocError>
    ensures { IfOk result (λ digest. digest ≡ sha256 (source_text source.now)) }
{
    let text = source_text(alloc, source)?;
    Ok(Sha256::digest(text.as_slice()))
}

/// What is digested of a source: `seed` and its number on a line, or a line `deals` and each deal's text on a line.
fn source_text(alloc: Global, source: &Source) -> Result<Vec<u8>, AllocError>
    ensures { IfOk result (λ text. text.items ≡ source_text source.now) }
{
    let mut text = Vec::new(alloc);
    match source {
        Source::Seed(seed) => {
            text.extend_from_slice(b"seed ")?;
            text.extend_from_slice(Buffer::new().format(*seed).as_bytes())?;
            text.extend_from_slice(b"\n")?;
        }
        Source::Listed(deals) => {
            text.extend_from_slice(b"deals\n")?;
            put_deals(&mut text, deals)?;
        }
    }
    Ok(text)
}

/// Appends the texts of deals, each on a line.
fn put_deals(text: &mut Vec<u8>, deals: &[Deal]) -> Result<(), AllocError>
    ensures { OnOk result (text.new.items ≡ text.old.items ++ flat_map deal_line deals.now) }
{
    for deal in deals {
        put_deal(text, deal)?;
    }
    Ok(())
}

/// Appends the text of a deal and a line feed.
fn put_deal(text: &mut Vec<u8>, deal: &Deal) -> Result<(), AllocError>
    ensures { OnOk result (text.new.items ≡ text.old.items ++ deal_line deal.now) }
{
    put_holes(text, deal)?;
    put_board(text, deal)?;
    text.extend_from_slice(b"\n")
}

/// Appends the hole cards by position, with `|` between them.
fn put_holes(text: &mut Vec<u8>, deal: &Deal) -> Result<(), AllocError>
    ensures { OnOk result (text.new.items ≡ text.old.items ++ join_by cards_text (124 ∷ []) (holes_of (player_count deal.now) deal.now)) }
{
    for position in 0..deal.players() {
        put_bar(text, position)?;
        put_cards(text, &deal.hole(position))?;
    }
    Ok(())
}

/// Appends the `|` in front of all pieces but the first.
fn put_bar(text: &mut Vec<u8>, place: usize) -> Result<(), AllocError>
    ensures { OnOk result (text.new.items ≡ text.old.items ++ bar_before place) }
{
    if place > 0 {
        text.extend_from_slice(b"|")?;
    }
    Ok(())
}

/// Appends the board by rounds, each behind `/`.
fn put_board(text: &mut Vec<u8>, deal: &Deal) -> Result<(), AllocError>
    ensures { OnOk result (text.new.items ≡ text.old.items ++ board_text (boards_of deal.now)) }
{
    let board = deal.board();
    let (flop, later) = board.split_at(3);
    let (turn, river) = later.split_at(1);
    put_round(text, flop)?;
    put_round(text, turn)?;
    put_round(text, river)
}

/// Appends `/` and the cards of a round.
fn put_round(text: &mut Vec<u8>, cards: &[Card]) -> Result<(), AllocError>
    ensures { OnOk result (text.new.items ≡ text.old.items ++ (47 ∷ cards_text cards.now)) }
{
    text.extend_from_slice(b"/")?;
    put_cards(text, cards)
}

/// Appends cards by their two letters each.
fn put_cards(text: &mut Vec<u8>, cards: &[Card]) -> Result<(), AllocError>
    ensures { OnOk result (text.new.items ≡ text.old.items ++ cards_text cards.now) }
{
    for card in cards {
        text.extend_from_slice(&card.text())?;
    }
    Ok(())
}
