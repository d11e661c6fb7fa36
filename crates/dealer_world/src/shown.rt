ghost use Rattle.std.specs.Prelude.{◌≡◌, ◌+◌, ◌≤◌, ◌++◌, ◌∷◌, [], length, slice_get, Some, OnOk, IfSome, IsNone, ◌↔◌};
ghost use Rattle.dealer_world.specs.KeptShown.{piece_by};

use crate::rows::Rows;
use dealer_node::Reader;
use std::alloc::{AllocError, Global};
use std::marker::Model;

/// Which start of which node showed a piece, and to whom.
#[derive(Clone, Copy, Drop)]
pub(crate) struct Label {
    pub(crate) node: u8,
    pub(crate) start: usize,
    pub(crate) reader: Reader,
}

/// What a node showed within a start: a line of a seat, without its line end, or what it added to its log. Nodes,
/// their starts and seats are counted from 0.
#[derive(Clone, Copy, Debug)]
pub struct Piece<'a> {
    pub node: u8,
    pub start: usize,
    pub reader: Reader,
    pub text: &'a [u8],
}

/// All that was shown, in order, in one buffer.
///
/// The rows that it is kept in stay private, as does their mark: so what it does is what they do, said of pieces.
#[derive(Drop)]
pub struct Shown {
    rows: Rows<Label>,
}

impl Model for Shown {
    ghost use Rattle.dealer_world.specs.KeptShown.{Kept, pieces_of};

    ghost Value = { Kept };

    ghost view = { λ p. record { pieces = pieces_of p.rows.rows; piece_room = p.rows.row_room; byte_room = p.rows.byte_room } };
}

impl Shown {
    /// Nothing. It takes no memory; what `reserve` takes comes from this allocator.
    pub fn new(alloc: Global) -> Shown
        ensures { result.pieces ≡ [] }
    {
        Shown {
            rows: Rows::new(alloc),
        }
    }

    /// How many there are.
    pub fn len(&self) -> usize
        ensures { result ≡ length self.now.pieces }
    {
        self.rows.len()
    }

    /// The piece of this number, counted from 0; `None` where there are no more.
    pub fn get(&self, number: usize) -> Option<Piece<'_>>
        ensures found { IfSome result (λ piece. slice_get self.now.pieces number ≡ Some (piece_by piece.node piece.start piece.reader piece.text.now)) }
        ensures none { IsNone result ↔ (length self.now.pieces ≤ number) }
    {
        match self.rows.get(number) {
            Some((label, text)) => Some(Piece {
                node: label.node,
                start: label.start,
                reader: label.reader,
                text,
            }),
            None => None,
        }
    }

    /// Makes room for so many pieces more, of so many bytes in all. An `Err` changes no piece.
    pub fn reserve(&mut self, pieces: usize, bytes: usize) -> Result<(), AllocError>
        ensures same { self.new.pieces ≡ self.old.pieces }
        ensures piece_room { OnOk result (pieces ≤ self.new.piece_room) }
        ensures byte_room { OnOk result (bytes ≤ self.new.byte_room) }
    {
        self.rows.reserve(pieces, bytes)
    }

    /// Puts a piece behind the last, into room that was reserved for it.
    pub fn push_reserved(&mut self, node: u8, start: usize, reader: Reader, text: &[u8])
        requires piece { 1 ≤ self.old.piece_room }
        requires bytes { length text.now ≤ self.old.byte_room }
        ensures pieces { self.new.pieces ≡ self.old.pieces ++ piece_by node start reader text.now ∷ [] }
        ensures piece_room { self.old.piece_room ≤ self.new.piece_room + 1 }
        ensures byte_room { self.old.byte_room ≤ self.new.byte_room + length text.now }
    {
        self.rows.push_reserved(
            Label {
                node,
                start,
                reader,
            },
            text,
        );
    }
}
