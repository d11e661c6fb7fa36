ghost use Rattle.std.specs.Prelude.{◌≡◌, ℕ, ◌+◌, ◌<◌, ◌≤◌, ◌++◌, ◌∷◌, [], length, slice_get, Some, OnOk, IfSome, ◌↔◌, IsNone};
ghost use Rattle.dealer_world.specs.SharedRows.{text_of};

use crate::rows::Rows;
use std::alloc::{AllocError, Global};
use std::marker::Model;

/// Among so many of the last texts a row's bytes are looked for.
const LAST_TEXTS: usize = 8;

/// So many texts have a number.
const MOST_TEXTS: usize = 0x1_0000_0000;

/// A row's mark, and the number of its text.
#[derive(Clone, Copy, Drop)]
pub(crate) struct Numbered<T> {
    pub(crate) mark: T,
    pub(crate) text: u32,
}

/// Rows of bytes, each under a mark, of which many have the bytes of one shortly before: a node tells all others the
/// same. Such bytes are kept once. A row is found by its number at once.
///
/// Contracts see the rows in order, and for how many more rows and bytes there is room without further memory.
#[derive(Drop)]
pub(crate) struct SharedRows<T: Copy + Drop> {
    entries: Vec<Numbered<T>>,
    texts: Rows<()>,
}

impl<T: Copy + Drop> Model for SharedRows<T> {
    ghost use Rattle.std.specs.Prelude.{◌-◌, ◌^◌, ◌≤◌, min, length, vec_len, vec_capacity};
    ghost use Rattle.dealer_world.specs.Rows.{Kept};
    ghost use Rattle.dealer_world.specs.SharedRows.{rows_by, AreNumbered};

    ghost Value = { Kept T };

    ghost view = { λ s. record { rows = rows_by s.texts.rows s.entries.items; row_room = min (vec_capacity s.entries - vec_len s.entries) (min s.texts.row_room (2 ^ 32 - length s.texts.rows)); byte_room = s.texts.byte_room } };

    ghost invariant = { λ s. (length s.texts.rows ≤ 2 ^ 32) × AreNumbered (length s.texts.rows) s.entries.items };
}

impl<T: Copy + Drop> SharedRows<T> {
    /// No row. It takes no memory; what `reserve` takes comes from this allocator.
    pub(crate) fn new(alloc: Global) -> SharedRows<T>
        ensures { result.rows ≡ [] }
    {
        SharedRows {
            entries: Vec::new(alloc),
            texts: Rows::new(alloc),
        }
    }

    /// How many rows there are.
    pub(crate) fn len(&self) -> usize
        ensures { result ≡ length self.now.rows }
    {
        self.entries.len()
    }

    /// The row of this number, counted from 0, with its mark; `None` where there are no more.
    pub(crate) fn get(&self, number: usize) -> Option<(T, &[u8])>
        ensures found { IfSome result (λ row. slice_get self.now.rows number ≡ Some (record { mark = row.0; text = row.1.now })) }
        ensures none { IsNone result ↔ (length self.now.rows ≤ number) }
    {
        if number >= self.entries.len() {
            return None;
        }
        let entry = self.entries[number];
        let (_, text) = self.texts.get(entry.text as usize)?;
        Some((entry.mark, text))
    }

    /// Makes room for so many rows more, of so many bytes in all. An `Err` changes no row; it comes also where so many
    /// texts would have no number.
    pub(crate) fn reserve(&mut self, rows: usize, bytes: usize) -> Result<(), AllocError>
        ensures same { self.new.rows ≡ self.old.rows }
        ensures row_room { OnOk result (rows ≤ self.new.row_room) }
        ensures byte_room { OnOk result (bytes ≤ self.new.byte_room) }
    {
        if rows > MOST_TEXTS.saturating_sub(self.texts.len()) {
            return Err(AllocError);
        }
        self.entries.reserve(rows)?;
        self.texts.reserve(rows, bytes)
    }

    /// Puts a row behind the last, into room that was reserved for it.
    pub(crate) fn push_reserved(&mut self, mark: T, text: &[u8])
        requires row { 1 ≤ self.old.row_room }
        requires bytes { length text.now ≤ self.old.byte_room }
        ensures rows { self.new.rows ≡ self.old.rows ++ (record { mark = mark; text = text.now }) ∷ [] }
        ensures row_room { self.old.row_room ≤ self.new.row_room + 1 }
        ensures byte_room { self.old.byte_room ≤ self.new.byte_room + length text.now }
    {
        let number = put_text(&mut self.texts, text);
        self.entries.push_reserved(Numbered {
            mark,
            text: number as u32,
        });
    }
}

/// The number of these bytes among the texts. Where they aren't one of the last ones, they are put behind them, into
/// room that was reserved for them.
fn put_text(texts: &mut Rows<()>, text: &[u8]) -> usize
    requires row { 1 ≤ texts.old.row_room }
    requires bytes { length text.now ≤ texts.old.byte_room }
    ensures found { text_of texts.new.rows result ≡ text.now }
    ensures within { result < length texts.new.rows }
    ensures kept { (number : ℕ) → number < length texts.old.rows → text_of texts.new.rows number ≡ text_of texts.old.rows number }
    ensures least { length texts.old.rows ≤ length texts.new.rows }
    ensures most { length texts.new.rows ≤ length texts.old.rows + 1 }
    ensures row_room { texts.old.row_room ≤ texts.new.row_room + 1 }
    ensures byte_room { texts.old.byte_room ≤ texts.new.byte_room + length text.now }
{
    match number_of(texts, text) {
        Some(number) => number,
        None => {
            let number = texts.len();
            texts.push_reserved((), text);
            number
        }
    }
}

/// The number of these bytes among the last texts; `None` where they aren't there.
fn number_of(texts: &Rows<()>, text: &[u8]) -> Option<usize>
    ensures found { IfSome result (λ number. text_of texts.now.rows number ≡ text.now) }
    ensures within { IfSome result (λ number. number < length texts.now.rows) }
{
    let count = texts.len();
    for number in (count.saturating_sub(LAST_TEXTS)..count).rev() {
        if let Some((_, other)) = texts.get(number) {
            if other == text {
                return Some(number);
            }
        }
    }
    None
}
