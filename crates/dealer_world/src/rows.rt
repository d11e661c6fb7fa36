ghost use Rattle.std.specs.Prelude.{◌≡◌, ◌+◌, ◌≤◌, ◌<◌, ◌++◌, ◌∷◌, [], length, slice_get, Some, OnOk, OnErr, IfSome, IfNone, ◌↔◌, IsNone};
ghost use Rattle.dealer_world.specs.Rows.{start_of};

use matchstate::put;
use std::alloc::{AllocError, Global};
use std::marker::Model;

/// Where a row ends, and its mark.
#[derive(Clone, Copy, Drop)]
pub(crate) struct Entry<T> {
    pub(crate) mark: T,
    pub(crate) end: usize,
}

/// Rows of bytes, each under a mark, one behind another in one buffer: a row is found by its number at once.
///
/// Contracts see the rows in order, and for how many more rows and bytes there is room without further memory.
#[derive(Drop)]
pub(crate) struct Rows<T: Copy + Drop> {
    entries: Vec<Entry<T>>,
    bytes: Vec<u8>,
}

impl<T: Copy + Drop> Model for Rows<T> {
    ghost use Rattle.std.specs.Prelude.{◌-◌, vec_len, vec_capacity};
    ghost use Rattle.dealer_world.specs.Rows.{Kept, cut, AreEnds};

    ghost Value = { Kept T };

    ghost view = { λ r. record { rows = cut 0 r.entries.items r.bytes.items; row_room = vec_capacity r.entries - vec_len r.entries; byte_room = vec_capacity r.bytes - vec_len r.bytes } };

    ghost invariant = { λ r. AreEnds 0 r.entries.items (vec_len r.bytes) };
}

impl<T: Copy + Drop> Rows<T> {
    /// No row. It takes no memory; what `reserve` takes comes from this allocator.
    pub(crate) fn new(alloc: Global) -> Rows<T>
        ensures { result.rows ≡ [] }
    {
        Rows {
            entries: Vec::new(alloc),
            bytes: Vec::new(alloc),
        }
    }

    /// How many rows there are.
    pub(crate) fn len(&self) -> usize
        ensures { result ≡ length self.now.rows }
    {
        self.entries.len()
    }

    /// The row of this number, counted from 0, with its mark; `None` where there are no more.
    pub(crate) fn get(&self, number: usize) -> Option<(T, &[u8])>
        ensures found { IfSome result (λ row. slice_get self.now.rows number ≡ Some (record { mark = row.0; text = row.1.now })) }
        ensures none { IsNone result ↔ (length self.now.rows ≤ number) }
    {
        if number >= self.entries.len() {
            return None;
        }
        let entry = self.entries[number];
        let from = start(&self.entries, number);
        Some((entry.mark, &self.bytes[from..entry.end]))
    }

    /// Makes room for so many rows more, of so many bytes in all. An `Err` changes no row.
    pub(crate) fn reserve(&mut self, rows: usize, bytes: usize) -> Result<(), AllocError>
        ensures same { self.new.rows ≡ self.old.rows }
        ensures row_room { OnOk result (rows ≤ self.new.row_room) }
        ensures byte_room { OnOk result (bytes ≤ self.new.byte_room) }
    {
        self.entries.reserve(rows)?;
        self.bytes.reserve(bytes)
    }

    /// Puts a row behind the last, into room that was reserved for it.
    pub(crate) fn push_reserved(&mut self, mark: T, text: &[u8])
        requires row { 1 ≤ self.old.row_room }
        requires bytes { length text.now ≤ self.old.byte_room }
        ensures rows { self.new.rows ≡ self.old.rows ++ (record { mark = mark; text = text.now }) ∷ [] }
        ensures row_room { self.old.row_room ≤ self.new.row_room + 1 }
        ensures byte_room { self.old.byte_room ≤ self.new.byte_room + length text.now }
    {
        put(&mut self.bytes, text);
        self.entries.push_reserved(Entry {
            mark,
            end: self.bytes.len(),
        });
    }
}

/// The byte at which a row begins: where the row before it ends.
fn start<T: Copy + Drop>(entries: &[Entry<T>], number: usize) -> usize
    requires { number < length entries.now }
    ensures { result ≡ start_of 0 entries.now number }
{
    match number.checked_sub(1) {
        Some(before) => entries[before].end,
        None => 0,
    }
}
