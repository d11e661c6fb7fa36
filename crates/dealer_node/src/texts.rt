ghost use Rattle.std.specs.Prelude.{◌≡◌, ℕ, ◌+◌, ◌≤◌, ◌<◌, ◌++◌, ◌∷◌, [], length, vec_len, vec_capacity, OnOk};
ghost use Rattle.dealer_node.specs.Texts.{byte_total};

use crate::reading::Reading;
use std::alloc::{AllocError, Global};
use std::marker::Model;

/// So many bytes under one mark.
#[derive(Clone, Copy, Drop)]
pub(crate) struct Run<T> {
    pub(crate) mark: T,
    pub(crate) len: usize,
}

/// Texts, each with a mark, one behind another in one row of bytes.
///
/// Contracts see the texts in order, and for how many more texts and bytes there is room without further memory.
#[derive(Drop)]
pub(crate) struct Texts<T: Copy + Drop> {
    pub(crate) runs: Vec<Run<T>>,
    pub(crate) bytes: Vec<u8>,
}

impl<T: Copy + Drop> Model for Texts<T> {
    ghost use Rattle.std.specs.Prelude.{◌≡◌, ◌-◌, vec_len, vec_capacity};
    ghost use Rattle.dealer_node.specs.Texts.{Written, cut, run_total};

    ghost Value = { Written T };

    ghost view = { λ t. record { texts = cut t.runs.items t.bytes.items; text_room = vec_capacity t.runs - vec_len t.runs; byte_room = vec_capacity t.bytes - vec_len t.bytes } };

    ghost invariant = { λ t. run_total t.runs.items ≡ vec_len t.bytes };
}

impl<T: Copy + Drop> Texts<T> {
    /// No text. It takes no memory; what `reserve` takes comes from this allocator.
    pub(crate) fn new(alloc: Global) -> Texts<T>
        ensures { result.texts ≡ [] }
    {
        Texts {
            runs: Vec::new(alloc),
            bytes: Vec::new(alloc),
        }
    }

    /// The texts from the first on.
    pub(crate) fn reading(&self) -> Reading<'_, T>
        ensures { result ≡ self.now.texts }
    {
        Reading {
            runs: &self.runs,
            bytes: &self.bytes,
        }
    }

    /// Takes all texts out. What room there was stays.
    pub(crate) fn clear(&mut self)
        ensures { self.new.texts ≡ [] }
    {
        self.runs.clear();
        self.bytes.clear();
    }

    /// Makes room for so many texts more, of so many bytes in all. An `Err` changes no text.
    pub(crate) fn reserve(&mut self, texts: usize, bytes: usize) -> Result<(), AllocError>
        ensures same { self.new.texts ≡ self.old.texts }
        ensures text_room { OnOk result (texts ≤ self.new.text_room) }
        ensures byte_room { OnOk result (bytes ≤ self.new.byte_room) }
    {
        self.runs.reserve(texts)?;
        self.bytes.reserve(bytes)
    }

    /// Moves all texts of another behind those that are here, into room that was reserved for them.
    pub(crate) fn append(&mut self, other: &mut Texts<T>)
        requires texts { length other.old.texts ≤ self.old.text_room }
        requires bytes { byte_total other.old.texts ≤ self.old.byte_room }
        ensures texts { self.new.texts ≡ self.old.texts ++ other.old.texts }
    {
        append_reserved(&mut self.runs, &mut other.runs);
        append_reserved(&mut self.bytes, &mut other.bytes);
    }
}

/// Moves all items of another vector behind those that are here, into room that was reserved for them.
pub(crate) fn append_reserved<T: Drop>(items: &mut Vec<T>, more: &mut Vec<T>)
    requires { vec_len items.old + vec_len more.old ≤ vec_capacity items.old }
    ensures items { items.new.items ≡ items.old.items ++ more.old.items }
    ensures none { more.new.items ≡ [] }
    ensures len { vec_len items.new ≡ vec_len items.old + vec_len more.old }
    ensures none_len { vec_len more.new ≡ 0 }
{
    match items.append(more) {
        Ok(()) => {}
        Err(_) => unreachable!(),
    }
}
