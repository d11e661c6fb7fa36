ghost use Rattle.std.specs.Iterator.{YieldsFirstBy, item_count};

use crate::texts::Run;
use std::marker::Model;

/// Texts, each with a mark, that are read in order.
///
/// Contracts see those that are left.
#[derive(Drop)]
pub struct Reading<'a, T: Copy + Drop> {
    pub(crate) runs: &'a [Run<T>],
    pub(crate) bytes: &'a [u8],
}

impl<'a, T: Copy + Drop> Model for Reading<'a, T> {
    ghost use Rattle.std.specs.Prelude.{◌≡◌, List, length};
    ghost use Rattle.dealer_node.specs.Texts.{Marked, cut, run_total};

    ghost Value = { List (Marked T) };

    ghost view = { λ r. cut r.runs.now r.bytes.now };

    ghost invariant = { λ r. run_total r.runs.now ≡ length r.bytes.now };
}

impl<'a, T: Copy + Drop> Iterator for Reading<'a, T> {
    ghost use Rattle.dealer_node.specs.Texts.{Marked};

    type Item = (T, &'a [u8]);

    ghost next_gives = { YieldsFirstBy (λ item. record { mark = item.0; text = item.1.now }) (λ left. left) };

    ghost remaining = { item_count (λ left. left) };

    fn next(&mut self) -> Option<(T, &'a [u8])> {
        let (run, runs) = self.runs.split_first()?;
        let (text, bytes) = self.bytes.split_at(run.len);
        self.runs = runs;
        self.bytes = bytes;
        Some((run.mark, text))
    }
}
