ghost use Rattle.std.specs.Prelude.{◌≡◌, ◌≤◌, length, vec_capacity, IfOk, IsOk};

use crate::limits::LINE;
use std::alloc::{AllocError, Global};

/// The room of a line.
#[derive(Drop)]
pub(crate) struct Blank {
    text: Vec<u8>,
    ghost room: { 4096 ≤ vec_capacity text },
}

impl Blank {
    /// Makes the room of a line.
    pub(crate) fn new(alloc: Global) -> Result<Blank, AllocError> {
        Ok(Blank {
            text: Vec::with_capacity(alloc, LINE)?,
        })
    }

    /// These bytes in this room. It takes no memory for a line of a match.
    pub(crate) fn filled(self, line: &[u8]) -> Result<Vec<u8>, AllocError>
        ensures filled { IfOk result (λ text. text.items ≡ line.now) }
        ensures ample { length line.now ≤ 4096 → IsOk result }
    {
        let Blank { mut text } = self;
        text.clear();
        text.extend_from_slice(line)?;
        Ok(text)
    }
}
