use crate::limits::KEY_BYTES;

/// The key that all nodes of a match share and nobody else knows: drawn bytes, never a word. It has no `Debug`, so that no
/// message shows it by mistake.
#[derive(Clone, Copy)]
pub struct Key {
    pub bytes: [u8; KEY_BYTES],
}
